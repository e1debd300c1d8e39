//! The element operation on one cell, as a number or missing.
ghost use Rattle.std.specs.Prelude.{◌≡◌, ◌≢◌, ◌-ℤ◌, ◌*ℤ◌, ◌≤ℤ◌, pos, negsuc, bit_and, bit_or, bit_xor, ℤ, Option, Some, None};
ghost use Rattle.xr_types.specs.Kinds.{InRange, wrap_to};
ghost use Rattle.xr_types.specs.declared.kind.DType.TheVariants as kinds;
ghost use Rattle.xr_arrays.specs.Arrays.{IsCell};
ghost use Rattle.xr_arrays.specs.Elements.{elem, floor_quotient, bitwise, cast_to};
ghost use Rattle.xr_types.specs.declared.operation.OpKind.TheVariants as ops;
ghost use Rattle.elem_kernel.specs.Conditions.{IsArithmetic, IsBitwise, IsComparison, IsOnIntegers, IsPlain};

use crate::division::{floor, rest};
use crate::number::wrapped_product;
use xr_types::{DType, OpKind, wrap};

fn and_bits(of: DType, m: i128, n: i128) -> i128
    requires { InRange of m × InRange of n }
    ensures { result ≡ bitwise bit_and of m n }
{
    match of {
        DType::Bool | DType::Char | DType::UInt8 => i128::from(m as u8 & n as u8),
        DType::Int8 => i128::from(m as i8 & n as i8),
        DType::Int16 => i128::from(m as i16 & n as i16),
        DType::Int32 => i128::from(m as i32 & n as i32),
        DType::Int64 => i128::from(m as i64 & n as i64),
        DType::UInt16 => i128::from(m as u16 & n as u16),
        DType::UInt32 => i128::from(m as u32 & n as u32),
        DType::UInt64 => i128::from(m as u64 & n as u64),
    }
}

fn or_bits(of: DType, m: i128, n: i128) -> i128
    requires { InRange of m × InRange of n }
    ensures { result ≡ bitwise bit_or of m n }
{
    match of {
        DType::Bool | DType::Char | DType::UInt8 => i128::from(m as u8 | n as u8),
        DType::Int8 => i128::from(m as i8 | n as i8),
        DType::Int16 => i128::from(m as i16 | n as i16),
        DType::Int32 => i128::from(m as i32 | n as i32),
        DType::Int64 => i128::from(m as i64 | n as i64),
        DType::UInt16 => i128::from(m as u16 | n as u16),
        DType::UInt32 => i128::from(m as u32 | n as u32),
        DType::UInt64 => i128::from(m as u64 | n as u64),
    }
}

fn xor_bits(of: DType, m: i128, n: i128) -> i128
    requires { InRange of m × InRange of n }
    ensures { result ≡ bitwise bit_xor of m n }
{
    match of {
        DType::Bool | DType::Char | DType::UInt8 => i128::from(m as u8 ^ n as u8),
        DType::Int8 => i128::from(m as i8 ^ n as i8),
        DType::Int16 => i128::from(m as i16 ^ n as i16),
        DType::Int32 => i128::from(m as i32 ^ n as i32),
        DType::Int64 => i128::from(m as i64 ^ n as i64),
        DType::UInt16 => i128::from(m as u16 ^ n as u16),
        DType::UInt32 => i128::from(m as u32 ^ n as u32),
        DType::UInt64 => i128::from(m as u64 ^ n as u64),
    }
}

#[tactic(auto, using(crate::proofs::Bounds::kind_bounds))]
fn quotient(of: DType, m: i128, n: i128) -> i128
    requires kind { of ≢ kinds.Bool }
    requires range { InRange of m × InRange of n }
    ensures { Some result ≡ elem ops.FloorDivide of (Some m) (Some n) }
{
    if n == 0 { 0 } else { wrap(of, floor(m, n)) }
}

#[tactic(auto, using(crate::proofs::Bounds::kind_bounds))]
fn remainder(of: DType, m: i128, n: i128) -> i128
    requires { InRange of m × InRange of n }
    ensures { Some result ≡ elem ops.Remainder of (Some m) (Some n) }
{
    if n == 0 { 0 } else { rest(m, n) }
}

#[tactic(auto, using(crate::proofs::Bounds::kind_bounds))]
fn multiplied(of: DType, m: i128, n: i128) -> i128
    requires kind { of ≢ kinds.Bool }
    requires range { InRange of m × InRange of n }
    ensures { Some result ≡ elem ops.Multiply of (Some m) (Some n) }
{
    wrap(of, wrapped_product(m, n))
}

#[tactic(auto, using(crate::proofs::Bounds::kind_bounds))]
fn calculated(op: OpKind, of: DType, m: i128, n: i128) -> i128
    requires op { IsArithmetic op }
    requires kind { of ≢ kinds.Bool }
    requires range { InRange of m × InRange of n }
    ensures { Some result ≡ elem op of (Some m) (Some n) }
{
    match op {
        OpKind::Add => wrap(of, m + n),
        OpKind::Subtract => wrap(of, m - n),
        OpKind::Multiply => multiplied(of, m, n),
        OpKind::FloorDivide => quotient(of, m, n),
        OpKind::Remainder => remainder(of, m, n),
        _ => unreachable!(),
    }
}

fn compared(op: OpKind, of: DType, m: i128, n: i128) -> i128
    requires { IsComparison op }
    ensures { Some result ≡ elem op of (Some m) (Some n) }
{
    i128::from(match op {
        OpKind::Equal => m == n,
        OpKind::NotEqual => m != n,
        OpKind::Less => m < n,
        OpKind::LessEqual => m <= n,
        OpKind::Greater => m > n,
        OpKind::GreaterEqual => m >= n,
        _ => unreachable!(),
    })
}

fn cast_number(to: DType, n: i128) -> i128
    ensures { result ≡ cast_to to n }
{
    match to {
        DType::Bool => i128::from(n != 0),
        DType::Char
        | DType::Int8
        | DType::Int16
        | DType::Int32
        | DType::Int64
        | DType::UInt8
        | DType::UInt16
        | DType::UInt32
        | DType::UInt64 => wrap(to, n),
    }
}

fn inverted(of: DType, n: i128) -> i128
    requires { InRange of n }
    ensures { result ≡ wrap_to of (negsuc 0 -ℤ n) }
{
    match of {
        DType::Bool => i128::from(n == 0),
        DType::Char
        | DType::Int8
        | DType::Int16
        | DType::Int32
        | DType::Int64
        | DType::UInt8
        | DType::UInt16
        | DType::UInt32
        | DType::UInt64 => wrap(of, -1 - n),
    }
}

// The operation on two numbers.
fn two_numbers(op: OpKind, of: DType, m: i128, n: i128) -> i128
    requires op { IsPlain op }
    requires kind { IsOnIntegers op → of ≢ kinds.Bool }
    requires range { InRange of m × InRange of n }
    ensures { Some result ≡ elem op of (Some m) (Some n) }
{
    match op {
        OpKind::And => and_bits(of, m, n),
        OpKind::Or => or_bits(of, m, n),
        OpKind::Xor => xor_bits(of, m, n),
        OpKind::Add
        | OpKind::Subtract
        | OpKind::Multiply
        | OpKind::FloorDivide
        | OpKind::Remainder => calculated(op, of, m, n),
        _ => compared(op, of, m, n),
    }
}

// The negated number.
#[tactic(auto, using(crate::proofs::Bounds::kind_bounds))]
fn negated(of: DType, n: i128) -> i128
    requires kind { of ≢ kinds.Bool }
    requires range { InRange of n }
    ensures { Some result ≡ elem ops.Negate of (Some n) None }
{
    wrap(of, -n)
}

/// The operation on cells of the kind `of`, `None` being a missing one. An operation of one operand doesn't look at `y`; for a cast `of` is the kind to which it casts.
pub fn one_cell(op: OpKind, of: DType, x: Option<i128>, y: Option<i128>) -> Option<i128>
    requires op { op ≢ ops.Divide }
    requires kind { IsOnIntegers op → of ≢ kinds.Bool }
    requires range { op ≢ ops.Cast → IsCell of x × IsCell of y }
    ensures { result ≡ elem op of x y }
{
    match op {
        OpKind::IsNull => Some(i128::from(x.is_none())),
        OpKind::NotNull => Some(i128::from(x.is_some())),
        OpKind::FillNa => match x {
            Some(m) => Some(m),
            None => y,
        },
        OpKind::Cast => match x {
            Some(m) => Some(cast_number(of, m)),
            None => None,
        },
        OpKind::Negate => match x {
            Some(m) => Some(negated(of, m)),
            None => None,
        },
        OpKind::Invert => match x {
            Some(m) => Some(inverted(of, m)),
            None => None,
        },
        _ => match x {
            Some(m) => match y {
                Some(n) => Some(two_numbers(op, of, m, n)),
                None => None,
            },
            None => None,
        },
    }
}
