//! The operations on the numbers of cells.
ghost use Rattle.std.specs.Prelude.{◌≡◌, ◌<◌, ◌*ℤ◌, ◌≤ℤ◌, Some, None, pos, negsuc, true, false};
ghost use Rattle.std.specs.Int.{int_wrap, w128};
ghost use Rattle.xr_types.specs.Kinds.{low, high};
ghost use Rattle.xr_arrays.specs.Elements.{elem};
ghost use Rattle.xr_types.specs.declared.operation.OpKind.TheVariants.{Add, Subtract, Multiply, FloorDivide, Remainder, Negate, Invert, Equal, NotEqual, Less, LessEqual};
ghost use Rattle.strided_block.specs.Typed.{truth};

use crate::division::{floor_signed, floor_unsigned, opposite, rest_signed, rest_unsigned, turned};
use xr_types::Elem;

/// The sum, as the kind leaves it.
#[tactic(auto, using(crate::proofs::Bounds::kind_bounds))]
pub fn sum<T: Elem>(x: T, y: T) -> T
    ensures { Some (T.number result) ≡ elem Add T.kind (Some (T.number x)) (Some (T.number y)) }
{
    T::wrap_from(x.widen() + y.widen())
}

/// The difference, as the kind leaves it.
#[tactic(auto, using(crate::proofs::Bounds::kind_bounds))]
pub fn difference<T: Elem>(x: T, y: T) -> T
    ensures { Some (T.number result) ≡ elem Subtract T.kind (Some (T.number x)) (Some (T.number y)) }
{
    T::wrap_from(x.widen() - y.widen())
}

/// The product, wrapped at 128 bits. That of two numbers of 64 bits without a sign may need them all.
#[tactic(auto, using(std::proofs::lemmas::Int::wraps))]
pub(crate) fn wrapped_product(x: i128, y: i128) -> i128
    ensures { result ≡ int_wrap w128 (x *ℤ y) }
{
    x.wrapping_mul(y)
}

/// The product, as the kind leaves it.
pub fn product<T: Elem>(x: T, y: T) -> T
    ensures { Some (T.number result) ≡ elem Multiply T.kind (Some (T.number x)) (Some (T.number y)) }
{
    T::wrap_from(wrapped_product(x.widen(), y.widen()))
}

// Whether a type's kind has negative numbers. The compiler knows it of each type, so that no test is left in a loop.
#[tactic(auto, using(crate::proofs::Bounds::kind_signs))]
fn is_signed<T: Elem>() -> bool
    ensures signed { result ≡ true → (negsuc 9223372036854775807 ≤ℤ low T.kind) × (high T.kind ≤ℤ pos 9223372036854775807) }
    ensures unsigned { result ≡ false → (pos 0 ≤ℤ low T.kind) × (high T.kind ≤ℤ pos 18446744073709551615) }
{
    T::least().widen() < 0
}

/// The quotient rounded down, as the kind leaves it, and 0 for a divisor of 0.
#[tactic(auto, using(crate::proofs::Bounds::kind_bounds))]
pub fn quotient<T: Elem>(x: T, y: T) -> T
    ensures { Some (T.number result) ≡ elem FloorDivide T.kind (Some (T.number x)) (Some (T.number y)) }
{
    let dividend = x.widen();
    let divisor = y.widen();
    if is_signed::<T>() {
        T::wrap_from(floor_signed(dividend, divisor))
    } else {
        T::wrap_from(floor_unsigned(dividend, divisor))
    }
}

/// What is left by whole multiples of the divisor, and 0 for a divisor of 0.
#[tactic(auto, using(crate::proofs::Bounds::kind_bounds))]
pub fn remainder<T: Elem>(x: T, y: T) -> T
    ensures { Some (T.number result) ≡ elem Remainder T.kind (Some (T.number x)) (Some (T.number y)) }
{
    let dividend = x.widen();
    let divisor = y.widen();
    if is_signed::<T>() {
        T::wrap_from(rest_signed(dividend, divisor))
    } else {
        T::wrap_from(rest_unsigned(dividend, divisor))
    }
}

/// The negated number, as the kind leaves it.
#[tactic(auto, using(crate::proofs::Bounds::kind_bounds))]
pub fn negation<T: Elem>(x: T) -> T
    ensures { Some (T.number result) ≡ elem Negate T.kind (Some (T.number x)) None }
{
    T::wrap_from(opposite(x.widen()))
}

/// The number with all bits turned.
#[tactic(auto, using(crate::proofs::Bounds::kind_bounds))]
pub fn inversion<T: Elem>(x: T) -> T
    ensures { Some (T.number result) ≡ elem Invert T.kind (Some (T.number x)) None }
{
    T::wrap_from(turned(x.widen()))
}

/// Whether the cells hold one number, as a truth value.
pub fn equal<T: Elem>(x: T, y: T) -> u8
    ensures small { result < 2 }
    ensures truth { Some (truth result) ≡ elem Equal T.kind (Some (T.number x)) (Some (T.number y)) }
{
    u8::from(x.widen() == y.widen())
}

/// Whether the cells hold different numbers, as a truth value.
pub fn differs<T: Elem>(x: T, y: T) -> u8
    ensures small { result < 2 }
    ensures truth { Some (truth result) ≡ elem NotEqual T.kind (Some (T.number x)) (Some (T.number y)) }
{
    u8::from(x.widen() != y.widen())
}

/// Whether the first number is below the second, as a truth value.
pub fn less<T: Elem>(x: T, y: T) -> u8
    ensures small { result < 2 }
    ensures truth { Some (truth result) ≡ elem Less T.kind (Some (T.number x)) (Some (T.number y)) }
{
    u8::from(x.widen() < y.widen())
}

/// Whether the first number isn't above the second, as a truth value.
pub fn at_most<T: Elem>(x: T, y: T) -> u8
    ensures small { result < 2 }
    ensures truth { Some (truth result) ≡ elem LessEqual T.kind (Some (T.number x)) (Some (T.number y)) }
{
    u8::from(x.widen() <= y.widen())
}
