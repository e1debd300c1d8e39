//! The kind that both operands of an operator become.
ghost use Rattle.std.specs.Prelude.{◌≡◌};
ghost use Rattle.xr_types.specs.Results.{Answers};
ghost use Rattle.xr_defs.specs.Building as build;
ghost use Rattle.xr_operations.specs.Arithmetic as arithmetic;
ghost use Rattle.xr_operations.specs.Arithmetic.{check_kinds, sort_of};
ghost use Rattle.xr_joining.specs.Sorts as sorts;

use xr_types::{CallFault, DType, Fault, OpKind, promote};

fn is_chars(kind: DType) -> bool
    ensures { result ≡ build.is_chars kind }
{
    match kind {
        DType::Char => true,
        DType::Bool => false,
        DType::Int8 | DType::Int16 | DType::Int32 | DType::Int64 => false,
        DType::UInt8 | DType::UInt16 | DType::UInt32 | DType::UInt64 => false,
    }
}

fn is_integer_kind(kind: DType) -> bool
    ensures { result ≡ build.is_integer_kind kind }
{
    match kind {
        DType::Char | DType::Bool => false,
        DType::Int8 | DType::Int16 | DType::Int32 | DType::Int64 => true,
        DType::UInt8 | DType::UInt16 | DType::UInt32 | DType::UInt64 => true,
    }
}

fn is_sum(op: OpKind) -> bool
    ensures { result ≡ sorts.is_sum (sort_of op) }
{
    match op {
        OpKind::Add | OpKind::Subtract | OpKind::Multiply => true,
        OpKind::FloorDivide | OpKind::Remainder => true,
        OpKind::And | OpKind::Or | OpKind::Xor => false,
        OpKind::Equal | OpKind::NotEqual => false,
        OpKind::Less | OpKind::LessEqual | OpKind::Greater | OpKind::GreaterEqual => false,
        OpKind::Divide | OpKind::Negate | OpKind::Invert => false,
        OpKind::IsNull | OpKind::NotNull | OpKind::FillNa | OpKind::Cast => false,
    }
}

fn is_division(op: OpKind) -> bool
    ensures { result ≡ sorts.is_division (sort_of op) }
{
    match op {
        OpKind::Add | OpKind::Subtract | OpKind::Multiply => false,
        OpKind::FloorDivide | OpKind::Remainder => false,
        OpKind::And | OpKind::Or | OpKind::Xor => false,
        OpKind::Equal | OpKind::NotEqual => false,
        OpKind::Less | OpKind::LessEqual | OpKind::Greater | OpKind::GreaterEqual => false,
        OpKind::Divide | OpKind::Negate | OpKind::Invert => true,
        OpKind::IsNull | OpKind::NotNull | OpKind::FillNa | OpKind::Cast => true,
    }
}

#[tactic(auto, using(crate::proofs::SortLaws::chars_refused, crate::proofs::SortLaws::division_refused, crate::proofs::SortLaws::truths_refused, crate::proofs::SortLaws::sums_pass, crate::proofs::SortLaws::others_pass))]
fn check_kinds(op: OpKind, a: DType, b: DType) -> Result<(), CallFault>
    ensures { Answers (λ u. u) result (check_kinds (sort_of op) a b) }
{
    if is_chars(a) || is_chars(b) {
        return Err(CallFault::Refused(Fault::WrongKind));
    }
    if is_division(op) {
        return Err(CallFault::Refused(Fault::WouldPromote));
    }
    if is_sum(op) && !(is_integer_kind(a) || is_integer_kind(b)) {
        return Err(CallFault::Refused(Fault::WrongKind));
    }
    Ok(())
}

/// The kind that both operands become.
///
/// # Errors
/// `WrongKind` for chars, and for arithmetic unless one has an integer kind; then `WouldPromote` for kinds that aren't promoted to
/// one, and for `/`.
#[tactic(auto, unfolding(xr_operations::specs::Arithmetic::common_kind))]
pub fn common_kind(op: OpKind, a: DType, b: DType) -> Result<DType, CallFault>
    ensures { Answers (λ k. k) result (arithmetic.common_kind op a b) }
{
    check_kinds(op, a, b)?;
    match promote(a, b) {
        Some(kind) => Ok(kind),
        None => Err(CallFault::Refused(Fault::WouldPromote)),
    }
}
