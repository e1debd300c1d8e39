//! Operators of one array, and of an array and a whole number or a truth value.
ghost use Rattle.std.specs.Prelude.{◌≡◌, ◌||◌, List};
ghost use Rattle.xr_types.specs.Kinds.{in_range};
ghost use Rattle.xr_types.specs.Results.{unless, Answers};
ghost use Rattle.xr_types.specs.declared.fault.Fault.TheVariants.{DoesNotFit};
ghost use Rattle.xr_arrays.specs.declared.node.Node.{Node};
ghost use Rattle.xr_arrays.specs.Elements.{is_comparison as compares};
ghost use Rattle.xr_operations.specs.Arithmetic as calls;
ghost use Rattle.xr_values.specs.Stands.{array_in, IsArrayIn};
ghost use Rattle.xr_formulas.specs.Mades.{AnswersMade};

use crate::cellwise::of_method;
use crate::kinds::{fits, is_chars, is_integer_kind, is_truths, number_kind, truth_number};
use crate::made::Made;
use crate::methods::check;
use crate::numbers::{Placed, is_comparison, with_literal};
use std::alloc::Global;
use xr_operations::Side;
use xr_types::{CallFault, DType, Fault, OpKind, promote};
use xr_values::DataArray;

// ---- kinds

// `& | ^ == !=`
fn joins_truths(op: OpKind) -> bool
    ensures { result ≡ calls.takes_truths (calls.sort_of op) }
{
    matches!(
        op,
        OpKind::And | OpKind::Or | OpKind::Xor | OpKind::Equal | OpKind::NotEqual
    )
}

#[tactic(auto, unfolding(xr_operations::specs::Arithmetic::check_kinds))]
fn check_kinds(op: OpKind, a: DType, b: DType) -> Result<(), CallFault>
    ensures { Answers (λ u. u) result (calls.check_kinds (calls.sort_of op) a b) }
{
    let plain = !(is_chars(a) || is_chars(b));
    let whole = plain && (is_integer_kind(a) || is_integer_kind(b));
    match op {
        OpKind::Add | OpKind::Subtract | OpKind::Multiply => check(whole, Fault::WrongKind),
        OpKind::FloorDivide | OpKind::Remainder => check(whole, Fault::WrongKind),
        OpKind::And | OpKind::Or | OpKind::Xor => check(plain, Fault::WrongKind),
        OpKind::Equal | OpKind::NotEqual => check(plain, Fault::WrongKind),
        OpKind::Less | OpKind::LessEqual => check(plain, Fault::WrongKind),
        OpKind::Greater | OpKind::GreaterEqual => check(plain, Fault::WrongKind),
        _ => {
            check(plain, Fault::WrongKind)?;
            Err(CallFault::Refused(Fault::WouldPromote))
        }
    }
}

/// The kind that two operands of an operator become.
///
/// # Errors
/// `WrongKind` for bytes of text, and for arithmetic without an integer kind; `WouldPromote` where no kind holds both, and for `/`.
#[tactic(auto, unfolding(xr_operations::specs::Arithmetic::common_kind))]
pub fn common_kind(op: OpKind, a: DType, b: DType) -> Result<DType, CallFault>
    ensures { Answers (λ k. k) result (calls.common_kind op a b) }
{
    check_kinds(op, a, b)?;
    match promote(a, b) {
        Some(kind) => Ok(kind),
        None => Err(CallFault::Refused(Fault::WouldPromote)),
    }
}

// ---- one array

/// What an operator before an array makes: unary minus of integers, and `~` of integers and truth values.
///
/// # Errors
/// `WrongKind` for other kinds and other operators.
#[tactic(auto, using(crate::proofs::Answered::answered, crate::proofs::Answered::negates), unfolding(xr_operations::specs::Arithmetic::of_one_array, xr_operations::specs::Arithmetic::check_unary, xr_types::specs::Results::unless))]
pub fn unary(alloc: Global, op: OpKind, on: &DataArray) -> Result<Made, CallFault>
    ensures { (nodes : List Node) → IsArrayIn nodes on.now → AnswersMade nodes result (calls.of_one_array op (array_in nodes on.now)) }
{
    match op {
        OpKind::Negate => check(is_integer_kind(on.kind), Fault::WrongKind)?,
        OpKind::Invert => check(!is_chars(on.kind), Fault::WrongKind)?,
        _ => return Err(CallFault::Refused(Fault::WrongKind)),
    }
    let made = of_method(alloc, on, op, on.kind)?;
    Ok(made)
}

// ---- an array and a literal

fn check_fits(op: OpKind, kind: DType, n: i128) -> Result<(), CallFault>
    ensures { Answers (λ u. u) result (unless (compares op || in_range kind n) DoesNotFit) }
{
    check(is_comparison(op) || fits(kind, n), Fault::DoesNotFit)
}

/// What an operator between an array and a whole number makes, with the number on this side. The number has the array's kind, or
/// int64 beside truth values; a comparison takes it as it is.
///
/// # Errors
/// Those of the kinds; `DoesNotFit` for a number that the kind doesn't have.
#[tactic(auto, unfolding(xr_operations::specs::Arithmetic::of_number))]
pub fn with_number(
    alloc: Global,
    side: Side,
    op: OpKind,
    on: &DataArray,
    n: i128,
) -> Result<Made, CallFault>
    ensures { (nodes : List Node) → IsArrayIn nodes on.now → AnswersMade nodes result (calls.of_number side op (array_in nodes on.now) n) }
{
    let kind = common_kind(op, on.kind, number_kind(on.kind))?;
    check_fits(op, kind, n)?;
    let number = n;
    let made = with_literal(alloc, on, kind, Placed { side, op, number })?;
    Ok(made)
}

fn check_truths(op: OpKind, kind: DType) -> Result<(), CallFault>
    ensures { Answers (λ u. u) result (calls.check_truths op kind) }
{
    check(is_truths(kind) && joins_truths(op), Fault::WrongKind)
}

/// What an operator between an array of truth values and a truth value makes, with the truth value on this side.
///
/// # Errors
/// `WrongKind` for other arrays, and for operators that truth values don't have.
#[tactic(auto, using(crate::proofs::Sorts::truth_held), unfolding(xr_operations::specs::Arithmetic::of_truth))]
pub fn with_truth(
    alloc: Global,
    side: Side,
    op: OpKind,
    on: &DataArray,
    truth: bool,
) -> Result<Made, CallFault>
    ensures { (nodes : List Node) → IsArrayIn nodes on.now → AnswersMade nodes result (calls.of_truth side op (array_in nodes on.now) truth) }
{
    check_truths(op, on.kind)?;
    let number = truth_number(truth);
    let made = with_literal(alloc, on, DType::Bool, Placed { side, op, number })?;
    Ok(made)
}
