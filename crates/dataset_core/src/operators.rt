//! Operators before a value and between two.
ghost use Rattle.std.specs.Prelude.{◌∷◌, ◌++◌, IfOk};
ghost use Rattle.xr_arrays.specs.Added.{AddsAtMost};
ghost use Rattle.xr_defs.specs.Meanings.{Array, Number, Truth};
ghost use Rattle.xr_defs.specs.Room.{of_array, portions, room};
ghost use Rattle.xr_operations.specs.Arithmetic.{binary_called, unary_called};
ghost use Rattle.plan_core.specs.Plans.{Grows};
ghost use Rattle.xr_values.specs.Meaning.{meaning, IsValueIn};
ghost use Rattle.xr_values.specs.Stands.{array_in, IsArrayIn};
ghost use Rattle.xr_formulas.specs.Called.{AddsBeside};
ghost use Rattle.dataset_core.specs.Answers.{AnswersValue};

use crate::held::array_value;
use crate::made::made_value;
use plan_core::Plan;
use std::alloc::Global;
use xr_formulas::{unary, with_number, with_truth};
use xr_joining::two_arrays_in;
use xr_operations::Side;
use xr_types::{CallFault, Fault, OpKind};
use xr_values::{DataArray, Value};

/// The value of an operator before an array: unary minus of whole numbers, `~` of whole numbers and truth values.
///
/// # Errors
/// `WrongKind` for any other value, and for an array whose kind hasn't the operator.
#[tactic(auto, using(plan_core::proofs::Plans::grows_by_none, xr_arguments::proofs::Variants::is_array, xr_arguments::proofs::Variants::is_number, xr_arguments::proofs::Variants::is_truth, xr_arguments::proofs::Inside::held_array, xr_values::proofs::Meaning::meaning_out, crate::proofs::Making::takes_made), unfolding(xr_operations::specs::Arithmetic::unary_called))]
pub fn unary_operator(
    alloc: Global,
    plan: &mut Plan,
    op: OpKind,
    on: &Value,
) -> Result<Value, CallFault>
    requires { IsValueIn plan.old on.now }
    ensures answers { AnswersValue plan.new result (unary_called op (meaning plan.old on.now)) }
    ensures grows { Grows plan.old plan.new }
    ensures room { IfOk result (λ v. AddsAtMost plan.old plan.new (room (portions (meaning plan.old on.now) ++ portions (meaning plan.new v)))) }
{
    match on {
        Value::Array(array) => made_value(alloc, plan, unary(alloc, op, array)),
        _ => Err(CallFault::Refused(Fault::WrongKind)),
    }
}

// An operator behind an array.
#[tactic(auto, using(plan_core::proofs::Plans::grows_by_none, xr_arguments::proofs::Variants::is_array, xr_arguments::proofs::Variants::is_number, xr_arguments::proofs::Variants::is_truth, xr_arguments::proofs::Inside::held_array, xr_values::proofs::Meaning::meaning_out, crate::proofs::Making::takes_made), unfolding(xr_operations::specs::Arithmetic::binary_called))]
fn array_operator(
    alloc: Global,
    plan: &mut Plan,
    op: OpKind,
    left: &DataArray,
    right: &Value,
) -> Result<Value, CallFault>
    requires left { IsArrayIn plan.old left.now }
    requires right { IsValueIn plan.old right.now }
    ensures answers { AnswersValue plan.new result (binary_called op (Array (array_in plan.old left.now)) (meaning plan.old right.now)) }
    ensures grows { Grows plan.old plan.new }
    ensures room { IfOk result (λ v. AddsAtMost plan.old plan.new (room ((of_array (array_in plan.old left.now) ∷ portions (meaning plan.old right.now)) ++ portions (meaning plan.new v)))) }
{
    match right {
        Value::Array(right) => {
            let answer = two_arrays_in(alloc, plan, op, left, right)?;
            Ok(array_value(alloc, answer)?)
        }
        Value::Number(n) => made_value(alloc, plan, with_number(alloc, Side::Right, op, left, *n)),
        Value::Truth(b) => made_value(alloc, plan, with_truth(alloc, Side::Right, op, left, *b)),
        _ => Err(CallFault::Refused(Fault::WrongKind)),
    }
}

// An operator behind a whole number.
#[tactic(auto, using(plan_core::proofs::Plans::grows_by_none, xr_arguments::proofs::Variants::is_array, xr_arguments::proofs::Variants::is_number, xr_arguments::proofs::Variants::is_truth, xr_arguments::proofs::Inside::held_array, xr_values::proofs::Meaning::meaning_out, crate::proofs::Making::takes_made), unfolding(xr_operations::specs::Arithmetic::binary_called))]
fn number_operator(
    alloc: Global,
    plan: &mut Plan,
    op: OpKind,
    left: i128,
    right: &Value,
) -> Result<Value, CallFault>
    requires { IsValueIn plan.old right.now }
    ensures answers { AnswersValue plan.new result (binary_called op (Number left) (meaning plan.old right.now)) }
    ensures grows { Grows plan.old plan.new }
    ensures room { IfOk result (λ v. AddsBeside plan.old plan.new (meaning plan.new v)) }
{
    match right {
        Value::Array(right) => made_value(
            alloc,
            plan,
            with_number(alloc, Side::Left, op, right, left),
        ),
        _ => Err(CallFault::Refused(Fault::WrongKind)),
    }
}

// An operator behind a truth value.
#[tactic(auto, using(plan_core::proofs::Plans::grows_by_none, xr_arguments::proofs::Variants::is_array, xr_arguments::proofs::Variants::is_number, xr_arguments::proofs::Variants::is_truth, xr_arguments::proofs::Inside::held_array, xr_values::proofs::Meaning::meaning_out, crate::proofs::Making::takes_made), unfolding(xr_operations::specs::Arithmetic::binary_called))]
fn truth_operator(
    alloc: Global,
    plan: &mut Plan,
    op: OpKind,
    left: bool,
    right: &Value,
) -> Result<Value, CallFault>
    requires { IsValueIn plan.old right.now }
    ensures answers { AnswersValue plan.new result (binary_called op (Truth left) (meaning plan.old right.now)) }
    ensures grows { Grows plan.old plan.new }
    ensures room { IfOk result (λ v. AddsBeside plan.old plan.new (meaning plan.new v)) }
{
    match right {
        Value::Array(right) => made_value(
            alloc,
            plan,
            with_truth(alloc, Side::Left, op, right, left),
        ),
        _ => Err(CallFault::Refused(Fault::WrongKind)),
    }
}

/// The value of an operator between two arrays, or between an array and a whole number or a truth value.
///
/// # Errors
/// `WrongKind` for any other values; then those of the operands' kinds, of the join of their labels, of a number that doesn't fit,
/// and of the limits.
#[tactic(auto, using(plan_core::proofs::Plans::grows_by_none, xr_arguments::proofs::Variants::is_array, xr_arguments::proofs::Variants::is_number, xr_arguments::proofs::Variants::is_truth, xr_arguments::proofs::Inside::held_array, xr_values::proofs::Meaning::meaning_out, crate::proofs::Making::takes_made), unfolding(xr_operations::specs::Arithmetic::binary_called))]
pub fn binary_operator(
    alloc: Global,
    plan: &mut Plan,
    op: OpKind,
    left: &Value,
    right: &Value,
) -> Result<Value, CallFault>
    requires left { IsValueIn plan.old left.now }
    requires right { IsValueIn plan.old right.now }
    ensures answers { AnswersValue plan.new result (binary_called op (meaning plan.old left.now) (meaning plan.old right.now)) }
    ensures grows { Grows plan.old plan.new }
    ensures room { IfOk result (λ v. AddsAtMost plan.old plan.new (room ((portions (meaning plan.old left.now) ++ portions (meaning plan.old right.now)) ++ portions (meaning plan.new v)))) }
{
    match left {
        Value::Array(left) => array_operator(alloc, plan, op, left, right),
        Value::Number(n) => number_operator(alloc, plan, op, *n, right),
        Value::Truth(b) => truth_operator(alloc, plan, op, *b, right),
        _ => Err(CallFault::Refused(Fault::WrongKind)),
    }
}
