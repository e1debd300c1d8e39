//! The methods that move cells along dimensions.
ghost use Rattle.std.specs.Prelude.{◌++◌, IfOk};
ghost use Rattle.xr_arrays.specs.Added.{AddsAtMost};
ghost use Rattle.xr_defs.specs.Room.{portions, room};
ghost use Rattle.xr_operations.specs.Moves.{diff_array as differed_array, diff_set as differed_set, roll_array as rolled_array, roll_set as rolled_set, shift_array as shifted_array, shift_set as shifted_set};
ghost use Rattle.xr_runs.specs.Calls.{of_both};
ghost use Rattle.plan_core.specs.Plans.{Grows};
ghost use Rattle.xr_values.specs.Meaning.{meaning, given, IsValueIn};
ghost use Rattle.dataset_core.specs.Answers.{AnswersValue};

use crate::held::set_value;
use crate::made::made_value;
use plan_core::Plan;
use std::alloc::Global;
use xr_moving::{differed, rolled, set_differed, set_rolled, set_shifted, shifted};
use xr_types::{CallFault, Fault};
use xr_values::{Args, Value};

/// `shift(x=.., fill_value?)`.
#[tactic(auto, using(plan_core::proofs::Plans::grows_by_none, plan_core::proofs::Added::adds_none, xr_arguments::proofs::Variants::is_array, xr_arguments::proofs::Variants::is_set, xr_arguments::proofs::Inside::held_array, xr_arguments::proofs::Inside::held_set, xr_values::proofs::Meaning::meaning_out, crate::proofs::Making::takes_made), unfolding(xr_runs::specs::Calls::of_both))]
pub(crate) fn shift(
    alloc: Global,
    plan: &mut Plan,
    on: &Value,
    args: &Args,
) -> Result<Value, CallFault>
    requires { IsValueIn plan.old on.now }
    ensures answers { AnswersValue plan.new result (of_both (λ a. shifted_array a (given plan.old args.now)) (λ s. shifted_set s (given plan.old args.now)) (meaning plan.old on.now)) }
    ensures grows { Grows plan.old plan.new }
    ensures room { IfOk result (λ v. AddsAtMost plan.old plan.new (room (portions (meaning plan.old on.now) ++ portions (meaning plan.new v)))) }
{
    match on {
        Value::Array(array) => made_value(alloc, plan, shifted(alloc, array, args)),
        Value::Set(set) => {
            let answer = set_shifted(alloc, plan, set, args)?;
            Ok(set_value(alloc, answer)?)
        }
        _ => Err(CallFault::Refused(Fault::WrongKind)),
    }
}

/// `roll(x=..)`.
#[tactic(auto, using(plan_core::proofs::Plans::grows_by_none, plan_core::proofs::Added::adds_none, xr_arguments::proofs::Variants::is_array, xr_arguments::proofs::Variants::is_set, xr_arguments::proofs::Inside::held_array, xr_arguments::proofs::Inside::held_set, xr_values::proofs::Meaning::meaning_out, crate::proofs::Making::takes_made), unfolding(xr_runs::specs::Calls::of_both))]
pub(crate) fn roll(
    alloc: Global,
    plan: &mut Plan,
    on: &Value,
    args: &Args,
) -> Result<Value, CallFault>
    requires { IsValueIn plan.old on.now }
    ensures answers { AnswersValue plan.new result (of_both (λ a. rolled_array a (given plan.old args.now)) (λ s. rolled_set s (given plan.old args.now)) (meaning plan.old on.now)) }
    ensures grows { Grows plan.old plan.new }
    ensures room { IfOk result (λ v. AddsAtMost plan.old plan.new (room (portions (meaning plan.old on.now) ++ portions (meaning plan.new v)))) }
{
    match on {
        Value::Array(array) => made_value(alloc, plan, rolled(alloc, array, args)),
        Value::Set(set) => {
            let answer = set_rolled(alloc, plan, set, args)?;
            Ok(set_value(alloc, answer)?)
        }
        _ => Err(CallFault::Refused(Fault::WrongKind)),
    }
}

/// `diff(dim, label="upper")`.
#[tactic(auto, using(plan_core::proofs::Plans::grows_by_none, plan_core::proofs::Added::adds_none, xr_arguments::proofs::Variants::is_array, xr_arguments::proofs::Variants::is_set, xr_arguments::proofs::Inside::held_array, xr_arguments::proofs::Inside::held_set, xr_values::proofs::Meaning::meaning_out, crate::proofs::Making::takes_made), unfolding(xr_runs::specs::Calls::of_both))]
pub(crate) fn diff(
    alloc: Global,
    plan: &mut Plan,
    on: &Value,
    args: &Args,
) -> Result<Value, CallFault>
    requires { IsValueIn plan.old on.now }
    ensures answers { AnswersValue plan.new result (of_both (λ a. differed_array a (given plan.old args.now)) (λ s. differed_set s (given plan.old args.now)) (meaning plan.old on.now)) }
    ensures grows { Grows plan.old plan.new }
    ensures room { IfOk result (λ v. AddsAtMost plan.old plan.new (room (portions (meaning plan.old on.now) ++ portions (meaning plan.new v)))) }
{
    match on {
        Value::Array(array) => made_value(alloc, plan, differed(alloc, array, args)),
        Value::Set(set) => {
            let answer = set_differed(alloc, plan, set, args)?;
            Ok(set_value(alloc, answer)?)
        }
        _ => Err(CallFault::Refused(Fault::WrongKind)),
    }
}
