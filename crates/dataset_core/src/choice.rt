//! The choice between two arrays or literals by an array of truth values: the function and the method `where`.
ghost use Rattle.std.specs.Prelude.{◌++◌, IfOk};
ghost use Rattle.xr_arrays.specs.Added.{AddsAtMost};
ghost use Rattle.xr_defs.specs.Room.{portions, room};
ghost use Rattle.xr_operations.specs.CellMethods.{where_called as chosen, where_method as chosen_of};
ghost use Rattle.xr_runs.specs.Calls.{of_array};
ghost use Rattle.plan_core.specs.Plans.{Grows};
ghost use Rattle.xr_values.specs.Meaning.{meaning, given, IsValueIn, AreArgsIn};
ghost use Rattle.xr_formulas.specs.Called.{AddsBeside};
ghost use Rattle.dataset_core.specs.Answers.{AnswersValue, array_told};

use crate::held::array_value;
use plan_core::Plan;
use std::alloc::Global;
use xr_choosing::{where_called, where_method};
use xr_types::{CallFault, Fault};
use xr_values::{Args, Value};

/// `where(cond, x, y)`.
pub(crate) fn choice(alloc: Global, plan: &mut Plan, args: &Args) -> Result<Value, CallFault>
    requires { AreArgsIn plan.old args.now }
    ensures answers { AnswersValue plan.new result (array_told (chosen (given plan.old args.now))) }
    ensures grows { Grows plan.old plan.new }
    ensures room { IfOk result (λ v. AddsBeside plan.old plan.new (meaning plan.new v)) }
{
    let answer = where_called(alloc, plan, args)?;
    Ok(array_value(alloc, answer)?)
}

/// `array.where(cond, other)`.
#[tactic(auto, using(plan_core::proofs::Plans::grows_by_none, xr_arguments::proofs::Variants::is_array, xr_arguments::proofs::Inside::held_array, xr_values::proofs::Meaning::meaning_out), unfolding(xr_runs::specs::Calls::of_array))]
pub(crate) fn choice_of(
    alloc: Global,
    plan: &mut Plan,
    on: &Value,
    args: &Args,
) -> Result<Value, CallFault>
    requires on { IsValueIn plan.old on.now }
    requires given { AreArgsIn plan.old args.now }
    ensures answers { AnswersValue plan.new result (of_array (λ a. array_told (chosen_of a (given plan.old args.now))) (meaning plan.old on.now)) }
    ensures grows { Grows plan.old plan.new }
    ensures room { IfOk result (λ v. AddsAtMost plan.old plan.new (room (portions (meaning plan.old on.now) ++ portions (meaning plan.new v)))) }
{
    match on {
        Value::Array(array) => {
            let answer = where_method(alloc, plan, array, args)?;
            Ok(array_value(alloc, answer)?)
        }
        _ => Err(CallFault::Refused(Fault::WrongKind)),
    }
}
