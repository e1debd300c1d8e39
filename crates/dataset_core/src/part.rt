//! `x["v"]`: a variable or coordinate by its name.
ghost use Rattle.std.specs.Prelude.{◌++◌, IfOk};
ghost use Rattle.xr_arrays.specs.Added.{AddsAtMost};
ghost use Rattle.xr_defs.specs.Room.{portions, room};
ghost use Rattle.xr_runs.specs.Calls.{part_picked};
ghost use Rattle.plan_core.specs.Plans.{Grows};
ghost use Rattle.xr_values.specs.Meaning.{meaning, IsValueIn};
ghost use Rattle.dataset_core.specs.Answers.{AnswersValue};

use crate::held::array_value;
use plan_core::Plan;
use std::alloc::Global;
use xr_parts::{pick_of_array, pick_of_set};
use xr_types::{CallFault, Fault, TextBytes};
use xr_values::Value;

/// The variable or coordinate of this name of a dataset, or the coordinate of this name of an array.
///
/// # Errors
/// `WrongKind` for any other value; then those of the part.
#[tactic(auto, using(plan_core::proofs::Plans::grows_by_none, xr_arguments::proofs::Variants::is_array, xr_arguments::proofs::Variants::is_set, xr_arguments::proofs::Inside::held_array, xr_arguments::proofs::Inside::held_set, xr_values::proofs::Meaning::meaning_out), unfolding(xr_runs::specs::Calls::part_picked))]
pub fn pick(
    alloc: Global,
    plan: &mut Plan,
    on: &Value,
    name: &TextBytes,
) -> Result<Value, CallFault>
    requires inside { IsValueIn plan.old on.now }
    ensures answers { AnswersValue plan.new result (part_picked (meaning plan.old on.now) name.now) }
    ensures grows { Grows plan.old plan.new }
    ensures room { IfOk result (λ v. AddsAtMost plan.old plan.new (room (portions (meaning plan.old on.now) ++ portions (meaning plan.new v)))) }
{
    match on {
        Value::Array(array) => {
            let picked = pick_of_array(alloc, plan, array, name)?;
            Ok(array_value(alloc, picked)?)
        }
        Value::Set(set) => {
            let picked = pick_of_set(alloc, plan, set, name)?;
            Ok(array_value(alloc, picked)?)
        }
        _ => Err(CallFault::Refused(Fault::WrongKind)),
    }
}
