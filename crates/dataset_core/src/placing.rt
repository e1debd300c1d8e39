//! `name["v"] = value`: a variable that is put into a dataset.
ghost use Rattle.xr_defs.specs.Meanings as of;
ghost use Rattle.xr_relations.specs.Aligning.{value_assigned};
ghost use Rattle.plan_core.specs.Plans.{Grows};
ghost use Rattle.xr_values.specs.Meaning.{meaning, IsValueIn};
ghost use Rattle.xr_values.specs.Stands.{dataset_in, IsDatasetIn};
ghost use Rattle.dataset_core.specs.Answers.{AnswersValue};

use crate::held::set_value;
use plan_core::Plan;
use std::alloc::Global;
use xr_aligning::variable_assigned;
use xr_types::{CallFault, Fault, TextBytes};
use xr_values::{Dataset, Value};

#[tactic(auto, using(plan_core::proofs::Plans::grows_by_none, xr_arguments::proofs::Variants::is_array, xr_arguments::proofs::Inside::held_array, xr_values::proofs::Meaning::meaning_out), unfolding(xr_relations::specs::Aligning::value_assigned))]
fn set_with(
    alloc: Global,
    plan: &mut Plan,
    set: &Dataset,
    name: &TextBytes,
    value: &Value,
) -> Result<Value, CallFault>
    requires set { IsDatasetIn plan.old set.now }
    requires value { IsValueIn plan.old value.now }
    ensures answers { AnswersValue plan.new result (value_assigned (of.Set (dataset_in plan.old set.now)) name.now (meaning plan.old value.now)) }
    ensures grows { Grows plan.old plan.new }
{
    match value {
        Value::Array(array) => {
            let answer = variable_assigned(alloc, plan, set, name, array)?;
            Ok(set_value(alloc, answer)?)
        }
        _ => Err(CallFault::Refused(Fault::WrongKind)),
    }
}

/// The dataset that a value is, with an array as its variable of this name.
///
/// # Errors
/// `WrongKind` for a target that is no dataset, and for a value that is no array; then those of the variable.
#[tactic(auto, using(plan_core::proofs::Plans::grows_by_none, xr_arguments::proofs::Variants::is_set, xr_arguments::proofs::Inside::held_set, xr_values::proofs::Meaning::meaning_out), unfolding(xr_relations::specs::Aligning::value_assigned))]
pub fn assigned_value(
    alloc: Global,
    plan: &mut Plan,
    target: &Value,
    name: &TextBytes,
    value: &Value,
) -> Result<Value, CallFault>
    requires target { IsValueIn plan.old target.now }
    requires value { IsValueIn plan.old value.now }
    ensures answers { AnswersValue plan.new result (value_assigned (meaning plan.old target.now) name.now (meaning plan.old value.now)) }
    ensures grows { Grows plan.old plan.new }
{
    match target {
        Value::Set(set) => set_with(alloc, plan, set, name, value),
        _ => Err(CallFault::Refused(Fault::WrongKind)),
    }
}
