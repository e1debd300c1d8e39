//! The methods that give new cells.
ghost use Rattle.std.specs.Prelude.{◌≡◌, ◌++◌, IfOk};
ghost use Rattle.xr_types.specs.Names.{among};
ghost use Rattle.xr_arrays.specs.Added.{AddsAtMost};
ghost use Rattle.xr_defs.specs.Room.{portions, room};
ghost use Rattle.xr_operations.specs.Methods.{array_method as cells_mapped, cell_methods};
ghost use Rattle.xr_operations.specs.Reductions.{cumsum_array as summed_array, cumsum_set as summed_set, reduced_array as folded_array, reduced_set as folded_set};
ghost use Rattle.xr_runs.specs.Calls.{of_array, of_both};
ghost use Rattle.plan_core.specs.Plans.{Grows};
ghost use Rattle.xr_values.specs.Meaning.{meaning, given, IsValueIn};
ghost use Rattle.dataset_core.specs.Answers.{AnswersValue, array_told};

use crate::held::set_value;
use crate::made::made_value;
use plan_core::Plan;
use std::alloc::Global;
use xr_formulas::array_method;
use xr_reducing::{cumsum_array, cumsum_set, reduced_array, reduced_set};
use xr_types::{CallFault, Fault, FoldKind, TextBytes};
use xr_values::{Args, Value};

/// Whether a method works cell by cell.
pub(crate) fn is_cell_method(name: &TextBytes) -> bool
    ensures { result ≡ among cell_methods name.now }
{
    let name = name.as_str();
    name == "isnull" || name == "notnull" || name == "astype" || name == "fillna"
}

/// `isnull()`, `notnull()`, `astype(kind)` and `fillna(literal)`.
#[tactic(auto, using(plan_core::proofs::Plans::grows_by_none, plan_core::proofs::Added::adds_none, xr_arguments::proofs::Variants::is_array, xr_arguments::proofs::Variants::is_set, xr_arguments::proofs::Inside::held_array, xr_arguments::proofs::Inside::held_set, xr_values::proofs::Meaning::meaning_out, crate::proofs::Making::takes_made), unfolding(xr_runs::specs::Calls::of_array))]
pub(crate) fn cell_method(
    alloc: Global,
    plan: &mut Plan,
    on: &Value,
    name: &TextBytes,
    args: &Args,
) -> Result<Value, CallFault>
    requires { IsValueIn plan.old on.now }
    ensures answers { AnswersValue plan.new result (of_array (λ a. array_told (cells_mapped name.now a (given plan.old args.now))) (meaning plan.old on.now)) }
    ensures grows { Grows plan.old plan.new }
    ensures room { IfOk result (λ v. AddsAtMost plan.old plan.new (room (portions (meaning plan.old on.now) ++ portions (meaning plan.new v)))) }
{
    match on {
        Value::Array(array) => made_value(alloc, plan, array_method(alloc, name, array, args)),
        _ => Err(CallFault::Refused(Fault::WrongKind)),
    }
}

/// `cumsum(dim)`.
#[tactic(auto, using(plan_core::proofs::Plans::grows_by_none, plan_core::proofs::Added::adds_none, xr_arguments::proofs::Variants::is_array, xr_arguments::proofs::Variants::is_set, xr_arguments::proofs::Inside::held_array, xr_arguments::proofs::Inside::held_set, xr_values::proofs::Meaning::meaning_out, crate::proofs::Making::takes_made), unfolding(xr_runs::specs::Calls::of_both))]
pub(crate) fn cumsum(
    alloc: Global,
    plan: &mut Plan,
    on: &Value,
    args: &Args,
) -> Result<Value, CallFault>
    requires { IsValueIn plan.old on.now }
    ensures answers { AnswersValue plan.new result (of_both (λ a. summed_array a (given plan.old args.now)) (λ s. summed_set s (given plan.old args.now)) (meaning plan.old on.now)) }
    ensures grows { Grows plan.old plan.new }
    ensures room { IfOk result (λ v. AddsAtMost plan.old plan.new (room (portions (meaning plan.old on.now) ++ portions (meaning plan.new v)))) }
{
    match on {
        Value::Array(array) => made_value(alloc, plan, cumsum_array(alloc, array, args)),
        Value::Set(set) => {
            let answer = cumsum_set(alloc, plan, set, args)?;
            Ok(set_value(alloc, answer)?)
        }
        _ => Err(CallFault::Refused(Fault::WrongKind)),
    }
}

/// `sum(dim?)` and the other reductions.
#[tactic(auto, using(plan_core::proofs::Plans::grows_by_none, plan_core::proofs::Added::adds_none, xr_arguments::proofs::Variants::is_array, xr_arguments::proofs::Variants::is_set, xr_arguments::proofs::Inside::held_array, xr_arguments::proofs::Inside::held_set, xr_values::proofs::Meaning::meaning_out, crate::proofs::Making::takes_made), unfolding(xr_runs::specs::Calls::of_both))]
pub(crate) fn reduction(
    alloc: Global,
    plan: &mut Plan,
    on: &Value,
    fold: FoldKind,
    args: &Args,
) -> Result<Value, CallFault>
    requires { IsValueIn plan.old on.now }
    ensures answers { AnswersValue plan.new result (of_both (λ a. folded_array fold a (given plan.old args.now)) (λ s. folded_set fold s (given plan.old args.now)) (meaning plan.old on.now)) }
    ensures grows { Grows plan.old plan.new }
    ensures room { IfOk result (λ v. AddsAtMost plan.old plan.new (room (portions (meaning plan.old on.now) ++ portions (meaning plan.new v)))) }
{
    match on {
        Value::Array(array) => made_value(alloc, plan, reduced_array(alloc, fold, array, args)),
        Value::Set(set) => {
            let answer = reduced_set(alloc, plan, fold, set, args)?;
            Ok(set_value(alloc, answer)?)
        }
        _ => Err(CallFault::Refused(Fault::WrongKind)),
    }
}
