//! The methods that compute no cells.
ghost use Rattle.std.specs.Prelude.{◌≡◌, ◌++◌, true, IfOk};
ghost use Rattle.xr_arrays.specs.Added.{AddsAtMost};
ghost use Rattle.xr_defs.specs.Room.{portions, room};
ghost use Rattle.xr_runs.specs.Calls.{of_array, of_both};
ghost use Rattle.xr_defs.specs.Parts.{array_with_attrs as described_array, set_with_attrs as described_set};
ghost use Rattle.xr_defs.specs.Parts.{dropped_of_array as left_of_array, dropped_of_set as left_of_set, renamed as named, to_dataset as as_dataset, transposed as reordered};
ghost use Rattle.xr_operations.specs.Indexing.{isel_array as selected_array, isel_set as selected_set};
ghost use Rattle.xr_operations.specs.Selection.{sel_array as labelled_array, sel_set as labelled_set};
ghost use Rattle.xr_relations.specs.Reindexing.{reindex_array as relabelled_array, reindex_set as relabelled_set};
ghost use Rattle.xr_chunks.specs.Chunks.{chunk_array as cut_array, chunk_set as cut_set};
ghost use Rattle.plan_core.specs.Plans.{Grows};
ghost use Rattle.xr_values.specs.Meaning.{meaning, given, IsValueIn};
ghost use Rattle.dataset_core.specs.Answers.{AnswersValue, array_told, set_told};

use crate::held::{array_value, set_value};
use plan_core::Plan;
use std::alloc::Global;
use xr_chunking::{chunked, set_chunked};
use xr_indexing::{isel_array, isel_set};
use xr_parts::{
    array_with_attrs, dropped_of_array, dropped_of_set, renamed, set_with_attrs, transposed,
};
use xr_reindexing::{reindex_array, reindex_set};
use xr_selecting::{sel_array, sel_set};
use xr_types::{CallFault, Fault};
use xr_values::{Args, Value};

/// `isel(x=..)`.
#[tactic(auto, using(plan_core::proofs::Plans::grows_by_none, plan_core::proofs::Added::adds_none, xr_arguments::proofs::Variants::is_array, xr_arguments::proofs::Variants::is_set, xr_arguments::proofs::Inside::held_array, xr_arguments::proofs::Inside::held_set, xr_values::proofs::Meaning::meaning_out), unfolding(xr_runs::specs::Calls::of_both))]
pub(crate) fn isel(
    alloc: Global,
    plan: &mut Plan,
    on: &Value,
    args: &Args,
) -> Result<Value, CallFault>
    requires { IsValueIn plan.old on.now }
    ensures answers { AnswersValue plan.new result (of_both (λ a. selected_array a (given plan.old args.now)) (λ s. selected_set s (given plan.old args.now)) (meaning plan.old on.now)) }
    ensures grows { Grows plan.old plan.new }
    ensures room { IfOk result (λ v. AddsAtMost plan.old plan.new (room (portions (meaning plan.old on.now) ++ portions (meaning plan.new v)))) }
{
    match on {
        Value::Array(array) => {
            let answer = isel_array(alloc, plan, array, args)?;
            Ok(array_value(alloc, answer)?)
        }
        Value::Set(set) => {
            let answer = isel_set(alloc, plan, set, args)?;
            Ok(set_value(alloc, answer)?)
        }
        _ => Err(CallFault::Refused(Fault::WrongKind)),
    }
}

/// `sel(x=..)`.
#[tactic(auto, using(plan_core::proofs::Plans::grows_by_none, plan_core::proofs::Added::adds_none, xr_arguments::proofs::Variants::is_array, xr_arguments::proofs::Variants::is_set, xr_arguments::proofs::Inside::held_array, xr_arguments::proofs::Inside::held_set, xr_values::proofs::Meaning::meaning_out), unfolding(xr_runs::specs::Calls::of_both))]
pub(crate) fn sel(
    alloc: Global,
    plan: &mut Plan,
    on: &Value,
    args: &Args,
) -> Result<Value, CallFault>
    requires { IsValueIn plan.old on.now }
    ensures answers { AnswersValue plan.new result (of_both (λ a. labelled_array a (given plan.old args.now)) (λ s. labelled_set s (given plan.old args.now)) (meaning plan.old on.now)) }
    ensures grows { Grows plan.old plan.new }
    ensures room { IfOk result (λ v. AddsAtMost plan.old plan.new (room (portions (meaning plan.old on.now) ++ portions (meaning plan.new v)))) }
{
    match on {
        Value::Array(array) => {
            let answer = sel_array(alloc, plan, array, args)?;
            Ok(array_value(alloc, answer)?)
        }
        Value::Set(set) => {
            let answer = sel_set(alloc, plan, set, args)?;
            Ok(set_value(alloc, answer)?)
        }
        _ => Err(CallFault::Refused(Fault::WrongKind)),
    }
}

/// `reindex(x=..)`.
#[tactic(auto, using(plan_core::proofs::Plans::grows_by_none, plan_core::proofs::Added::adds_none, xr_arguments::proofs::Variants::is_array, xr_arguments::proofs::Variants::is_set, xr_arguments::proofs::Inside::held_array, xr_arguments::proofs::Inside::held_set, xr_values::proofs::Meaning::meaning_out), unfolding(xr_runs::specs::Calls::of_both))]
pub(crate) fn reindex(
    alloc: Global,
    plan: &mut Plan,
    on: &Value,
    args: &Args,
) -> Result<Value, CallFault>
    requires { IsValueIn plan.old on.now }
    ensures answers { AnswersValue plan.new result (of_both (λ a. relabelled_array a (given plan.old args.now)) (λ s. relabelled_set s (given plan.old args.now)) (meaning plan.old on.now)) }
    ensures grows { Grows plan.old plan.new }
    ensures room { IfOk result (λ v. AddsAtMost plan.old plan.new (room (portions (meaning plan.old on.now) ++ portions (meaning plan.new v)))) }
{
    match on {
        Value::Array(array) => {
            let answer = reindex_array(alloc, plan, array, args)?;
            Ok(array_value(alloc, answer)?)
        }
        Value::Set(set) => {
            let answer = reindex_set(alloc, plan, set, args)?;
            Ok(set_value(alloc, answer)?)
        }
        _ => Err(CallFault::Refused(Fault::WrongKind)),
    }
}

/// `transpose(d1, d2)`.
#[tactic(auto, using(plan_core::proofs::Plans::grows_by_none, plan_core::proofs::Added::adds_none, xr_arguments::proofs::Variants::is_array, xr_arguments::proofs::Variants::is_set, xr_arguments::proofs::Inside::held_array, xr_arguments::proofs::Inside::held_set, xr_values::proofs::Meaning::meaning_out), unfolding(xr_runs::specs::Calls::of_array))]
pub(crate) fn transpose(
    alloc: Global,
    plan: &mut Plan,
    on: &Value,
    args: &Args,
) -> Result<Value, CallFault>
    requires { IsValueIn plan.old on.now }
    ensures answers { AnswersValue plan.new result (of_array (λ a. array_told (reordered a (given plan.old args.now))) (meaning plan.old on.now)) }
    ensures grows { Grows plan.old plan.new }
    ensures room { IfOk result (λ v. AddsAtMost plan.old plan.new (room (portions (meaning plan.old on.now) ++ portions (meaning plan.new v)))) }
{
    match on {
        Value::Array(array) => {
            let answer = transposed(alloc, plan, array, args)?;
            Ok(array_value(alloc, answer)?)
        }
        _ => Err(CallFault::Refused(Fault::WrongKind)),
    }
}

/// `drop_vars(name)`.
#[tactic(auto, using(plan_core::proofs::Plans::grows_by_none, plan_core::proofs::Added::adds_none, xr_arguments::proofs::Variants::is_array, xr_arguments::proofs::Variants::is_set, xr_arguments::proofs::Inside::held_array, xr_arguments::proofs::Inside::held_set, xr_values::proofs::Meaning::meaning_out), unfolding(xr_runs::specs::Calls::of_both))]
pub(crate) fn drop_vars(
    alloc: Global,
    plan: &mut Plan,
    on: &Value,
    args: &Args,
) -> Result<Value, CallFault>
    requires { IsValueIn plan.old on.now }
    ensures answers { AnswersValue plan.new result (of_both (λ a. left_of_array a (given plan.old args.now)) (λ s. left_of_set s (given plan.old args.now)) (meaning plan.old on.now)) }
    ensures grows { Grows plan.old plan.new }
    ensures room { IfOk result (λ v. AddsAtMost plan.old plan.new (room (portions (meaning plan.old on.now) ++ portions (meaning plan.new v)))) }
{
    match on {
        Value::Array(array) => {
            let answer = dropped_of_array(alloc, array, args)?;
            Ok(array_value(alloc, answer)?)
        }
        Value::Set(set) => {
            let answer = dropped_of_set(alloc, set, args)?;
            Ok(set_value(alloc, answer)?)
        }
        _ => Err(CallFault::Refused(Fault::WrongKind)),
    }
}

/// `assign_attrs(name=value)`.
#[tactic(auto, using(plan_core::proofs::Plans::grows_by_none, plan_core::proofs::Added::adds_none, xr_arguments::proofs::Variants::is_array, xr_arguments::proofs::Variants::is_set, xr_arguments::proofs::Inside::held_array, xr_arguments::proofs::Inside::held_set, xr_values::proofs::Meaning::meaning_out), unfolding(xr_runs::specs::Calls::of_both))]
pub(crate) fn assign_attrs(
    alloc: Global,
    plan: &mut Plan,
    on: &Value,
    args: &Args,
) -> Result<Value, CallFault>
    requires { IsValueIn plan.old on.now }
    ensures answers { AnswersValue plan.new result (of_both (described_array (given plan.old args.now)) (described_set (given plan.old args.now)) (meaning plan.old on.now)) }
    ensures grows { Grows plan.old plan.new }
    ensures room { IfOk result (λ v. AddsAtMost plan.old plan.new (room (portions (meaning plan.old on.now) ++ portions (meaning plan.new v)))) }
{
    match on {
        Value::Array(array) => {
            let answer = array_with_attrs(alloc, array, args)?;
            Ok(array_value(alloc, answer)?)
        }
        Value::Set(set) => {
            let answer = set_with_attrs(alloc, set, args)?;
            Ok(set_value(alloc, answer)?)
        }
        _ => Err(CallFault::Refused(Fault::WrongKind)),
    }
}

/// `rename(name)`.
#[tactic(auto, using(plan_core::proofs::Plans::grows_by_none, plan_core::proofs::Added::adds_none, xr_arguments::proofs::Variants::is_array, xr_arguments::proofs::Variants::is_set, xr_arguments::proofs::Inside::held_array, xr_arguments::proofs::Inside::held_set, xr_values::proofs::Meaning::meaning_out), unfolding(xr_runs::specs::Calls::of_array))]
pub(crate) fn rename(
    alloc: Global,
    plan: &mut Plan,
    on: &Value,
    args: &Args,
) -> Result<Value, CallFault>
    requires { IsValueIn plan.old on.now }
    ensures answers { AnswersValue plan.new result (of_array (λ a. array_told (named a (given plan.old args.now))) (meaning plan.old on.now)) }
    ensures grows { Grows plan.old plan.new }
    ensures room { IfOk result (λ v. AddsAtMost plan.old plan.new (room (portions (meaning plan.old on.now) ++ portions (meaning plan.new v)))) }
{
    match on {
        Value::Array(array) => {
            let answer = renamed(alloc, array, args)?;
            Ok(array_value(alloc, answer)?)
        }
        _ => Err(CallFault::Refused(Fault::WrongKind)),
    }
}

/// `to_dataset(name)`.
#[tactic(auto, using(plan_core::proofs::Plans::grows_by_none, plan_core::proofs::Added::adds_none, xr_arguments::proofs::Variants::is_array, xr_arguments::proofs::Variants::is_set, xr_arguments::proofs::Inside::held_array, xr_arguments::proofs::Inside::held_set, xr_values::proofs::Meaning::meaning_out), unfolding(xr_runs::specs::Calls::of_array))]
pub(crate) fn to_dataset(
    alloc: Global,
    plan: &mut Plan,
    on: &Value,
    args: &Args,
) -> Result<Value, CallFault>
    requires { IsValueIn plan.old on.now }
    ensures answers { AnswersValue plan.new result (of_array (λ a. set_told (as_dataset a (given plan.old args.now))) (meaning plan.old on.now)) }
    ensures grows { Grows plan.old plan.new }
    ensures room { IfOk result (λ v. AddsAtMost plan.old plan.new (room (portions (meaning plan.old on.now) ++ portions (meaning plan.new v)))) }
{
    match on {
        Value::Array(array) => {
            let answer = xr_parts::to_dataset(alloc, array, args)?;
            Ok(set_value(alloc, answer)?)
        }
        _ => Err(CallFault::Refused(Fault::WrongKind)),
    }
}

/// `chunk(x=..)`.
#[tactic(auto, using(plan_core::proofs::Plans::grows_by_none, plan_core::proofs::Added::adds_none, xr_arguments::proofs::Variants::is_array, xr_arguments::proofs::Variants::is_set, xr_arguments::proofs::Inside::held_array, xr_arguments::proofs::Inside::held_set, xr_values::proofs::Meaning::meaning_out), unfolding(xr_runs::specs::Calls::of_both))]
pub(crate) fn chunk(
    alloc: Global,
    plan: &mut Plan,
    on: &Value,
    args: &Args,
) -> Result<Value, CallFault>
    requires { IsValueIn plan.old on.now }
    ensures answers { AnswersValue plan.new result (of_both (λ a. cut_array a (given plan.old args.now)) (λ s. cut_set s (given plan.old args.now)) (meaning plan.old on.now)) }
    ensures grows { Grows plan.old plan.new }
    ensures room { IfOk result (λ v. AddsAtMost plan.old plan.new (room (portions (meaning plan.old on.now) ++ portions (meaning plan.new v)))) }
{
    match on {
        Value::Array(array) => {
            let answer = chunked(alloc, plan, array, args)?;
            Ok(array_value(alloc, answer)?)
        }
        Value::Set(set) => {
            let answer = set_chunked(alloc, plan, set, args)?;
            Ok(set_value(alloc, answer)?)
        }
        _ => Err(CallFault::Refused(Fault::WrongKind)),
    }
}
