//! The methods of arrays and datasets, found by their names.
ghost use Rattle.std.specs.Prelude.{◌≡◌, ◌++◌, ◌||◌, ℕ, List, false, true, IfOk};
ghost use denote.Param.Send.{IsSync};
ghost use Rattle.xr_arrays.specs.declared.node.Node.{Node};
ghost use Rattle.xr_arrays.specs.Added.{AddsAtMost};
ghost use Rattle.xr_defs.specs.Room.{portions, room};
ghost use Rattle.xr_types.specs.Names.{among};
ghost use Rattle.xr_runs.specs.Calls as calls;
ghost use Rattle.xr_runs.specs.Calls.{method_called, uncomputed_method as uncomputed, other_method as other_method_called, is_labelled_data as is_labelled, promoting};
ghost use Rattle.plan_core.specs.Plans.{Grows};
ghost use Rattle.xr_values.specs.Meaning.{meaning, given, IsValueIn, AreArgsIn};
ghost use Rattle.dataset_core.specs.Answers.{AnswersValue, RefusesValue};
ghost use Rattle.dataset_core.specs.Assigned.{method_told, FollowsValue};

use crate::cells::{cell_method, cumsum, is_cell_method};
use crate::choice::choice_of;
use crate::coords::assign_coords;
use crate::frames::{
    assign_attrs, chunk, drop_vars, isel, reindex, rename, sel, to_dataset, transpose,
};
use crate::grouped::{end_cell, fold, grouping};
use crate::moves::{diff, roll, shift};
use plan_core::{Compute, Plan};
use std::alloc::Global;
use std::thread::Threads;
use xr_grouping::maker_named;
use xr_reducing::reduction_named;
use xr_types::{CallFault, DeepCopy, Fault, FoldKind, TextBytes};
use xr_values::{Args, Cx, Value};

// Whether a method's answers aren't whole numbers.
fn is_promoting(name: &TextBytes) -> bool
    ensures { result ≡ among promoting name.now }
{
    let name = name.as_str();
    name == "mean"
        || name == "std"
        || name == "var"
        || name == "median"
        || name == "quantile"
        || name == "interp"
}

/// Whether a value is an array or a dataset.
#[tactic(auto, using(xr_arguments::proofs::Variants::is_array, xr_arguments::proofs::Variants::is_set, xr_values::proofs::Meaning::meaning_out))]
pub(crate) fn is_labelled_data(value: &Value) -> bool
    ensures { (nodes : List Node) → result ≡ is_labelled (meaning nodes value.now) }
{
    match value {
        Value::Array(_) => true,
        Value::Set(_) => true,
        _ => false,
    }
}

// Whether a value is an array or a dataset with its positions in groups.
#[tactic(auto, using(xr_arguments::proofs::Variants::is_grouped_array, xr_arguments::proofs::Variants::is_grouped_set, xr_values::proofs::Meaning::meaning_out))]
fn is_grouped(value: &Value) -> bool
    ensures { (nodes : List Node) → result ≡ calls.is_grouped (meaning nodes value.now) }
{
    match value {
        Value::GroupedArray(..) => true,
        Value::GroupedSet(..) => true,
        _ => false,
    }
}

// Whether the answers of methods on a value may be other than whole numbers.
fn has_promoting(value: &Value) -> bool
    ensures { (nodes : List Node) → result ≡ (is_labelled (meaning nodes value.now) || calls.is_grouped (meaning nodes value.now)) }
{
    is_labelled_data(value) || is_grouped(value)
}

// Why there is no other method of this name.
#[tactic(auto, unfolding(xr_runs::specs::Calls::other_method))]
fn other_method(alloc: Global, on: &Value, name: &TextBytes) -> CallFault
    ensures { (nodes : List Node) → RefusesValue result (other_method_called (meaning nodes on.now) name.now) }
{
    if is_promoting(name) {
        if has_promoting(on) {
            CallFault::Refused(Fault::WouldPromote)
        } else {
            CallFault::Refused(Fault::WrongKind)
        }
    } else {
        match name.deep_copy(alloc) {
            Ok(name) => CallFault::Refused(Fault::UnknownName(name)),
            Err(_) => CallFault::NoMemory,
        }
    }
}

// Positions in groups, or no method.
#[tactic(auto, unfolding(xr_runs::specs::Calls::grouping_called))]
fn grouping_called(
    alloc: Global,
    on: &Value,
    name: &TextBytes,
    args: &Args,
) -> Result<Value, CallFault>
    requires { (nodes : List Node) × IsValueIn nodes on.now }
    ensures { (nodes : List Node) → IsValueIn nodes on.now → AnswersValue nodes result (calls.grouping_called (meaning nodes on.now) name.now (given nodes args.now)) }
{
    match maker_named(name.as_str()) {
        Some(maker) => grouping(alloc, on, maker, args),
        None => Err(other_method(alloc, on, name)),
    }
}

// The ends of groups, positions in groups, or no method.
#[tactic(auto, using(plan_core::proofs::Plans::grows_by_none, plan_core::proofs::Added::adds_none), unfolding(xr_runs::specs::Calls::end_or_grouping))]
fn end_or_grouping(
    alloc: Global,
    plan: &mut Plan,
    on: &Value,
    name: &TextBytes,
    args: &Args,
) -> Result<Value, CallFault>
    requires { IsValueIn plan.old on.now }
    ensures answers { AnswersValue plan.new result (calls.end_or_grouping (meaning plan.old on.now) name.now (given plan.old args.now)) }
    ensures grows { Grows plan.old plan.new }
    ensures room { IfOk result (λ v. AddsAtMost plan.old plan.new (room (portions (meaning plan.old on.now) ++ portions (meaning plan.new v)))) }
{
    if name.as_str() == "first" {
        end_cell(alloc, plan, on, FoldKind::First, args)
    } else if name.as_str() == "last" {
        end_cell(alloc, plan, on, FoldKind::Last, args)
    } else {
        grouping_called(alloc, on, name, args)
    }
}

// A fold of groups or of dimensions, or another method of groups.
#[tactic(auto, unfolding(xr_runs::specs::Calls::reduction_called))]
fn reduction_called(
    alloc: Global,
    plan: &mut Plan,
    on: &Value,
    name: &TextBytes,
    args: &Args,
) -> Result<Value, CallFault>
    requires { IsValueIn plan.old on.now }
    ensures answers { AnswersValue plan.new result (calls.reduction_called (meaning plan.old on.now) name.now (given plan.old args.now)) }
    ensures grows { Grows plan.old plan.new }
    ensures room { IfOk result (λ v. AddsAtMost plan.old plan.new (room (portions (meaning plan.old on.now) ++ portions (meaning plan.new v)))) }
{
    match reduction_named(name.as_str()) {
        Some(kind) => fold(alloc, plan, on, kind, args),
        None => end_or_grouping(alloc, plan, on, name, args),
    }
}

// A move of cells along dimensions, or a reduction.
#[tactic(auto, unfolding(xr_runs::specs::Calls::move_or_reduction))]
fn move_or_reduction(
    alloc: Global,
    plan: &mut Plan,
    on: &Value,
    name: &TextBytes,
    args: &Args,
) -> Result<Value, CallFault>
    requires { IsValueIn plan.old on.now }
    ensures answers { AnswersValue plan.new result (calls.move_or_reduction (meaning plan.old on.now) name.now (given plan.old args.now)) }
    ensures grows { Grows plan.old plan.new }
    ensures room { IfOk result (λ v. AddsAtMost plan.old plan.new (room (portions (meaning plan.old on.now) ++ portions (meaning plan.new v)))) }
{
    let called = name.as_str();
    if called == "shift" {
        shift(alloc, plan, on, args)
    } else if called == "roll" {
        roll(alloc, plan, on, args)
    } else if called == "diff" {
        diff(alloc, plan, on, args)
    } else {
        reduction_called(alloc, plan, on, name, args)
    }
}

// The methods that give new cells.
#[tactic(auto, unfolding(xr_runs::specs::Calls::method_on_cells))]
fn method_on_cells(
    alloc: Global,
    plan: &mut Plan,
    on: &Value,
    name: &TextBytes,
    args: &Args,
) -> Result<Value, CallFault>
    requires on { IsValueIn plan.old on.now }
    requires given { AreArgsIn plan.old args.now }
    ensures answers { AnswersValue plan.new result (calls.method_on_cells (meaning plan.old on.now) name.now (given plan.old args.now)) }
    ensures grows { Grows plan.old plan.new }
    ensures room { IfOk result (λ v. AddsAtMost plan.old plan.new (room (portions (meaning plan.old on.now) ++ portions (meaning plan.new v)))) }
{
    if is_cell_method(name) {
        cell_method(alloc, plan, on, name, args)
    } else if name.as_str() == "where" {
        choice_of(alloc, plan, on, args)
    } else if name.as_str() == "cumsum" {
        cumsum(alloc, plan, on, args)
    } else {
        move_or_reduction(alloc, plan, on, name, args)
    }
}

// The methods that compute no cells at once.
#[tactic(auto, using(plan_core::proofs::Plans::grows_by_none), unfolding(xr_runs::specs::Calls::uncomputed_method))]
fn uncomputed_method(
    alloc: Global,
    plan: &mut Plan,
    on: &Value,
    name: &TextBytes,
    args: &Args,
) -> Result<Value, CallFault>
    requires on { IsValueIn plan.old on.now }
    requires given { AreArgsIn plan.old args.now }
    ensures answers { AnswersValue plan.new result (uncomputed (meaning plan.old on.now) name.now (given plan.old args.now)) }
    ensures inside { IfOk result (IsValueIn plan.new) }
    ensures grows { Grows plan.old plan.new }
    ensures room { IfOk result (λ v. AddsAtMost plan.old plan.new (room (portions (meaning plan.old on.now) ++ portions (meaning plan.new v)))) }
{
    let called = name.as_str();
    if called == "isel" {
        isel(alloc, plan, on, args)
    } else if called == "sel" {
        sel(alloc, plan, on, args)
    } else if called == "reindex" {
        reindex(alloc, plan, on, args)
    } else if called == "transpose" {
        transpose(alloc, plan, on, args)
    } else if called == "drop_vars" {
        drop_vars(alloc, plan, on, args)
    } else if called == "assign_attrs" {
        assign_attrs(alloc, plan, on, args)
    } else if called == "rename" {
        rename(alloc, plan, on, args)
    } else if called == "to_dataset" {
        to_dataset(alloc, plan, on, args)
    } else if called == "chunk" {
        chunk(alloc, plan, on, args)
    } else {
        method_on_cells(alloc, plan, on, name, args)
    }
}

/// The value of a call of a method: `isel`, `sel`, `reindex`, `drop_vars`, `assign_coords`, `assign_attrs`, `cumsum`, `shift`,
/// `roll`, `diff`, `chunk` and reductions of arrays and datasets, `groupby`, `resample`, `rolling` and `coarsen` of them and the
/// methods of the groups, and `transpose`, `rename`, `to_dataset`, `isnull`, `notnull`, `astype`,
/// `fillna`, `where`, `argmin` and `argmax` of arrays.
///
/// # Errors
/// `UnknownName` for any other method, but `WouldPromote` for those of arrays and datasets, grouped or not, whose answers
/// aren't whole numbers, `mean` and its like; then `WrongKind` for a receiver that hasn't the method; then those of the method. Where
/// cells that the call needs are declined, it is that: `assign_coords` needs those of each array that it makes a coordinate.
#[tactic(auto, using(plan_core::proofs::Plans::grows_by_none, plan_core::proofs::Added::adds_none, crate::proofs::Labelling::follows_value), unfolding(xr_runs::specs::Calls::method_called, crate::specs::Assigned::method_told))]
pub fn call_method<R: Threads + Sync, C: Compute>(
    rt: &R,
    alloc: Global,
    cx: &mut Cx<C>,
    on: &Value,
    name: &TextBytes,
    args: &Args,
) -> Result<Value, CallFault>
    requires sync { IsSync R.row }
    requires inside { IsValueIn cx.old.plan on.now }
    requires given { AreArgsIn cx.old.plan args.now }
    ensures told { FollowsValue cx.new.plan result (method_told (C.declines cx.old.compute cx.old.plan) cx.old.plan on.now name.now args.now) }
    ensures undeclined { ((n : ℕ) → C.declines cx.old.compute cx.old.plan n ≡ false) → AnswersValue cx.new.plan result (method_called (meaning cx.old.plan on.now) name.now (given cx.old.plan args.now)) }
    ensures inside { IfOk result (IsValueIn cx.new.plan) }
    ensures grows { Grows cx.old.plan cx.new.plan }
    ensures room { IfOk result (λ v. AddsAtMost cx.old.plan cx.new.plan (room (portions (meaning cx.old.plan on.now) ++ portions (meaning cx.new.plan v)))) }
    ensures keeps { (nodes : List Node) (n : ℕ) → C.declines cx.new.compute nodes n ≡ C.declines cx.old.compute nodes n }
{
    if name.as_str() == "assign_coords" {
        assign_coords(rt, alloc, cx, on, args)
    } else {
        uncomputed_method(alloc, &mut cx.plan, on, name, args)
    }
}
