//! The functions that take no file.
ghost use Rattle.std.specs.Prelude.{◌≡◌, ◌∷◌, ℕ, List, false, IfOk};
ghost use denote.Param.Send.{IsSync};
ghost use Rattle.xr_arrays.specs.declared.node.Node.{Node};
ghost use Rattle.xr_arrays.specs.Added.{AddsAtMost};
ghost use Rattle.xr_defs.specs.Room.{portions, room, Portion};
ghost use Rattle.xr_defs.specs.Building.{data_array};
ghost use Rattle.xr_runs.specs.Calls.{function_over_values, uncomputed_function as uncomputed};
ghost use Rattle.xr_chunks.specs.Demo.{demo as demo_set_of};
ghost use Rattle.plan_core.specs.Plans.{Grows};
ghost use Rattle.xr_values.specs.Meaning.{given, meaning, IsValueIn, AreArgsIn};
ghost use Rattle.xr_building.specs.Written.{array_written};
ghost use Rattle.dataset_core.specs.Answers.{AnswersValue, array_told, set_told};
ghost use Rattle.dataset_core.specs.Assigned.{array_followed, function_told, FollowsValue};

use crate::choice::choice;
use crate::held::{array_value, set_value};
use crate::slice::slice_given;
use plan_core::{Compute, Plan};
use std::alloc::Global;
use std::thread::Threads;
use xr_building::array_written_out;
use xr_demo::demo;
use xr_reindexing::times;
use xr_types::{CallFault, DeepCopy, Fault, TextBytes};
use xr_values::{Args, Cx, Value};

// `DataArray(..)`.
#[tactic(auto, using(crate::proofs::Rooms::room_of_written))]
fn written_out<R: Threads + Sync, C: Compute>(
    rt: &R,
    alloc: Global,
    cx: &mut Cx<C>,
    args: &Args,
) -> Result<Value, CallFault>
    requires sync { IsSync R.row }
    requires given { AreArgsIn cx.old.plan args.now }
    ensures told { FollowsValue cx.new.plan result (array_followed (array_written (C.declines cx.old.compute cx.old.plan) cx.old.plan args.now)) }
    ensures undeclined { ((n : ℕ) → C.declines cx.old.compute cx.old.plan n ≡ false) → AnswersValue cx.new.plan result (array_told (data_array (given cx.old.plan args.now))) }
    ensures grows { Grows cx.old.plan cx.new.plan }
    ensures room { IfOk result (λ v. (p : Portion) → AddsAtMost cx.old.plan cx.new.plan (room (p ∷ portions (meaning cx.new.plan v)))) }
    ensures keeps { (nodes : List Node) (n : ℕ) → C.declines cx.new.compute nodes n ≡ C.declines cx.old.compute nodes n }
{
    let array = array_written_out(rt, alloc, cx, args)?;
    Ok(array_value(alloc, array)?)
}

// `demo(n)`.
fn demonstration(alloc: Global, plan: &mut Plan, args: &Args) -> Result<Value, CallFault>
    ensures answers { AnswersValue plan.new result (set_told (demo_set_of (given plan.old args.now))) }
    ensures grows { Grows plan.old plan.new }
    ensures room { IfOk result (λ v. (p : Portion) → AddsAtMost plan.old plan.new (room (p ∷ portions (meaning plan.new v)))) }
{
    let set = demo(alloc, plan, args)?;
    Ok(set_value(alloc, set)?)
}

// Those that compute no cells at once.
#[tactic(auto, using(plan_core::proofs::Plans::grows_by_none, plan_core::proofs::Added::adds_none, crate::proofs::Making::inside_answer, crate::proofs::Making::beside_one), unfolding(xr_runs::specs::Calls::uncomputed_function))]
fn uncomputed_function(
    alloc: Global,
    plan: &mut Plan,
    name: &TextBytes,
    args: &Args,
) -> Result<Value, CallFault>
    requires { AreArgsIn plan.old args.now }
    ensures answers { AnswersValue plan.new result (uncomputed name.now (given plan.old args.now)) }
    ensures inside { IfOk result (IsValueIn plan.new) }
    ensures grows { Grows plan.old plan.new }
    ensures room { IfOk result (λ v. (p : Portion) → AddsAtMost plan.old plan.new (room (p ∷ portions (meaning plan.new v)))) }
{
    if name.as_str() == "slice" {
        slice_given(alloc, args)
    } else if name.as_str() == "times" {
        times(alloc, args)
    } else if name.as_str() == "where" {
        choice(alloc, plan, args)
    } else if name.as_str() == "demo" {
        demonstration(alloc, plan, args)
    } else {
        Err(CallFault::Refused(Fault::UnknownName(name.deep_copy(alloc)?)))
    }
}

/// The value of a call of a function other than `open_dataset`: `DataArray(data, dims, coords, name, dtype)`, an array that
/// the script writes out, `slice(..)`, whose one to three ends and step are plain arguments, `times(units, LIST, calendar)`, times as
/// labels, `where(cond, x, y)`, the choice between two arrays or literals, and `demo(n)`, a dataset of any length.
///
/// # Errors
/// `UnknownName` for any other function; then those of the function. Where cells that the call needs are declined, it is that:
/// `DataArray` needs those of each array that it makes a coordinate.
#[tactic(auto, using(plan_core::proofs::Plans::grows_by_none, plan_core::proofs::Added::adds_none, crate::proofs::Labelling::follows_value), unfolding(xr_runs::specs::Calls::function_over_values, crate::specs::Assigned::function_told))]
pub fn call_function<R: Threads + Sync, C: Compute>(
    rt: &R,
    alloc: Global,
    cx: &mut Cx<C>,
    name: &TextBytes,
    args: &Args,
) -> Result<Value, CallFault>
    requires sync { IsSync R.row }
    requires given { AreArgsIn cx.old.plan args.now }
    ensures told { FollowsValue cx.new.plan result (function_told (C.declines cx.old.compute cx.old.plan) cx.old.plan name.now args.now) }
    ensures undeclined { ((n : ℕ) → C.declines cx.old.compute cx.old.plan n ≡ false) → AnswersValue cx.new.plan result (function_over_values name.now (given cx.old.plan args.now)) }
    ensures inside { IfOk result (IsValueIn cx.new.plan) }
    ensures grows { Grows cx.old.plan cx.new.plan }
    ensures room { IfOk result (λ v. (p : Portion) → AddsAtMost cx.old.plan cx.new.plan (room (p ∷ portions (meaning cx.new.plan v)))) }
    ensures keeps { (nodes : List Node) (n : ℕ) → C.declines cx.new.compute nodes n ≡ C.declines cx.old.compute nodes n }
{
    if name.as_str() == "DataArray" {
        written_out(rt, alloc, cx, args)
    } else {
        uncomputed_function(alloc, &mut cx.plan, name, args)
    }
}
