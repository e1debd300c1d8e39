//! The functions of scripts: those over values, and the one that takes a file from the store.
ghost use Rattle.std.specs.Prelude.{◌≡◌, List, Result, IsTrue, IfOk};
ghost use denote.Param.Send.{IsSync};
ghost use Rattle.xr_runs.specs.Calls.{opened_set, function_called, function_of_several, function_over_values};
ghost use Rattle.xr_defs.specs.Decoding.{set_in};
ghost use Rattle.xr_defs.specs.Meanings.{Value as Meant};
ghost use Rattle.xr_types.specs.declared.fault.Fault.{Fault as AFault};
ghost use Rattle.xr_arrays.specs.declared.node.Node.{Node};
ghost use Rattle.xr_joint.specs.Joint.{AnswersOne};
ghost use Rattle.plan_core.specs.Plans.{Grows};
ghost use Rattle.xr_values.specs.Meaning.{meaning, given, IsValueIn, AreArgsIn};
ghost use Rattle.xr_run.specs.Answers.{Gives, GivesOrFails, Tallied};
ghost use Rattle.xr_run.specs.Functions.{set_value, open_call};

use crate::stopped::Stopped;
use bytes::Bytes;
use dataset_core::open_request;
use graph_pool::{Gate, Pool};
use plan_core::Plan;
use std::alloc::Global;
use std::rc::Rc;
use std::thread::Threads;
use xr_decode::decode_bytes;
use xr_outside::{Got, Store, StoreFault};
use xr_types::{CallFault, CdfKind, DeepCopy, Fault, MOST_FILE_BYTES, TextBytes};
use xr_values::{Args, Cx, Value};

// The dataset of a file's bytes.
#[tactic(auto, using(xr_arguments::proofs::Variants::is_set, xr_arguments::proofs::Inside::set_inside))]
fn opened_value(
    alloc: Global,
    plan: &mut Plan,
    bytes: Vec<u8>,
    mask: bool,
) -> Result<Value, Stopped>
    ensures value { Gives (meaning plan.new) result (set_value (set_in bytes.items mask)) }
    ensures inside { IfOk result (IsValueIn plan.new) }
    ensures grows { Grows plan.old plan.new }
{
    let bytes = Bytes::from_vec(bytes)?;
    match decode_bytes(alloc, plan, &bytes, mask) {
        Ok(set) => Ok(Value::Set(Rc::new(alloc, set)?)),
        Err(fault) => Err(Stopped::from(fault)),
    }
}

// The dataset of the file of a name. The whole file is taken.
#[tactic(auto, using(plan_core::proofs::Plans::grows_by_none), unfolding(xr_runs::specs::Calls::opened_set))]
fn open_file<S: Store>(
    alloc: Global,
    name: &TextBytes,
    mask: bool,
    store: &mut S,
    plan: &mut Plan,
) -> Result<Value, Stopped>
    ensures value { IsTrue (S.tells store.old) → GivesOrFails (meaning plan.new) result (set_value (opened_set (S.held store.old) name.now mask)) }
    ensures inside { IfOk result (IsValueIn plan.new) }
    ensures grows { Grows plan.old plan.new }
    ensures keeps { IsTrue (S.tells store.old) → S.held store.new ≡ S.held store.old }
    ensures tells { S.tells store.new ≡ S.tells store.old }
    ensures tallied { Tallied (S.faults store.old) (S.faults store.new) result }
{
    match store.get(alloc, name, MOST_FILE_BYTES as u64) {
        Ok(Got::Found(bytes)) => opened_value(alloc, plan, bytes, mask),
        Ok(Got::Absent) => match name.deep_copy(alloc) {
            Ok(name) => Err(Stopped::Refused(Fault::NoFile(name))),
            Err(_) => Err(Stopped::NoMemory),
        },
        Ok(Got::TooLong) => Err(Stopped::Refused(Fault::BadFile(CdfKind::TooLarge, 0))),
        Err(StoreFault::Failed) => Err(Stopped::Storage),
        Err(StoreFault::NoMemory) => Err(Stopped::NoMemory),
    }
}

// The call of `open_dataset`.
#[tactic(auto, using(plan_core::proofs::Plans::grows_by_none))]
fn open_dataset<S: Store>(
    alloc: Global,
    args: &Args,
    store: &mut S,
    plan: &mut Plan,
) -> Result<Value, Stopped>
    requires inside { AreArgsIn plan.old args.now }
    ensures value { IsTrue (S.tells store.old) → GivesOrFails (meaning plan.new) result (open_call (S.held store.old) (given plan.old args.now)) }
    ensures inside { IfOk result (IsValueIn plan.new) }
    ensures grows { Grows plan.old plan.new }
    ensures keeps { IsTrue (S.tells store.old) → S.held store.new ≡ S.held store.old }
    ensures tells { S.tells store.new ≡ S.tells store.old }
    ensures tallied { Tallied (S.faults store.old) (S.faults store.new) result }
{
    match open_request(alloc, args) {
        Ok(request) => open_file(alloc, &request.name, request.mask, store, plan),
        Err(fault) => Err(Stopped::from(fault)),
    }
}

// A function of values alone.
fn value_function<R: Threads + Sync, G: Gate>(
    rt: &R,
    alloc: Global,
    cx: &mut Cx<Pool<'_, G>>,
    name: &TextBytes,
    args: &Args,
) -> Result<Value, Stopped>
    requires sync { IsSync R.row }
    requires inside { AreArgsIn cx.old.plan args.now }
    ensures value { Gives (meaning cx.new.plan) result (function_over_values name.now (given cx.old.plan args.now)) }
    ensures inside { IfOk result (IsValueIn cx.new.plan) }
    ensures grows { Grows cx.old.plan cx.new.plan }
{
    match dataset_core::call_function(rt, alloc, cx, name, args) {
        Ok(value) => Ok(value),
        Err(fault) => Err(Stopped::from(fault)),
    }
}

// What a call answers, as the answer of a statement.
fn told(answer: Result<Value, CallFault>) -> Result<Value, Stopped>
    ensures value { (nodes : List Node) (means : Result Meant AFault) → AnswersOne nodes answer means → Gives (meaning nodes) result means }
    ensures inside { (nodes : List Node) (means : Result Meant AFault) → AnswersOne nodes answer means → IfOk result (IsValueIn nodes) }
{
    match answer {
        Ok(value) => Ok(value),
        Err(fault) => Err(Stopped::from(fault)),
    }
}

// A function that makes one value of several, or one of values alone.
#[tactic(auto, unfolding(xr_runs::specs::Calls::function_of_several))]
fn function_of_several<R: Threads + Sync, G: Gate>(
    rt: &R,
    alloc: Global,
    cx: &mut Cx<Pool<'_, G>>,
    name: &TextBytes,
    args: &Args,
) -> Result<Value, Stopped>
    requires sync { IsSync R.row }
    requires inside { AreArgsIn cx.old.plan args.now }
    ensures value { Gives (meaning cx.new.plan) result (function_of_several name.now (given cx.old.plan args.now)) }
    ensures inside { IfOk result (IsValueIn cx.new.plan) }
    ensures grows { Grows cx.old.plan cx.new.plan }
{
    if name.as_str() == "concat" {
        told(xr_concat::concat(rt, alloc, &mut cx.plan, args))
    } else if name.as_str() == "merge" {
        told(xr_merge::merge(rt, alloc, &mut cx.plan, args))
    } else if name.as_str() == "combine_by_coords" {
        told(xr_combine::combine_by_coords(rt, alloc, &mut cx.plan, args))
    } else {
        value_function(rt, alloc, cx, name, args)
    }
}

/// Calls a function by its name.
#[tactic(auto, unfolding(xr_runs::specs::Calls::function_called, xr_runs::specs::Calls::open_dataset))]
pub(crate) fn call_function<R: Threads + Sync, S: Store, G: Gate>(
    rt: &R,
    alloc: Global,
    name: &TextBytes,
    args: &Args,
    store: &mut S,
    cx: &mut Cx<Pool<'_, G>>,
) -> Result<Value, Stopped>
    requires sync { IsSync R.row }
    requires inside { AreArgsIn cx.old.plan args.now }
    ensures value { IsTrue (S.tells store.old) → GivesOrFails (meaning cx.new.plan) result (function_called (S.held store.old) name.now (given cx.old.plan args.now)) }
    ensures inside { IfOk result (IsValueIn cx.new.plan) }
    ensures grows { Grows cx.old.plan cx.new.plan }
    ensures keeps { IsTrue (S.tells store.old) → S.held store.new ≡ S.held store.old }
    ensures tells { S.tells store.new ≡ S.tells store.old }
    ensures tallied { Tallied (S.faults store.old) (S.faults store.new) result }
{
    if name.as_str() == "open_dataset" {
        open_dataset(alloc, args, store, &mut cx.plan)
    } else {
        function_of_several(rt, alloc, cx, name, args)
    }
}
