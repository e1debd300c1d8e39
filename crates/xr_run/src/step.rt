//! Carries out one statement: what it does is found first, with each check, and then done.
ghost use Rattle.std.specs.Prelude.{◌≡◌, List, map, All, IsTrue, IfOk, codes};
ghost use denote.Param.Send.{IsSync};
ghost use Rattle.xr_arrays.specs.declared.node.Node.{Node};
ghost use Rattle.xr_syntax.specs.Syntax.{line_of, tree_of, all_arguments, Assigned, Aligned, Placed, Printed as a_print, Written as a_write, Call as a_call, Method as a_method};
ghost use Rattle.plan_core.specs.Plans.{Grows};
ghost use Rattle.xr_relations.specs.Aligning.{align_called};
ghost use Rattle.xr_values.specs.Meaning.{meaning, given, IsValueIn, AreArgsIn};
ghost use Rattle.xr_run.specs.Answers.{Gives, Tallied};
ghost use Rattle.xr_run.specs.Broken.{PerformBroken, StepBroken};
ghost use Rattle.xr_run.specs.Named.{names_of, AreNamesIn};
ghost use Rattle.xr_run.specs.Steps.{EffectIs, EffectFits, IsEffectIn, PerformIs, PerformKeeps, StepIs, StepKeeps, PerformTallied, BothTallied};

use crate::effect::Effect;
use crate::eval::{eval, eval_arguments, placed_value};
use crate::names::NameMap;
use crate::printing::printed;
use crate::stopped::Stopped;
use crate::writing::written;
use graph_pool::{Gate, Pool};
use plan_core::Plan;
use std::alloc::{AllocError, Global};
use std::thread::Threads;
use xr_outside::{Sink, Store, StoreFault, write_all};
use xr_syntax::{Argument, Expr, Statement};
use xr_types::{DeepCopy, Items, TextBytes, copy_all};
use xr_values::{Args, Cx, Value};

// `name = expr`
#[tactic(auto, unfolding(xr_runs::specs::Runs::step))]
fn assign<R: Threads + Sync, S: Store, G: Gate>(
    rt: &R,
    alloc: Global,
    name: &TextBytes,
    expr: &Expr,
    names: &NameMap,
    store: &mut S,
    cx: &mut Cx<Pool<'_, G>>,
) -> Result<Effect, Stopped>
    requires sync { IsSync R.row }
    requires inside { AreNamesIn cx.old.plan names.now }
    ensures effect { IsTrue (S.tells store.old) → EffectIs cx.new.plan (Assigned name.now (tree_of expr.now)) (names_of cx.old.plan names.now) (S.held store.old) result }
    ensures fits { IsTrue (S.tells store.old) → EffectFits (names_of cx.old.plan names.now) (S.held store.old) (Assigned name.now (tree_of expr.now)) result }
    ensures inside { IfOk result (IsEffectIn cx.new.plan) }
    ensures grows { Grows cx.old.plan cx.new.plan }
    ensures keeps { IsTrue (S.tells store.old) → S.held store.new ≡ S.held store.old }
    ensures tells { S.tells store.new ≡ S.tells store.old }
    ensures tallied { Tallied (S.faults store.old) (S.faults store.new) result }
{
    match eval(rt, alloc, expr, names, store, cx) {
        Ok(value) => Ok(Effect::Bind(name.deep_copy(alloc)?, value)),
        Err(stopped) => Err(stopped),
    }
}

// The values over their joined axes.
fn aligned_values(
    alloc: Global,
    plan: &mut Plan,
    count: usize,
    args: &Args,
) -> Result<Items<Value>, Stopped>
    requires { AreArgsIn plan.old args.now }
    ensures value { Gives (λ vs. map (meaning plan.new) vs) result (align_called count (given plan.old args.now)) }
    ensures inside { IfOk result (All (IsValueIn plan.new)) }
    ensures grows { Grows plan.old plan.new }
{
    match xr_aligning::align(alloc, plan, count, args) {
        Ok(values) => Ok(values),
        Err(fault) => Err(Stopped::from(fault)),
    }
}

// `a, b = align(..)`
#[tactic(auto, unfolding(xr_runs::specs::Runs::step, xr_runs::specs::Runs::values_aligned))]
fn align<R: Threads + Sync, S: Store, G: Gate>(
    rt: &R,
    alloc: Global,
    targets: &[TextBytes],
    arguments: &[Argument],
    names: &NameMap,
    store: &mut S,
    cx: &mut Cx<Pool<'_, G>>,
) -> Result<Effect, Stopped>
    requires sync { IsSync R.row }
    requires inside { AreNamesIn cx.old.plan names.now }
    ensures effect { IsTrue (S.tells store.old) → EffectIs cx.new.plan (Aligned targets.now (a_call (codes "align") (all_arguments arguments.now))) (names_of cx.old.plan names.now) (S.held store.old) result }
    ensures fits { IsTrue (S.tells store.old) → EffectFits (names_of cx.old.plan names.now) (S.held store.old) (Aligned targets.now (a_call (codes "align") (all_arguments arguments.now))) result }
    ensures inside { IfOk result (IsEffectIn cx.new.plan) }
    ensures grows { Grows cx.old.plan cx.new.plan }
    ensures keeps { IsTrue (S.tells store.old) → S.held store.new ≡ S.held store.old }
    ensures tells { S.tells store.new ≡ S.tells store.old }
    ensures tallied { Tallied (S.faults store.old) (S.faults store.new) result }
{
    match eval_arguments(rt, alloc, arguments, names, store, cx) {
        Ok(args) => match aligned_values(alloc, &mut cx.plan, targets.len(), &args) {
            Ok(values) => Ok(Effect::BindEach(copy_all(alloc, targets)?, values)),
            Err(stopped) => Err(stopped),
        },
        Err(stopped) => Err(stopped),
    }
}

// `name["v"] = expr`
#[tactic(auto, unfolding(xr_runs::specs::Runs::step))]
fn place<R: Threads + Sync, S: Store, G: Gate>(
    rt: &R,
    alloc: Global,
    name: &TextBytes,
    variable: &TextBytes,
    expr: &Expr,
    names: &NameMap,
    store: &mut S,
    cx: &mut Cx<Pool<'_, G>>,
) -> Result<Effect, Stopped>
    requires sync { IsSync R.row }
    requires inside { AreNamesIn cx.old.plan names.now }
    ensures effect { IsTrue (S.tells store.old) → EffectIs cx.new.plan (Placed name.now variable.now (tree_of expr.now)) (names_of cx.old.plan names.now) (S.held store.old) result }
    ensures fits { IsTrue (S.tells store.old) → EffectFits (names_of cx.old.plan names.now) (S.held store.old) (Placed name.now variable.now (tree_of expr.now)) result }
    ensures inside { IfOk result (IsEffectIn cx.new.plan) }
    ensures grows { Grows cx.old.plan cx.new.plan }
    ensures keeps { IsTrue (S.tells store.old) → S.held store.new ≡ S.held store.old }
    ensures tells { S.tells store.new ≡ S.tells store.old }
    ensures tallied { Tallied (S.faults store.old) (S.faults store.new) result }
{
    match eval(rt, alloc, expr, names, store, cx) {
        Ok(value) => {
            match placed_value(alloc, &mut cx.plan, names, name, variable, &value) {
                Ok(set) => Ok(Effect::Bind(name.deep_copy(alloc)?, set)),
                Err(stopped) => Err(stopped),
            }
        }
        Err(stopped) => Err(stopped),
    }
}

// `print(expr)`
#[tactic(auto, unfolding(xr_runs::specs::Runs::step))]
fn print<R: Threads + Sync, S: Store, G: Gate>(
    rt: &R,
    alloc: Global,
    expr: &Expr,
    names: &NameMap,
    store: &mut S,
    cx: &mut Cx<Pool<'_, G>>,
) -> Result<Effect, Stopped>
    requires sync { IsSync R.row }
    requires inside { AreNamesIn cx.old.plan names.now }
    ensures effect { IsTrue (S.tells store.old) → EffectIs cx.new.plan (a_print (tree_of expr.now)) (names_of cx.old.plan names.now) (S.held store.old) result }
    ensures fits { IsTrue (S.tells store.old) → EffectFits (names_of cx.old.plan names.now) (S.held store.old) (a_print (tree_of expr.now)) result }
    ensures inside { IfOk result (IsEffectIn cx.new.plan) }
    ensures grows { Grows cx.old.plan cx.new.plan }
    ensures keeps { IsTrue (S.tells store.old) → S.held store.new ≡ S.held store.old }
    ensures tells { S.tells store.new ≡ S.tells store.old }
    ensures tallied { Tallied (S.faults store.old) (S.faults store.new) result }
{
    match eval(rt, alloc, expr, names, store, cx) {
        Ok(value) => match printed(rt, alloc, cx, &value) {
            Ok(text) => Ok(Effect::Print(text)),
            Err(stopped) => Err(stopped),
        },
        Err(stopped) => Err(stopped),
    }
}

// `receiver.to_netcdf(..)`
#[tactic(auto, unfolding(xr_runs::specs::Runs::step, xr_runs::specs::Runs::written_by))]
fn write<R: Threads + Sync, S: Store, G: Gate>(
    rt: &R,
    alloc: Global,
    receiver: &Expr,
    arguments: &[Argument],
    names: &NameMap,
    store: &mut S,
    cx: &mut Cx<Pool<'_, G>>,
) -> Result<Effect, Stopped>
    requires sync { IsSync R.row }
    requires inside { AreNamesIn cx.old.plan names.now }
    ensures effect { IsTrue (S.tells store.old) → EffectIs cx.new.plan (a_write (a_method (tree_of receiver.now) (codes "to_netcdf") (all_arguments arguments.now))) (names_of cx.old.plan names.now) (S.held store.old) result }
    ensures fits { IsTrue (S.tells store.old) → EffectFits (names_of cx.old.plan names.now) (S.held store.old) (a_write (a_method (tree_of receiver.now) (codes "to_netcdf") (all_arguments arguments.now))) result }
    ensures inside { IfOk result (IsEffectIn cx.new.plan) }
    ensures grows { Grows cx.old.plan cx.new.plan }
    ensures keeps { IsTrue (S.tells store.old) → S.held store.new ≡ S.held store.old }
    ensures tells { S.tells store.new ≡ S.tells store.old }
    ensures tallied { Tallied (S.faults store.old) (S.faults store.new) result }
{
    match eval(rt, alloc, receiver, names, store, cx) {
        Ok(value) => match eval_arguments(rt, alloc, arguments, names, store, cx) {
            Ok(args) => match written(rt, alloc, cx, &value, &args) {
                Ok((name, pieces)) => Ok(Effect::Write(name, pieces)),
                Err(stopped) => Err(stopped),
            },
            Err(stopped) => Err(stopped),
        },
        Err(stopped) => Err(stopped),
    }
}

// What a statement does, after all its checks.
fn effect_of<R: Threads + Sync, S: Store, G: Gate>(
    rt: &R,
    alloc: Global,
    statement: &Statement,
    names: &NameMap,
    store: &mut S,
    cx: &mut Cx<Pool<'_, G>>,
) -> Result<Effect, Stopped>
    requires sync { IsSync R.row }
    requires inside { AreNamesIn cx.old.plan names.now }
    ensures effect { IsTrue (S.tells store.old) → EffectIs cx.new.plan (line_of statement.now) (names_of cx.old.plan names.now) (S.held store.old) result }
    ensures fits { IsTrue (S.tells store.old) → EffectFits (names_of cx.old.plan names.now) (S.held store.old) (line_of statement.now) result }
    ensures inside { IfOk result (IsEffectIn cx.new.plan) }
    ensures grows { Grows cx.old.plan cx.new.plan }
    ensures keeps { IsTrue (S.tells store.old) → S.held store.new ≡ S.held store.old }
    ensures tells { S.tells store.new ≡ S.tells store.old }
    ensures tallied { Tallied (S.faults store.old) (S.faults store.new) result }
{
    match statement {
        Statement::Assign(name, expr) => assign(rt, alloc, name, expr, names, store, cx),
        Statement::Align(targets, arguments) => align(
            rt,
            alloc,
            targets.as_slice(),
            arguments.as_slice(),
            names,
            store,
            cx,
        ),
        Statement::Set(name, variable, expr) => {
            place(rt, alloc, name, variable, expr, names, store, cx)
        }
        Statement::Print(expr) => print(rt, alloc, expr, names, store, cx),
        Statement::Write(receiver, arguments) => {
            write(rt, alloc, receiver, arguments.as_slice(), names, store, cx)
        }
    }
}

// Does what a statement does.
fn perform<S: Store, O: Sink>(
    alloc: Global,
    effect: Effect,
    names: &mut NameMap,
    store: &mut S,
    out: &mut O,
) -> Result<(), Stopped>
    ensures performs { (nodes : List Node) → IsTrue (S.tells store.old) → PerformIs nodes effect (names_of nodes names.old) (names_of nodes names.new) (S.held store.old) (S.held store.new) (O.tells out.old) (O.taken out.old) (O.taken out.new) result }
    ensures inside { (nodes : List Node) → AreNamesIn nodes names.old → IsEffectIn nodes effect → AreNamesIn nodes names.new }
    ensures broken { IsTrue (S.tells store.old) → PerformBroken effect (S.held store.old) (S.held store.new) (O.tells out.old) (O.taken out.old) (O.taken out.new) result }
    ensures keeps { IsTrue (S.tells store.old) → PerformKeeps effect (S.held store.old) (S.held store.new) }
    ensures store_tells { S.tells store.new ≡ S.tells store.old }
    ensures out_tells { O.tells out.new ≡ O.tells out.old }
    ensures tallied { PerformTallied (S.faults store.old) (S.faults store.new) (O.faults out.old) (O.faults out.new) result }
{
    match effect {
        Effect::Bind(name, value) => match names.set(alloc, &name, value) {
            Ok(()) => Ok(()),
            Err(_) => Err(Stopped::NoMemory),
        },
        Effect::BindEach(targets, values) => {
            match names.set_each(alloc, targets.as_slice(), values.as_slice()) {
                Ok(()) => Ok(()),
                Err(_) => Err(Stopped::NoMemory),
            }
        }
        Effect::Print(text) => match write_all(out, &text) {
            Ok(()) => Ok(()),
            Err(_) => Err(Stopped::Storage),
        },
        Effect::Write(name, pieces) => match store.put_pieces(alloc, &name, pieces) {
            Ok(()) => Ok(()),
            Err(StoreFault::Failed) => Err(Stopped::Storage),
            Err(StoreFault::NoMemory) => Err(Stopped::NoMemory),
        },
    }
}

/// Carries out one statement.
pub(crate) fn step<R: Threads + Sync, S: Store, O: Sink, G: Gate>(
    rt: &R,
    alloc: Global,
    statement: &Statement,
    names: &mut NameMap,
    store: &mut S,
    out: &mut O,
    cx: &mut Cx<Pool<'_, G>>,
) -> Result<(), Stopped>
    requires sync { IsSync R.row }
    requires inside { AreNamesIn cx.old.plan names.old }
    ensures step { IsTrue (S.tells store.old) → StepIs (line_of statement.now) (names_of cx.old.plan names.old) (names_of cx.new.plan names.new) (S.held store.old) (S.held store.new) (O.tells out.old) (O.taken out.old) (O.taken out.new) result }
    ensures inside { AreNamesIn cx.new.plan names.new }
    ensures grows { Grows cx.old.plan cx.new.plan }
    ensures broken { IsTrue (S.tells store.old) → StepBroken (line_of statement.now) (names_of cx.old.plan names.old) (S.held store.old) (S.held store.new) (O.tells out.old) (O.taken out.old) (O.taken out.new) result }
    ensures keeps { IsTrue (S.tells store.old) → StepKeeps (line_of statement.now) (names_of cx.old.plan names.old) (S.held store.old) (S.held store.new) }
    ensures store_tells { S.tells store.new ≡ S.tells store.old }
    ensures out_tells { O.tells out.new ≡ O.tells out.old }
    ensures tallied { BothTallied (S.faults store.old) (S.faults store.new) (O.faults out.old) (O.faults out.new) result }
{
    match effect_of(rt, alloc, statement, names, store, cx) {
        Ok(effect) => perform(alloc, effect, names, store, out),
        Err(stopped) => Err(stopped),
    }
}
