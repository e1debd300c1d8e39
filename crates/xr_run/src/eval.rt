//! The values of expressions: parts from left to right, a receiver before its arguments, and then the call.
ghost use Rattle.std.specs.Prelude.{◌≡◌, List, IsTrue, All, OnOk, IfOk};
ghost use denote.Param.Send.{IsSync};
ghost use Rattle.xr_operations.specs.Arithmetic.{binary_called, unary_called};
ghost use Rattle.xr_arrays.specs.declared.node.Node.{Node};
ghost use Rattle.xr_syntax.specs.Syntax.{tree_of, all_arguments, all_trees, all_entries};
ghost use Rattle.xr_runs.specs.Evaluation.{value_of, values_of, entries_of, given_of, constant_value as value_of_constant, named};
ghost use Rattle.xr_runs.specs.Calls.{method_called, part_picked};
ghost use Rattle.xr_defs.specs.Meanings.{Number, Text, Sequence, Table, With, Entry};
ghost use Rattle.plan_core.specs.Plans.{Grows};
ghost use Rattle.xr_values.specs.Meaning.{meaning, given, all_values as values_meant, all_entries as entries_meant, IsValueIn, IsEntryIn, AreArgsIn};
ghost use Rattle.xr_run.specs.Arguments.{and_argument, placed_of, with_right};
ghost use Rattle.xr_run.specs.Named.{names_of, AreNamesIn};
ghost use Rattle.xr_run.specs.Answers.{Gives, GivesOrFails, Tallied};

use crate::functions::call_function;
use crate::names::NameMap;
use crate::stopped::Stopped;
use dataset_core::{assigned_value, binary_operator, call_method, pick, unary_operator};
use graph_pool::{Gate, Pool};
use plan_core::Plan;
use std::alloc::{AllocError, Global};
use std::thread::Threads;
use xr_outside::Store;
use xr_syntax::{Argument, Constant, Expr};
use xr_types::{DeepCopy, Fault, OpKind, TextBytes};
use xr_values::{Args, Cx, Value};

#[tactic(auto, using(xr_arguments::proofs::Variants::is_truth, xr_arguments::proofs::Variants::is_absent, xr_arguments::proofs::Variants::is_missing, xr_arguments::proofs::Inside::truth_inside, xr_arguments::proofs::Inside::absent_inside, xr_arguments::proofs::Inside::missing_inside))]
fn constant_value(c: Constant) -> Value
    ensures value { (nodes : List Node) → meaning nodes result ≡ value_of_constant c }
    ensures inside { (nodes : List Node) → IsValueIn nodes result }
{
    match c {
        Constant::True => Value::Truth(true),
        Constant::False => Value::Truth(false),
        Constant::None => Value::Absent,
        Constant::Na => Value::Missing,
    }
}

// The value that a name stands for.
fn value_named(alloc: Global, names: &NameMap, name: &TextBytes) -> Result<Value, Stopped>
    ensures value { (nodes : List Node) → Gives (meaning nodes) result (named (names_of nodes names.now) name.now) }
    ensures inside { IfOk result (λ v. (nodes : List Node) → AreNamesIn nodes names.now → IsValueIn nodes v) }
{
    match names.get(name) {
        Some(value) => Ok(value.copy(alloc)?),
        None => Err(Stopped::Refused(Fault::UnknownName(name.deep_copy(alloc)?))),
    }
}

#[tactic(auto, using(xr_arguments::proofs::Variants::is_number, xr_arguments::proofs::Inside::number_inside))]
fn number_value(n: i128) -> Value
    ensures value { (nodes : List Node) → meaning nodes result ≡ Number n }
    ensures inside { (nodes : List Node) → IsValueIn nodes result }
{
    Value::Number(n)
}

#[tactic(auto, using(xr_arguments::proofs::Variants::is_text, xr_arguments::proofs::Inside::text_inside))]
fn text_value(text: TextBytes) -> Value
    ensures value { (nodes : List Node) → meaning nodes result ≡ Text text }
    ensures inside { (nodes : List Node) → IsValueIn nodes result }
{
    Value::Text(text)
}

fn list_value(items: Vec<Value>) -> Value
    ensures value { (nodes : List Node) → meaning nodes result ≡ Sequence (values_meant nodes items.items) }
    ensures inside { (nodes : List Node) → All (IsValueIn nodes) items.items → IsValueIn nodes result }
{
    Value::List(items)
}

fn table_value(entries: Vec<(TextBytes, Value)>) -> Value
    ensures value { (nodes : List Node) → meaning nodes result ≡ Table (entries_meant nodes entries.items) }
    ensures inside { (nodes : List Node) → All (IsEntryIn nodes) entries.items → IsValueIn nodes result }
{
    Value::Table(entries)
}

// The value of a method of a value.
fn method_value<R: Threads + Sync, G: Gate>(
    rt: &R,
    alloc: Global,
    cx: &mut Cx<Pool<'_, G>>,
    value: &Value,
    name: &TextBytes,
    args: &Args,
) -> Result<Value, Stopped>
    requires sync { IsSync R.row }
    requires inside { IsValueIn cx.old.plan value.now }
    requires given { AreArgsIn cx.old.plan args.now }
    ensures value { Gives (meaning cx.new.plan) result (method_called (meaning cx.old.plan value.now) name.now (given cx.old.plan args.now)) }
    ensures inside { IfOk result (IsValueIn cx.new.plan) }
    ensures grows { Grows cx.old.plan cx.new.plan }
{
    match call_method(rt, alloc, cx, value, name, args) {
        Ok(value) => Ok(value),
        Err(fault) => Err(Stopped::from(fault)),
    }
}

// A variable or labels of a value.
fn picked_value(
    alloc: Global,
    plan: &mut Plan,
    value: &Value,
    name: &TextBytes,
) -> Result<Value, Stopped>
    requires inside { IsValueIn plan.old value.now }
    ensures value { Gives (meaning plan.new) result (part_picked (meaning plan.old value.now) name.now) }
    ensures inside { IfOk result (IsValueIn plan.new) }
    ensures grows { Grows plan.old plan.new }
{
    match pick(alloc, plan, value, name) {
        Ok(value) => Ok(value),
        Err(fault) => Err(Stopped::from(fault)),
    }
}

/// The dataset that a name stands for, with a value put into it as a variable.
#[tactic(auto, using(plan_core::proofs::Plans::grows_by_none))]
pub(crate) fn placed_value(
    alloc: Global,
    plan: &mut Plan,
    names: &NameMap,
    name: &TextBytes,
    variable: &TextBytes,
    value: &Value,
) -> Result<Value, Stopped>
    requires names { AreNamesIn plan.old names.now }
    requires value { IsValueIn plan.old value.now }
    ensures value { Gives (meaning plan.new) result (placed_of (names_of plan.old names.now) name.now variable.now (meaning plan.old value.now)) }
    ensures inside { IfOk result (IsValueIn plan.new) }
    ensures grows { Grows plan.old plan.new }
{
    let target = value_named(alloc, names, name)?;
    match assigned_value(alloc, plan, &target, variable, value) {
        Ok(placed) => Ok(placed),
        Err(fault) => Err(Stopped::from(fault)),
    }
}

// An operator before a value.
fn unary_value(alloc: Global, plan: &mut Plan, op: OpKind, value: &Value) -> Result<Value, Stopped>
    requires inside { IsValueIn plan.old value.now }
    ensures value { Gives (meaning plan.new) result (unary_called op (meaning plan.old value.now)) }
    ensures inside { IfOk result (IsValueIn plan.new) }
    ensures grows { Grows plan.old plan.new }
{
    match unary_operator(alloc, plan, op, value) {
        Ok(value) => Ok(value),
        Err(fault) => Err(Stopped::from(fault)),
    }
}

// An operator between two values.
fn binary_value(
    alloc: Global,
    plan: &mut Plan,
    op: OpKind,
    left: &Value,
    right: &Value,
) -> Result<Value, Stopped>
    requires left { IsValueIn plan.old left.now }
    requires right { IsValueIn plan.old right.now }
    ensures value { Gives (meaning plan.new) result (binary_called op (meaning plan.old left.now) (meaning plan.old right.now)) }
    ensures inside { IfOk result (IsValueIn plan.new) }
    ensures grows { Grows plan.old plan.new }
{
    match binary_operator(alloc, plan, op, left, right) {
        Ok(value) => Ok(value),
        Err(fault) => Err(Stopped::from(fault)),
    }
}

fn push_argument(
    alloc: Global,
    args: &mut Args,
    name: &Option<TextBytes>,
    value: Value,
) -> Result<(), AllocError>
    ensures value { OnOk result ((nodes : List Node) → given nodes args.new ≡ and_argument (given nodes args.old) name.now (meaning nodes value)) }
    ensures inside { OnOk result ((nodes : List Node) → AreArgsIn nodes args.old → IsValueIn nodes value → AreArgsIn nodes args.new) }
{
    match name {
        Some(name) => {
            let name = name.deep_copy(alloc)?;
            args.push_keyed(name, value)
        }
        None => args.push_plain(value),
    }
}

#[tactic(auto, using(xr_values::proofs::Meaning::all_entered))]
fn push_entry(
    alloc: Global,
    entries: &mut Vec<(TextBytes, Value)>,
    key: &TextBytes,
    value: Value,
) -> Result<(), AllocError>
    ensures value { OnOk result ((nodes : List Node) → entries_meant nodes entries.new.items ≡ Entry (entries_meant nodes entries.old.items) key.now (meaning nodes value)) }
    ensures inside { OnOk result ((nodes : List Node) → All (IsEntryIn nodes) entries.old.items → IsValueIn nodes value → All (IsEntryIn nodes) entries.new.items) }
{
    let key = key.deep_copy(alloc)?;
    Ok(entries.push((key, value))?)
}

#[tactic(auto, using(xr_values::proofs::Meaning::all_more))]
fn push_item(items: &mut Vec<Value>, value: Value) -> Result<(), AllocError>
    ensures value { OnOk result ((nodes : List Node) → values_meant nodes items.new.items ≡ With (values_meant nodes items.old.items) (meaning nodes value)) }
    ensures inside { OnOk result ((nodes : List Node) → All (IsValueIn nodes) items.old.items → IsValueIn nodes value → All (IsValueIn nodes) items.new.items) }
{
    Ok(items.push(value)?)
}

// The arguments of a call.
#[cycle(evaluation)]
pub(crate) fn eval_arguments<R: Threads + Sync, S: Store, G: Gate>(
    rt: &R,
    alloc: Global,
    arguments: &[Argument],
    names: &NameMap,
    store: &mut S,
    cx: &mut Cx<Pool<'_, G>>,
) -> Result<Args, Stopped>
    requires sync { IsSync R.row }
    requires inside { AreNamesIn cx.old.plan names.now }
    ensures value { IsTrue (S.tells store.old) → GivesOrFails (given cx.new.plan) result (given_of (names_of cx.old.plan names.now) (S.held store.old) (all_arguments arguments.now)) }
    ensures inside { IfOk result (AreArgsIn cx.new.plan) }
    ensures grows { Grows cx.old.plan cx.new.plan }
    ensures keeps { IsTrue (S.tells store.old) → S.held store.new ≡ S.held store.old }
    ensures tells { S.tells store.new ≡ S.tells store.old }
    ensures tallied { Tallied (S.faults store.old) (S.faults store.new) result }
{
    let mut args = Args::new(alloc);
    for argument in arguments {
        match eval(rt, alloc, &argument.1, names, store, cx) {
            Ok(value) => push_argument(alloc, &mut args, &argument.0, value)?,
            Err(stopped) => return Err(stopped),
        }
    }
    Ok(args)
}

// The items of a list.
#[cycle(evaluation)]
fn eval_items<R: Threads + Sync, S: Store, G: Gate>(
    rt: &R,
    alloc: Global,
    items: &[Expr],
    names: &NameMap,
    store: &mut S,
    cx: &mut Cx<Pool<'_, G>>,
) -> Result<Vec<Value>, Stopped>
    requires sync { IsSync R.row }
    requires inside { AreNamesIn cx.old.plan names.now }
    ensures value { IsTrue (S.tells store.old) → GivesOrFails (λ v. values_meant cx.new.plan v.items) result (values_of (names_of cx.old.plan names.now) (S.held store.old) (all_trees items.now)) }
    ensures inside { IfOk result (λ v. All (IsValueIn cx.new.plan) v.items) }
    ensures grows { Grows cx.old.plan cx.new.plan }
    ensures keeps { IsTrue (S.tells store.old) → S.held store.new ≡ S.held store.old }
    ensures tells { S.tells store.new ≡ S.tells store.old }
    ensures tallied { Tallied (S.faults store.old) (S.faults store.new) result }
{
    let mut values = Vec::new(alloc);
    for item in items {
        match eval(rt, alloc, item, names, store, cx) {
            Ok(value) => push_item(&mut values, value)?,
            Err(stopped) => return Err(stopped),
        }
    }
    Ok(values)
}

// The entries of a table.
#[cycle(evaluation)]
fn eval_entries<R: Threads + Sync, S: Store, G: Gate>(
    rt: &R,
    alloc: Global,
    entries: &[(TextBytes, Expr)],
    names: &NameMap,
    store: &mut S,
    cx: &mut Cx<Pool<'_, G>>,
) -> Result<Vec<(TextBytes, Value)>, Stopped>
    requires sync { IsSync R.row }
    requires inside { AreNamesIn cx.old.plan names.now }
    ensures value { IsTrue (S.tells store.old) → GivesOrFails (λ v. entries_meant cx.new.plan v.items) result (entries_of (names_of cx.old.plan names.now) (S.held store.old) (all_entries entries.now)) }
    ensures inside { IfOk result (λ v. All (IsEntryIn cx.new.plan) v.items) }
    ensures grows { Grows cx.old.plan cx.new.plan }
    ensures keeps { IsTrue (S.tells store.old) → S.held store.new ≡ S.held store.old }
    ensures tells { S.tells store.new ≡ S.tells store.old }
    ensures tallied { Tallied (S.faults store.old) (S.faults store.new) result }
{
    let mut values = Vec::new(alloc);
    for entry in entries {
        match eval(rt, alloc, &entry.1, names, store, cx) {
            Ok(value) => push_entry(alloc, &mut values, &entry.0, value)?,
            Err(stopped) => return Err(stopped),
        }
    }
    Ok(values)
}

// The value of an operator between a value and an expression.
#[cycle(evaluation)]
fn eval_right<R: Threads + Sync, S: Store, G: Gate>(
    rt: &R,
    alloc: Global,
    expr: &Expr,
    op: OpKind,
    left: Value,
    names: &NameMap,
    store: &mut S,
    cx: &mut Cx<Pool<'_, G>>,
) -> Result<Value, Stopped>
    requires sync { IsSync R.row }
    requires left { IsValueIn cx.old.plan left }
    requires inside { AreNamesIn cx.old.plan names.now }
    ensures value { IsTrue (S.tells store.old) → GivesOrFails (meaning cx.new.plan) result (with_right op (meaning cx.old.plan left) (value_of (names_of cx.old.plan names.now) (S.held store.old) (tree_of expr.now))) }
    ensures inside { IfOk result (IsValueIn cx.new.plan) }
    ensures grows { Grows cx.old.plan cx.new.plan }
    ensures keeps { IsTrue (S.tells store.old) → S.held store.new ≡ S.held store.old }
    ensures tells { S.tells store.new ≡ S.tells store.old }
    ensures tallied { Tallied (S.faults store.old) (S.faults store.new) result }
{
    match eval(rt, alloc, expr, names, store, cx) {
        Ok(right) => binary_value(alloc, &mut cx.plan, op, &left, &right),
        Err(stopped) => Err(stopped),
    }
}

/// The value of an expression.
#[cycle(evaluation)]
pub(crate) fn eval<R: Threads + Sync, S: Store, G: Gate>(
    rt: &R,
    alloc: Global,
    expr: &Expr,
    names: &NameMap,
    store: &mut S,
    cx: &mut Cx<Pool<'_, G>>,
) -> Result<Value, Stopped>
    requires sync { IsSync R.row }
    requires inside { AreNamesIn cx.old.plan names.now }
    ensures value { IsTrue (S.tells store.old) → GivesOrFails (meaning cx.new.plan) result (value_of (names_of cx.old.plan names.now) (S.held store.old) (tree_of expr.now)) }
    ensures inside { IfOk result (IsValueIn cx.new.plan) }
    ensures grows { Grows cx.old.plan cx.new.plan }
    ensures keeps { IsTrue (S.tells store.old) → S.held store.new ≡ S.held store.old }
    ensures tells { S.tells store.new ≡ S.tells store.old }
    ensures tallied { Tallied (S.faults store.old) (S.faults store.new) result }
{
    match expr {
        Expr::Name(name) => value_named(alloc, names, name),
        Expr::Number(n) => Ok(number_value(*n)),
        Expr::Text(text) => Ok(text_value(text.deep_copy(alloc)?)),
        Expr::Constant(c) => Ok(constant_value(*c)),
        Expr::Unary(op, a) => match eval(rt, alloc, a, names, store, cx) {
            Ok(value) => unary_value(alloc, &mut cx.plan, *op, &value),
            Err(stopped) => Err(stopped),
        },
        Expr::Binary(op, a, b) => match eval(rt, alloc, a, names, store, cx) {
            Ok(left) => eval_right(rt, alloc, b, *op, left, names, store, cx),
            Err(stopped) => Err(stopped),
        },
        Expr::Call(name, arguments) => {
            match eval_arguments(rt, alloc, arguments.as_slice(), names, store, cx) {
                Ok(args) => call_function(rt, alloc, name, &args, store, cx),
                Err(stopped) => Err(stopped),
            }
        }
        Expr::Method(receiver, name, arguments) => {
            match eval(rt, alloc, receiver, names, store, cx) {
                Ok(value) => {
                    match eval_arguments(rt, alloc, arguments.as_slice(), names, store, cx) {
                        Ok(args) => method_value(rt, alloc, cx, &value, name, &args),
                        Err(stopped) => Err(stopped),
                    }
                }
                Err(stopped) => Err(stopped),
            }
        }
        Expr::Index(receiver, name) => match eval(rt, alloc, receiver, names, store, cx) {
            Ok(value) => picked_value(alloc, &mut cx.plan, &value, name),
            Err(stopped) => Err(stopped),
        },
        Expr::List(items) => match eval_items(rt, alloc, items.as_slice(), names, store, cx) {
            Ok(values) => Ok(list_value(values)),
            Err(stopped) => Err(stopped),
        },
        Expr::Table(entries) => {
            match eval_entries(rt, alloc, entries.as_slice(), names, store, cx) {
                Ok(values) => Ok(table_value(values)),
                Err(stopped) => Err(stopped),
            }
        }
    }
}
