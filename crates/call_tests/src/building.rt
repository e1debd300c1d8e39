//! An array that becomes a coordinate where no node is computed. No script can show it, since a run computes every node.
ghost use Rattle.std.specs.Prelude.{List, All, IfOk, OnOk, refl, true};
ghost use denote.Param.Send.{IsSync};
ghost use Rattle.xr_arrays.specs.declared.node.Node.{Node};
ghost use Rattle.xr_values.specs.Meaning.{AreArgsIn, IsValueIn};
ghost use Rattle.xr_values.specs.Stands.{IsArrayIn};

use plan_core::{Compute, Plan};
use std::alloc::{AllocError, Global};
use std::rc::Rc;
use std::test::Fail;
use std::thread::Threads;
use xr_arrays::ArrayValue;
use xr_building::{array_written_out, assign_to_array};
use xr_types::{CallFault, ComputeFault, DeepCopy, NodeId, TextBytes};
use xr_values::{Args, Cx, DataArray, Value};

fn texts(alloc: Global, list: &[&str]) -> Result<Value, AllocError>
    ensures { IfOk result (λ v. (nodes : List Node) → IsValueIn nodes v) }
{
    let mut values = no_values(alloc);
    for text in list {
        push_value(&mut values, text_value(alloc, text)?)?;
    }
    Ok(list_value(values))
}

fn push(alloc: Global, args: &mut Args, key: &str, value: Value) -> Result<(), AllocError>
    ensures { OnOk result ((nodes : List Node) → AreArgsIn nodes args.old → IsValueIn nodes value → AreArgsIn nodes args.new) }
{
    args.push_keyed(TextBytes::from_str(alloc, key)?, value)
}

fn args(alloc: Global, content: Value, dims: &[&str]) -> Result<Args, AllocError>
    requires { (nodes : List Node) → IsValueIn nodes content }
    ensures { IfOk result (λ a. (nodes : List Node) → AreArgsIn nodes a) }
{
    let mut args = Args::new(alloc);
    args.push_plain(content)?;
    push(alloc, &mut args, "dims", texts(alloc, dims)?)?;
    Ok(args)
}

// What stands for a name; `Own` is an array that is at hand.
#[derive(Clone, Copy)]
enum Entry {
    Numbers(i128, i128, i128),
    Own,
}

type Entries<'a> = &'a [(&'a str, Entry)];

#[tactic(auto, using(xr_arguments::proofs::Variants::is_number, xr_arguments::proofs::Inside::number_inside))]
fn number_value(n: i128) -> Value
    ensures { (nodes : List Node) → IsValueIn nodes result }
{
    Value::Number(n)
}

#[tactic(auto, using(xr_arguments::proofs::Inside::missing_inside))]
fn missing_value() -> Value
    ensures { (nodes : List Node) → IsValueIn nodes result }
{
    Value::Missing
}

fn cell_value(cell: Option<i128>) -> Value
    ensures { (nodes : List Node) → IsValueIn nodes result }
{
    match cell {
        Some(n) => number_value(n),
        None => missing_value(),
    }
}

#[tactic(auto, using(xr_arguments::proofs::Variants::is_text, xr_arguments::proofs::Inside::text_inside))]
fn text_value(alloc: Global, text: &str) -> Result<Value, AllocError>
    ensures { IfOk result (λ v. (nodes : List Node) → IsValueIn nodes v) }
{
    Ok(Value::Text(TextBytes::from_str(alloc, text)?))
}

fn no_values(alloc: Global) -> Vec<Value>
    ensures { (nodes : List Node) → All (IsValueIn nodes) result.items }
{
    Vec::new(alloc)
}

#[tactic(auto, using(crate::proofs::TestValues::list_inside))]
fn list_value(items: Vec<Value>) -> Value
    ensures { (nodes : List Node) → All (IsValueIn nodes) items.items → IsValueIn nodes result }
{
    Value::List(items)
}

#[tactic(auto, using(xr_arguments::proofs::Variants::is_array, xr_arguments::proofs::Inside::array_inside))]
fn array_value(alloc: Global, array: &DataArray) -> Result<Value, AllocError>
    ensures { IfOk result (λ v. (nodes : List Node) → IsArrayIn nodes array.now → IsValueIn nodes v) }
{
    let array = array.deep_copy(alloc)?;
    Ok(Value::Array(Rc::new(alloc, array)?))
}

fn push_value(items: &mut Vec<Value>, value: Value) -> Result<(), AllocError>
    ensures { OnOk result ((nodes : List Node) → All (IsValueIn nodes) items.old.items → IsValueIn nodes value → All (IsValueIn nodes) items.new.items) }
{
    Ok(items.push(value)?)
}

// Three values as a list.
fn three(alloc: Global, first: Value, second: Value, third: Value) -> Result<Value, AllocError>
    ensures { IfOk result (λ v. (nodes : List Node) → IsValueIn nodes first → IsValueIn nodes second → IsValueIn nodes third → IsValueIn nodes v) }
{
    let mut items = Vec::new(alloc);
    push_value(&mut items, first)?;
    push_value(&mut items, second)?;
    push_value(&mut items, third)?;
    Ok(list_value(items))
}

fn value_of(alloc: Global, entry: Entry, own: &DataArray) -> Result<Value, AllocError>
    ensures { IfOk result (λ v. (nodes : List Node) → IsArrayIn nodes own.now → IsValueIn nodes v) }
{
    match entry {
        Entry::Numbers(a, b, c) => three(alloc, number_value(a), number_value(b), number_value(c)),
        Entry::Own => array_value(alloc, own),
    }
}

fn with_entries(
    alloc: Global,
    args: Args,
    entries: Entries,
    own: &DataArray,
) -> Result<Args, AllocError>
    ensures { IfOk result (λ a. (nodes : List Node) → IsArrayIn nodes own.now → AreArgsIn nodes args → AreArgsIn nodes a) }
{
    match entries {
        [] => Ok(args),
        [entry, rest @ ..] => {
            let mut args = args;
            let name = TextBytes::from_str(alloc, entry.0)?;
            args.push_keyed(name, value_of(alloc, entry.1, own)?)?;
            with_entries(alloc, args, rest, own)
        }
    }
}

// An array over `x` of these numbers.
fn over_x<R: Threads + Sync, C: Compute>(
    rt: &R,
    alloc: Global,
    cx: &mut Cx<C>,
    cells: &[Option<i128>],
) -> Result<DataArray, Fail>
    requires sync { IsSync R.row }
    ensures { IfOk result (IsArrayIn cx.new.plan) }
{
    let mut values = no_values(alloc);
    for cell in cells {
        push_value(&mut values, cell_value(*cell))?;
    }
    let given = args(alloc, list_value(values), ["x"].as_slice())?;
    match array_written_out(rt, alloc, cx, &given) {
        Ok(array) => Ok(array),
        Err(_) => Err("no array".into()),
    }
}

fn with_plan<C>(alloc: Global, compute: C) -> Cx<C> {
    Cx {
        plan: Plan::new(alloc),
        compute,
    }
}

// What is answered of an array with these entries.
fn told<R: Threads + Sync, C: Compute>(
    rt: &R,
    alloc: Global,
    cx: &mut Cx<C>,
    on: &DataArray,
    own: &DataArray,
    entries: Entries,
) -> Result<String, Fail>
    requires sync { IsSync R.row }
    requires inside { IsArrayIn cx.old.plan on.now }
    requires own { IsArrayIn cx.old.plan own.now }
{
    let args = with_entries(alloc, Args::new(alloc), entries, own)?;
    match assign_to_array(rt, alloc, cx, on, &args) {
        Ok(_) => Ok(String::from_str(alloc, "an array")?),
        Err(CallFault::Refused(fault)) => Ok(String::from_str(alloc, fault.words())?),
        Err(CallFault::Declined(_)) => Ok(String::from_str(alloc, "declined")?),
        Err(CallFault::NoMemory) => Ok(String::from_str(alloc, "no memory")?),
    }
}

const PAIR: [Option<i128>; 2] = [Some(10), Some(20)];

// Declines every node.
#[derive(Drop)]
struct Nothing;

impl Compute for Nothing {
    ghost declines = { λ s nodes n. true };

    ghost early = { λ s nodes more n lt. refl };

    fn cells<R: Threads + Sync>(
        &mut self,
        _rt: &R,
        _alloc: Global,
        _plan: &Plan,
        node: NodeId,
    ) -> Result<ArrayValue, ComputeFault> {
        Err(ComputeFault::Declined(node))
    }
}

// What comes behind a declined node has no turn.
#[test]
fn a_declined_node_is_the_answer(rt: HostRuntime) -> Result<(), Fail> {
    let alloc = rt.alloc();
    let mut cx = with_plan(alloc, Nothing);
    let on = over_x(&rt, alloc, &mut cx, &PAIR)?;
    let entries = [("y", Entry::Own), ("x", Entry::Numbers(1, 2, 3))];
    let text = told(&rt, alloc, &mut cx, &on, &on, &entries)?;
    assert_eq!(rt; text.as_str(), "declined");
    Ok(())
}
