//! `demo(n)`.
ghost use Rattle.std.specs.Prelude.{◌≡◌, ◌≤◌, ◌∷◌, [], List, IfOk};
ghost use Rattle.xr_arrays.specs.declared.node.Node.{Node};
ghost use Rattle.xr_arrays.specs.Added.{AddsAtMost};
ghost use Rattle.xr_types.specs.Results.{Answers};
ghost use Rattle.xr_defs.specs.Room.{of_set, room, Portion};
ghost use Rattle.xr_defs.specs.Selecting as selecting;
ghost use Rattle.plan_core.specs.Plans.{Grows};
ghost use Rattle.xr_chunks.specs.Demo as of;
ghost use Rattle.xr_values.specs.Answers.{AnswersSet};
ghost use Rattle.xr_values.specs.Meaning.{given, meaning};
ghost use Rattle.xr_values.specs.Stands.{dataset_in};
ghost use Rattle.xr_types.specs.Points.{size};
ghost use Rattle.xr_demo.specs.Made.{shape, IsDemo, IsDemoVariable};

use crate::cells::cells;
use crate::frame::{axes, dims};
use plan_core::Plan;
use std::alloc::Global;
use xr_arguments::only;
use xr_arrays::Node;
use xr_types::{CallFault, DType, Fault, Items, NoMemory, TextBytes};
use xr_values::{Args, Dataset, Value, Variable, Variables};

#[tactic(auto, using(xr_arguments::proofs::Variants::is_number, xr_values::proofs::Meaning::meaning_out), unfolding(xr_defs::specs::Selecting::as_number))]
fn as_number(value: &Value) -> Result<i128, CallFault>
    ensures { (nodes : List Node) → Answers (λ n. n) result (selecting.as_number (meaning nodes value.now)) }
{
    match value {
        Value::Number(n) => Ok(*n),
        _ => Err(CallFault::Refused(Fault::WrongKind)),
    }
}

// How many times are asked for.
#[tactic(auto, unfolding(xr_chunks::specs::Demo::length_of, xr_types::specs::Results::unless))]
fn length_of(n: i128) -> Result<u32, CallFault>
    ensures answers { Answers (λ k. k) result (of.length_of n) }
    ensures few { IfOk result (λ k. k ≤ 1000000) }
{
    if 1 <= n && n <= 1_000_000 {
        Ok(n as u32)
    } else {
        Err(CallFault::Refused(Fault::BadArgument))
    }
}

fn variable(alloc: Global, plan: &mut Plan, n: u32) -> Result<Variable, NoMemory>
    requires { n ≤ 1000000 }
    ensures var { IfOk result (IsDemoVariable plan.new n) }
    ensures grows { Grows plan.old plan.new }
    ensures cells { IfOk result (λ v. AddsAtMost plan.old plan.new (size (shape n))) }
{
    let cells = cells(alloc, n)?;
    let node = plan.push(Node::Source { cells })?;
    Ok(Variable {
        name: TextBytes::from_str(alloc, "v")?,
        dims: dims(alloc)?,
        kind: DType::Int32,
        masked: false,
        attrs: Items::new(alloc),
        node,
    })
}

fn dataset(alloc: Global, plan: &mut Plan, n: u32) -> Result<Dataset, NoMemory>
    requires { n ≤ 1000000 }
    ensures set { IfOk result (IsDemo plan.new n) }
    ensures grows { Grows plan.old plan.new }
    ensures room { IfOk result (λ s. (p : Portion) → AddsAtMost plan.old plan.new (room (p ∷ of_set (dataset_in plan.new s) ∷ []))) }
{
    let axes = axes(alloc, n)?;
    let mut vars = Variables::new(alloc);
    vars.put(alloc, variable(alloc, plan, n)?)?;
    Ok(Dataset {
        axes,
        coords: Items::new(alloc),
        vars,
        attrs: Items::new(alloc),
        skipped: Items::new(alloc),
    })
}

/// A dataset of `n` times, six hours apart, whose one variable `v` has six cells at each.
///
/// # Errors
/// `BadArgument` unless the one argument is `n`, plain or by keyword; then `WrongKind` where it is no whole number; then
/// `BadArgument` below 1 and above 1,000,000.
#[tactic(auto, unfolding(xr_chunks::specs::Demo::demo))]
pub fn demo(alloc: Global, plan: &mut Plan, args: &Args) -> Result<Dataset, CallFault>
    ensures answers { (nodes : List Node) → AnswersSet plan.new result (of.demo (given nodes args.now)) }
    ensures grows { Grows plan.old plan.new }
    ensures room { IfOk result (λ s. (p : Portion) → AddsAtMost plan.old plan.new (room (p ∷ of_set (dataset_in plan.new s) ∷ []))) }
{
    let n = as_number(only(args, "n")?)?;
    let n = length_of(n)?;
    let set = dataset(alloc, plan, n)?;
    Ok(set)
}
