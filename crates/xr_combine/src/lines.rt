//! A grid put together, line by line along each dimension.
ghost use Rattle.std.specs.Prelude.{◌≡◌, List, option_map, IfOk};
ghost use denote.Param.Send.{IsSync};
ghost use Rattle.plan_core.specs.Plans.{Grows};
ghost use Rattle.xr_types.specs.Points.{size};
ghost use Rattle.xr_arrays.specs.declared.node.Node.{Node};
ghost use Rattle.xr_combination.specs.Combine as calls;
ghost use Rattle.xr_combination.specs.Pieces as pieces;
ghost use Rattle.xr_combination.specs.Pieces.{each_of};
ghost use Rattle.xr_merging.specs.Each.{behind};
ghost use Rattle.xr_values.specs.Meaning.{meaning, IsValueIn};
ghost use Rattle.xr_values.specs.Stands.{dataset_in, IsDatasetIn};
ghost use Rattle.xr_combine.specs.Sets.{sets_in, AnswersBehind, AnswersSeveral, AnswersShared, AreSetsIn, IsFixed};
ghost use Rattle.xr_combine.specs.Steps as steps;

use crate::picked::{lines_of, picked};
use crate::sets::as_values;
use plan_core::Plan;
use std::alloc::Global;
use std::rc::Rc;
use std::thread::Threads;
use xr_concat::concat_of;
use xr_tiling::size_of;
use xr_types::{CallFault, How, Items, Name, NoMemory};
use xr_values::{Dataset, Value};

// ---- one line

// What is made of datasets is one.
#[tactic(auto, using(xr_arguments::proofs::Variants::is_set, xr_arguments::proofs::Inside::inside_set))]
fn set_of(value: Value) -> Result<Rc<Dataset>, NoMemory>
    ensures is { (nodes : List Node) → IfOk result (λ s. dataset_in nodes s.value ≡ pieces.as_dataset (meaning nodes value)) }
    ensures inside { (nodes : List Node) → IsValueIn nodes value → IfOk result (λ s. IsDatasetIn nodes s.value) }
{
    match value {
        Value::Set(set) => Ok(set),
        _ => Err(NoMemory),
    }
}

// Datasets one after the other along a dimension.
fn concat_sets<R: Threads + Sync>(
    rt: &R,
    alloc: Global,
    plan: &mut Plan,
    how: How,
    fill: Option<&Value>,
    dim: &Name,
    sets: &[Rc<Dataset>],
) -> Result<Rc<Dataset>, CallFault>
    requires sync { IsSync R.row }
    requires inside { AreSetsIn plan.old sets.now }
    ensures answers { AnswersShared plan.new result (calls.concat_sets how (option_map (λ v. meaning plan.old v.now) fill.entry) dim.now (sets_in plan.old sets.now)) }
    ensures grows { Grows plan.old plan.new }
{
    let values = as_values(alloc, sets)?;
    let value = concat_of(rt, alloc, plan, dim, how, fill, values.as_slice())?;
    let set = set_of(value)?;
    Ok(set)
}

fn line_concatenated<R: Threads + Sync>(
    rt: &R,
    alloc: Global,
    plan: &mut Plan,
    how: How,
    fill: Option<&Value>,
    dim: &Name,
    tiles: &[Rc<Dataset>],
    positions: &[u64],
) -> Result<Rc<Dataset>, CallFault>
    requires sync { IsSync R.row }
    requires inside { AreSetsIn plan.old tiles.now }
    ensures answers { AnswersShared plan.new result (steps.line_concatenated how (option_map (λ v. meaning plan.old v.now) fill.entry) dim.now (sets_in plan.old tiles.now) positions.now) }
    ensures grows { Grows plan.old plan.new }
{
    let sets = picked(alloc, tiles, positions)?;
    concat_sets(rt, alloc, plan, how, fill, dim, sets.as_slice())
}

// ---- all lines along a dimension

fn push_lines<R: Threads + Sync>(
    rt: &R,
    alloc: Global,
    plan: &mut Plan,
    out: &mut Items<Rc<Dataset>>,
    how: How,
    fill: Option<&Value>,
    dim: &Name,
    tiles: &[Rc<Dataset>],
    lines: &[Items<u64>],
) -> Result<(), CallFault>
    requires sync { IsSync R.row }
    requires fixed { IsFixed fill }
    requires inside { AreSetsIn plan.old tiles.now }
    requires before { AreSetsIn plan.old out.old }
    ensures answers { AnswersBehind plan.new result out.new (behind (sets_in plan.old out.old) (each_of (steps.line_concatenated how (option_map (λ v. meaning plan.old v.now) fill.entry) dim.now (sets_in plan.old tiles.now)) lines.now)) }
    ensures grows { Grows plan.old plan.new }
{
    match lines {
        [] => Ok(()),
        [line, rest @ ..] => {
            let set = line_concatenated(rt, alloc, plan, how, fill, dim, tiles, line.as_slice())?;
            out.push(set)?;
            push_lines(rt, alloc, plan, out, how, fill, dim, tiles, rest)
        }
    }
}

fn lines_concatenated<R: Threads + Sync>(
    rt: &R,
    alloc: Global,
    plan: &mut Plan,
    how: How,
    fill: Option<&Value>,
    dim: &Name,
    tiles: &[Rc<Dataset>],
    lines: &[Items<u64>],
) -> Result<Items<Rc<Dataset>>, CallFault>
    requires sync { IsSync R.row }
    requires fixed { IsFixed fill }
    requires inside { AreSetsIn plan.old tiles.now }
    ensures answers { AnswersSeveral plan.new result (each_of (steps.line_concatenated how (option_map (λ v. meaning plan.old v.now) fill.entry) dim.now (sets_in plan.old tiles.now)) lines.now) }
    ensures grows { Grows plan.old plan.new }
{
    let mut out = Items::new(alloc);
    push_lines(rt, alloc, plan, &mut out, how, fill, dim, tiles, lines)?;
    Ok(out)
}

// ---- along the first dimension, then the next

// A grid has as many places as there are datasets: 64 bits hold the number.
fn places_of(shape: &[u64]) -> Result<u64, NoMemory>
    ensures { IfOk result (λ n. n ≡ size shape.now) }
{
    match size_of(shape) {
        Some(size) => Ok(size),
        None => Err(NoMemory),
    }
}

// There is one.
fn first_set(tiles: &[Rc<Dataset>]) -> Result<Rc<Dataset>, NoMemory>
    ensures is { (nodes : List Node) → IfOk result (λ s. dataset_in nodes s.value ≡ pieces.first_set (sets_in nodes tiles.now)) }
    ensures inside { (nodes : List Node) → AreSetsIn nodes tiles.now → IfOk result (λ s. IsDatasetIn nodes s.value) }
{
    match tiles {
        [] => Err(NoMemory),
        [tile, ..] => Ok(tile.clone()?),
    }
}

/// The datasets of a grid of this shape, in row order, put together along these dimensions.
#[tactic(auto, unfolding(xr_combination::specs::Combine::grid_concatenated))]
pub(crate) fn grid_concatenated<R: Threads + Sync>(
    rt: &R,
    alloc: Global,
    plan: &mut Plan,
    how: How,
    fill: Option<&Value>,
    dims: &[Name],
    shape: &[u64],
    tiles: &[Rc<Dataset>],
) -> Result<Rc<Dataset>, CallFault>
    requires sync { IsSync R.row }
    requires fixed { IsFixed fill }
    requires inside { AreSetsIn plan.old tiles.now }
    ensures answers { AnswersShared plan.new result (calls.grid_concatenated how (option_map (λ v. meaning plan.old v.now) fill.entry) dims.now shape.now (sets_in plan.old tiles.now)) }
    ensures grows { Grows plan.old plan.new }
{
    match dims {
        [] => Ok(first_set(tiles)?),
        [dim, dims @ ..] => match shape {
            [] => Ok(first_set(tiles)?),
            [count, shape @ ..] => {
                let lines = lines_of(alloc, *count, places_of(shape)?)?;
                let sets = lines_concatenated(
                    rt,
                    alloc,
                    plan,
                    how,
                    fill,
                    dim,
                    tiles,
                    lines.as_slice(),
                )?;
                grid_concatenated(rt, alloc, plan, how, fill, dims, shape, sets.as_slice())
            }
        },
    }
}
