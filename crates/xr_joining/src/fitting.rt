//! What comes over joined axes: steps, cells and coordinates.
ghost use Rattle.std.specs.Prelude.{◌≡◌, ◌<◌, ◌+◌, ◌++◌, ◌^◌, List, length, map, None, All, IfOk, OnOk};
ghost use Rattle.xr_arrays.specs.Nodes.{taken_from};
ghost use Rattle.xr_operations.specs.Alignment.{joined_in, sources};
ghost use Rattle.align_join.specs.Joined.{stays, HasFew};
ghost use Rattle.xr_formulas.specs.Chains.{steps_value};
ghost use Rattle.xr_joining.specs.Coords.{content_after, coord_after};
ghost use Rattle.xr_joining.specs.Fitted.{take_unless, takes};

use crate::limits::{MOST_NODE_CELLS, are_below, have_few, points, points_with};
use align_join::{sources, stays};
use arrangement::taken;
use std::alloc::{AllocError, Global};
use xr_arrays::ArrayValue;
use xr_defs::{Content, Coord};
use xr_formulas::Step;
use xr_types::{Axis, DeepCopy, Items, NoMemory};

/// The joined axis of an axis' name, or the axis itself where there is none.
#[tactic(auto, using(crate::proofs::NamedAxes::in_here, crate::proofs::NamedAxes::in_rest))]
fn joined_in<'a>(joined: &'a [Axis], own: &'a Axis) -> &'a Axis
    ensures { result.now ≡ joined_in joined.now own.now }
{
    match joined {
        [] => own,
        [axis, rest @ ..] => {
            if axis.name.is(&own.name) {
                axis
            } else {
                joined_in(rest, own)
            }
        }
    }
}

// ---- steps

// Unless the positions stay.
fn push_take(
    alloc: Global,
    steps: &mut Items<Step>,
    k: usize,
    own: &Axis,
    joined: &Axis,
) -> Result<(), NoMemory>
    requires { HasFew own.now }
    ensures { OnOk result (steps.new ≡ steps.old ++ take_unless (stays own.now.labels joined.now.labels) k (sources own.now joined.now)) }
{
    if stays(own, joined) {
        return Ok(());
    }
    let from = sources(alloc, own, joined)?;
    steps.push(Step::Take {
        axis: k,
        from,
        fill: None,
        drop: false,
    })?;
    Ok(())
}

/// Steps by which an array over these axes, the first of which has a number, comes over the joined ones.
#[tactic(auto, using(crate::proofs::Few::few_head, crate::proofs::Few::few_tail, std::proofs::lemmas::List::append_assoc))]
pub fn push_takes(
    alloc: Global,
    steps: &mut Items<Step>,
    joined: &[Axis],
    k: usize,
    own: &[Axis],
) -> Result<(), NoMemory>
    requires few { All HasFew own.now }
    requires low { k + length own.now < 2 ^ 64 }
    ensures { OnOk result (steps.new ≡ steps.old ++ takes joined.now k own.now) }
{
    match own {
        [] => Ok(()),
        [axis, rest @ ..] => {
            let new = joined_in(joined, axis);
            push_take(alloc, steps, k, axis, new)?;
            push_takes(alloc, steps, joined, k + 1, rest)
        }
    }
}

// ---- cells at hand

// The cells at positions of an axis. Positions that aren't there and too many cells, which no coordinate has, want memory.
fn taken_at(
    alloc: Global,
    cells: &ArrayValue,
    k: usize,
    from: &[Option<u32>],
) -> Result<ArrayValue, NoMemory>
    ensures { IfOk result (λ b. b ≡ taken_from cells.now k from.now None) }
{
    if k >= cells.shape().len() || !are_below(from, cells.shape()[k]) {
        return Err(NoMemory);
    }
    if points(cells.shape()) > MOST_NODE_CELLS
        || points_with(cells.shape(), k, from.len() as u64) > MOST_NODE_CELLS
    {
        return Err(NoMemory);
    }
    let left = taken(alloc, cells, k, from, false)?;
    Ok(left)
}

// Unless the positions stay.
fn one_after(
    alloc: Global,
    cells: ArrayValue,
    k: usize,
    own: &Axis,
    joined: &Axis,
) -> Result<ArrayValue, NoMemory>
    requires { HasFew own.now }
    ensures { IfOk result (λ b. b ≡ steps_value (take_unless (stays own.now.labels joined.now.labels) k (sources own.now joined.now)) cells) }
{
    if stays(own, joined) {
        return Ok(cells);
    }
    let from = sources(alloc, own, joined)?;
    let left = taken_at(alloc, &cells, k, from.as_slice())?;
    Ok(left)
}

#[tactic(auto, using(crate::proofs::Few::few_head, crate::proofs::Few::few_tail, crate::proofs::Spreads::steps_both))]
fn cells_after(
    alloc: Global,
    joined: &[Axis],
    k: usize,
    own: &[Axis],
    cells: ArrayValue,
) -> Result<ArrayValue, NoMemory>
    requires few { All HasFew own.now }
    requires low { k + length own.now < 2 ^ 64 }
    ensures { IfOk result (λ b. b ≡ steps_value (takes joined.now k own.now) cells) }
{
    match own {
        [] => Ok(cells),
        [axis, rest @ ..] => {
            let new = joined_in(joined, axis);
            let left = one_after(alloc, cells, k, axis, new)?;
            cells_after(alloc, joined, k + 1, rest, left)
        }
    }
}

// ---- coordinates

fn content_after(
    alloc: Global,
    joined: &[Axis],
    own: &[Axis],
    content: &Content,
) -> Result<Content, NoMemory>
    requires { All HasFew own.now }
    ensures { IfOk result (λ c. c ≡ content_after joined.now own.now content.now) }
{
    match content {
        Content::Cells(cells, masked) => {
            let copy = cells.copy(alloc)?;
            let left = cells_after(alloc, joined, 0, own, copy)?;
            Ok(Content::Cells(left, *masked))
        }
        Content::Text(text) => Ok(Content::Text(text.deep_copy(alloc)?)),
        Content::Time(coding, time) => Ok(Content::Time(coding.deep_copy(alloc)?, *time)),
    }
}

fn push_joined(
    alloc: Global,
    axes: &mut Items<Axis>,
    joined: &[Axis],
    own: &[Axis],
) -> Result<(), AllocError>
    ensures { OnOk result (axes.new ≡ axes.old ++ map (joined_in joined.now) own.now) }
{
    match own {
        [] => Ok(()),
        [axis, rest @ ..] => {
            axes.push(joined_in(joined, axis).deep_copy(alloc)?)?;
            push_joined(alloc, axes, joined, rest)
        }
    }
}

fn axes_after(alloc: Global, joined: &[Axis], own: &[Axis]) -> Result<Items<Axis>, AllocError>
    ensures { IfOk result (λ xs. xs ≡ map (joined_in joined.now) own.now) }
{
    let mut axes = Items::new(alloc);
    push_joined(alloc, &mut axes, joined, own)?;
    Ok(axes)
}

fn coord_after(alloc: Global, joined: &[Axis], coord: &Coord) -> Result<Coord, NoMemory>
    ensures { IfOk result (λ c. c ≡ coord_after joined.now coord.now) }
{
    let own = coord.axes.as_slice();
    if !have_few(own) {
        return Err(NoMemory);
    }
    let name = coord.name.deep_copy(alloc)?;
    let axes = axes_after(alloc, joined, own)?;
    let attrs = coord.attrs.deep_copy(alloc)?;
    let content = content_after(alloc, joined, own, &coord.content)?;
    Ok(Coord {
        name,
        axes,
        attrs,
        content,
    })
}

fn push_coords(
    alloc: Global,
    out: &mut Items<Coord>,
    joined: &[Axis],
    coords: &[Coord],
) -> Result<(), NoMemory>
    ensures { OnOk result (out.new ≡ out.old ++ map (coord_after joined.now) coords.now) }
{
    match coords {
        [] => Ok(()),
        [coord, rest @ ..] => {
            let one = coord_after(alloc, joined, coord)?;
            out.push(one)?;
            push_coords(alloc, out, joined, rest)
        }
    }
}

/// Coordinates over joined axes.
pub fn coords_after(
    alloc: Global,
    joined: &[Axis],
    coords: &[Coord],
) -> Result<Items<Coord>, NoMemory>
    ensures { IfOk result (λ cs. cs ≡ map (coord_after joined.now) coords.now) }
{
    let mut out = Items::new(alloc);
    push_coords(alloc, &mut out, joined, coords)?;
    Ok(out)
}
