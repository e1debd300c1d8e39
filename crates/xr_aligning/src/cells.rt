//! Cells along axes that come to joined ones.
ghost use Rattle.std.specs.Prelude.{◌≡◌, ◌<◌, ◌≤◌, ◌^◌, ◌+◌, ◌++◌, true, length, map, get_or, All, IfOk, OnOk};
ghost use Rattle.xr_aligning.specs.Common.{Grows, IsBelow, IsCell, IsNodeOf, IsValueOf, TakesFit, is_below, value};
ghost use Rattle.xr_aligning.specs.Fits as of;

use crate::fits::{Fit, any_hole};
use arrangement::points;
use plan_core::Plan;
use std::alloc::{AllocError, Global};
use xr_arrays::ArrayValue;
use xr_changing::taken;
use xr_formulas::{Chain, Start, Step, fits, push_chain};
use xr_types::{DType, Items, MOST_DIMENSIONS, NoMemory, NodeId};

// ---- the fill

fn is_cell(kind: DType, fill: Option<i128>) -> bool
    ensures { result ≡ true → IsCell kind fill }
{
    match fill {
        None => true,
        Some(n) => fits(kind, n),
    }
}

fn fill_in(hole: bool, fill: Option<i128>) -> Option<i128>
    ensures { result ≡ of.fill_in hole fill }
{
    if hole { fill } else { None }
}

fn fill_for(kind: DType, fits: &[&Fit], fill: Option<i128>) -> Result<Option<i128>, NoMemory>
    ensures fill { IfOk result (λ f. f ≡ of.fill_in (of.any_hole (map (λ f. f.now) fits.now)) fill) }
    ensures cell { IfOk result (IsCell kind) }
{
    let needed = fill_in(any_hole(fits), fill);
    if is_cell(kind, needed) {
        Ok(needed)
    } else {
        Err(NoMemory)
    }
}

// ---- positions of one axis

fn is_below(at: Option<u32>, size: u64) -> bool
    ensures { result ≡ is_below size at }
{
    match at {
        None => true,
        Some(at) => u64::from(at) < size,
    }
}

/// Whether positions lie below a size.
#[tactic(auto, using(xr_joining::proofs::Few::each_below))]
pub fn are_below(from: &[Option<u32>], size: u64) -> bool
    ensures { result ≡ true → All (IsBelow size) from.now }
{
    from.iter().all(|at| is_below(*at, size))
}

// ---- steps

/// Cells of a node of a plan.
const MOST_NODE_CELLS: u64 = 1 << 50;

fn can_take(shape: &[u64], axis: usize, from: &[Option<u32>]) -> bool
    ensures axis { result ≡ true → axis < length shape.now }
    ensures below { result ≡ true → All (IsBelow (get_or shape.now axis 0)) from.now }
{
    axis < shape.len() && are_below(from, shape[axis])
}

// Adds the steps along axes that stand from a number on, of cells of these sizes and this kind.
fn push_steps(
    alloc: Global,
    steps: &mut Items<Step>,
    fits: &[&Fit],
    fill: Option<i128>,
    axis: usize,
    shape: &mut Items<u64>,
    kind: DType,
) -> Result<(), NoMemory>
    requires axis { axis + length fits.now < 2 ^ 64 }
    requires cell { IsCell kind fill }
    ensures is { OnOk result (steps.new ≡ steps.old ++ of.steps_from fill axis (map (λ f. f.now) fits.now)) }
    ensures fits { OnOk result (TakesFit (of.steps_from fill axis (map (λ f. f.now) fits.now)) shape.old kind) }
{
    match fits {
        [] => Ok(()),
        [fit, rest @ ..] => {
            if let Some(from) = &fit.from {
                let from = from.as_slice();
                if !can_take(shape.as_slice(), axis, from) {
                    return Err(NoMemory);
                }
                shape.set(axis, from.len() as u64);
                if points(shape.as_slice()) > MOST_NODE_CELLS {
                    return Err(NoMemory);
                }
                steps.push(Step::Take {
                    axis,
                    from: Items::from_slice(alloc, from)?,
                    fill,
                    drop: false,
                })?;
            }
            push_steps(alloc, steps, rest, fill, axis + 1, shape, kind)
        }
    }
}

// The steps of cells of these sizes. Those that a plan doesn't take, which no array over joined axes has, want memory.
fn steps_along(
    alloc: Global,
    fits: &[&Fit],
    fill: Option<i128>,
    shape: &[u64],
    kind: DType,
) -> Result<Items<Step>, NoMemory>
    requires { IsCell kind fill }
    ensures is { IfOk result (λ steps. steps ≡ of.steps_from fill 0 (map (λ f. f.now) fits.now)) }
    ensures fits { IfOk result (λ steps. TakesFit (of.steps_from fill 0 (map (λ f. f.now) fits.now)) shape.now kind) }
    ensures rank { IfOk result (λ steps. length shape.now ≤ 16) }
{
    if shape.len() > MOST_DIMENSIONS {
        return Err(NoMemory);
    }
    let mut steps = Items::new(alloc);
    let mut sizes = Items::from_slice(alloc, shape)?;
    push_steps(alloc, &mut steps, fits, fill, 0, &mut sizes, kind)?;
    Ok(steps)
}

fn own_sizes(alloc: Global, fits: &[&Fit]) -> Result<Items<u64>, AllocError>
    ensures { IfOk result (λ s. s ≡ of.own_sizes (map (λ f. f.now) fits.now)) }
{
    let mut sizes = Items::new(alloc);
    for fit in fits {
        sizes.push(fit.own)?;
    }
    Ok(sizes)
}

/// A node with the cells of another one along joined axes.
pub fn node_after(
    alloc: Global,
    plan: &mut Plan,
    kind: DType,
    node: NodeId,
    fits: &[&Fit],
    fill: Option<i128>,
) -> Result<NodeId, NoMemory>
    requires { IsNodeOf plan.old node (of.own_sizes (map (λ f. f.now) fits.now)) kind }
    ensures value { IfOk result (IsValueOf plan.new (of.cells_after fill (map (λ f. f.now) fits.now) (value plan.old node))) }
    ensures cell { IfOk result (λ n. IsCell kind (of.fill_in (of.any_hole (map (λ f. f.now) fits.now)) fill)) }
    ensures grows { Grows plan.old plan.new }
{
    let fill = fill_for(kind, fits, fill)?;
    let sizes = own_sizes(alloc, fits)?;
    let steps = steps_along(alloc, fits, fill, sizes.as_slice(), kind)?;
    let start = Start::Node(node);
    let node = push_chain(alloc, plan, &Chain { start, steps })?;
    Ok(node)
}

/// The cells of an array at hand along joined axes.
pub fn cells_after(
    alloc: Global,
    cells: ArrayValue,
    fits: &[&Fit],
    fill: Option<i128>,
) -> Result<ArrayValue, NoMemory>
    ensures cells { IfOk result (λ b. b ≡ of.cells_after fill (map (λ f. f.now) fits.now) cells) }
    ensures cell { IfOk result (λ b. IsCell cells.kind (of.fill_in (of.any_hole (map (λ f. f.now) fits.now)) fill)) }
{
    let fill = fill_for(cells.kind(), fits, fill)?;
    let steps = steps_along(alloc, fits, fill, cells.shape(), cells.kind())?;
    let after = taken(alloc, steps.as_slice(), cells)?;
    Ok(after)
}
