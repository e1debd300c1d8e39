//! The steps from old cells to those at new labels.
ghost use Rattle.std.specs.Prelude.{◌≡◌, ◌<◌, ◌≤◌, ◌+◌, ◌^◌, ◌++◌, true, length, get_or, is_none, option_map, All, IfOk, OnOk};
ghost use Rattle.std.specs.List.{list_any};
ghost use Rattle.xr_types.specs.Points.{size};
ghost use Rattle.xr_arrays.specs.Arrays.{IsCell};
ghost use Rattle.xr_arrays.specs.Nodes.{most_node_cells, IsBelow};
ghost use Rattle.xr_formulas.specs.Chains.{steps_value};
ghost use Rattle.xr_operations.specs.Changing as of;
ghost use Rattle.xr_changing.specs.Steps.{step_by, steps_along, steps_from, TakesFit};

use arrangement::{points, take};
use std::alloc::{AllocError, Global};
use xr_arrays::ArrayValue;
use xr_formulas::{Step, fits};
use xr_operations::Change;
use xr_types::{DType, Items, Name, NoMemory, TextBytes};

// ---- changes by their names

/// The change of a dimension, if it has one.
pub fn change_called<'a>(changes: &'a [Change], name: &TextBytes) -> Option<&'a Change>
    ensures { option_map (λ c. c.now) result ≡ of.change_called changes.now name.now }
{
    match changes {
        [] => None,
        [change, rest @ ..] => {
            if change.name.is(name) {
                Some(change)
            } else {
                change_called(rest, name)
            }
        }
    }
}

fn any_none(from: &[Option<u32>]) -> bool
    ensures { result ≡ list_any is_none from.now }
{
    from.iter().any(|position| position.is_none())
}

fn is_open(change: Option<&Change>) -> bool
    ensures { result ≡ of.is_open (option_map (λ c. c.now) change.entry) }
{
    match change {
        None => false,
        Some(change) => any_none(change.from.as_slice()),
    }
}

/// Whether some position of one of these dimensions shows no old one.
pub fn has_hole(changes: &[Change], dims: &[Name]) -> bool
    ensures { result ≡ of.has_hole changes.now dims.now }
{
    dims.iter().any(|dim| is_open(change_called(changes, dim)))
}

/// Whether missing cells may stand in what had none or some, once changes are made.
pub fn masked_along(changes: &[Change], dims: &[Name], fill: Option<i128>, masked: bool) -> bool
    ensures { result ≡ of.masked_along changes.now dims.now fill masked }
{
    masked || (has_hole(changes, dims) && fill.is_none())
}

// ---- what a plan takes

/// Cells of a node of a plan.
const MOST_NODE_CELLS: u64 = 1 << 50;

fn is_below(at: Option<u32>, size: u64) -> bool
    ensures { result ≡ true → IsBelow size at }
{
    at.is_none_or(|at| u64::from(at) < size)
}

fn are_below(from: &[Option<u32>], size: u64) -> bool
    ensures { result ≡ true → All (IsBelow size) from.now }
{
    from.iter().all(|at| is_below(*at, size))
}

fn can_take(
    shape: &[u64],
    kind: DType,
    axis: usize,
    from: &[Option<u32>],
    fill: Option<i128>,
) -> bool
    ensures axis { result ≡ true → axis < length shape.now }
    ensures below { result ≡ true → All (IsBelow (get_or shape.now axis 0)) from.now }
    ensures cell { result ≡ true → IsCell kind fill }
{
    fill.is_none_or(|n| fits(kind, n)) && axis < shape.len() && are_below(from, shape[axis])
}

// Adds the steps along dimensions that stand from a number on, of cells of these sizes and this kind.
fn push_steps(
    alloc: Global,
    steps: &mut Items<Step>,
    changes: &[Change],
    fill: Option<i128>,
    axis: usize,
    dims: &[Name],
    shape: &mut Items<u64>,
    kind: DType,
) -> Result<(), NoMemory>
    requires { axis + length dims.now < 2 ^ 64 }
    ensures is { OnOk result (steps.new ≡ steps.old ++ steps_from changes.now fill axis dims.now) }
    ensures fits { OnOk result (TakesFit (steps_from changes.now fill axis dims.now) shape.old kind) }
{
    match dims {
        [] => Ok(()),
        [dim, rest @ ..] => {
            if let Some(change) = change_called(changes, dim) {
                let from = change.from.as_slice();
                if !can_take(shape.as_slice(), kind, axis, from, fill) {
                    return Err(NoMemory);
                }
                shape.set(axis, from.len() as u64);
                if points(shape.as_slice()) > MOST_NODE_CELLS {
                    return Err(NoMemory);
                }
                steps.push(Step::Take {
                    axis,
                    from: Items::from_slice(alloc, from)?,
                    fill,
                    drop: false,
                })?;
            }
            push_steps(alloc, steps, changes, fill, axis + 1, rest, shape, kind)
        }
    }
}

/// The steps of cells over these dimensions. Those that a plan doesn't take want memory.
pub fn steps_along(
    alloc: Global,
    changes: &[Change],
    fill: Option<i128>,
    dims: &[Name],
    shape: &[u64],
    kind: DType,
) -> Result<Items<Step>, NoMemory>
    ensures is { IfOk result (λ steps. steps ≡ steps_along changes.now fill dims.now) }
    ensures fits { IfOk result (λ steps. TakesFit (steps_along changes.now fill dims.now) shape.now kind) }
{
    let mut steps = Items::new(alloc);
    let mut sizes = Items::from_slice(alloc, shape)?;
    let fill = if has_hole(changes, dims) { fill } else { None };
    push_steps(alloc, &mut steps, changes, fill, 0, dims, &mut sizes, kind)?;
    Ok(steps)
}

/// Cells at hand after steps. Those of more cells than a plan takes want memory.
pub fn taken(alloc: Global, steps: &[Step], cells: ArrayValue) -> Result<ArrayValue, NoMemory>
    requires { TakesFit steps.now cells.shape cells.kind }
    ensures { IfOk result (λ b. b ≡ steps_value steps.now cells) }
{
    match steps {
        [] => Ok(cells),
        [step, rest @ ..] => match step {
            Step::Take {
                axis,
                from,
                fill,
                drop,
            } => {
                if points(cells.shape()) > MOST_NODE_CELLS {
                    return Err(NoMemory);
                }
                let next = take(alloc, &cells, *axis, from.as_slice(), *fill, *drop)?;
                taken(alloc, rest, next)
            }
            _ => Err(NoMemory),
        },
    }
}
