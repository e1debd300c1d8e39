//! Cells at hand: their shape, and whether some are missing.
ghost use Rattle.std.specs.Prelude.{◌≡◌, ◌==◌, ◌≤◌, ◌-◌, ◌^◌, true, length, min, IfOk};
ghost use Rattle.std.specs.List.{list_all, AllByRecursion};
ghost use Rattle.xr_types.specs.Names.{shape_over};
ghost use Rattle.xr_types.specs.Points.{size};
ghost use Rattle.xr_arrays.specs.Nodes.{most_axes, most_node_cells};
ghost use Rattle.xr_defs.specs.Selecting.{axis_called};
ghost use Rattle.xr_defs.specs.WellFormed.{AreSeen};
ghost use Rattle.xr_aligning.specs.Limits.{sizes_called};
ghost use Rattle.xr_values.specs.declared.variable.Variable.{Variable as Var};

use std::alloc::{AllocError, Global};
use stored_cells::as_typed;
use xr_arrays::ArrayValue;
use xr_types::{Axis, MOST_CELLS, MOST_DIMENSIONS, Name, TextBytes};
use xr_values::Variable;

/// The size of the axis of a name, 0 where there is none.
#[tactic(auto, using(xr_parts::proofs::Axes::called_here, xr_parts::proofs::Axes::called_on))]
fn size_called(axes: &[Axis], name: &TextBytes) -> u64
    ensures { result ≡ (axis_called axes.now name.now).size }
{
    match axes {
        [] => 0,
        [axis, rest @ ..] => {
            if axis.name.is(name) {
                axis.size
            } else {
                size_called(rest, name)
            }
        }
    }
}

/// Whether the sizes of the axes of these names are these.
pub fn is_shaped(axes: &[Axis], dims: &[Name], shape: &[u64]) -> bool
    ensures { result ≡ true → shape.now ≡ sizes_called axes.now dims.now }
{
    match (dims, shape) {
        ([], []) => true,
        ([dim, dims @ ..], [size, sizes @ ..]) => {
            size_called(axes, dim) == *size && is_shaped(axes, dims, sizes)
        }
        _ => false,
    }
}

fn hides_none(mask: &[u8]) -> bool
    ensures { result ≡ list_all (λ n. n == 0) mask.now }
{
    for byte in mask {
        if *byte != 0 {
            return false;
        }
    }
    true
}

/// Whether no cell is missing, unless they are masked.
#[tactic(auto, using(crate::proofs::Seen::masked_seen, crate::proofs::Seen::bare_seen, crate::proofs::Seen::clear_seen))]
pub fn are_seen(alloc: Global, masked: bool, cells: &ArrayValue) -> Result<bool, AllocError>
    ensures { IfOk result (λ b. b ≡ true → AreSeen masked cells.now.cells) }
{
    if masked {
        return Ok(true);
    }
    let typed = as_typed(alloc, cells)?;
    let (_, mask) = typed.parts();
    match mask {
        None => Ok(true),
        Some(mask) => Ok(hides_none(mask.as_slice())),
    }
}

#[tactic(auto, using(xr_joining::proofs::Products::saturates))]
fn points(shape: &[u64]) -> u64
    ensures { result ≡ min (size shape.now) (2 ^ 64 - 1) }
{
    match shape {
        [] => 1,
        [count, rest @ ..] => (*count).saturating_mul(points(rest)),
    }
}

/// Whether a node may have this shape.
pub fn is_small(shape: &[u64]) -> bool
    ensures few { result ≡ true → size shape.now ≤ most_node_cells }
    ensures low_rank { result ≡ true → length shape.now ≤ most_axes }
{
    shape.len() <= MOST_DIMENSIONS && points(shape) <= MOST_CELLS
}

/// Whether the axes of these names have the same sizes in both.
pub fn are_sized(axes: &[Axis], others: &[Axis], dims: &[Name]) -> bool
    ensures { result ≡ true → sizes_called axes.now dims.now ≡ sizes_called others.now dims.now }
{
    match dims {
        [] => true,
        [dim, rest @ ..] => {
            size_called(axes, dim) == size_called(others, dim) && are_sized(axes, others, rest)
        }
    }
}

/// Whether the axes of variables have the same sizes in both.
pub fn have_sizes(axes: &[Axis], others: &[Axis], vars: &[Variable]) -> bool
    ensures { result ≡ true → AllByRecursion (λ (v : Var). sizes_called axes.now v.dims ≡ sizes_called others.now v.dims) vars.now }
{
    match vars {
        [] => true,
        [var, rest @ ..] => {
            are_sized(axes, others, var.dims.as_slice()) && have_sizes(axes, others, rest)
        }
    }
}

/// Whether the sizes of these axes are these.
pub fn are_sizes(axes: &[Axis], shape: &[u64]) -> bool
    ensures { result ≡ true → shape.now ≡ shape_over axes.now }
{
    match (axes, shape) {
        ([], []) => true,
        ([axis, axes @ ..], [size, sizes @ ..]) => axis.size == *size && are_sizes(axes, sizes),
        _ => false,
    }
}
