//! Cells of a list in row order, read by strides.
ghost use Rattle.std.specs.Prelude.{◌≡◌, ◌<◌, ◌≤◌, ◌+◌, ◌*◌, ◌++◌, ◌^◌, ℕ, [], ◌∷◌, length, drop, OnOk, IfOk};
ghost use Rattle.xr_types.specs.Points.{size, IsPoint};
ghost use Rattle.xr_arrays.specs.Nodes.{most_node_cells};
ghost use Rattle.plan_core.specs.Strides.{strided, own_strides, Reaches, IsBox};

use crate::shapes::points;
use std::alloc::{AllocError, Global};

// The cells along one axis, which stand side by side.
fn push_run<T: Copy>(
    out: &mut Vec<T>,
    count: usize,
    start: usize,
    cells: &[T],
) -> Result<(), AllocError>
    requires some { 0 < count }
    requires inside { Reaches (count ∷ []) (1 ∷ []) start (length cells.now) }
    ensures { (other : T) → OnOk result (out.new.items ≡ out.old.items ++ strided (count ∷ []) (1 ∷ []) start other cells.now) }
{
    let (_, behind) = cells.split_at(start);
    let (here, _) = behind.split_at(count);
    out.extend_from_slice(here)
}

// The cells along one axis.
fn push_line<T: Copy>(
    out: &mut Vec<T>,
    count: usize,
    stride: usize,
    start: usize,
    cells: &[T],
) -> Result<(), AllocError>
    requires inside { Reaches (count ∷ []) (stride ∷ []) start (length cells.now) }
    requires small { length cells.now < 2 ^ 63 }
    ensures { (other : T) → OnOk result (out.new.items ≡ out.old.items ++ strided (count ∷ []) (stride ∷ []) start other cells.now) }
{
    for i in 0..count {
        out.push(cells[start + i * stride])?;
    }
    Ok(())
}

// The cells along one axis, in the faster way.
fn push_last<T: Copy>(
    out: &mut Vec<T>,
    count: usize,
    stride: usize,
    start: usize,
    cells: &[T],
) -> Result<(), AllocError>
    requires inside { Reaches (count ∷ []) (stride ∷ []) start (length cells.now) }
    requires small { length cells.now < 2 ^ 63 }
    ensures { (other : T) → OnOk result (out.new.items ≡ out.old.items ++ strided (count ∷ []) (stride ∷ []) start other cells.now) }
{
    if stride == 1 && count > 0 {
        push_run(out, count, start, cells)
    } else {
        push_line(out, count, stride, start, cells)
    }
}

/// Appends the cells of a box along the axes from `axis` on, its first cell standing at `start`.
pub fn push_strided<T: Copy>(
    out: &mut Vec<T>,
    sizes: &[u64],
    strides: &[u64],
    axis: usize,
    start: usize,
    cells: &[T],
) -> Result<(), AllocError>
    requires { IsBox sizes.now strides.now axis start (length cells.now) }
    ensures { (other : T) → OnOk result (out.new.items ≡ out.old.items ++ strided (drop axis sizes.now) (drop axis strides.now) start other cells.now) }
{
    if axis == sizes.len() {
        out.push(cells[start])?;
        return Ok(());
    }
    let count = sizes[axis] as usize;
    let stride = strides[axis] as usize;
    if axis + 1 == sizes.len() {
        return push_last(out, count, stride, start, cells);
    }
    for i in 0..count {
        push_strided(out, sizes, strides, axis + 1, start + i * stride, cells)?;
    }
    Ok(())
}

/// The cells of a box of these sizes, whose first cell is the first one.
pub fn strided_cells<T: Copy>(
    alloc: Global,
    sizes: &[u64],
    strides: &[u64],
    cells: &[T],
) -> Result<Vec<T>, AllocError>
    requires lengths { length strides.now ≡ length sizes.now }
    requires inside { Reaches sizes.now strides.now 0 (length cells.now) }
    requires small { length cells.now < 2 ^ 63 }
    ensures { (other : T) → IfOk result (λ v. v.items ≡ strided sizes.now strides.now 0 other cells.now) }
{
    let mut out = Vec::new(alloc);
    let count = points(sizes);
    if count == 0 {
        return Ok(out);
    }
    out.reserve(count as usize)?;
    push_strided(&mut out, sizes, strides, 0, 0, cells)?;
    Ok(out)
}

/// The strides of a list in row order.
pub fn own_strides(alloc: Global, shape: &[u64]) -> Result<Vec<u64>, AllocError>
    requires some { 0 < size shape.now }
    requires few { size shape.now ≤ most_node_cells }
    ensures { IfOk result (λ v. v.items ≡ own_strides shape.now) }
{
    let mut strides = Vec::new(alloc);
    for axis in 0..shape.len() {
        let (_, behind) = shape.split_at(axis + 1);
        strides.push(points(behind))?;
    }
    Ok(strides)
}
