//! The cells.
ghost use Rattle.std.specs.Prelude.{◌≡◌, ◌<◌, ◌≤◌, map, IfOk};
ghost use Rattle.std.specs.List.{range_with_len};
ghost use Rattle.xr_types.specs.declared.kind.DType.TheVariants.{Int32};
ghost use Rattle.xr_chunks.specs.Demo as of;
ghost use Rattle.xr_demo.specs.Made as made;

use std::alloc::{AllocError, Global};
use xr_arrays::{ArrayValue, Cells};
use xr_types::Items;

// The cell of number `i` in row order.
fn cell(i: u32) -> i32
    requires { i < 6000000 }
    ensures { result ≡ of.cell i }
{
    (i * 31 % 1009) as i32 - 504
}

#[tactic(auto, using(crate::proofs::Counted::one_more))]
fn numbers(alloc: Global, count: u32) -> Result<Items<i32>, AllocError>
    requires { count ≤ 6000000 }
    ensures { IfOk result (λ ns. ns ≡ map of.cell (range_with_len 0 count)) }
{
    let mut out = Items::new(alloc);
    for i in 0..count {
        out.push(cell(i))?;
    }
    Ok(out)
}

fn shape(alloc: Global, n: u32) -> Result<Items<u64>, AllocError>
    ensures { IfOk result (λ s. s ≡ made.shape n) }
{
    let mut shape = Items::new(alloc);
    shape.push(n as u64)?;
    shape.push(2)?;
    shape.push(3)?;
    Ok(shape)
}

/// The cells over `n` times, two positions of `y` and three of `x`.
pub fn cells(alloc: Global, n: u32) -> Result<ArrayValue, AllocError>
    requires { n ≤ 1000000 }
    ensures { IfOk result (λ a. a ≡ record { kind = Int32; shape = made.shape n; cells = of.cells n }) }
{
    let numbers = numbers(alloc, n * 6)?;
    let shape = shape(alloc, n)?;
    Ok(ArrayValue::of(shape, Cells::Int32(numbers), None))
}
