//! Strips of arrays all of whose cells are one cell.
ghost use Rattle.std.specs.Prelude.{◌≡◌, ◌<◌, ◌∷◌, [], length, replicate, get_or, MatchOption, ⊤, IfOk, option_map};
ghost use Rattle.xr_arrays.specs.Arrays.{IsArray};
ghost use Rattle.cell_strips.specs.Rows.{count};
ghost use Rattle.cell_strips.specs.Strips.{spread, spread_cells, spread_mask};

use crate::arrays::{array, parts};
use std::alloc::{AllocError, Global};
use stored_cells::as_typed;
use xr_arrays::{ArrayValue, Cells};
use xr_types::Items;

// The first of a row so many times.
fn repeated<T: Copy + Drop>(alloc: Global, row: &Items<T>, n: usize) -> Result<Items<T>, AllocError>
    requires { 0 < length row.now }
    ensures { (z : T) → IfOk result (λ v. v ≡ replicate n (get_or row.now 0 z)) }
{
    let mut all = Vec::new(alloc);
    all.resize(n, row.as_slice()[0])?;
    Ok(Items::of(all))
}

fn spread_cells(alloc: Global, cells: &Cells, n: usize) -> Result<Cells, AllocError>
    requires { 0 < count cells.now }
    ensures { IfOk result (λ c. c ≡ spread_cells n cells.now) }
{
    match cells {
        Cells::Bool(v) => Ok(Cells::Bool(repeated(alloc, v, n)?)),
        Cells::Char(v) => Ok(Cells::Char(repeated(alloc, v, n)?)),
        Cells::Int8(v) => Ok(Cells::Int8(repeated(alloc, v, n)?)),
        Cells::Int16(v) => Ok(Cells::Int16(repeated(alloc, v, n)?)),
        Cells::Int32(v) => Ok(Cells::Int32(repeated(alloc, v, n)?)),
        Cells::Int64(v) => Ok(Cells::Int64(repeated(alloc, v, n)?)),
        Cells::UInt8(v) => Ok(Cells::UInt8(repeated(alloc, v, n)?)),
        Cells::UInt16(v) => Ok(Cells::UInt16(repeated(alloc, v, n)?)),
        Cells::UInt32(v) => Ok(Cells::UInt32(repeated(alloc, v, n)?)),
        Cells::UInt64(v) => Ok(Cells::UInt64(repeated(alloc, v, n)?)),
    }
}

fn spread_mask(
    alloc: Global,
    mask: Option<&Items<u8>>,
    n: usize,
) -> Result<Option<Items<u8>>, AllocError>
    requires { MatchOption (option_map (λ m. m.now) mask) ⊤ (λ m. 0 < length m) }
    ensures { IfOk result (λ m. m ≡ spread_mask n (option_map (λ m. m.now) mask.entry)) }
{
    match mask {
        Some(mask) => Ok(Some(repeated(alloc, mask, n)?)),
        None => Ok(None),
    }
}

/// So many cells, each of which is the cell of an array without axes.
pub fn spread(alloc: Global, a: &ArrayValue, n: usize) -> Result<ArrayValue, AllocError>
    requires array { IsArray a.now }
    requires flat { a.now.shape ≡ [] }
    ensures { IfOk result (λ b. b ≡ spread n a.now) }
{
    let typed = as_typed(alloc, a)?;
    let (cells, mask) = parts(&typed);
    let shape = Items::from_slice(alloc, &[n as u64])?;
    let hidden = spread_mask(alloc, mask, n)?;
    let all = spread_cells(alloc, cells, n)?;
    Ok(array(shape, all, hidden))
}
