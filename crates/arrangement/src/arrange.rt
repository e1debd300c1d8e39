//! Cells of an array in another order, some of them more than once or not at all, and holes between them.
ghost use Rattle.std.specs.Prelude.{◌≡◌, ◌≤◌, ◌^◌, ℕ, ℤ, pos, Bool, true, false, length, List, Option, Some, None, is_some, is_none, IfOk, IfSome, MatchOption, option_map};
ghost use Rattle.xr_types.specs.Points.{size, IsPoint};
ghost use Rattle.xr_arrays.specs.Arrays.{wide, IsCell};
ghost use Rattle.plan_core.specs.Arrangements.{arranged, arranged_cells, arranged_mask, filling, gap, rearranged, LieInside, ShowsAll};

use std::alloc::{AllocError, Global};
use stored_cells::{Typed, as_typed};
use xr_arrays::{ArrayValue, Cells};
use xr_types::{Elem, Items};

/// How the cells of an array stand in another one: each shows one of them, or is a hole.
pub trait Arrangement {
    /// The sizes of the array that is shown.
    ghost from: { Self → List ℕ };

    /// The sizes of the array that shows it.
    ghost to: { Self → List ℕ };

    /// The point that is shown at a point, if there is one.
    ghost point: { Self → List ℕ → Option (List ℕ) };

    /// What a call needs.
    ghost Fits: { Self → Type 0 };

    fn shape(&self, alloc: Global) -> Result<Items<u64>, AllocError>
        requires { Fits self.now }
        ensures { IfOk result (λ shape. shape ≡ to self.now) };

    /// Whether there may be holes.
    fn has_holes(&self) -> bool
        requires { Fits self.now }
        ensures { result ≡ false → ShowsAll (to self.now) (point self.now) };

    /// The cells in their new order.
    fn arrange<T: Copy>(&self, alloc: Global, cells: &[T], hole: T) -> Result<Vec<T>, AllocError>
        requires fits { Fits self.now }
        requires whole { length cells.now ≡ size (from self.now) }
        ensures { IfOk result (λ v. v.items ≡ arranged (from self.now) (to self.now) (point self.now) hole cells.now) };
}

fn arrange_items<A: Arrangement, T: Copy>(
    alloc: Global,
    by: &A,
    cells: &Items<T>,
    hole: T,
) -> Result<Items<T>, AllocError>
    requires fits { A.Fits by.now }
    requires whole { length cells.now ≡ size (A.from by.now) }
    ensures { IfOk result (λ v. v ≡ arranged (A.from by.now) (A.to by.now) (A.point by.now) hole cells.now) }
{
    Ok(Items::of(by.arrange(alloc, cells.as_slice(), hole)?))
}

fn arrange_cells<A: Arrangement>(
    alloc: Global,
    by: &A,
    cells: &Cells,
    hole: i128,
) -> Result<Cells, AllocError>
    requires fits { A.Fits by.now }
    requires whole { length (wide cells.now) ≡ size (A.from by.now) }
    ensures { IfOk result (λ c. c ≡ arranged_cells (A.from by.now) (A.to by.now) (A.point by.now) hole cells.now) }
{
    Ok(match cells {
        Cells::Bool(v) => Cells::Bool(arrange_items(alloc, by, v, u8::wrap_from(hole))?),
        Cells::Char(v) => Cells::Char(arrange_items(alloc, by, v, u8::wrap_from(hole))?),
        Cells::Int8(v) => Cells::Int8(arrange_items(alloc, by, v, i8::wrap_from(hole))?),
        Cells::Int16(v) => Cells::Int16(arrange_items(alloc, by, v, i16::wrap_from(hole))?),
        Cells::Int32(v) => Cells::Int32(arrange_items(alloc, by, v, i32::wrap_from(hole))?),
        Cells::Int64(v) => Cells::Int64(arrange_items(alloc, by, v, i64::wrap_from(hole))?),
        Cells::UInt8(v) => Cells::UInt8(arrange_items(alloc, by, v, u8::wrap_from(hole))?),
        Cells::UInt16(v) => Cells::UInt16(arrange_items(alloc, by, v, u16::wrap_from(hole))?),
        Cells::UInt32(v) => Cells::UInt32(arrange_items(alloc, by, v, u32::wrap_from(hole))?),
        Cells::UInt64(v) => Cells::UInt64(arrange_items(alloc, by, v, u64::wrap_from(hole))?),
    })
}

fn count(cells: &Cells) -> usize
    ensures { result ≡ length (wide cells.now) }
{
    match cells {
        Cells::Bool(v) => v.as_slice().len(),
        Cells::Char(v) => v.as_slice().len(),
        Cells::Int8(v) => v.as_slice().len(),
        Cells::Int16(v) => v.as_slice().len(),
        Cells::Int32(v) => v.as_slice().len(),
        Cells::Int64(v) => v.as_slice().len(),
        Cells::UInt8(v) => v.as_slice().len(),
        Cells::UInt16(v) => v.as_slice().len(),
        Cells::UInt32(v) => v.as_slice().len(),
        Cells::UInt64(v) => v.as_slice().len(),
    }
}

// The number in a hole.
fn filling(fill: Option<i128>) -> i128
    ensures { result ≡ filling fill }
{
    match fill {
        Some(n) => n,
        None => 0,
    }
}

fn arrange_mask<A: Arrangement>(
    alloc: Global,
    by: &A,
    count: usize,
    mask: Option<&Items<u8>>,
    fill: Option<i128>,
    holes: bool,
) -> Result<Option<Items<u8>>, AllocError>
    requires fits { A.Fits by.now }
    requires count { count ≡ size (A.from by.now) }
    requires mask { IfSome mask (λ m. length m.now ≡ size (A.from by.now)) }
    ensures { IfOk result (λ r. r ≡ arranged_mask (A.from by.now) (A.to by.now) (A.point by.now) (option_map (λ m. m.now) mask.entry) fill holes) }
{
    match (mask, fill, holes) {
        (Some(m), None, _) => Ok(Some(Items::of(by.arrange(alloc, m.as_slice(), 1)?))),
        (Some(m), Some(_), _) => Ok(Some(Items::of(by.arrange(alloc, m.as_slice(), 0)?))),
        (None, None, true) => {
            let zeros = Vec::from_elem(alloc, 0u8, count)?;
            Ok(Some(Items::of(by.arrange(alloc, &zeros, 1)?)))
        }
        _ => Ok(None),
    }
}

// The array that shows these cells in this arrangement, its holes filled.
fn rearrange_typed<A: Arrangement>(
    alloc: Global,
    typed: &Typed,
    by: &A,
    fill: Option<i128>,
) -> Result<ArrayValue, AllocError>
    requires fits { A.Fits by.now }
    requires shape { A.from by.now ≡ typed.now.shape }
    requires inside { LieInside (A.from by.now) (A.to by.now) (A.point by.now) }
    requires fill { IsCell typed.now.kind fill }
    ensures { IfOk result (λ b. b ≡ rearranged typed.now (A.to by.now) (A.point by.now) fill) }
{
    let (cells, mask) = typed.parts();
    let shape = by.shape(alloc)?;
    let new_mask = arrange_mask(alloc, by, count(cells), mask, fill, by.has_holes())?;
    let new_cells = arrange_cells(alloc, by, cells, filling(fill))?;
    Ok(ArrayValue::of(shape, new_cells, new_mask))
}

/// The array that shows the cells of another one in this arrangement, its holes filled.
pub fn rearrange<A: Arrangement>(
    alloc: Global,
    a: &ArrayValue,
    by: &A,
    fill: Option<i128>,
) -> Result<ArrayValue, AllocError>
    requires fits { A.Fits by.now }
    requires shape { A.from by.now ≡ a.now.shape }
    requires inside { LieInside (A.from by.now) (A.to by.now) (A.point by.now) }
    requires fill { IsCell a.now.kind fill }
    ensures { IfOk result (λ b. b ≡ rearranged a.now (A.to by.now) (A.point by.now) fill) }
{
    let typed = as_typed(alloc, a)?;
    rearrange_typed(alloc, &typed, by, fill)
}
