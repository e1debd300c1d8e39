//! The numbers of cells as labels.
ghost use Rattle.std.specs.Prelude.{◌≡◌, ◌≤ℤ◌, map, IfOk};
ghost use Rattle.xr_types.specs.Kinds.{low, high};
ghost use Rattle.xr_types.specs.declared.kind.DType.TheVariants as kinds;
ghost use Rattle.xr_arrays.specs.Arrays.{wide};

use std::alloc::{AllocError, Global};
use xr_arrays::Cells;
use xr_types::{Elem, Integers, Items};

fn widened<T: Elem>(alloc: Global, cells: &[T]) -> Result<Integers, AllocError>
    requires least { low kinds.Int64 ≤ℤ low T.kind }
    requires greatest { high T.kind ≤ℤ high kinds.Int64 }
    ensures { IfOk result (λ ns. ns ≡ map T.number cells.now) }
{
    let mut numbers = Items::new(alloc);
    for cell in cells {
        numbers.push(i64::wrap_from(cell.widen()))?;
    }
    Integers::signed(alloc, numbers)
}

/// The numbers of cells, none of which is missing.
pub fn integers_of(alloc: Global, cells: &Cells) -> Result<Integers, AllocError>
    ensures { IfOk result (λ ns. ns ≡ wide cells.now) }
{
    match cells {
        Cells::Bool(v) | Cells::Char(v) | Cells::UInt8(v) => widened(alloc, v.as_slice()),
        Cells::Int8(v) => widened(alloc, v.as_slice()),
        Cells::Int16(v) => widened(alloc, v.as_slice()),
        Cells::Int32(v) => widened(alloc, v.as_slice()),
        Cells::Int64(v) => Integers::signed(alloc, Items::from_slice(alloc, v.as_slice())?),
        Cells::UInt16(v) => widened(alloc, v.as_slice()),
        Cells::UInt32(v) => widened(alloc, v.as_slice()),
        Cells::UInt64(v) => Integers::unsigned(alloc, Items::from_slice(alloc, v.as_slice())?),
    }
}
