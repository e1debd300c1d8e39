//! Numbers of a file, big-endian, as cells of their kind.
ghost use Rattle.std.specs.Prelude.{◌≡◌, map, IfOk, true};
ghost use Rattle.xr_arrays.specs.Arrays.{kind_of, wide};
ghost use Rattle.xr_arrays.specs.Numbers.{is_whole, cells_kind, numbers_of};

use crate::number::Number;
use std::alloc::{AllocError, Global};
use xr_arrays::Cells;
use xr_types::{Items, NcType};

fn cells_of<T: Number>(alloc: Global, raw: &[u8]) -> Result<Items<T>, AllocError>
    ensures { IfOk result (λ v. map T.number v ≡ numbers_of T.spelt raw.now) }
{
    let mut out = Vec::from_elem(alloc, T::least(), T::count(raw))?;
    for i in 0..out.len() {
        out[i] = T::at(raw, i);
    }
    Ok(Items::of(out))
}

/// The numbers that stand in bytes, of a type of whole numbers, as cells of the type's kind.
#[tactic(auto, using(crate::proofs::NumbersInBytes::chars_are))]
pub fn decoded_cells(alloc: Global, kind: NcType, raw: &[u8]) -> Result<Cells, AllocError>
    requires { is_whole kind ≡ true }
    ensures kind { IfOk result (λ cells. kind_of cells ≡ cells_kind kind) }
    ensures values { IfOk result (λ cells. wide cells ≡ numbers_of kind raw.now) }
{
    match kind {
        NcType::Byte => Ok(Cells::Int8(cells_of(alloc, raw)?)),
        NcType::Char => Ok(Cells::Char(Items::from_slice(alloc, raw)?)),
        NcType::Short => Ok(Cells::Int16(cells_of(alloc, raw)?)),
        NcType::Int => Ok(Cells::Int32(cells_of(alloc, raw)?)),
        NcType::UByte => Ok(Cells::UInt8(Items::from_slice(alloc, raw)?)),
        NcType::UShort => Ok(Cells::UInt16(cells_of(alloc, raw)?)),
        NcType::UInt => Ok(Cells::UInt32(cells_of(alloc, raw)?)),
        NcType::Int64 => Ok(Cells::Int64(cells_of(alloc, raw)?)),
        NcType::UInt64 => Ok(Cells::UInt64(cells_of(alloc, raw)?)),
        // Nobody may ask for these.
        NcType::Float | NcType::Double => Ok(Cells::Int32(Items::new(alloc))),
    }
}
