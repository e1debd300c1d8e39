//! Truth values: what isn't 0 is true.
ghost use Rattle.std.specs.Prelude.{◌≡◌, ◌<◌, map, pos, All, IfOk};
ghost use Rattle.xr_types.specs.declared.kind.DType.TheVariants as kinds;
ghost use Rattle.xr_arrays.specs.Arrays.{kind_of, wide, InKind};
ghost use Rattle.xr_defs.specs.Decoding.{truth};

use std::alloc::{AllocError, Global};
use xr_arrays::Cells;
use xr_types::Items;

fn truths_of(alloc: Global, numbers: &[i8]) -> Result<Items<u8>, AllocError>
    ensures truths { IfOk result (λ v. map pos v ≡ map truth numbers.now) }
    ensures range { IfOk result (λ v. All (λ x. x < 2) v) }
{
    let mut truths = Vec::from_elem(alloc, 0u8, numbers.len())?;
    for i in 0..numbers.len() {
        truths[i] = u8::from(numbers[i] != 0);
    }
    Ok(Items::of(truths))
}

/// The cells of bytes as truth values.
pub(crate) fn as_truths(alloc: Global, cells: &Cells) -> Result<Cells, AllocError>
    requires { kind_of cells.now ≡ kinds.Int8 }
    ensures kind { IfOk result (λ c. kind_of c ≡ kinds.Bool) }
    ensures numbers { IfOk result (λ c. wide c ≡ map truth (wide cells.now)) }
    ensures range { IfOk result (λ c. InKind c) }
{
    match cells {
        Cells::Int8(numbers) => Ok(Cells::Bool(truths_of(alloc, numbers.as_slice())?)),
        _ => unreachable!(),
    }
}
