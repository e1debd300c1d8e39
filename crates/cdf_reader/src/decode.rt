//! The whole numbers of a variable.
ghost use Rattle.std.specs.Prelude.{◌≡◌, ◌%◌, length, IfOk, true};
ghost use Rattle.xr_arrays.specs.Arrays.{kind_of, wide};
ghost use Rattle.xr_types.specs.Widths.{width};
ghost use Rattle.xr_arrays.specs.Numbers.{is_whole, cells_kind, numbers_of};

use crate::cells::Numbers;
use std::alloc::Global;
use stored_cells::decoded_cells;
use xr_files::CdfVar;
use xr_types::NoMemory;

/// The values of a variable of a whole-number type.
pub fn numbers(alloc: Global, var: &CdfVar) -> Result<Numbers, NoMemory>
    requires whole { is_whole var.now.kind ≡ true }
    requires multiple { length var.now.raw % width var.now.kind ≡ 0 }
    ensures kind { IfOk result (λ n. kind_of n.cells ≡ cells_kind var.now.kind) }
    ensures values { IfOk result (λ n. wide n.cells ≡ numbers_of var.now.kind var.now.raw) }
{
    let cells = decoded_cells(alloc, var.kind, var.raw.as_slice())?;
    Ok(Numbers { cells })
}
