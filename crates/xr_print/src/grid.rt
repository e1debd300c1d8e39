//! The cells of an array, with its mask where it has one.
ghost use Rattle.std.specs.Prelude.{◌≡◌, ◌++◌, ◌*◌, ◌/◌, ◌≤◌, true, length, map, OnOk, option_copied};
ghost use Rattle.std.specs.Fmt.{signed_decimal};
ghost use Rattle.xr_arrays.specs.Arrays.{wide};
ghost use Rattle.xr_arrays.specs.Numbers.{is_whole, numbers_of};
ghost use Rattle.xr_defs.specs.Text.{after_blanks, cell_text, rows_text};
ghost use Rattle.xr_print.specs.Pieces.{texts_of, grid_text, shown, IsMaskOf};

use crate::cells::{CellText, Decimal, Truth};
use crate::{masked_rows, rows};
use itoa::Buffer;
use std::alloc::AllocError;
use stored_cells::{as_typed, decoded_cells};
use xr_arrays::{ArrayValue, Cells};
use xr_types::{Items, NcType};

fn push_texts<T: Copy, P: CellText<T>>(
    out: &mut Vec<u8>,
    digits: &mut Buffer,
    cells: &[T],
    mask: Option<&Items<u8>>,
) -> Result<(), AllocError>
    requires { IsMaskOf (length cells.now) (option_copied mask) }
    ensures { OnOk result (out.new.items ≡ out.old.items ++ after_blanks (texts_of P.text cells.now (option_copied mask.entry))) }
{
    match mask {
        None => rows::push_after_blanks::<T, P>(out, digits, cells),
        Some(mask) => {
            masked_rows::push_after_blanks::<T, P>(out, digits, cells, mask.as_slice())
        }
    }
}

// How many rows of n cells there are.
fn rows_of(count: usize, n: usize) -> usize
    ensures value { result ≡ count / n }
    ensures whole { result * n ≤ count }
{
    if n == 0 { 0 } else { count / n }
}

fn push_grid<T: Copy, P: CellText<T>>(
    out: &mut Vec<u8>,
    digits: &mut Buffer,
    cells: &[T],
    mask: Option<&Items<u8>>,
    n: usize,
) -> Result<(), AllocError>
    requires { IsMaskOf (length cells.now) (option_copied mask) }
    ensures { OnOk result (out.new.items ≡ out.old.items ++ grid_text n (length cells.now) (texts_of P.text cells.now (option_copied mask.entry))) }
{
    let rows = rows_of(cells.len(), n);
    match mask {
        None => rows::push_lines::<T, P>(out, digits, cells, rows, n),
        Some(mask) => {
            masked_rows::push_lines::<T, P>(out, digits, cells, mask.as_slice(), rows, n)
        }
    }
}

fn push_shown(
    out: &mut Vec<u8>,
    digits: &mut Buffer,
    cells: &Cells,
    mask: Option<&Items<u8>>,
) -> Result<(), AllocError>
    requires { IsMaskOf (length (wide cells.now)) (option_copied mask) }
    ensures { OnOk result (out.new.items ≡ out.old.items ++ after_blanks (shown cells.now (option_copied mask.entry))) }
{
    match cells {
        Cells::Bool(v) => push_texts::<u8, Truth>(out, digits, v.as_slice(), mask),
        Cells::Char(v) => push_texts::<u8, Decimal>(out, digits, v.as_slice(), mask),
        Cells::Int8(v) => push_texts::<i8, Decimal>(out, digits, v.as_slice(), mask),
        Cells::Int16(v) => push_texts::<i16, Decimal>(out, digits, v.as_slice(), mask),
        Cells::Int32(v) => push_texts::<i32, Decimal>(out, digits, v.as_slice(), mask),
        Cells::Int64(v) => push_texts::<i64, Decimal>(out, digits, v.as_slice(), mask),
        Cells::UInt8(v) => push_texts::<u8, Decimal>(out, digits, v.as_slice(), mask),
        Cells::UInt16(v) => push_texts::<u16, Decimal>(out, digits, v.as_slice(), mask),
        Cells::UInt32(v) => push_texts::<u32, Decimal>(out, digits, v.as_slice(), mask),
        Cells::UInt64(v) => push_texts::<u64, Decimal>(out, digits, v.as_slice(), mask),
    }
}

fn push_shown_lines(
    out: &mut Vec<u8>,
    digits: &mut Buffer,
    cells: &Cells,
    mask: Option<&Items<u8>>,
    n: usize,
) -> Result<(), AllocError>
    requires { IsMaskOf (length (wide cells.now)) (option_copied mask) }
    ensures { OnOk result (out.new.items ≡ out.old.items ++ grid_text n (length (wide cells.now)) (shown cells.now (option_copied mask.entry))) }
{
    match cells {
        Cells::Bool(v) => push_grid::<u8, Truth>(out, digits, v.as_slice(), mask, n),
        Cells::Char(v) => push_grid::<u8, Decimal>(out, digits, v.as_slice(), mask, n),
        Cells::Int8(v) => push_grid::<i8, Decimal>(out, digits, v.as_slice(), mask, n),
        Cells::Int16(v) => push_grid::<i16, Decimal>(out, digits, v.as_slice(), mask, n),
        Cells::Int32(v) => push_grid::<i32, Decimal>(out, digits, v.as_slice(), mask, n),
        Cells::Int64(v) => push_grid::<i64, Decimal>(out, digits, v.as_slice(), mask, n),
        Cells::UInt8(v) => push_grid::<u8, Decimal>(out, digits, v.as_slice(), mask, n),
        Cells::UInt16(v) => push_grid::<u16, Decimal>(out, digits, v.as_slice(), mask, n),
        Cells::UInt32(v) => push_grid::<u32, Decimal>(out, digits, v.as_slice(), mask, n),
        Cells::UInt64(v) => push_grid::<u64, Decimal>(out, digits, v.as_slice(), mask, n),
    }
}

/// Appends the cells of an array, a blank before each.
pub(crate) fn push_cells(
    out: &mut Vec<u8>,
    digits: &mut Buffer,
    array: &ArrayValue,
) -> Result<(), AllocError>
    ensures { OnOk result (out.new.items ≡ out.old.items ++ after_blanks (map (cell_text array.now.kind) array.now.cells)) }
{
    let typed = as_typed(*out.allocator(), array)?;
    let (cells, mask) = typed.parts();
    push_shown(out, digits, cells, mask)
}

/// Appends the cells of an array, a line for each row of n cells.
pub(crate) fn push_cell_lines(
    out: &mut Vec<u8>,
    digits: &mut Buffer,
    array: &ArrayValue,
    n: u64,
) -> Result<(), AllocError>
    ensures { OnOk result (out.new.items ≡ out.old.items ++ rows_text array.now.kind (length array.now.cells / n) n array.now.cells) }
{
    let typed = as_typed(*out.allocator(), array)?;
    let (cells, mask) = typed.parts();
    push_shown_lines(out, digits, cells, mask, n as usize)
}

/// Appends the numbers that bytes of a file's type spell, a blank before each.
pub(crate) fn push_numbers(
    out: &mut Vec<u8>,
    digits: &mut Buffer,
    kind: NcType,
    raw: &[u8],
) -> Result<(), AllocError>
    requires { is_whole kind ≡ true }
    ensures { OnOk result (out.new.items ≡ out.old.items ++ after_blanks (map signed_decimal (numbers_of kind raw.now))) }
{
    let cells = decoded_cells(*out.allocator(), kind, raw)?;
    push_shown(out, digits, &cells, None)
}
