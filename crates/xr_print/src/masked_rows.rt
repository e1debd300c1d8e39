//! Cells in rows where some are missing.
ghost use Rattle.std.specs.Prelude.{◌≡◌, ◌++◌, ◌∷◌, ◌*◌, ◌≤◌, [], length, Some, OnOk};
ghost use Rattle.xr_defs.specs.Text.{after_blanks, joined};
ghost use Rattle.xr_print.specs.Pieces.{lines_text, texts_of};

use crate::cells::{CellText, push_unless};
use itoa::Buffer;
use std::alloc::AllocError;

/// Appends cells, a blank before each.
pub(crate) fn push_after_blanks<T: Copy, P: CellText<T>>(
    out: &mut Vec<u8>,
    digits: &mut Buffer,
    cells: &[T],
    mask: &[u8],
) -> Result<(), AllocError>
    requires { length cells.now ≡ length mask.now }
    ensures { OnOk result (out.new.items ≡ out.old.items ++ after_blanks (texts_of P.text cells.now (Some mask.now))) }
{
    for i in 0..cells.len() {
        out.push(b' ')?;
        push_unless::<T, P>(out, digits, cells[i], mask[i])?;
    }
    Ok(())
}

fn push_row<T: Copy, P: CellText<T>>(
    out: &mut Vec<u8>,
    digits: &mut Buffer,
    row: &[T],
    mask: &[u8],
) -> Result<(), AllocError>
    requires { length row.now ≡ length mask.now }
    ensures { OnOk result (out.new.items ≡ out.old.items ++ joined (32 ∷ []) (texts_of P.text row.now (Some mask.now))) }
{
    let Some((first, rest)) = row.split_first() else {
        return Ok(());
    };
    let Some((gap, gaps)) = mask.split_first() else {
        return Ok(());
    };
    push_unless::<T, P>(out, digits, *first, *gap)?;
    push_after_blanks::<T, P>(out, digits, rest, gaps)
}

/// Appends a line for each of so many rows of n cells.
pub(crate) fn push_lines<T: Copy, P: CellText<T>>(
    out: &mut Vec<u8>,
    digits: &mut Buffer,
    cells: &[T],
    mask: &[u8],
    rows: usize,
    n: usize,
) -> Result<(), AllocError>
    requires same { length cells.now ≡ length mask.now }
    requires whole { rows * n ≤ length cells.now }
    ensures { OnOk result (out.new.items ≡ out.old.items ++ lines_text rows n (texts_of P.text cells.now (Some mask.now))) }
{
    let mut rest = cells;
    let mut gaps = mask;
    for _ in 0..rows {
        let (row, after) = rest.split_at(n);
        let (gap, gaps_after) = gaps.split_at(n);
        push_row::<T, P>(out, digits, row, gap)?;
        out.push(b'\n')?;
        rest = after;
        gaps = gaps_after;
    }
    Ok(())
}
