//! Cells in rows, a blank between cells.
ghost use Rattle.std.specs.Prelude.{◌≡◌, ◌++◌, ◌∷◌, ◌*◌, ◌≤◌, [], length, map, OnOk};
ghost use Rattle.xr_defs.specs.Text.{after_blanks, joined};
ghost use Rattle.xr_print.specs.Pieces.{lines_text};

use crate::cells::CellText;
use itoa::Buffer;
use std::alloc::AllocError;

/// Appends cells, a blank before each.
pub(crate) fn push_after_blanks<T: Copy, P: CellText<T>>(
    out: &mut Vec<u8>,
    digits: &mut Buffer,
    cells: &[T],
) -> Result<(), AllocError>
    ensures { OnOk result (out.new.items ≡ out.old.items ++ after_blanks (map P.text cells.now)) }
{
    for i in 0..cells.len() {
        out.push(b' ')?;
        P::push(out, digits, cells[i])?;
    }
    Ok(())
}

fn push_row<T: Copy, P: CellText<T>>(
    out: &mut Vec<u8>,
    digits: &mut Buffer,
    row: &[T],
) -> Result<(), AllocError>
    ensures { OnOk result (out.new.items ≡ out.old.items ++ joined (32 ∷ []) (map P.text row.now)) }
{
    let Some((first, rest)) = row.split_first() else {
        return Ok(());
    };
    P::push(out, digits, *first)?;
    push_after_blanks::<T, P>(out, digits, rest)
}

/// Appends a line for each of so many rows of n cells.
pub(crate) fn push_lines<T: Copy, P: CellText<T>>(
    out: &mut Vec<u8>,
    digits: &mut Buffer,
    cells: &[T],
    rows: usize,
    n: usize,
) -> Result<(), AllocError>
    requires { rows * n ≤ length cells.now }
    ensures { OnOk result (out.new.items ≡ out.old.items ++ lines_text rows n (map P.text cells.now)) }
{
    let mut rest = cells;
    for _ in 0..rows {
        let (row, after) = rest.split_at(n);
        push_row::<T, P>(out, digits, row)?;
        out.push(b'\n')?;
        rest = after;
    }
    Ok(())
}
