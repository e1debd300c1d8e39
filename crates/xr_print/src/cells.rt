//! The texts of cells by their type, present ones and missing ones.
ghost use Rattle.std.specs.Prelude.{◌≡◌, ◌++◌, ℕ, List, OnOk};
ghost use Rattle.xr_print.specs.Pieces.{truth_of, text_unless};

use itoa::{Buffer, Integer};
use std::alloc::AllocError;

/// How cells that are kept as `T` are printed.
pub(crate) trait CellText<T: Copy> {
    ghost text: { T → List ℕ };

    /// Appends the text of a cell.
    fn push(out: &mut Vec<u8>, digits: &mut Buffer, cell: T) -> Result<(), AllocError>
        ensures { OnOk result (out.new.items ≡ out.old.items ++ text cell) };
}

/// Numbers in decimal.
pub(crate) struct Decimal;

impl<T: Integer> CellText<T> for Decimal {
    ghost text = { T.text };

    fn push(out: &mut Vec<u8>, digits: &mut Buffer, cell: T) -> Result<(), AllocError> {
        out.extend_from_slice(digits.format(cell).as_bytes())
    }
}

/// Truth values, of which 0 is the false one.
pub(crate) struct Truth;

impl CellText<u8> for Truth {
    ghost text = { truth_of };

    fn push(out: &mut Vec<u8>, _digits: &mut Buffer, cell: u8) -> Result<(), AllocError> {
        if cell == 0 {
            out.extend_from_slice(b"False")
        } else {
            out.extend_from_slice(b"True")
        }
    }
}

/// Appends the text of a cell, or `NA` where its byte in the mask isn't 0.
pub(crate) fn push_unless<T: Copy, P: CellText<T>>(
    out: &mut Vec<u8>,
    digits: &mut Buffer,
    cell: T,
    gap: u8,
) -> Result<(), AllocError>
    ensures { OnOk result (out.new.items ≡ out.old.items ++ text_unless P.text cell gap) }
{
    if gap == 0 {
        P::push(out, digits, cell)
    } else {
        out.extend_from_slice(b"NA")
    }
}
