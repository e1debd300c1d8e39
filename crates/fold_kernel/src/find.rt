//! Searches for a present cell in a run.
ghost use Rattle.std.specs.Prelude.{◌≡◌, ◌≤◌, ◌+◌, ◌^◌, length};
ghost use Rattle.xr_arrays.specs.Folds.{present};
ghost use Rattle.fold_kernel.specs.Partials.{first_found, last_found, found_with};
ghost use Rattle.fold_kernel.specs.Rows.{placed};

use crate::found::Found;
use crate::row::Row;
use xr_types::Elem;

/// The first present cell, the run's first cell having this position.
pub fn first_present<T: Elem, R: Row<T>>(first: u64, row: R) -> Option<Found>
    requires { first + length (R.items row) ≤ 2 ^ 62 }
    ensures { result ≡ first_found (present (placed T.number first (R.items row))) }
{
    for i in 0..row.len() {
        if let Some(cell) = row.get(i) {
            return Some(Found {
                position: first + i as u64,
                number: cell.widen(),
            });
        }
    }
    None
}

/// The first present cell with this number.
pub fn first_with<T: Elem, R: Row<T>>(first: u64, row: R, number: i128) -> Option<Found>
    requires { first + length (R.items row) ≤ 2 ^ 62 }
    ensures { result ≡ found_with number (present (placed T.number first (R.items row))) }
{
    for i in 0..row.len() {
        if let Some(cell) = row.get(i) {
            if cell.widen() == number {
                return Some(Found {
                    position: first + i as u64,
                    number,
                });
            }
        }
    }
    None
}

/// The last present cell.
pub fn last_present<T: Elem, R: Row<T>>(first: u64, row: R) -> Option<Found>
    requires { first + length (R.items row) ≤ 2 ^ 62 }
    ensures { result ≡ last_found (present (placed T.number first (R.items row))) }
{
    let mut left = row.len();
    while left > 0 {
        left -= 1;
        if let Some(cell) = row.get(left) {
            return Some(Found {
                position: first + left as u64,
                number: cell.widen(),
            });
        }
    }
    None
}
