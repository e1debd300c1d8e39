//! What a partial keeps of a whole run: one choice of the fold a run, and plain loops over its cells.
ghost use Rattle.std.specs.Prelude.{◌≡◌, ◌≤◌, ◌+◌, ◌^◌, ℕ, pos, length, option_map, option_and_then};
ghost use Rattle.xr_types.specs.Kinds.{wrap_to};
ghost use Rattle.xr_types.specs.declared.kind.DType.TheVariants.{Int64};
ghost use Rattle.xr_arrays.specs.Folds.{present, numbers, sum_of, least, greatest};
ghost use Rattle.fold_kernel.specs.Partials.{number_of, found_with, IsChosen};
ghost use Rattle.fold_kernel.specs.Rows.{placed, first_shown};

use crate::find::{first_present, first_with, last_present};
use crate::found::Found;
use crate::gather::{
    AllNonzero, AnyNonzero, Greatest, Least, Product, Total, gather, gather_halves, truth,
};
use crate::row::{Filled, Row};
use xr_types::{Elem, FoldKind};

/// The sum, the product or the count of the present cells, wrapped at 64 bits, or 1 or 0 for any and all.
pub fn run_number<T: Elem, R: Row<T>>(kind: FoldKind, row: R) -> i64
    ensures { (first : ℕ) → result ≡ number_of kind (present (placed T.number first (R.items row))) }
{
    match kind {
        FoldKind::Sum => sum_of(row),
        FoldKind::Prod => gather(Product(1), row).0,
        FoldKind::Count => wrapped(row.present()),
        FoldKind::Any => truth(gather(AnyNonzero(false), row).0),
        FoldKind::All => truth(gather(AllNonzero(true), row).0),
        _ => 0,
    }
}

/// The cell that min, max, first, last, argmin or argmax chooses. The position of a least or greatest cell counts for
/// argmin and argmax alone.
pub fn run_found<T: Elem, R: Row<T>>(kind: FoldKind, first: u64, row: R) -> Option<Found>
    requires { first + length (R.items row) ≤ 2 ^ 62 }
    ensures { IsChosen kind result (present (placed T.number first (R.items row))) }
{
    match kind {
        FoldKind::Min => at_first(first, least_of(row)),
        FoldKind::Max => at_first(first, greatest_of(row)),
        FoldKind::First => first_present(first, row),
        FoldKind::Last => last_present(first, row),
        FoldKind::ArgMin => first_at(first, row, least_of(row)),
        FoldKind::ArgMax => first_at(first, row, greatest_of(row)),
        _ => None,
    }
}

// A count, wrapped at 64 bits.
fn wrapped(count: usize) -> i64
    ensures { result ≡ wrap_to Int64 (pos count) }
{
    i64::wrap_from(count as i128)
}

// The sum of the present cells, wrapped at 64 bits. A 0 in the place of each missing cell leaves the loop no branch.
fn sum_of<T: Elem, R: Row<T>>(row: R) -> i64
    ensures { (first : ℕ) → result ≡ wrap_to Int64 (sum_of (numbers (present (placed T.number first (R.items row))))) }
{
    let zero = T::wrap_from(0);
    gather(Total(0), Filled { row, other: zero }).0
}

fn at_first(first: u64, number: Option<i128>) -> Option<Found>
    ensures { option_map (λ c. c.number) result ≡ number }
{
    match number {
        Some(number) => Some(Found {
            position: first,
            number,
        }),
        None => None,
    }
}

fn first_at<T: Elem, R: Row<T>>(first: u64, row: R, number: Option<i128>) -> Option<Found>
    requires { first + length (R.items row) ≤ 2 ^ 62 }
    ensures { result ≡ option_and_then (λ x. found_with x (present (placed T.number first (R.items row)))) number }
{
    match number {
        Some(number) => first_with(first, row, number),
        None => None,
    }
}

/// The first present cell.
fn first_cell<T: Elem, R: Row<T>>(row: R) -> Option<T>
    ensures { result ≡ first_shown (R.items row) }
{
    for i in 0..row.len() {
        if let Some(cell) = row.get(i) {
            return Some(cell);
        }
    }
    None
}

fn least_of<T: Elem, R: Row<T>>(row: R) -> Option<i128>
    ensures { (first : ℕ) → result ≡ least (numbers (present (placed T.number first (R.items row)))) }
{
    match first_cell(row) {
        Some(cell) => {
            let (first, second) = gather_halves(Least(cell), Filled { row, other: cell });
            Some(first.0.widen().min(second.0.widen()))
        }
        None => None,
    }
}

fn greatest_of<T: Elem, R: Row<T>>(row: R) -> Option<i128>
    ensures { (first : ℕ) → result ≡ greatest (numbers (present (placed T.number first (R.items row)))) }
{
    match first_cell(row) {
        Some(cell) => {
            let (first, second) = gather_halves(Greatest(cell), Filled { row, other: cell });
            Some(first.0.widen().max(second.0.widen()))
        }
        None => None,
    }
}
