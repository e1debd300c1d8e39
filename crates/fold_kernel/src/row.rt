//! Runs of neighbouring cells, with a mask or without one.
ghost use Rattle.std.specs.Prelude.{◌≡◌, ◌==◌, ◌<◌, if◌then◌else◌, ℕ, List, Option, Some, map, length, get_or};
ghost use Rattle.fold_kernel.specs.Rows.{shown, filled, count_shown};

use crate::zeros::zeros;

/// A run of cells, some of which may be missing.
pub trait Row<T>: Copy + Drop {
    /// The cells, or None where one is missing.
    ghost items: { Self → List (Option T) };

    fn len(self) -> usize
        ensures { result ≡ length (items self) };

    fn get(self, index: usize) -> Option<T>
        requires { index < length (items self) }
        ensures { result ≡ get_or (items self) index result };

    /// The cell, or another one where it is missing.
    fn cell_or(self, index: usize, other: T) -> T
        requires { index < length (items self) }
        ensures { Some result ≡ get_or (filled other (items self)) index (Some result) };

    /// How many cells are present.
    fn present(self) -> usize
        ensures { result ≡ count_shown (items self) };
}

/// A run with another cell in the place of each missing one, so that a loop over it has no branch.
#[derive(Clone, Copy)]
pub struct Filled<T, R> {
    pub row: R,
    pub other: T,
}

impl<T: Copy + Drop, R: Row<T>> Row<T> for Filled<T, R> {
    ghost items = { λ r. filled r.other (R.items r.row) };

    #[tactic(auto, using(crate::proofs::Rows::length_filled))]
    fn len(self) -> usize {
        self.row.len()
    }

    #[tactic(auto, using(crate::proofs::Rows::length_filled))]
    fn get(self, index: usize) -> Option<T> {
        Some(self.row.cell_or(index, self.other))
    }

    #[tactic(auto, using(crate::proofs::Rows::length_filled, crate::proofs::Rows::filled_again))]
    fn cell_or(self, index: usize, _other: T) -> T {
        self.row.cell_or(index, self.other)
    }

    #[tactic(auto, using(crate::proofs::Rows::count_filled))]
    fn present(self) -> usize {
        self.row.len()
    }
}

/// A run without a mask.
#[derive(Clone, Copy)]
pub struct Whole<'a, T> {
    pub cells: &'a [T],
}

impl<'a, T: Copy> Row<T> for Whole<'a, T> {
    ghost items = { λ r. map Some r.cells.now };

    fn len(self) -> usize {
        self.cells.len()
    }

    fn get(self, index: usize) -> Option<T> {
        Some(self.cells[index])
    }

    fn cell_or(self, index: usize, _other: T) -> T {
        self.cells[index]
    }

    #[tactic(auto, using(crate::proofs::Rows::count_whole))]
    fn present(self) -> usize {
        self.cells.len()
    }
}

// The cell if its byte of the mask is 0, else the other one. Both are at hand, so the choice needs no branch.
fn if_shown<T: Copy>(byte: u8, cell: T, other: T) -> T
    ensures { result ≡ if byte == 0 then cell else other }
{
    if byte == 0 { cell } else { other }
}

/// A run with a mask, in which 0 marks a present cell.
#[derive(Clone, Copy)]
pub struct Masked<'a, T> {
    pub cells: &'a [T],
    pub mask: &'a [u8],
}

impl<'a, T: Copy> Row<T> for Masked<'a, T> {
    ghost items = { λ r. shown r.cells.now r.mask.now };

    #[tactic(auto, using(crate::proofs::Rows::length_shown))]
    fn len(self) -> usize {
        self.cells.len().min(self.mask.len())
    }

    #[tactic(auto, using(crate::proofs::Rows::length_shown))]
    fn get(self, index: usize) -> Option<T> {
        if self.mask[index] == 0 {
            Some(self.cells[index])
        } else {
            None
        }
    }

    #[tactic(auto, using(crate::proofs::Rows::length_shown))]
    fn cell_or(self, index: usize, other: T) -> T {
        if_shown(self.mask[index], self.cells[index], other)
    }

    #[tactic(auto, using(crate::proofs::Rows::length_shown, crate::proofs::Rows::count_masked))]
    fn present(self) -> usize {
        zeros(&self.mask[..self.len()])
    }
}
