//! Cells that folds read.
ghost use Rattle.std.specs.Prelude.{◌≡◌, ◌<◌, ◌≤◌, ◌+◌, ℤ, List, length, map, zip, Option, Some, None, get_or, IfSome, ⊤};
ghost use Rattle.xr_arrays.specs.Arrays.{cell};
ghost use Rattle.xr_arrays.specs.Nodes.{most_node_cells};
ghost use Rattle.xr_arrays.specs.Pieces.{together, values_in};
ghost use Rattle.xr_arrays.specs.Stored.{stored_cells};
ghost use Rattle.row_folds.specs.Rows.{shown};
ghost use Rattle.row_folds.specs.Runs.{ArePart, IsInPieces, IsRun};

use stored_cells::{Fills, Number};
use xr_arrays::{Pieces, Run};
use xr_types::{Elem, NcType};

/// Cells in row order, of one type.
pub trait Source<T: Elem>: Copy + Drop {
    /// The number of each cell, or None where it is missing.
    ghost cells: { Self → List (Option ℤ) };

    /// What has to hold so that they can be read.
    ghost Ready: { Self → Type 0 };

    /// A cell, and whether it is there. A missing one has any number.
    fn cell(self, index: usize) -> (T, bool)
        requires ready { Ready self }
        requires inside { index < length (cells self) }
        ensures { get_or (cells self) index None ≡ shown result.1 (T.number result.0) };
}

/// Cells that can be read by runs.
pub trait InRuns<T: Elem>: Source<T> {
    /// What the cells of a run are read from.
    type Run: Source<T>;

    /// So many cells from one on, if they stand in one run: what they are read from, and the place of the first one there.
    fn run(self, start: usize, count: usize) -> Option<(Self::Run, usize)>
        requires ready { Self.Ready self }
        requires inside { start + count ≤ length (Self.cells self) }
        requires few { length (Self.cells self) ≤ most_node_cells }
        ensures ready { IfSome result (λ r. Self.Run.Ready r.0) }
        ensures same { IfSome result (λ r. IsRun (Self.cells self) (Self.Run.cells r.0) start r.1 count) };
}

/// Cells none of which is missing.
#[derive(Clone, Copy)]
pub struct Whole<'a, T> {
    pub cells: &'a [T],
}

impl<'a, T: Elem> Source<T> for Whole<'a, T> {
    ghost cells = { λ s. map Some (map T.number s.cells.now) };

    ghost Ready = { λ s. ⊤ };

    fn cell(self, index: usize) -> (T, bool) {
        (self.cells[index], true)
    }
}

impl<'a, T: Elem> InRuns<T> for Whole<'a, T> {
    type Run = Whole<'a, T>;

    fn run(self, start: usize, _count: usize) -> Option<(Whole<'a, T>, usize)> {
        Some((self, start))
    }
}

/// Cells with a mask, in which 0 marks a present cell.
#[derive(Clone, Copy)]
pub struct Masked<'a, T> {
    pub cells: &'a [T],
    pub mask: &'a [u8],
}

impl<'a, T: Elem> Source<T> for Masked<'a, T> {
    ghost cells = { λ s. map cell (zip (map T.number s.cells.now) s.mask.now) };

    ghost Ready = { λ s. ⊤ };

    fn cell(self, index: usize) -> (T, bool) {
        (self.cells[index], self.mask[index] == 0)
    }
}

impl<'a, T: Elem> InRuns<T> for Masked<'a, T> {
    type Run = Masked<'a, T>;

    fn run(self, start: usize, _count: usize) -> Option<(Masked<'a, T>, usize)> {
        Some((self, start))
    }
}

/// Cells as a file stores them: big-endian numbers, some of which stand for missing cells.
#[derive(Clone, Copy)]
pub struct Stored<'a, F> {
    pub bytes: &'a [u8],
    pub fills: F,
}

impl<'a, T: Number, F: Fills + Drop> Source<T> for Stored<'a, F> {
    ghost cells = { λ s. stored_cells T.spelt s.bytes.now (F.numbers s.fills) };

    ghost Ready = { λ s. ⊤ };

    fn cell(self, index: usize) -> (T, bool) {
        let cell = T::at(self.bytes, index);
        (cell, !self.fills.hide(cell))
    }
}

/// Such cells, whose bytes stand in pieces of which the first is at hand.
#[derive(Clone, Copy)]
pub struct InPieces<'a, F> {
    pub pieces: &'a Pieces,
    pub kind: NcType,
    pub first: Run<'a>,
    pub fills: F,
}

// A run of values, and which value is its first.
#[derive(Clone, Copy)]
struct Part<'a> {
    run: Run<'a>,
    from: usize,
}

// The run in which a value stands.
fn find<'a, T: Number>(pieces: &'a Pieces, kind: NcType, first: Run<'a>, value: usize) -> Part<'a>
    requires ready { IsInPieces kind T.spelt pieces.now first.bytes.now first.count }
    requires inside { value < values_in pieces.now }
    ensures part { ArePart T.spelt (together kind pieces.now) result.run.bytes.now result.from result.run.count }
    ensures from { result.from ≤ value }
    ensures behind { value < result.from + result.run.count }
    ensures within { result.from + result.run.count ≤ values_in pieces.now }
{
    if value < first.count {
        return Part {
            run: first,
            from: 0,
        };
    }
    Part {
        run: pieces.run(kind, value),
        from: value,
    }
}

impl<'a, T: Number, F: Fills + Drop> Source<T> for InPieces<'a, F> {
    ghost cells = { λ s. stored_cells T.spelt (together s.kind s.pieces.now) (F.numbers s.fills) };

    ghost Ready = { λ s. IsInPieces s.kind T.spelt s.pieces.now s.first.bytes.now s.first.count };

    fn cell(self, index: usize) -> (T, bool) {
        let part = find::<T>(self.pieces, self.kind, self.first, index);
        let cell = T::at(part.run.bytes, index - part.from);
        (cell, !self.fills.hide(cell))
    }
}

impl<'a, T: Number, F: Fills + Drop> InRuns<T> for InPieces<'a, F> {
    type Run = Stored<'a, F>;

    fn run(self, start: usize, count: usize) -> Option<(Stored<'a, F>, usize)> {
        if count == 0 {
            return None;
        }
        let part = find::<T>(self.pieces, self.kind, self.first, start);
        let at = start - part.from;
        if part.run.count - at < count {
            return None;
        }
        let run = Stored {
            bytes: part.run.bytes,
            fills: self.fills,
        };
        Some((run, at))
    }
}
