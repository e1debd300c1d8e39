//! Runs of neighbouring cells.
ghost use Rattle.std.specs.Prelude.{◌≡◌, ◌<◌, ◌≤◌, ◌+◌, ◌^◌, ◌++◌, ℕ, ℤ, List, [], ◌∷◌, length, get_or, flat_map, Option, None};
ghost use Rattle.std.specs.List.{range_with_len};
ghost use Rattle.xr_arrays.specs.Nodes.{most_node_cells};
ghost use Rattle.row_folds.specs.Rows.{Absorbs, AbsorbsRow};

use crate::accumulator::Accumulator;
use crate::source::{InRuns, Source};
use xr_types::Elem;

/// The accumulator with one more cell of the source.
pub fn with_cell<T: Elem, A: Accumulator<T>, S: Source<T>>(
    one: A,
    position: u64,
    source: S,
    index: usize,
) -> A
    requires ready { S.Ready source }
    requires near { position < 2 ^ 62 }
    requires inside { index < length (S.cells source) }
    ensures { (before : List (ℕ × Option ℤ)) → A.Is one before → A.Is result (before ++ (position, get_or (S.cells source) index None) ∷ []) }
{
    let (cell, present) = source.cell(index);
    one.with(position, cell, present)
}

// Absorbs cells one by one, each into an accumulator of its own.
fn absorb_each<T: Elem, A: Accumulator<T>, S: Source<T>>(
    rows: &mut [A],
    at: usize,
    count: usize,
    position: u64,
    source: S,
    start: usize,
)
    requires ready { S.Ready source }
    requires near { position < 2 ^ 62 }
    requires rows { at + count ≤ length rows.old }
    requires few_rows { length rows.old ≤ most_node_cells }
    requires cells { start + count ≤ length (S.cells source) }
    requires few { length (S.cells source) ≤ most_node_cells }
    ensures { AbsorbsRow A.Is rows.old rows.new at count position (S.cells source) start }
{
    for i in 0..count {
        rows[at + i] = with_cell(rows[at + i], position, source, start + i);
    }
}

/// Absorbs a run of cells, each into an accumulator of its own.
pub fn absorb_row<T: Elem, A: Accumulator<T>, S: InRuns<T>>(
    rows: &mut [A],
    at: usize,
    count: usize,
    position: u64,
    source: S,
    start: usize,
)
    requires ready { S.Ready source }
    requires near { position < 2 ^ 62 }
    requires rows { at + count ≤ length rows.old }
    requires few_rows { length rows.old ≤ most_node_cells }
    requires cells { start + count ≤ length (S.cells source) }
    requires few { length (S.cells source) ≤ most_node_cells }
    ensures { AbsorbsRow A.Is rows.old rows.new at count position (S.cells source) start }
{
    match source.run(start, count) {
        Some((run, first)) => absorb_each(rows, at, count, position, run, first),
        None => absorb_each(rows, at, count, position, source, start),
    }
}

// Absorbs cells one by one into one accumulator, their positions counted from 0.
fn with_each<T: Elem, A: Accumulator<T>, S: Source<T>>(
    one: A,
    count: usize,
    source: S,
    start: usize,
) -> A
    requires ready { S.Ready source }
    requires cells { start + count ≤ length (S.cells source) }
    requires few { length (S.cells source) ≤ most_node_cells }
    ensures { (before : List (ℕ × Option ℤ)) → A.Is one before → A.Is result (before ++ flat_map (λ i. (i, get_or (S.cells source) (start + i) None) ∷ []) (range_with_len 0 count)) }
{
    let mut all = one;
    for i in 0..count {
        all = with_cell(all, i as u64, source, start + i);
    }
    all
}

// Absorbs a run of cells into one accumulator, their positions counted from 0.
fn with_run<T: Elem, A: Accumulator<T>, S: InRuns<T>>(
    one: A,
    count: usize,
    source: S,
    start: usize,
) -> A
    requires ready { S.Ready source }
    requires cells { start + count ≤ length (S.cells source) }
    requires few { length (S.cells source) ≤ most_node_cells }
    ensures { (before : List (ℕ × Option ℤ)) → A.Is one before → A.Is result (before ++ flat_map (λ i. (i, get_or (S.cells source) (start + i) None) ∷ []) (range_with_len 0 count)) }
{
    match source.run(start, count) {
        Some((run, first)) => with_each(one, count, run, first),
        None => with_each(one, count, source, start),
    }
}

/// Absorbs a run of cells into one accumulator, their positions counted from 0.
pub fn absorb_run<T: Elem, A: Accumulator<T>, S: InRuns<T>>(
    rows: &mut [A],
    at: usize,
    count: usize,
    source: S,
    start: usize,
)
    requires ready { S.Ready source }
    requires row { at < length rows.old }
    requires cells { start + count ≤ length (S.cells source) }
    requires few { length (S.cells source) ≤ most_node_cells }
    ensures { Absorbs A.Is rows.old rows.new at [] (λ p. flat_map (λ i. (i, get_or (S.cells source) (start + i) None) ∷ []) (range_with_len 0 count)) }
{
    rows[at] = with_run(rows[at], count, source, start);
}
