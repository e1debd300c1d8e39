//! Windows, each put together from two folds: of its cells before a position, and of those from there on. So a cell is folded
//! at most twice, whatever the width.
ghost use Rattle.std.specs.Prelude.{◌≡◌, ◌<◌, ◌≤◌, ◌+◌, ◌-◌, ◌*◌, ◌^◌, ◌++◌, ℕ, ℤ, [], ◌∷◌, true, List, Option, None, length, get_or, IfSome};
ghost use Rattle.std.specs.List.{range_with_len};
ghost use Rattle.xr_arrays.specs.Nodes.{most_node_cells};
ghost use Rattle.row_folds.specs.Windows.{column, IsStrip, RowAbsorbs, FoldsBefore, Gives, AtHand, Reaches};

use crate::accumulator::Accumulator;
use crate::leaf::{absorb_row, with_cell};
use crate::source::{InRuns, Source};
use crate::strip::{Strip, begin_at};
use xr_types::Elem;

/// Which windows the folds at hand give: those from a position between the first and the middle up to the end.
#[derive(Clone, Copy)]
pub struct Reach {
    pub first: u64,
    pub middle: u64,
    pub end: u64,
}

// The fold of a cell and of those behind it.
fn with_behind<T: Elem, A: Accumulator<T>, S: Source<T>>(
    empty: A,
    position: u64,
    source: S,
    index: usize,
    behind: A,
) -> A
    requires ready { S.Ready source }
    requires near { position < 2 ^ 62 }
    requires inside { index < length (S.cells source) }
    requires empty { A.Is empty [] }
    ensures { (after : List (ℕ × Option ℤ)) → A.Is behind after → A.Is result ((position, get_or (S.cells source) index None) ∷ after) }
{
    with_cell(empty, position, source, index).combine(behind)
}

// Folds cells one by one before a row of folds, into another row.
fn fold_each_before<T: Elem, A: Accumulator<T>, S: Source<T>>(
    folds: &mut [A],
    behind: usize,
    into: usize,
    count: usize,
    position: u64,
    source: S,
    start: usize,
    empty: A,
)
    requires ready { S.Ready source }
    requires near { position < 2 ^ 62 }
    requires order { behind + count ≤ into }
    requires inside { into + count ≤ length folds.old }
    requires folds { length folds.old ≤ most_node_cells }
    requires cells { start + count ≤ length (S.cells source) }
    requires few { length (S.cells source) ≤ most_node_cells }
    requires empty { A.Is empty [] }
    ensures { FoldsBefore A.Is folds.old folds.new behind into count position (S.cells source) start }
{
    for i in 0..count {
        folds[into + i] = with_behind(empty, position, source, start + i, folds[behind + i]);
    }
}

// Folds a row of cells before a row of folds, into another row.
fn fold_before<T: Elem, A: Accumulator<T>, S: InRuns<T>>(
    folds: &mut [A],
    behind: usize,
    into: usize,
    count: usize,
    position: u64,
    source: S,
    start: usize,
    empty: A,
)
    requires ready { S.Ready source }
    requires near { position < 2 ^ 62 }
    requires order { behind + count ≤ into }
    requires inside { into + count ≤ length folds.old }
    requires folds { length folds.old ≤ most_node_cells }
    requires cells { start + count ≤ length (S.cells source) }
    requires few { length (S.cells source) ≤ most_node_cells }
    requires empty { A.Is empty [] }
    ensures { FoldsBefore A.Is folds.old folds.new behind into count position (S.cells source) start }
{
    match source.run(start, count) {
        Some((run, first)) => {
            fold_each_before(folds, behind, into, count, position, run, first, empty);
        }
        None => fold_each_before(folds, behind, into, count, position, source, start, empty),
    }
}

// Sets the first accumulators.
fn clear<A: Copy + Drop>(folds: &mut [A], count: usize, empty: A)
    requires { count ≤ length folds.old }
    ensures long { length folds.new ≡ length folds.old }
    ensures cleared { (i : ℕ) (z : A) → i < count → get_or folds.new i z ≡ empty }
{
    for i in 0..count {
        folds[i] = empty;
    }
}

// Makes the folds for windows from a position on, and up to another one or beyond.
fn refilled<T: Elem, A: Accumulator<T>, S: InRuns<T>>(
    folds: &mut [A],
    strip: Strip,
    from: u64,
    to: u64,
    source: S,
    empty: A,
) -> Reach
    requires ready { S.Ready source }
    requires strip { IsStrip strip (length (S.cells source)) }
    requires order { from ≤ to }
    requires end { to ≤ strip.size }
    requires room { (to - from + 2) * strip.count ≤ length folds.old }
    requires folds { length folds.old ≤ most_node_cells }
    requires empty { A.Is empty [] }
    ensures long { length folds.new ≡ length folds.old }
    ensures hand { AtHand A.Is folds.new strip result (S.cells source) }
    ensures reaches { Reaches result from to }
{
    clear(folds, 2 * strip.count, empty);
    for depth in 0..to - from {
        let position = to - 1 - depth;
        let behind = (depth as usize + 1) * strip.count;
        let cells = begin_at(strip, position);
        fold_before(
            folds,
            behind,
            behind + strip.count,
            strip.count,
            position,
            source,
            cells,
            empty,
        );
    }
    Reach {
        first: from,
        middle: to,
        end: to,
    }
}

// Absorbs the cells up to another end.
fn extended<T: Elem, A: Accumulator<T>, S: InRuns<T>>(
    folds: &mut [A],
    strip: Strip,
    reach: Reach,
    to: u64,
    source: S,
) -> Reach
    requires ready { S.Ready source }
    requires strip { IsStrip strip (length (S.cells source)) }
    requires hand { AtHand A.Is folds.old strip reach (S.cells source) }
    requires order { reach.end ≤ to }
    requires end { to ≤ strip.size }
    requires folds { length folds.old ≤ most_node_cells }
    ensures long { length folds.new ≡ length folds.old }
    ensures hand { AtHand A.Is folds.new strip result (S.cells source) }
    ensures first { result.first ≡ reach.first }
    ensures middle { result.middle ≡ reach.middle }
    ensures end { result.end ≡ to }
{
    for position in reach.end..to {
        let cells = begin_at(strip, position);
        absorb_row(folds, 0, strip.count, position, source, cells);
    }
    Reach { end: to, ..reach }
}

// Whether the folds at hand can give a window when they are extended.
fn is_near(reach: Reach, from: u64, to: u64) -> bool
    ensures first { result ≡ true → reach.first ≤ from }
    ensures middle { result ≡ true → from ≤ reach.middle }
    ensures end { result ≡ true → reach.end ≤ to }
{
    reach.first <= from && from <= reach.middle && reach.end <= to
}

// Sees to it that the folds at hand give a window.
fn reaching<T: Elem, A: Accumulator<T>, S: InRuns<T>>(
    folds: &mut [A],
    strip: Strip,
    reach: Option<Reach>,
    from: u64,
    to: u64,
    source: S,
    empty: A,
) -> Reach
    requires ready { S.Ready source }
    requires strip { IsStrip strip (length (S.cells source)) }
    requires hand { IfSome reach (λ h. AtHand A.Is folds.old strip h (S.cells source)) }
    requires order { from ≤ to }
    requires end { to ≤ strip.size }
    requires room { (to - from + 2) * strip.count ≤ length folds.old }
    requires folds { length folds.old ≤ most_node_cells }
    requires empty { A.Is empty [] }
    ensures long { length folds.new ≡ length folds.old }
    ensures hand { AtHand A.Is folds.new strip result (S.cells source) }
    ensures reaches { Reaches result from to }
{
    match reach {
        Some(reach) if is_near(reach, from, to) => extended(folds, strip, reach, to, source),
        _ => refilled(folds, strip, from, to, source, empty),
    }
}

// Absorbs two rows of folds, that which stands at a place and behind it the first one.
fn give<T: Elem, A: Accumulator<T>>(
    rows: &mut [A],
    row: usize,
    count: usize,
    folds: &[A],
    first: usize,
)
    requires inside { row + count ≤ length rows.old }
    requires few { length rows.old ≤ most_node_cells }
    requires there { first + count ≤ length folds.now }
    requires folds { length folds.now ≤ most_node_cells }
    ensures { Gives A.Is rows.old rows.new row count folds.now first }
{
    for i in 0..count {
        rows[row + i] = rows[row + i].combine(folds[first + i]).combine(folds[i]);
    }
}

/// Absorbs the cells from one position up to another into a row, by the folds at hand, and answers what those reach then.
pub fn absorb_window<T: Elem, A: Accumulator<T>, S: InRuns<T>>(
    rows: &mut [A],
    row: usize,
    strip: Strip,
    from: u64,
    to: u64,
    source: S,
    folds: &mut [A],
    empty: A,
    reach: Option<Reach>,
) -> Reach
    requires ready { S.Ready source }
    requires strip { IsStrip strip (length (S.cells source)) }
    requires inside { row + strip.count ≤ length rows.old }
    requires few { length rows.old ≤ most_node_cells }
    requires hand { IfSome reach (λ h. AtHand A.Is folds.old strip h (S.cells source)) }
    requires order { from ≤ to }
    requires end { to ≤ strip.size }
    requires room { (to - from + 2) * strip.count ≤ length folds.old }
    requires folds { length folds.old ≤ most_node_cells }
    requires empty { A.Is empty [] }
    ensures row { RowAbsorbs A.Is rows.old rows.new row strip.count (λ r. column (S.cells source) strip.start strip.stride r (range_with_len from (to - from))) }
    ensures long { length folds.new ≡ length folds.old }
    ensures hand { AtHand A.Is folds.new strip result (S.cells source) }
{
    let reach = reaching(folds, strip, reach, from, to, source, empty);
    let before = (reach.middle - from) as usize;
    give(rows, row, strip.count, folds, (before + 1) * strip.count);
    reach
}
