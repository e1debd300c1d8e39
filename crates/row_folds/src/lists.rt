//! Lists of positions along a table, each folded into a row of its own.
ghost use Rattle.std.specs.Prelude.{◌≡◌, ◌<◌, ◌≤◌, ◌+◌, ◌-◌, ◌*◌, ℕ, [], true, length, get_or, All, IfSome};
ghost use Rattle.xr_arrays.specs.FeedPositions.{listed};
ghost use Rattle.xr_arrays.specs.Nodes.{most_node_cells, ArePositions};
ghost use Rattle.row_folds.specs.Windows.{column, IsStrip, RowAbsorbs, RowsAbsorb, AtHand};

use crate::accumulator::Accumulator;
use crate::leaf::absorb_row;
use crate::positions::{count, nth};
use crate::source::InRuns;
use crate::strip::{Strip, begin_at};
use crate::windows::{Reach, absorb_window};
use xr_arrays::{Feeds, Positions};
use xr_types::Elem;

// Absorbs the cells at these positions into a row.
fn absorb_positions<T: Elem, A: Accumulator<T>, S: InRuns<T>>(
    rows: &mut [A],
    row: usize,
    strip: Strip,
    positions: Positions<'_>,
    source: S,
)
    requires ready { S.Ready source }
    requires strip { IsStrip strip (length (S.cells source)) }
    requires inside { row + strip.count ≤ length rows.old }
    requires few { length rows.old ≤ most_node_cells }
    requires positions { All (λ k. k < strip.size) (listed positions) }
    ensures { RowAbsorbs A.Is rows.old rows.new row strip.count (λ r. column (S.cells source) strip.start strip.stride r (listed positions.entry)) }
{
    for i in 0..count(positions) {
        let position = nth(positions, i);
        let cells = begin_at(strip, position);
        absorb_row(rows, row, strip.count, position, source, cells);
    }
}

// Whether folds of a window take no more than so many rows.
fn is_short(from: u64, to: u64, rows: u64) -> bool
    ensures some { result ≡ true → from < to }
    ensures room { result ≡ true → to - from + 2 ≤ rows }
{
    from < to && 2 <= rows && to - from <= rows - 2
}

// Absorbs the cells at these positions into a row, a window for which there is room by the folds at hand. It answers what those
// reach then.
fn absorb_place<T: Elem, A: Accumulator<T>, S: InRuns<T>>(
    rows: &mut [A],
    row: usize,
    strip: Strip,
    positions: Positions<'_>,
    source: S,
    folds: &mut [A],
    empty: A,
    reach: Option<Reach>,
) -> Option<Reach>
    requires ready { S.Ready source }
    requires strip { IsStrip strip (length (S.cells source)) }
    requires some { 0 < strip.count }
    requires inside { row + strip.count ≤ length rows.old }
    requires few { length rows.old ≤ most_node_cells }
    requires positions { All (λ k. k < strip.size) (listed positions) }
    requires folds { length folds.old ≤ most_node_cells }
    requires empty { A.Is empty [] }
    requires hand { IfSome reach (λ h. AtHand A.Is folds.old strip h (S.cells source)) }
    ensures row { RowAbsorbs A.Is rows.old rows.new row strip.count (λ r. column (S.cells source) strip.start strip.stride r (listed positions.entry)) }
    ensures long { length folds.new ≡ length folds.old }
    ensures hand { IfSome result (λ h. AtHand A.Is folds.new strip h (S.cells source)) }
{
    let most = (folds.len() / strip.count) as u64;
    match positions {
        Positions::Range { from, to } if is_short(from, to, most) => Some(absorb_window(
            rows, row, strip, from, to, source, folds, empty, reach,
        )),
        _ => {
            absorb_positions(rows, row, strip, positions, source);
            reach
        }
    }
}

// Absorbs the cells at the positions of each list into a row of its own, along a strip.
fn absorb_strip<T: Elem, A: Accumulator<T>, S: InRuns<T>>(
    rows: &mut [A],
    at: usize,
    strip: Strip,
    lists: &Feeds,
    source: S,
    folds: &mut [A],
    empty: A,
)
    requires ready { S.Ready source }
    requires strip { IsStrip strip (length (S.cells source)) }
    requires some { 0 < strip.count }
    requires narrow { strip.count ≤ strip.stride }
    requires inside { (i : ℕ) → i < length lists.now → at + i * strip.stride + strip.count ≤ length rows.old }
    requires few { length rows.old ≤ most_node_cells }
    requires lists { All (ArePositions strip.size 0) lists.now }
    requires folds { length folds.old ≤ most_node_cells }
    requires empty { A.Is empty [] }
    ensures rows { RowsAbsorb A.Is rows.old rows.new at strip.stride strip.count (length lists.now) (λ i r. column (S.cells source) strip.start strip.stride r (get_or lists.now i [])) }
    ensures long { length folds.new ≡ length folds.old }
{
    let mut reach = None;
    for place in 0..lists.len() {
        let row = at + place as usize * strip.stride;
        let positions = lists.positions(place);
        reach = absorb_place(rows, row, strip, positions, source, folds, empty, reach);
    }
}

// How many of the columns that are left stand in the next strip.
fn next_count(width: usize, left: usize) -> usize
    requires { 0 < left }
    ensures some { 0 < result }
    ensures most { result ≤ left }
{
    if width == 0 { left } else { width.min(left) }
}

/// Absorbs the cells at the positions of each list into a row of its own, one strip of so many columns after the other,
/// or all columns at once where that is 0.
pub fn absorb_lists<T: Elem, A: Accumulator<T>, S: InRuns<T>>(
    rows: &mut [A],
    at: usize,
    table: Strip,
    width: usize,
    lists: &Feeds,
    source: S,
    folds: &mut [A],
    empty: A,
)
    requires ready { S.Ready source }
    requires table { IsStrip table (length (S.cells source)) }
    requires start { table.start ≤ most_node_cells }
    requires whole { table.count ≡ table.stride }
    requires inside { at + length lists.now * table.stride ≤ length rows.old }
    requires few { length rows.old ≤ most_node_cells }
    requires lists { All (ArePositions table.size 0) lists.now }
    requires folds { length folds.old ≤ most_node_cells }
    requires empty { A.Is empty [] }
    ensures { RowsAbsorb A.Is rows.old rows.new at table.stride table.count (length lists.now) (λ i r. column (S.cells source) table.start table.stride r (get_or lists.now i [])) }
{
    let mut done = 0;
    while done < table.count {
        let count = next_count(width, table.count - done);
        let strip = Strip {
            size: table.size,
            stride: table.stride,
            count,
            start: table.start + done,
        };
        absorb_strip(rows, at + done, strip, lists, source, folds, empty);
        done += count;
    }
}
