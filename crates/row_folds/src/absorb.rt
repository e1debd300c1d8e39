//! All cells of an array, absorbed into the rows of a fold's result in the order in which the cells lie.
ghost use Rattle.std.specs.Prelude.{◌≡◌, ◌<◌, ◌≤◌, length, [], ◌∷◌, drop, get_or, true, false};
ghost use Rattle.xr_arrays.specs.declared.node.Feed.TheVariants.{All, By};
ghost use Rattle.xr_arrays.specs.Nodes.{gathered, most_node_cells};
ghost use Rattle.row_folds.specs.Rows.{read_from, AllKept, AreRows, Absorbs};

use crate::accumulator::Accumulator;
use crate::leaf::{absorb_row, absorb_run};
use crate::lists::absorb_lists;
use crate::positions::{count, nth};
use crate::sizes::{begin, behind, points};
use crate::source::InRuns;
use crate::strip::Strip;
use xr_arrays::{Feed, Feeds};
use xr_types::Elem;

fn feeds_behind(feeds: &[Feed]) -> &[Feed]
    requires { 0 < length feeds.now }
    ensures { result.now ≡ drop 1 feeds.now }
{
    &feeds[1..]
}

/// Whether all axes stay.
pub fn are_kept(feeds: &[Feed]) -> bool
    ensures kept { result ≡ true → AllKept feeds.now }
    ensures some { result ≡ false → 0 < length feeds.now }
{
    match feeds {
        [] => true,
        [Feed::Keep, rest @ ..] => are_kept(rest),
        _ => false,
    }
}

// Whether there is one axis, and it is folded as a whole.
fn is_run(feeds: &[Feed]) -> bool
    ensures { result ≡ true → feeds.now ≡ All ∷ [] }
{
    match feeds {
        [Feed::All] => true,
        _ => false,
    }
}

// Absorbs the cells of a shape by lists of positions of its first axis, where all axes behind that stay.
fn absorb_table<T: Elem, A: Accumulator<T>, S: InRuns<T>>(
    rows: &mut [A],
    at: usize,
    position: u64,
    lists: &Feeds,
    rest: &[Feed],
    shape: &[u64],
    sizes: &[u64],
    source: S,
    start: usize,
    folds: &mut [A],
    width: usize,
    empty: A,
)
    requires ready { S.Ready source }
    requires rows { AreRows (By lists.now ∷ rest.now) shape.now sizes.now at (length rows.old) start (length (S.cells source)) position }
    requires kept { AllKept rest.now }
    requires folds { length folds.old ≤ most_node_cells }
    requires empty { A.Is empty [] }
    ensures { Absorbs A.Is rows.old rows.new at sizes.now (λ p. gathered position (By lists.now ∷ rest.now) shape.now p (read_from (S.cells source) start shape.now)) }
{
    let columns = points(behind(shape)) as usize;
    let table = Strip {
        size: shape[0],
        stride: columns,
        count: columns,
        start,
    };
    absorb_lists(rows, at, table, width, lists, source, folds, empty);
}

/// Absorbs the cells of a shape, which lie from `start` on, into the accumulators of the sizes that stay, which lie from `at`
/// on. The position is that along the last axis before that was folded. What the memory for folds holds doesn't matter; windows
/// are put together there, so many columns at a time.
pub fn absorb<T: Elem, A: Accumulator<T>, S: InRuns<T>>(
    rows: &mut [A],
    at: usize,
    position: u64,
    feeds: &[Feed],
    shape: &[u64],
    sizes: &[u64],
    source: S,
    start: usize,
    folds: &mut [A],
    width: usize,
    empty: A,
)
    requires ready { S.Ready source }
    requires rows { AreRows feeds.now shape.now sizes.now at (length rows.old) start (length (S.cells source)) position }
    requires folds { length folds.old ≤ most_node_cells }
    requires empty { A.Is empty [] }
    ensures { Absorbs A.Is rows.old rows.new at sizes.now (λ p. gathered position feeds.now shape.now p (read_from (S.cells source) start shape.now)) }
{
    if are_kept(feeds) {
        absorb_row(rows, at, points(sizes) as usize, position, source, start);
        return;
    }
    if is_run(feeds) {
        absorb_run(rows, at, shape[0] as usize, source, start);
        return;
    }
    let rest = feeds_behind(feeds);
    match &feeds[0] {
        Feed::Keep => {
            for i in 0..shape[0] {
                let row = begin(sizes, at, i);
                let cells = begin(shape, start, i);
                absorb(
                    rows,
                    row,
                    position,
                    rest,
                    behind(shape),
                    behind(sizes),
                    source,
                    cells,
                    folds,
                    width,
                    empty,
                );
            }
        }
        Feed::All => {
            for i in 0..shape[0] {
                let cells = begin(shape, start, i);
                absorb(
                    rows,
                    at,
                    i,
                    rest,
                    behind(shape),
                    sizes,
                    source,
                    cells,
                    folds,
                    width,
                    empty,
                );
            }
        }
        Feed::By(lists) => {
            if are_kept(rest) {
                absorb_table(
                    rows, at, position, lists, rest, shape, sizes, source, start, folds, width,
                    empty,
                );
                return;
            }
            for place in 0..lists.len() {
                let row = begin(sizes, at, place);
                let positions = lists.positions(place);
                for i in 0..count(positions) {
                    let one = nth(positions, i);
                    let cells = begin(shape, start, one);
                    absorb(
                        rows,
                        row,
                        one,
                        rest,
                        behind(shape),
                        behind(sizes),
                        source,
                        cells,
                        folds,
                        width,
                        empty,
                    );
                }
            }
        }
    }
}
