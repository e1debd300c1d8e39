//! The accumulators of all rows of a fold's result.
ghost use Rattle.std.specs.Prelude.{◌≡◌, ◌≤◌, [], length, replicate, IfOk};
ghost use Rattle.xr_types.specs.Points.{size};
ghost use Rattle.xr_arrays.specs.Nodes.{gathered, most_node_cells};
ghost use Rattle.row_folds.specs.Rows.{read_from, Absorbs, IsFolding, AreFolds};

use crate::absorb::absorb;
use crate::accumulator::Accumulator;
use crate::room::room_for;
use crate::sizes::points;
use crate::source::InRuns;
use std::alloc::{AllocError, Global};
use xr_arrays::Feed;
use xr_types::Elem;

fn absorb_all<T: Elem, A: Accumulator<T>, S: InRuns<T>>(
    rows: &mut [A],
    feeds: &[Feed],
    shape: &[u64],
    sizes: &[u64],
    source: S,
    folds: &mut [A],
    width: usize,
    empty: A,
)
    requires ready { S.Ready source }
    requires folding { IsFolding feeds.now shape.now sizes.now (length (S.cells source)) }
    requires folds { length folds.old ≤ most_node_cells }
    requires empty { A.Is empty [] }
    requires rows { length rows.old ≡ size sizes.now }
    ensures { Absorbs A.Is rows.old rows.new 0 sizes.now (λ p. gathered 0 feeds.now shape.now p (read_from (S.cells source) 0 shape.now)) }
{
    if points(shape) == 0 {
        return;
    }
    absorb(
        rows, 0, 0, feeds, shape, sizes, source, 0, folds, width, empty,
    );
}

// So many equal accumulators.
fn starts<A: Copy + Drop>(alloc: Global, start: A, count: usize) -> Result<Vec<A>, AllocError>
    ensures { IfOk result (λ v. v.items ≡ replicate count start) }
{
    let mut rows = Vec::with_capacity(alloc, count)?;
    for i in 0..count {
        let _done = i;
        rows.push(start)?;
    }
    Ok(rows)
}

/// The accumulators of a fold, each of which begins with the same fold of no cells.
pub fn folded_rows<T: Elem, A: Accumulator<T>, S: InRuns<T>>(
    alloc: Global,
    start: A,
    feeds: &[Feed],
    shape: &[u64],
    sizes: &[u64],
    source: S,
) -> Result<Vec<A>, AllocError>
    requires ready { S.Ready source }
    requires start { A.Is start [] }
    requires folding { IsFolding feeds.now shape.now sizes.now (length (S.cells source)) }
    ensures { IfOk result (λ v. AreFolds A.Is v.items feeds.now shape.now sizes.now (S.cells source)) }
{
    let mut rows = starts(alloc, start, points(sizes) as usize)?;
    let room = room_for(feeds, shape);
    let mut folds = starts(alloc, start, room.folds as usize)?;
    absorb_all(
        &mut rows,
        feeds,
        shape,
        sizes,
        source,
        &mut folds,
        room.width as usize,
        start,
    );
    Ok(rows)
}
