//! How much memory the windows of a fold take.
ghost use Rattle.std.specs.Prelude.{◌≤◌, ◌^◌};

use crate::absorb::are_kept;
use crate::positions::count;
use crate::sizes::{behind, points};
use xr_arrays::{Feed, Feeds, Positions};

/// So many folds, in rows of so many columns.
#[derive(Clone, Copy)]
pub struct Room {
    pub folds: u64,
    pub width: u64,
}

// What the lists of an axis hold: how many positions there are in all, and in the longest, if all lists are of neighbours.
#[derive(Clone, Copy)]
struct Extent {
    total: u64,
    longest: u64,
}

fn extent_of(lists: &Feeds) -> Extent {
    let mut extent = Extent {
        total: 0,
        longest: 0,
    };
    for place in 0..lists.len() {
        let positions = lists.positions(place);
        if let Positions::Range { .. } = positions {
            let n = count(positions);
            extent.total = extent.total.saturating_add(n);
            extent.longest = extent.longest.max(n);
        }
    }
    extent
}

// The columns that a strip has: as many as lie near the processor with the folds of a window.
fn strip_width(rows: u64, columns: u64) -> u64 {
    let near = (1u64 << 20) / rows.max(1);
    near.clamp(16, 1024).min(columns)
}

/// The room for the windows along an axis, if they overlap so much that it pays, behind which no axis is folded.
pub fn room_for(feeds: &[Feed], shape: &[u64]) -> Room
    ensures { result.folds ≤ 2 ^ 34 }
{
    match (feeds, shape) {
        ([Feed::By(lists), rest @ ..], [size, sizes @ ..]) if are_kept(rest) => {
            let extent = extent_of(lists);
            if extent.total / 4 < *size {
                return Room { folds: 0, width: 0 };
            }
            let rows = extent.longest.saturating_add(2);
            let width = strip_width(rows, points(sizes));
            Room {
                folds: rows.saturating_mul(width).min(1 << 34),
                width,
            }
        }
        ([_, rest @ ..], [_, sizes @ ..]) => room_for(rest, sizes),
        _ => Room { folds: 0, width: 0 },
    }
}
