//! The ranks of an axis's positions: with the ranks the labels ascend.
ghost use Rattle.std.specs.Prelude.{◌≡◌, ◌<◌, ◌≤◌, ℕ, length, true, false};
ghost use Rattle.xr_arrays.specs.Labels.{labels_of, label_at, order};
ghost use Rattle.label_index.specs.Ranks.{position, direction, HasRank, IsRanked, stands_before};

use crate::label;
use std::cmp::Ordering;
use xr_arrays::Direction;
use xr_types::{Label, LabelList};

/// How the position at a rank is found.
#[derive(Drop)]
pub enum Ranks {
    /// The labels ascend: rank and position are the same.
    Rising,
    /// The labels descend: the last position has the first rank.
    Falling,
    /// The positions in the order of their labels.
    Sorted(Vec<u32>),
}

/// The position at a rank.
pub fn position(ranks: &Ranks, size: usize, rank: usize) -> usize
    requires { HasRank ranks.now size rank }
    ensures { result ≡ position ranks.now size rank }
{
    match ranks {
        Ranks::Rising => rank,
        Ranks::Falling => size - 1 - rank,
        Ranks::Sorted(ranked) => ranked[rank] as usize,
    }
}

/// The direction of the labels.
pub fn direction(ranks: &Ranks) -> Direction
    ensures { result ≡ direction ranks.now }
{
    match ranks {
        Ranks::Rising => Direction::Ascending,
        Ranks::Falling => Direction::Descending,
        Ranks::Sorted(_) => Direction::Neither,
    }
}
