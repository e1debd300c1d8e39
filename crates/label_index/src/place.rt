//! How an index finds the positions of its labels.
ghost use Rattle.std.specs.Prelude.{◌≡◌, ◌≤◌, ◌^◌, not, length, IfOk};
ghost use Rattle.xr_arrays.specs.Labels.{labels_of, direction_of, repeats};
ghost use Rattle.label_index.specs.Places.{IsPlaced};

use crate::rank::Ranks;
use crate::{hash, label, rank, scan, search};
use std::alloc::{AllocError, Global};
use xr_arrays::Direction;
use xr_types::LabelList;

/// How the positions of labels are found.
#[derive(Drop)]
pub enum Places {
    /// By a search in the order of the labels.
    Ranked(Ranks),
    /// By the slots of a hash table: numbers that neither ascend nor descend, of which none stands twice.
    Hashed(Vec<u32>),
}

/// How the positions of a list's labels are found.
pub fn place_all(alloc: Global, list: &LabelList) -> Result<Places, AllocError>
    requires { length (labels_of list.now) ≤ 2 ^ 25 }
    ensures { IfOk result (IsPlaced list.now) }
{
    if let Some(ranks) = scan::in_order(list) {
        return Ok(Places::Ranked(ranks));
    }
    if let Some(slots) = hash::slots_of(alloc, list)? {
        return Ok(Places::Hashed(slots));
    }
    Ok(Places::Ranked(scan::sorted(alloc, list)?))
}

/// Whether no label stands twice.
pub fn is_distinct(list: &LabelList, places: &Places) -> bool
    requires { IsPlaced list.now places.now }
    ensures { result ≡ not (repeats (labels_of list.now)) }
{
    match places {
        Places::Ranked(ranks) => search::is_distinct(list, ranks),
        Places::Hashed(_) => true,
    }
}

/// The order of the labels.
pub fn direction(list: &LabelList, places: &Places) -> Direction
    requires { IsPlaced list.now places.now }
    ensures { result ≡ direction_of (labels_of list.now) }
{
    match places {
        Places::Ranked(ranks) => rank::direction(ranks),
        Places::Hashed(_) => Direction::Neither,
    }
}
