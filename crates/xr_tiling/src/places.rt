//! The places of datasets in a grid, in row order.
ghost use Rattle.std.specs.Prelude.{◌≡◌, ◌==◌, ◌+◌, ◌*◌, ◌≤◌, ◌^◌, ℕ, List, None, length, get_or, IfOk, IfSome};
ghost use Rattle.std.specs.List.{list_any, position_or_len};
ghost use Rattle.xr_types.specs.Points.{size};
ghost use Rattle.xr_types.specs.Results.{Answers};
ghost use Rattle.xr_defs.specs.Limits as limits;
ghost use Rattle.xr_tiling.specs.Places as placing;

use crate::ranks::Ranking;
use std::alloc::{AllocError, Global};
use xr_types::{CallFault, Fault, Items, NoMemory};

// ---- how many there are

/// How many places there are along each dimension.
pub(crate) fn extents(alloc: Global, rankings: &[Ranking]) -> Result<Items<u64>, AllocError>
    ensures { IfOk result (λ shape. shape ≡ placing.extents_in rankings.now) }
{
    let mut shape = Items::new(alloc);
    for ranking in rankings {
        shape.push(ranking.extent)?;
    }
    Ok(shape)
}

/// How many places a grid has, if 64 bits hold the number.
pub fn size_of(shape: &[u64]) -> Option<u64>
    ensures some { IfSome result (λ n. n ≡ size shape.now) }
    ensures none { result ≡ None → 2 ^ 64 ≤ size shape.now }
{
    match shape {
        [] => Some(1),
        [extent, rest @ ..] => match size_of(rest) {
            Some(size) => extent.checked_mul(size),
            None => { if *extent == 0 { Some(0) } else { None } }
        },
    }
}

fn has_size(alloc: Global, rankings: &[Ranking], count: usize) -> Result<bool, AllocError>
    ensures { IfOk result (λ b. b ≡ (count == size (placing.extents_in rankings.now))) }
{
    let shape = extents(alloc, rankings)?;
    Ok(size_of(shape.as_slice()) == Some(count as u64))
}

// ---- the place of each dataset

fn rank_at(ranks: &[u64], at: usize) -> u64
    ensures { result ≡ get_or ranks.now at 0 }
{
    match ranks.get(at) {
        Some(rank) => *rank,
        None => 0,
    }
}

// A place is one of so many as there are datasets: none passes 64 bits.
fn step(ranking: &Ranking, at: usize, before: u64) -> Result<u64, NoMemory>
    ensures { IfOk result (λ n. n ≡ before * ranking.now.extent + get_or ranking.now.ranks at 0) }
{
    let rank = rank_at(ranking.ranks.as_slice(), at);
    match before.checked_mul(ranking.extent) {
        None => Err(NoMemory),
        Some(start) => match start.checked_add(rank) {
            None => Err(NoMemory),
            Some(place) => Ok(place),
        },
    }
}

// The place along these dimensions, from the first on.
fn place_of(rankings: &[Ranking], at: usize) -> Result<u64, NoMemory>
    ensures { IfOk result (λ n. n ≡ placing.place_in rankings.now at) }
{
    let mut place = 0;
    for ranking in rankings {
        place = step(ranking, at, place)?;
    }
    Ok(place)
}

fn places(alloc: Global, rankings: &[Ranking], count: usize) -> Result<Items<u64>, NoMemory>
    ensures { IfOk result (λ ps. ps ≡ placing.places_in rankings.now count) }
{
    let mut places = Items::new(alloc);
    for at in 0..count {
        let place = place_of(rankings, at)?;
        places.push(place)?;
    }
    Ok(places)
}

fn has(places: &[u64], place: u64) -> bool
    ensures { result ≡ list_any (λ p. p == place) places.now }
{
    match places {
        [] => false,
        [other, rest @ ..] => *other == place || has(rest, place),
    }
}

fn are_different(places: &[u64]) -> bool
    ensures { result ≡ limits.are_different places.now }
{
    match places {
        [] => true,
        [place, rest @ ..] => !has(rest, *place) && are_different(rest),
    }
}

/// The place of each dataset, in row order.
///
/// # Errors
/// `Conflict` unless each place of the grid is taken once.
#[tactic(auto, using(crate::proofs::Placed::other_size, crate::proofs::Placed::full, crate::proofs::Placed::taken_twice))]
pub(crate) fn full_places(
    alloc: Global,
    rankings: &[Ranking],
    count: usize,
) -> Result<Items<u64>, CallFault>
    ensures { Answers (λ (ps : List ℕ). ps) result (placing.full_places rankings.now count) }
{
    if !has_size(alloc, rankings, count)? {
        return Err(CallFault::Refused(Fault::Conflict));
    }
    let places = places(alloc, rankings, count)?;
    if !are_different(places.as_slice()) {
        return Err(CallFault::Refused(Fault::Conflict));
    }
    Ok(places)
}

// ---- the dataset of each place

fn position_of(places: &[u64], place: u64) -> usize
    ensures position { result ≡ position_or_len (λ p. p == place) places.now }
    ensures within { result ≤ length places.now }
{
    match places {
        [] => 0,
        [other, rest @ ..] => {
            if *other == place {
                0
            } else {
                position_of(rest, place) + 1
            }
        }
    }
}

/// The number of the dataset at each place.
pub(crate) fn order_of(
    alloc: Global,
    places: &[u64],
    count: usize,
) -> Result<Items<u64>, AllocError>
    ensures { IfOk result (λ order. order ≡ placing.order_of places.now count) }
{
    let mut order = Items::new(alloc);
    for place in 0..count {
        let position = position_of(places, place as u64);
        order.push(position as u64)?;
    }
    Ok(order)
}
