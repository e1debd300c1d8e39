//! Lists of positions by their places.
ghost use Rattle.std.specs.Prelude.{◌≡◌, ◌<◌, ◌≤◌, ◌^◌, ◌+◌, ◌++◌, [], ◌∷◌, List, length, map, take, IfOk, OnOk};
ghost use Rattle.std.specs.List.{range_with_len};
ghost use Rattle.xr_groups.specs.Groups as of;
ghost use Rattle.group_window.specs.Lists.{of_place};

use std::alloc::{AllocError, Global};
use xr_arrays::Feeds;
use xr_types::Items;

// So many lists without positions.
#[tactic(auto, using(crate::proofs::Lists::one_more_empty))]
fn no_lists(alloc: Global, count: u64) -> Result<Vec<Items<u32>>, AllocError>
    ensures { IfOk result (λ v. v.items ≡ map (λ j. []) (range_with_len 0 count)) }
{
    let mut lists = Vec::new(alloc);
    for _ in 0..count {
        lists.push(Items::new(alloc))?;
    }
    Ok(lists)
}

// Adds a position to the list of its place, if there is such a list.
fn add(lists: &mut Vec<Items<u32>>, place: u32, position: u32) -> Result<(), AllocError>
    ensures { OnOk result (lists.new.items ≡ of_place lists.old.items place position) }
{
    let place = place as usize;
    if place < lists.len() {
        lists[place].push(position)?;
    }
    Ok(())
}

// For each place the positions that have it.
#[tactic(auto, using(crate::proofs::Lists::placed_next, crate::proofs::Lists::none_placed, crate::proofs::Lists::take_whole))]
fn by_place(alloc: Global, count: u64, places: &[u32]) -> Result<Vec<Items<u32>>, AllocError>
    requires { length places.now ≤ 4294967295 }
    ensures { IfOk result (λ v. v.items ≡ of.bin_lists count places.now) }
{
    let mut lists = no_lists(alloc, count)?;
    let mut position = 0;
    for place in places {
        add(&mut lists, *place, position)?;
        position += 1;
    }
    Ok(lists)
}

// Adds positions.
fn push_all(out: &mut Items<u32>, list: &[u32]) -> Result<(), AllocError>
    ensures { OnOk result (out.new ≡ out.old ++ list.now) }
{
    for position in list {
        out.push(*position)?;
    }
    Ok(())
}

// The lists one after the other, each up to its end.
#[tactic(auto, using(crate::proofs::Lists::joined_are, crate::proofs::Lists::joined_ends))]
fn joined(alloc: Global, lists: &[Items<u32>]) -> Result<Feeds, AllocError>
    ensures { IfOk result (λ f. f ≡ lists.now) }
{
    let mut positions = Items::new(alloc);
    let mut ends = Items::new(alloc);
    for list in lists {
        push_all(&mut positions, list.as_slice())?;
        ends.push(positions.as_slice().len() as u64)?;
    }
    Ok(Feeds::lists(positions, ends))
}

/// For each place the positions that have it, in ascending order.
pub fn bin_lists(alloc: Global, count: u64, places: &[u32]) -> Result<Feeds, AllocError>
    ensures { IfOk result (λ f. f ≡ of.bin_lists count places.now) }
{
    if places.len() > u32::MAX as usize {
        return Err(AllocError);
    }
    let lists = by_place(alloc, count, places)?;
    joined(alloc, &lists)
}
