//! The grid that datasets fill.
ghost use Rattle.std.specs.Prelude.{◌≡◌, List, map, not, IfOk};
ghost use Rattle.std.specs.List.{list_all};
ghost use Rattle.xr_types.specs.Results.{Answers};
ghost use Rattle.xr_arrays.specs.declared.node.Node.{Node};
ghost use Rattle.xr_arrays.specs.Labels.{labels_of};
ghost use Rattle.xr_combination.specs.Combine as calls;
ghost use Rattle.xr_combination.specs.declared.grid.Grid.{Grid as AGrid};
ghost use Rattle.xr_defs.specs.Values.{Dataset as TheSet};
ghost use Rattle.xr_operations.specs.Alignment.{is_empty};
ghost use Rattle.xr_values.specs.Stands.{dataset_in};
ghost use Rattle.xr_values.specs.declared.dataset.Dataset.{Dataset as ASet};
ghost use Rattle.xr_tiling.specs.Places as placing;

use crate::along::{all_along, grid_dimensions};
use crate::places::{extents, full_places, order_of};
use crate::ranks::{Ranking, all_ascend, all_descend, ranked};
use align_join::{all_kin, count};
use std::alloc::{AllocError, Global};
use xr_combination::Grid;
use xr_types::{Axis, CallFault, Fault, Items, LabelList, Name};
use xr_values::Dataset;

// ---- the indexes of each dimension

fn is_filled(list: &LabelList) -> bool
    ensures { result ≡ not (is_empty (labels_of list.now)) }
{
    count(list) != 0
}

fn are_filled(lists: &[&LabelList]) -> bool
    ensures { result ≡ calls.are_filled (map (λ l. l.now) lists.now) }
{
    match lists {
        [] => true,
        [list, rest @ ..] => is_filled(list) && are_filled(rest),
    }
}

fn all_filled(dims: &[Items<&LabelList>]) -> bool
    ensures { result ≡ list_all calls.are_filled (map (map (λ l. l.now)) dims.now) }
{
    match dims {
        [] => true,
        [lists, rest @ ..] => are_filled(lists.as_slice()) && all_filled(rest),
    }
}

fn are_ordered(lists: &[&LabelList]) -> bool
    ensures { result ≡ calls.are_ordered (map (λ l. l.now) lists.now) }
{
    all_ascend(lists) || all_descend(lists)
}

fn all_ordered(dims: &[Items<&LabelList>]) -> bool
    ensures { result ≡ list_all calls.are_ordered (map (map (λ l. l.now)) dims.now) }
{
    match dims {
        [] => true,
        [lists, rest @ ..] => are_ordered(lists.as_slice()) && all_ordered(rest),
    }
}

fn are_of_one_kind(lists: &[&LabelList]) -> bool
    ensures { result ≡ calls.are_of_one_kind (map (λ l. l.now) lists.now) }
{
    match lists {
        [] => true,
        [first, others @ ..] => all_kin(first, others),
    }
}

fn all_of_one_kind(dims: &[Items<&LabelList>]) -> bool
    ensures { result ≡ list_all calls.are_of_one_kind (map (map (λ l. l.now)) dims.now) }
{
    match dims {
        [] => true,
        [lists, rest @ ..] => are_of_one_kind(lists.as_slice()) && all_of_one_kind(rest),
    }
}

#[tactic(auto, unfolding(crate::specs::Places::check_dims, xr_types::specs::Results::unless))]
fn check_dims(dims: &[Items<&LabelList>]) -> Result<(), CallFault>
    ensures { Answers (λ u. u) result (placing.check_dims (map (map (λ l. l.now)) dims.now)) }
{
    if dims.len() == 0 {
        return Err(CallFault::Refused(Fault::Conflict));
    }
    if !all_filled(dims) {
        return Err(CallFault::Refused(Fault::Conflict));
    }
    if !all_ordered(dims) {
        return Err(CallFault::Refused(Fault::NotMonotonic));
    }
    if !all_of_one_kind(dims) {
        return Err(CallFault::Refused(Fault::LabelKind));
    }
    Ok(())
}

// ---- the places along each dimension

fn rankings(alloc: Global, dims: &[Items<&LabelList>]) -> Result<Items<Ranking>, AllocError>
    ensures { IfOk result (λ rs. rs ≡ map placing.ranking_of (map (map (λ l. l.now)) dims.now)) }
{
    let mut all = Items::new(alloc);
    for lists in dims {
        all.push(ranked(alloc, lists.as_slice())?)?;
    }
    Ok(all)
}

fn rises(alloc: Global, rankings: &[Ranking]) -> Result<Items<bool>, AllocError>
    ensures { IfOk result (λ rises. rises ≡ placing.rises_in rankings.now) }
{
    let mut rises = Items::new(alloc);
    for ranking in rankings {
        rises.push(ranking.rises)?;
    }
    Ok(rises)
}

// ---- the grid

#[tactic(auto, unfolding(crate::specs::Places::grid_in))]
fn grid_in(
    alloc: Global,
    dims: Items<Name>,
    lists: &[Items<&LabelList>],
    count: usize,
) -> Result<Grid, CallFault>
    ensures { Answers (λ (g : AGrid). g) result (placing.grid_in dims (map (map (λ l. l.now)) lists.now) count) }
{
    check_dims(lists)?;
    let rankings = rankings(alloc, lists)?;
    let places = full_places(alloc, rankings.as_slice(), count)?;
    let shape = extents(alloc, rankings.as_slice())?;
    let rises = rises(alloc, rankings.as_slice())?;
    let order = order_of(alloc, places.as_slice(), count)?;
    Ok(Grid {
        dims,
        shape,
        rises,
        order,
    })
}

fn grid_over(alloc: Global, sets: &[&[Axis]]) -> Result<Grid, CallFault>
    ensures { Answers (λ (g : AGrid). g) result (calls.grid_of (map (λ s. s.now) sets.now)) }
{
    let dims = grid_dimensions(alloc, sets)?;
    let lists = all_along(alloc, sets, dims.as_slice())?;
    grid_in(alloc, dims, lists.as_slice(), sets.len())
}

fn axes_of<'a>(alloc: Global, sets: &[&'a Dataset]) -> Result<Items<&'a [Axis]>, AllocError>
    ensures { IfOk result (λ all. map (λ s. s.now) all ≡ map (λ (s : ASet). s.axes) (map (λ s. s.now) sets.now)) }
{
    let mut all = Items::new(alloc);
    for set in sets {
        all.push(set.axes.as_slice())?;
    }
    Ok(all)
}

/// The grid that datasets fill: the dimensions along which their labels differ, and the place of each by its first labels.
///
/// # Errors
/// `Conflict` where the labels differ along no dimension, or those of one are empty; `NotMonotonic` where some of a dimension neither
/// ascend nor descend as the others do; `LabelKind` for labels of two kinds; then `Conflict` where a place is empty or is taken twice.
pub fn grid_of(alloc: Global, sets: &[&Dataset]) -> Result<Grid, CallFault>
    ensures { (nodes : List Node) → Answers (λ (g : AGrid). g) result (calls.grid_of (map (λ (s : TheSet). s.axes) (map (dataset_in nodes) (map (λ s. s.now) sets.now)))) }
{
    let axes = axes_of(alloc, sets)?;
    grid_over(alloc, axes.as_slice())
}
