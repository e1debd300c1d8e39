//! Axes of one name and their labels.
ghost use Rattle.std.specs.Prelude.{◌≡◌, ◌<◌, ◌||◌, map, length, All, IfOk, MatchOption, None, Some};
ghost use Rattle.std.specs.List.{list_all};
ghost use Rattle.std.specs.Option.{option_map};
ghost use Rattle.xr_types.specs.Results.{Answers};
ghost use Rattle.xr_arrays.specs.Labels.{labels_of};
ghost use Rattle.xr_defs.specs.Values.{no_axis};
ghost use Rattle.xr_operations.specs.Alignment.{has_all, has_size, indexes, labelled_axis, listed, sources};
ghost use Rattle.align_join.specs.Joined.{HasFew, IsFew, head, indexed};

use crate::{label, lists, source};
use std::alloc::{AllocError, Global};
use xr_arrays::Sources;
use xr_types::{Attr, Axis, CallFault, DeepCopy, How, Items, LabelList, Labels, NoMemory};

/// The first index.
fn first_index<'a>(axes: &[&'a Axis]) -> Option<&'a Labels>
    ensures { option_map (λ l. l.now) result ≡ head (indexes (map (λ x. x.now) axes.now)) }
{
    for axis in axes {
        if let Some(labels) = &axis.labels {
            return Some(labels);
        }
    }
    None
}

/// The lists of labels of axes.
fn label_lists<'a>(alloc: Global, axes: &[&'a Axis]) -> Result<Vec<&'a LabelList>, AllocError>
    requires { All (λ x. HasFew x.now) axes.now }
    ensures lists { IfOk result (λ v. map (λ l. l.now) v.items ≡ listed (indexes (map (λ x. x.now) axes.now))) }
    ensures few { IfOk result (λ v. All (λ l. IsFew l.now) v.items) }
{
    let mut all = Vec::new(alloc);
    for axis in axes {
        if let Some(labels) = &axis.labels {
            all.push(&labels.list)?;
        }
    }
    Ok(all)
}

/// An axis with these labels.
fn indexed(
    alloc: Global,
    axis: &Axis,
    attrs: &Items<Attr>,
    list: LabelList,
) -> Result<Axis, AllocError>
    ensures { IfOk result (λ x. x ≡ indexed axis.now attrs.now list) }
{
    let name = axis.name.deep_copy(alloc)?;
    let attrs = attrs.deep_copy(alloc)?;
    let size = label::count(&list) as u64;
    Ok(Axis {
        name,
        size,
        labels: Some(Labels { list, attrs }),
    })
}

/// The axis with joined labels, or as it is where none has labels.
pub fn labelled_axis(
    alloc: Global,
    how: How,
    axis: &Axis,
    axes: &[&Axis],
) -> Result<Axis, CallFault>
    requires { All (λ x. HasFew x.now) axes.now }
    ensures { Answers (λ x. x) result (labelled_axis how axis.now (indexes (map (λ x. x.now) axes.now))) }
{
    match first_index(axes) {
        None => Ok(axis.deep_copy(alloc)?),
        Some(first) => {
            let lists = label_lists(alloc, axes)?;
            let list = lists::joined_lists(alloc, how, lists.as_slice())?;
            let joined = indexed(alloc, axis, &first.attrs, list)?;
            Ok(joined)
        }
    }
}

fn has_size(joined: &Axis, axis: &Axis) -> bool
    ensures { result ≡ has_size joined.now axis.now }
{
    axis.labels.is_some() || axis.size == joined.size
}

/// Whether all bare axes have the size of the joined one.
pub fn all_sized(joined: &Axis, axes: &[&Axis]) -> bool
    ensures { result ≡ list_all (has_size joined.now) (map (λ x. x.now) axes.now) }
{
    for axis in axes {
        if !has_size(joined, axis) {
            return false;
        }
    }
    true
}

/// Whether an axis has each label of the joined one.
#[tactic(auto, using(crate::proofs::Told::stays_whole))]
fn has_all(alloc: Global, joined: &Axis, axis: &Axis) -> Result<bool, NoMemory>
    requires { HasFew axis.now }
    ensures { IfOk result (λ b. b ≡ has_all joined.now axis.now) }
{
    if source::stays(axis, joined) {
        return Ok(true);
    }
    let from = source::sources(alloc, axis, joined)?;
    Ok(from.as_slice().iter().all(|at| at.is_some()))
}

/// Whether all axes have each label of the joined one.
pub fn all_have(alloc: Global, joined: &Axis, axes: &[&Axis]) -> Result<bool, NoMemory>
    requires { All (λ x. HasFew x.now) axes.now }
    ensures { IfOk result (λ b. b ≡ list_all (has_all joined.now) (map (λ x. x.now) axes.now)) }
{
    for axis in axes {
        if !has_all(alloc, joined, axis)? {
            return Ok(false);
        }
    }
    Ok(true)
}

/// For each axis the positions that stand for those of the joined one.
pub fn all_sources(alloc: Global, joined: &Axis, axes: &[&Axis]) -> Result<Items<Sources>, NoMemory>
    requires { All (λ x. HasFew x.now) axes.now }
    ensures { IfOk result (λ s. s ≡ map (λ x. sources x.now joined.now) axes.now) }
{
    let mut all = Items::new(alloc);
    for axis in axes {
        all.push(source::sources(alloc, axis, joined)?)?;
    }
    Ok(all)
}
