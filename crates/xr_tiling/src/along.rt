//! The labels of several datasets along a dimension, and the dimensions of a grid.
ghost use Rattle.std.specs.Prelude.{◌≡◌, ◌++◌, map, filter, IfOk, OnOk};
ghost use Rattle.std.specs.List.{list_all};
ghost use Rattle.xr_types.specs.Names.{axis_names};
ghost use Rattle.xr_defs.specs.Building.{equal_labels};
ghost use Rattle.xr_combination.specs.Combine as calls;

use crate::lookup::list_called;
use align_join::equal_labels;
use std::alloc::{AllocError, Global};
use xr_types::{Axis, DeepCopy, Items, LabelList, Name};

/// The labels along a dimension, of each that has an index there.
pub(crate) fn lists_along<'a>(
    alloc: Global,
    sets: &[&'a [Axis]],
    dim: &Name,
) -> Result<Items<&'a LabelList>, AllocError>
    ensures { IfOk result (λ lists. map (λ l. l.now) lists ≡ calls.lists_along (map (λ s. s.now) sets.now) dim.now) }
{
    let mut lists = Items::new(alloc);
    for axes in sets {
        if let Some(list) = list_called(axes, dim) {
            lists.push(list)?;
        }
    }
    Ok(lists)
}

// ---- lists that differ

fn all_equal(first: &LabelList, others: &[&LabelList]) -> bool
    ensures { result ≡ list_all (equal_labels first.now) (map (λ l. l.now) others.now) }
{
    match others {
        [] => true,
        [list, rest @ ..] => equal_labels(first, list) && all_equal(first, rest),
    }
}

fn differ(lists: &[&LabelList]) -> bool
    ensures { result ≡ calls.differ (map (λ l. l.now) lists.now) }
{
    match lists {
        [] => false,
        [first, others @ ..] => !all_equal(first, others),
    }
}

// ---- the dimensions of a grid

// Whether all have an index there, and the labels differ.
fn is_grid_dimension(alloc: Global, sets: &[&[Axis]], dim: &Name) -> Result<bool, AllocError>
    ensures { IfOk result (λ b. b ≡ calls.is_grid_dimension (map (λ s. s.now) sets.now) dim.now) }
{
    let lists = lists_along(alloc, sets, dim)?;
    let lists = lists.as_slice();
    Ok(lists.len() == sets.len() && differ(lists))
}

fn push_dimensions(
    alloc: Global,
    dims: &mut Items<Name>,
    sets: &[&[Axis]],
    axes: &[Axis],
) -> Result<(), AllocError>
    ensures { OnOk result (dims.new ≡ dims.old ++ filter (calls.is_grid_dimension (map (λ s. s.now) sets.now)) (axis_names axes.now)) }
{
    match axes {
        [] => Ok(()),
        [axis, rest @ ..] => {
            if is_grid_dimension(alloc, sets, &axis.name)? {
                dims.push(axis.name.deep_copy(alloc)?)?;
            }
            push_dimensions(alloc, dims, sets, rest)
        }
    }
}

/// The dimensions in which all have an index and the labels differ, in the order of the first one's axes.
pub(crate) fn grid_dimensions(alloc: Global, sets: &[&[Axis]]) -> Result<Items<Name>, AllocError>
    ensures { IfOk result (λ dims. dims ≡ calls.grid_dimensions (map (λ s. s.now) sets.now)) }
{
    let mut dims = Items::new(alloc);
    match sets {
        [] => {}
        [axes, ..] => push_dimensions(alloc, &mut dims, sets, axes)?,
    }
    Ok(dims)
}

/// The labels along each dimension.
pub(crate) fn all_along<'a>(
    alloc: Global,
    sets: &[&'a [Axis]],
    dims: &[Name],
) -> Result<Items<Items<&'a LabelList>>, AllocError>
    ensures { IfOk result (λ all. map (map (λ l. l.now)) all ≡ map (calls.lists_along (map (λ s. s.now) sets.now)) dims.now) }
{
    let mut all = Items::new(alloc);
    for dim in dims {
        all.push(lists_along(alloc, sets, dim)?)?;
    }
    Ok(all)
}
