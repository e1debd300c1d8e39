//! Whether the labels of a grid that was put together go in the directions of its tiles.
ghost use Rattle.std.specs.Prelude.{◌≡◌, List, zip, if◌then◌else◌};
ghost use Rattle.xr_types.specs.Results.{Answers, all_of};
ghost use Rattle.xr_arrays.specs.Labels.{is_ascending, is_descending, labels_of};
ghost use Rattle.xr_arrays.specs.declared.node.Node.{Node};
ghost use Rattle.xr_combination.specs.Combine as calls;
ghost use Rattle.xr_values.specs.Stands.{dataset_in};

use crate::lookup::list_called;
use crate::ranks::{ascends, descends};
use xr_combination::Grid;
use xr_types::{CallFault, Fault, LabelList, Name};
use xr_values::Dataset;

fn goes_on(list: &LabelList, rises: bool) -> bool
    ensures { result ≡ (if rises then is_ascending (labels_of list.now) else is_descending (labels_of list.now)) }
{
    if rises { ascends(list) } else { descends(list) }
}

fn goes(set: &Dataset, dim: &Name, rises: bool) -> bool
    ensures { (nodes : List Node) → result ≡ (if rises then is_ascending (calls.labels_along (dataset_in nodes set.now) dim.now) else is_descending (calls.labels_along (dataset_in nodes set.now) dim.now)) }
{
    match list_called(set.axes.as_slice(), dim) {
        None => true,
        Some(list) => goes_on(list, rises),
    }
}

fn check_direction(set: &Dataset, dim: &Name, rises: bool) -> Result<(), CallFault>
    ensures { (nodes : List Node) → Answers (λ u. u) result (calls.check_direction (dataset_in nodes set.now) (dim.now, rises)) }
{
    if goes(set, dim, rises) {
        Ok(())
    } else {
        Err(CallFault::Refused(Fault::NotMonotonic))
    }
}

fn check_each(set: &Dataset, dims: &[Name], rises: &[bool]) -> Result<(), CallFault>
    ensures { (nodes : List Node) → Answers (λ u. u) result (all_of (calls.check_direction (dataset_in nodes set.now)) (zip dims.now rises.now)) }
{
    match dims {
        [] => Ok(()),
        [dim, dims @ ..] => match rises {
            [] => Ok(()),
            [rise, rises @ ..] => {
                check_direction(set, dim, *rise)?;
                check_each(set, dims, rises)
            }
        },
    }
}

/// Refuses a dataset whose index of a dimension of the grid doesn't go in the direction of those of which it is made.
///
/// # Errors
/// `NotMonotonic`.
pub fn check_directions(set: &Dataset, grid: &Grid) -> Result<(), CallFault>
    ensures { (nodes : List Node) → Answers (λ u. u) result (all_of (calls.check_direction (dataset_in nodes set.now)) (zip grid.now.dims grid.now.rises)) }
{
    check_each(set, grid.dims.as_slice(), grid.rises.as_slice())
}
