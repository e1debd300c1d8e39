//! Axes.
ghost use Rattle.std.specs.Prelude.{◌≡◌, ◌++◌, true, MatchOption, ⊤};
ghost use Rattle.std.specs.List.{list_any};
ghost use Rattle.xr_types.specs.Names.{among, axis_names};
ghost use Rattle.xr_defs.specs.WellFormed.{AreDimensions, IsDimension, IsIndex};

use crate::labels::is_index;
use crate::names::{has_axis, is_named};
use xr_types::{Axis, Labels, MOST_CELLS};

fn is_index_or_none(size: u64, labels: &Option<Labels>) -> bool
    ensures { result ≡ true → MatchOption labels.now ⊤ (IsIndex size) }
{
    match labels {
        None => true,
        Some(labels) => is_index(size, labels),
    }
}

fn is_dimension(axis: &Axis) -> bool
    ensures { result ≡ true → IsDimension axis.now }
{
    is_named(&axis.name) && axis.size <= MOST_CELLS && is_index_or_none(axis.size, &axis.labels)
}

/// Whether the axes are dimensions whose names differ.
#[tactic(auto, using(crate::proofs::More::dimension_more))]
pub(crate) fn are_dimensions(axes: &[Axis]) -> bool
    ensures { result ≡ true → AreDimensions axes.now }
{
    match axes {
        [] => true,
        [axis, rest @ ..] => {
            is_dimension(axis) && !has_axis(rest, &axis.name) && are_dimensions(rest)
        }
    }
}
