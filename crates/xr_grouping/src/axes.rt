//! Axes by their names, and the times of their labels.
ghost use Rattle.std.specs.Prelude.{◌≡◌, All, IfOk, IfSome, option_map};
ghost use Rattle.std.specs.List.{AllByRecursion};
ghost use Rattle.xr_times.specs.Times.{IsTime};
ghost use Rattle.xr_defs.specs.WellFormed.{AreLabels, IsDimension};
ghost use Rattle.xr_types.specs.Results.{Answers};
ghost use Rattle.xr_groups.specs.Groupings as of;
ghost use Rattle.xr_grouping.specs.Found.{found_axis, index_of};

use std::alloc::Global;
use xr_types::{Attr, Axis, CallFault, DeepCopy, Fault, LabelList, Labels, TextBytes, TimeCoding};

// The first axis of this name.
fn named<'a>(axes: &'a [Axis], name: &TextBytes) -> Option<&'a Axis>
    ensures axis { option_map (λ x. x.now) result ≡ found_axis name.now axes.now }
    ensures formed { AllByRecursion IsDimension axes.now → IfSome result (λ x. IsDimension x.now) }
{
    match axes {
        [] => None,
        [axis, rest @ ..] => {
            if axis.name.is(name) {
                return Some(axis);
            }
            named(rest, name)
        }
    }
}

/// The axis of a dimension.
///
/// # Errors
/// `NoDimension` where there is none.
#[tactic(auto, using(crate::proofs::Found::axis_is), unfolding(xr_groups::specs::Groupings::axis_found))]
pub(crate) fn axis_found<'a>(
    alloc: Global,
    dimension: &TextBytes,
    axes: &'a [Axis],
) -> Result<&'a Axis, CallFault>
    ensures answers { Answers (λ x. x.now) result (of.axis_found dimension.now axes.now) }
    ensures formed { AllByRecursion IsDimension axes.now → IfOk result (λ x. IsDimension x.now) }
{
    match named(axes, dimension) {
        Some(axis) => Ok(axis),
        None => Err(CallFault::Refused(Fault::NoDimension(dimension.deep_copy(alloc)?))),
    }
}

/// The labels of an index of times.
#[derive(Clone, Copy)]
pub(crate) struct TimeIndex<'a> {
    pub coding: &'a TimeCoding,
    pub times: &'a [i64],
    pub attrs: &'a [Attr],
}

#[tactic(auto, unfolding(xr_groups::specs::Groupings::times_in))]
fn times_in(labels: &Labels) -> Result<TimeIndex<'_>, CallFault>
    ensures answers { Answers (λ t. index_of t) result (of.times_in labels.now) }
    ensures times { AreLabels labels.now.list → IfOk result (λ t. All (IsTime t.coding.now.units.calendar) t.times.now) }
{
    match &labels.list {
        LabelList::Times(coding, times) => Ok(TimeIndex {
            coding,
            times: times.as_slice(),
            attrs: labels.attrs.as_slice(),
        }),
        LabelList::Numbers(_, _) => Err(CallFault::Refused(Fault::NotTime)),
        LabelList::Texts(_) => Err(CallFault::Refused(Fault::NotTime)),
    }
}

/// The times of an axis.
///
/// # Errors
/// `NotTime` where its labels are none, or where it has none.
#[tactic(auto, unfolding(xr_groups::specs::Groupings::times_along))]
pub(crate) fn times_along(axis: &Axis) -> Result<TimeIndex<'_>, CallFault>
    ensures answers { Answers (λ t. index_of t) result (of.times_along axis.now) }
    ensures times { IsDimension axis.now → IfOk result (λ t. All (IsTime t.coding.now.units.calendar) t.times.now) }
{
    match &axis.labels {
        None => Err(CallFault::Refused(Fault::NotTime)),
        Some(labels) => times_in(labels),
    }
}
