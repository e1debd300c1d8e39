//! The labels of an axis by its name.
ghost use Rattle.std.specs.Prelude.{◌≡◌, option_map};
ghost use Rattle.xr_types.specs.declared.axis.Labels.{Labels as TheLabels};
ghost use Rattle.xr_tiling.specs.Called as called;

use xr_types::{Axis, LabelList, Name};

fn own_list(axis: &Axis) -> Option<&LabelList>
    ensures { option_map (λ l. l.now) result ≡ option_map (λ (l : TheLabels). l.list) axis.now.labels }
{
    match &axis.labels {
        None => None,
        Some(labels) => Some(&labels.list),
    }
}

/// The labels of the axis of a name, if it has some.
pub(crate) fn list_called<'a>(axes: &'a [Axis], name: &Name) -> Option<&'a LabelList>
    ensures { option_map (λ l. l.now) result ≡ called.list_called name.now axes.now }
{
    match axes {
        [] => None,
        [axis, rest @ ..] => {
            if axis.name.is(name) {
                own_list(axis)
            } else {
                list_called(rest, name)
            }
        }
    }
}
