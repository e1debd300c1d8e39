//! Names.
ghost use Rattle.std.specs.Prelude.{◌≡◌};
ghost use Rattle.xr_files.specs.Classic.{is_name};
ghost use Rattle.xr_types.specs.Names.{among, axis_names};

use xr_types::{Axis, Name};

pub(crate) fn is_named(text: &Name) -> bool
    ensures { result ≡ is_name text.now }
{
    !text.as_str().is_empty()
}

/// Whether one of the axes has this name.
pub(crate) fn has_axis(axes: &[Axis], name: &Name) -> bool
    ensures { result ≡ among (axis_names axes.now) name.now }
{
    match axes {
        [] => false,
        [axis, rest @ ..] => name.is(&axis.name) || has_axis(rest, name),
    }
}
