//! Axes by their names.
ghost use Rattle.std.specs.Prelude.{◌≡◌, ◌<◌, length, IfSome};
ghost use Rattle.xr_defs.specs.Values.{axis_position};

use xr_types::{Axis, TextBytes};

/// The first position of an axis of this name.
pub fn position_of(axes: &[Axis], name: &TextBytes) -> Option<usize>
    ensures place { result ≡ axis_position name.now axes.now }
    ensures inside { IfSome result (λ k. k < length axes.now) }
{
    match axes {
        [] => None,
        [axis, rest @ ..] => {
            if axis.name.is(name) {
                return Some(0);
            }
            Some(position_of(rest, name)? + 1)
        }
    }
}
