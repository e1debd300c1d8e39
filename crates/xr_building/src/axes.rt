//! Axes by their names.
ghost use Rattle.std.specs.Prelude.{◌≡◌, find, option_copied, IfOk};
ghost use Rattle.std.specs.Str.{bytes_eq};
ghost use Rattle.xr_types.specs.declared.axis.Axis.{Axis as Dimension};
ghost use Rattle.xr_defs.specs.Selecting.{axis_called};
ghost use Rattle.xr_defs.specs.Building.{is_dimension};

use std::alloc::{AllocError, Global};
use xr_parts::has_axis;
use xr_types::{Axis, DeepCopy, TextBytes};

/// The first axis of this name.
pub fn called<'a>(axes: &'a [Axis], name: &TextBytes) -> Option<&'a Axis>
    ensures { option_copied result ≡ find (λ (x : Dimension). bytes_eq x.name name.now) axes.now }
{
    axes.iter().find(|axis| axis.name.is(name))
}

/// Whether there is an axis of this name.
#[tactic(auto, using(crate::proofs::Called::dimension_named))]
pub fn is_dimension(axes: &[Axis], name: &TextBytes) -> bool
    ensures { result ≡ is_dimension axes.now name.now }
{
    has_axis(axes, name)
}

/// The first axis of this name, or one without a name and positions.
#[tactic(auto, using(crate::proofs::Called::called_found))]
pub fn axis_called(alloc: Global, axes: &[Axis], name: &TextBytes) -> Result<Axis, AllocError>
    ensures { IfOk result (λ x. x ≡ axis_called axes.now name.now) }
{
    match called(axes, name) {
        Some(axis) => axis.deep_copy(alloc),
        None => Ok(Axis {
            name: TextBytes::from_str(alloc, "")?,
            size: 0,
            labels: None,
        }),
    }
}
