//! Axes without labels.
ghost use Rattle.std.specs.Prelude.{◌≡◌, length, IfOk};
ghost use Rattle.xr_defs.specs.Building.{bare_axes};

use std::alloc::{AllocError, Global};
use xr_types::{Axis, DeepCopy, Items, Name};

/// Axes of these names and sizes.
pub fn bare_axes(alloc: Global, dims: &[Name], shape: &[u64]) -> Result<Items<Axis>, AllocError>
    requires { length dims.now ≡ length shape.now }
    ensures { IfOk result (λ axes. axes ≡ bare_axes dims.now shape.now) }
{
    let mut axes = Items::new(alloc);
    for at in 0..dims.len() {
        axes.push(Axis {
            name: dims[at].deep_copy(alloc)?,
            size: shape[at],
            labels: None,
        })?;
    }
    Ok(axes)
}
