//! The axes, and the names of the dimensions.
ghost use Rattle.std.specs.Prelude.{◌≡◌, ◌≤◌, None, Some, IfOk};
ghost use Rattle.xr_types.specs.declared.axis.Axis.{Axis as Ax};
ghost use Rattle.xr_chunks.specs.Demo as of;

use crate::times::labels;
use std::alloc::{AllocError, Global};
use xr_types::{Axis, Items, Name, TextBytes};

fn axis(alloc: Global, name: &str, size: u64) -> Result<Axis, AllocError>
    ensures { IfOk result (λ x. x ≡ of.bare name.now size) }
{
    Ok(Axis {
        name: TextBytes::from_str(alloc, name)?,
        size,
        labels: None,
    })
}

/// The axes of a dataset of `n` times.
pub fn axes(alloc: Global, n: u32) -> Result<Items<Axis>, AllocError>
    requires { n ≤ 1000000 }
    ensures { IfOk result (λ xs. xs ≡ of.axes n) }
{
    let mut time = axis(alloc, "time", n as u64)?;
    time.labels = Some(labels(alloc, n)?);
    let mut axes = Items::new(alloc);
    axes.push(time)?;
    axes.push(axis(alloc, "y", 2)?)?;
    axes.push(axis(alloc, "x", 3)?)?;
    Ok(axes)
}

/// The names of the dimensions.
pub fn dims(alloc: Global) -> Result<Items<Name>, AllocError>
    ensures { IfOk result (λ ds. ds ≡ of.dims) }
{
    let mut dims = Items::new(alloc);
    dims.push(TextBytes::from_str(alloc, "time")?)?;
    dims.push(TextBytes::from_str(alloc, "y")?)?;
    dims.push(TextBytes::from_str(alloc, "x")?)?;
    Ok(dims)
}
