//! Data variables as arrays over their own axes.
ghost use Rattle.std.specs.Prelude.{◌≡◌, IfOk};
ghost use Rattle.xr_types.specs.Names.{axis_names};
ghost use Rattle.xr_defs.specs.Parts as of;
ghost use Rattle.xr_defs.specs.Selecting.{axis_called};
ghost use Rattle.xr_group_sets.specs.Own.{own_array};

use std::alloc::{AllocError, Global};
use xr_types::{Axis, DeepCopy, Items, Name, TextBytes};
use xr_values::{DataArray, Variable};

// The axis of a name, and one without a name where there is none.
#[tactic(auto, using(xr_parts::proofs::Axes::called_cons))]
fn called(alloc: Global, axes: &[Axis], name: &TextBytes) -> Result<Axis, AllocError>
    ensures { IfOk result (λ x. x ≡ axis_called axes.now name.now) }
{
    match axes {
        [] => Ok(Axis {
            name: TextBytes::from_str(alloc, "")?,
            size: 0,
            labels: None,
        }),
        [axis, rest @ ..] => {
            if axis.name.is(name) {
                axis.deep_copy(alloc)
            } else {
                called(alloc, rest, name)
            }
        }
    }
}

fn axes_called(alloc: Global, axes: &[Axis], dims: &[Name]) -> Result<Items<Axis>, AllocError>
    ensures { IfOk result (λ xs. xs ≡ of.axes_called axes.now dims.now) }
{
    let mut out = Items::new(alloc);
    for dim in dims {
        out.push(called(alloc, axes, dim)?)?;
    }
    Ok(out)
}

/// A data variable as an array over its own axes, without coordinates.
pub(crate) fn own_array(
    alloc: Global,
    axes: &[Axis],
    var: &Variable,
) -> Result<DataArray, AllocError>
    ensures { IfOk result (λ a. a ≡ own_array axes.now var.now) }
{
    Ok(DataArray {
        name: None,
        axes: axes_called(alloc, axes, var.dims.as_slice())?,
        kind: var.kind,
        masked: var.masked,
        attrs: var.attrs.deep_copy(alloc)?,
        coords: Items::new(alloc),
        node: var.node,
    })
}

/// The names of axes.
pub(crate) fn names_of(alloc: Global, axes: &[Axis]) -> Result<Items<Name>, AllocError>
    ensures { IfOk result (λ ns. ns ≡ axis_names axes.now) }
{
    let mut out = Items::new(alloc);
    for axis in axes {
        out.push(axis.name.deep_copy(alloc)?)?;
    }
    Ok(out)
}
