//! The cells of variables of one name, of several datasets.
ghost use Rattle.std.specs.Prelude.{◌≡◌, ◌++◌, IfOk, OnOk};
ghost use Rattle.xr_defs.specs.Selecting.{axis_called};
ghost use Rattle.xr_stacking.specs.Members.{part_of, parts_called, parts_of, sizes_called};

use crate::parts::Part;
use std::alloc::{AllocError, Global};
use xr_types::{Axis, DeepCopy, Items, Name, TextBytes};
use xr_values::{Dataset, Variable};

// ---- sizes

/// The size of the axis of a name, 0 where there is none.
#[tactic(auto, using(xr_parts::proofs::Axes::called_here, xr_parts::proofs::Axes::called_on))]
fn size_called(axes: &[Axis], name: &TextBytes) -> u64
    ensures { result ≡ (axis_called axes.now name.now).size }
{
    match axes {
        [] => 0,
        [axis, rest @ ..] => {
            if axis.name.is(name) {
                axis.size
            } else {
                size_called(rest, name)
            }
        }
    }
}

fn push_sizes(sizes: &mut Items<u64>, axes: &[Axis], dims: &[Name]) -> Result<(), AllocError>
    ensures { OnOk result (sizes.new ≡ sizes.old ++ sizes_called axes.now dims.now) }
{
    match dims {
        [] => Ok(()),
        [dim, rest @ ..] => {
            sizes.push(size_called(axes, dim))?;
            push_sizes(sizes, axes, rest)
        }
    }
}

/// The sizes of the axes of these names.
pub fn sizes_called(alloc: Global, axes: &[Axis], dims: &[Name]) -> Result<Items<u64>, AllocError>
    ensures { IfOk result (λ s. s ≡ sizes_called axes.now dims.now) }
{
    let mut sizes = Items::new(alloc);
    push_sizes(&mut sizes, axes, dims)?;
    Ok(sizes)
}

// ---- parts

fn part_of(alloc: Global, axes: &[Axis], var: &Variable) -> Result<Part, AllocError>
    ensures { IfOk result (λ p. p ≡ part_of axes.now var.now) }
{
    let dims = var.dims.deep_copy(alloc)?;
    let shape = sizes_called(alloc, axes, dims.as_slice())?;
    let node = var.node;
    Ok(Part { dims, shape, node })
}

#[tactic(auto, unfolding(crate::specs::Members::parts_of))]
fn add_part(
    alloc: Global,
    out: &mut Items<Part>,
    set: &Dataset,
    name: &Name,
) -> Result<(), AllocError>
    ensures { OnOk result (out.new ≡ out.old ++ parts_of name.now set.now) }
{
    match set.vars.named(name) {
        None => Ok(()),
        Some(var) => {
            let part = part_of(alloc, set.axes.as_slice(), var)?;
            out.push(part)?;
            Ok(())
        }
    }
}

fn push_parts(
    alloc: Global,
    out: &mut Items<Part>,
    sets: &[Dataset],
    name: &Name,
) -> Result<(), AllocError>
    ensures { OnOk result (out.new ≡ out.old ++ parts_called name.now sets.now) }
{
    for set in sets {
        add_part(alloc, out, set, name)?;
    }
    Ok(())
}

/// The cells of the variables of a name, of each dataset that has one.
pub fn parts_called(alloc: Global, sets: &[Dataset], name: &Name) -> Result<Items<Part>, AllocError>
    ensures { IfOk result (λ ps. ps ≡ parts_called name.now sets.now) }
{
    let mut parts = Items::new(alloc);
    push_parts(alloc, &mut parts, sets, name)?;
    Ok(parts)
}
