//! The printed form of a dataset.
ghost use Rattle.std.specs.Prelude.{◌≡◌, ◌++◌, All, List, flat_map, IfOk, OnOk};
ghost use Rattle.xr_arrays.specs.declared.node.Node.{Node};
ghost use Rattle.xr_defs.specs.Printing.{dim_line, skipped_line, set_text};
ghost use Rattle.xr_values.specs.Stands.{dataset_in};
ghost use Rattle.xr_print.specs.Conditions.{HasTimes, HoldsTime};
ghost use Rattle.xr_print.specs.Printed.{variable_line, whole_set};

use crate::attribute::push_attrs;
use crate::by_name::push_coords;
use crate::coordinate::push_masked;
use crate::dimensions::{push_axis, push_dims};
use crate::names::push_name;
use itoa::Buffer;
use std::alloc::{AllocError, Global};
use xr_types::{Axis, Name};
use xr_values::{Dataset, Variable};

fn push_dim_lines(out: &mut Vec<u8>, digits: &mut Buffer, axes: &[Axis]) -> Result<(), AllocError>
    ensures { OnOk result (out.new.items ≡ out.old.items ++ flat_map dim_line axes.now) }
{
    for axis in axes {
        out.extend_from_slice(b"dim ")?;
        push_axis(out, digits, axis)?;
        out.push(b'\n')?;
    }
    Ok(())
}

fn push_variable(out: &mut Vec<u8>, variable: &Variable) -> Result<(), AllocError>
    ensures { OnOk result (out.new.items ≡ out.old.items ++ variable_line variable.now) }
{
    out.extend_from_slice(b"var ")?;
    push_name(out, variable.name.as_bytes())?;
    out.push(b' ')?;
    out.extend_from_slice(variable.kind.name().as_bytes())?;
    out.push(b' ')?;
    push_dims(out, variable.dims.as_slice())?;
    push_masked(out, variable.masked)?;
    Ok(out.push(b'\n')?)
}

fn push_variables(out: &mut Vec<u8>, variables: &[Variable]) -> Result<(), AllocError>
    ensures { OnOk result (out.new.items ≡ out.old.items ++ flat_map variable_line variables.now) }
{
    for variable in variables {
        push_variable(out, variable)?;
    }
    Ok(())
}

fn push_skipped(out: &mut Vec<u8>, names: &[Name]) -> Result<(), AllocError>
    ensures { OnOk result (out.new.items ≡ out.old.items ++ flat_map skipped_line names.now) }
{
    for name in names {
        out.extend_from_slice(b"skipped ")?;
        push_name(out, name.as_bytes())?;
        out.push(b'\n')?;
    }
    Ok(())
}

fn whole_text(alloc: Global, set: &Dataset) -> Result<Vec<u8>, AllocError>
    requires times { All HasTimes set.now.axes }
    requires scalar_times { All HoldsTime set.now.coords }
    ensures { IfOk result (λ text. text.items ≡ whole_set set.now) }
{
    let mut out = Vec::from_slice(alloc, b"Dataset\n")?;
    let mut digits = Buffer::new();
    let axes = set.axes.as_slice();
    push_dim_lines(&mut out, &mut digits, axes)?;
    push_coords(alloc, &mut out, &mut digits, axes, set.coords.as_slice())?;
    push_variables(&mut out, set.vars.as_slice())?;
    push_skipped(&mut out, set.skipped.as_slice())?;
    push_attrs(&mut out, &mut digits, set.attrs.as_slice())?;
    Ok(out)
}

/// The printed form of a dataset: its dimensions, coordinates, data variables, the names that were skipped, and the attributes. No
/// cells of data variables are looked at. Times lie in the years 1 to 9999. The error is want of memory.
pub fn set_text(alloc: Global, set: &Dataset) -> Result<Vec<u8>, AllocError>
    requires times { All HasTimes set.now.axes }
    requires scalar_times { All HoldsTime set.now.coords }
    ensures { IfOk result (λ text. (nodes : List Node) → text.items ≡ set_text (dataset_in nodes set.now)) }
{
    whole_text(alloc, set)
}
