//! Lists of dimensions.
ghost use Rattle.std.specs.Prelude.{◌≡◌, ◌++◌, map, true, OnOk};
ghost use Rattle.xr_defs.specs.Text.{axis_text, printed_name};
ghost use Rattle.xr_defs.specs.Printing.{dims_text};
ghost use Rattle.xr_types.specs.Names.{axis_names};
ghost use Rattle.xr_print.specs.Pieces.{listed, between};

use crate::names::push_name;
use itoa::Buffer;
use std::alloc::AllocError;
use xr_types::{Axis, Name};

fn push_between(out: &mut Vec<u8>, first: bool) -> Result<(), AllocError>
    ensures { OnOk result (out.new.items ≡ out.old.items ++ between first) }
{
    if first {
        Ok(())
    } else {
        out.extend_from_slice(b", ")
    }
}

/// Appends a dimension with its size.
pub(crate) fn push_axis(
    out: &mut Vec<u8>,
    digits: &mut Buffer,
    axis: &Axis,
) -> Result<(), AllocError>
    ensures { OnOk result (out.new.items ≡ out.old.items ++ axis_text axis.now) }
{
    push_name(out, axis.name.as_bytes())?;
    out.extend_from_slice(b": ")?;
    out.extend_from_slice(digits.format(axis.size).as_bytes())
}

/// Appends dimensions with their sizes, commas between them.
pub(crate) fn push_axes(
    out: &mut Vec<u8>,
    digits: &mut Buffer,
    axes: &[Axis],
) -> Result<(), AllocError>
    ensures { OnOk result (out.new.items ≡ out.old.items ++ listed true (map axis_text axes.now)) }
{
    let mut first = true;
    for axis in axes {
        push_between(out, first)?;
        push_axis(out, digits, axis)?;
        first = false;
    }
    Ok(())
}

fn push_axis_names(out: &mut Vec<u8>, axes: &[Axis]) -> Result<(), AllocError>
    ensures { OnOk result (out.new.items ≡ out.old.items ++ listed true (map printed_name (axis_names axes.now))) }
{
    let mut first = true;
    for axis in axes {
        push_between(out, first)?;
        push_name(out, axis.name.as_bytes())?;
        first = false;
    }
    Ok(())
}

fn push_names(out: &mut Vec<u8>, names: &[Name]) -> Result<(), AllocError>
    ensures { OnOk result (out.new.items ≡ out.old.items ++ listed true (map printed_name names.now)) }
{
    let mut first = true;
    for name in names {
        push_between(out, first)?;
        push_name(out, name.as_bytes())?;
        first = false;
    }
    Ok(())
}

/// Appends the names of axes in brackets.
pub(crate) fn push_dims_of(out: &mut Vec<u8>, axes: &[Axis]) -> Result<(), AllocError>
    ensures { OnOk result (out.new.items ≡ out.old.items ++ dims_text (axis_names axes.now)) }
{
    out.push(b'(')?;
    push_axis_names(out, axes)?;
    Ok(out.push(b')')?)
}

/// Appends names of dimensions in brackets.
pub(crate) fn push_dims(out: &mut Vec<u8>, names: &[Name]) -> Result<(), AllocError>
    ensures { OnOk result (out.new.items ≡ out.old.items ++ dims_text names.now) }
{
    out.push(b'(')?;
    push_names(out, names)?;
    Ok(out.push(b')')?)
}
