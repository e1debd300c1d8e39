//! The printed form of an array.
ghost use Rattle.std.specs.Prelude.{◌≡◌, ◌++◌, All, length, map, true, IfOk, OnOk};
ghost use Rattle.xr_defs.specs.Text.{array_name, axis_text, row_size};
ghost use Rattle.xr_types.specs.Names.{shape_over};
ghost use Rattle.xr_defs.specs.Printing.{array_text};
ghost use Rattle.xr_print.specs.Conditions.{HasTimes, HoldsTime};
ghost use Rattle.xr_print.specs.Printed.{with_cells, axes_text, head_text};

use crate::attribute::push_attrs;
use crate::by_name::push_coords;
use crate::coordinate::push_masked;
use crate::dimensions::push_axes;
use crate::grid::push_cell_lines;
use crate::names::push_name;
use itoa::Buffer;
use std::alloc::{AllocError, Global};
use xr_arrays::ArrayValue;
use xr_types::{Axis, DType, Name};
use xr_values::DataArray;

fn push_name_or_dash(out: &mut Vec<u8>, name: &Option<Name>) -> Result<(), AllocError>
    ensures { OnOk result (out.new.items ≡ out.old.items ++ array_name name.now) }
{
    match name {
        Some(name) => push_name(out, name.as_bytes()),
        None => out.extend_from_slice(b"-"),
    }
}

fn push_axes_in_brackets(
    out: &mut Vec<u8>,
    digits: &mut Buffer,
    axes: &[Axis],
) -> Result<(), AllocError>
    ensures { OnOk result (out.new.items ≡ out.old.items ++ axes_text axes.now) }
{
    out.extend_from_slice(b" (")?;
    push_axes(out, digits, axes)?;
    out.extend_from_slice(b") ")
}

fn push_head(
    out: &mut Vec<u8>,
    digits: &mut Buffer,
    name: &Option<Name>,
    axes: &[Axis],
    kind: DType,
    masked: bool,
) -> Result<(), AllocError>
    ensures { OnOk result (out.new.items ≡ out.old.items ++ head_text name.now axes.now kind masked) }
{
    out.extend_from_slice(b"DataArray ")?;
    push_name_or_dash(out, name)?;
    push_axes_in_brackets(out, digits, axes)?;
    out.extend_from_slice(kind.name().as_bytes())?;
    push_masked(out, masked)?;
    Ok(out.push(b'\n')?)
}

// The size of the last axis, and 1 without axes.
fn row_size(axes: &[Axis]) -> u64
    ensures { result ≡ row_size (shape_over axes.now) }
{
    match axes {
        [] => 1,
        [axis] => axis.size,
        [_, rest @ ..] => row_size(rest),
    }
}

/// The printed form of an array whose node has these cells: the first line, a line for each row of the last dimension, the indexes
/// in the order of the dimensions, the other coordinates by name, and the attributes. The cells have the shape and the kind of the
/// array, and times lie in the years 1 to 9999. The error is want of memory.
pub fn array_text(
    alloc: Global,
    array: &DataArray,
    cells: &ArrayValue,
) -> Result<Vec<u8>, AllocError>
    requires kind { cells.now.kind ≡ array.now.kind }
    requires times { All HasTimes array.now.axes }
    requires scalar_times { All HoldsTime array.now.coords }
    ensures { IfOk result (λ text. text.items ≡ array_text (with_cells array.now cells.now.cells)) }
{
    let mut out = Vec::new(alloc);
    let mut digits = Buffer::new();
    let axes = array.axes.as_slice();
    push_head(
        &mut out,
        &mut digits,
        &array.name,
        axes,
        array.kind,
        array.masked,
    )?;
    push_cell_lines(&mut out, &mut digits, cells, row_size(axes))?;
    push_coords(alloc, &mut out, &mut digits, axes, array.coords.as_slice())?;
    push_attrs(&mut out, &mut digits, array.attrs.as_slice())?;
    Ok(out)
}
