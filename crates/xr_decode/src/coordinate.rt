//! Coordinates that are no index.
ghost use Rattle.std.specs.Prelude.{◌≡◌, ◌++◌, map, codes, false, true, IfOk};
ghost use Rattle.std.specs.Str.{bytes_eq};
ghost use Rattle.xr_defs.specs.Decoding.{is_skipped, axis_in, var_axes, var_dims, var_shape, string_name, is_over_string, scalar_text, variable_of, coordinate_over, coordinate_of};
ghost use Rattle.xr_arrays.specs.Numbers.{is_whole};
ghost use Rattle.xr_decode.specs.Readable.{IsReadableVar};

use crate::attributes::copy_without;
use crate::axes::axes_at;
use crate::decoded::decode_var;
use crate::kinds::is_char;
use crate::shapes::{dim_name, positions_at};
use crate::stored::{Source, StoredVar};
use crate::text::text_in;
use std::alloc::{AllocError, Global};
use xr_defs::{Content, Coord};
use xr_types::{Axis, DeepCopy, Items, NoMemory, TextBytes};

// Whether a dimension is named `string` and its size.
fn is_string(alloc: Global, name: &str, size: u64) -> Result<bool, AllocError>
    ensures { IfOk result (λ b. b ≡ bytes_eq name.now (string_name size)) }
{
    let text = format!(in alloc; "string{size}")?;
    Ok(name == text.as_str())
}

fn is_over_string(
    alloc: Global,
    source: &Source<'_>,
    var: &StoredVar<'_>,
) -> Result<bool, AllocError>
    ensures { IfOk result (λ b. b ≡ is_over_string (var_dims source.now var.now) (var_shape source.now var.now)) }
{
    let dims = source.dims();
    match var.dims() {
        [id] => is_string(
            alloc,
            dim_name(dims, *id),
            positions_at(dims, source.numrecs(), *id),
        ),
        _ => Ok(false),
    }
}

// The one text that a variable of type `char` holds.
fn scalar_text(
    alloc: Global,
    source: &Source<'_>,
    var: &StoredVar<'_>,
) -> Result<Option<TextBytes>, NoMemory>
    ensures { IfOk result (λ o. o ≡ scalar_text source.now var.now) }
{
    if !is_char(var.kind()) {
        return Ok(None);
    }
    if !is_over_string(alloc, source, var)? {
        return Ok(None);
    }
    let raw = var.raw(alloc)?;
    match text_in(raw.as_slice()) {
        Some(text) => Ok(Some(TextBytes::from_str(alloc, text)?)),
        None => Ok(None),
    }
}

// A coordinate with cells over the axes of its variable.
fn coordinate_over(
    alloc: Global,
    source: &Source<'_>,
    axes: &[Axis],
    var: &StoredVar<'_>,
    mask: bool,
) -> Result<Coord, NoMemory>
    requires readable { IsReadableVar source.now var.now }
    requires whole { is_whole var.now.kind ≡ true }
    requires axes { axes.now ≡ map (axis_in source.now) source.now.dims }
    ensures { IfOk result (λ c. c ≡ coordinate_over (var_axes source.now var.now) (variable_of source.now mask var.now)) }
{
    let parts = decode_var(alloc, source, var, mask)?;
    Ok(Coord {
        name: var.name().deep_copy(alloc)?,
        axes: axes_at(alloc, axes, var.dims())?,
        attrs: parts.attrs,
        content: Content::Cells(parts.array, parts.masked),
    })
}

/// A loaded variable as a coordinate: one text, or cells. `axes` are those of the file.
pub(crate) fn coordinate_of(
    alloc: Global,
    source: &Source<'_>,
    axes: &[Axis],
    var: &StoredVar<'_>,
    mask: bool,
) -> Result<Coord, NoMemory>
    requires readable { IsReadableVar source.now var.now }
    requires whole { is_whole var.now.kind ≡ true }
    requires axes { axes.now ≡ map (axis_in source.now) source.now.dims }
    ensures { IfOk result (λ c. c ≡ coordinate_of source.now mask var.now) }
{
    match scalar_text(alloc, source, var)? {
        Some(text) => Ok(Coord {
            name: var.name().deep_copy(alloc)?,
            axes: Items::new(alloc),
            attrs: copy_without(alloc, "coordinates", var.attrs())?,
            content: Content::Text(text),
        }),
        None => coordinate_over(alloc, source, axes, var, mask),
    }
}
