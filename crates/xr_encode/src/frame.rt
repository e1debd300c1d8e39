//! The file of a dataset, but for the values of its variables.
ghost use Rattle.std.specs.Prelude.{◌≡◌, map, Ok, IfOk};
ghost use Rattle.xr_types.specs.Results.{all_of};
ghost use Rattle.xr_defs.specs.Encoding.{check_fit, var_of};
ghost use Rattle.xr_encode.specs.Outlines.{without_cells};
ghost use Rattle.xr_encode.specs.Walk.{var_with};
ghost use Rattle.xr_encode.specs.Frames.{frame_of};

use crate::attrs::{attrs_of, push_coordinates};
use crate::dims::{dims_of, numbers_of_dims, record_count};
use crate::number::type_of;
use crate::outline::Outline;
use crate::parts::Parts;
use bytes::Bytes;
use std::alloc::{AllocError, Global};
use xr_defs::WriteOptions;
use xr_files::{CdfDim, CdfFile, CdfVar};
use xr_types::{DeepCopy, Items};
use xr_values::Dataset;

/// A variable with these bytes as its values.
pub fn var_with(
    alloc: Global,
    dims: &[CdfDim],
    options: &WriteOptions,
    outline: &Outline,
    raw: Bytes,
) -> Result<CdfVar, AllocError>
    requires { check_fit options.now (without_cells outline.now) ≡ Ok tt }
    ensures { IfOk result (λ v. v ≡ var_with dims.now options.now outline.now raw) }
{
    Ok(CdfVar {
        name: outline.name.deep_copy(alloc)?,
        dims: numbers_of_dims(alloc, dims, outline.dims.as_slice())?,
        attrs: attrs_of(alloc, options, outline)?,
        kind: type_of(options.version, outline.kind),
        raw,
    })
}

fn frame_vars(
    alloc: Global,
    dims: &[CdfDim],
    options: &WriteOptions,
    outlines: &[Outline],
) -> Result<Items<CdfVar>, AllocError>
    requires { all_of (check_fit options.now) (map without_cells outlines.now) ≡ Ok tt }
    ensures { IfOk result (λ vars. vars ≡ map (λ o. var_of dims.now options.now (without_cells o)) outlines.now) }
{
    let mut vars = Items::new(alloc);
    for outline in outlines {
        vars.push(var_with(alloc, dims, options, outline, Bytes::new())?)?;
    }
    Ok(vars)
}

/// The file of these parts, whose variables have no values.
pub fn frame_of(
    alloc: Global,
    set: &Dataset,
    parts: &Parts,
    options: &WriteOptions,
) -> Result<CdfFile, AllocError>
    requires { all_of (check_fit options.now) (map without_cells parts.now.outlines) ≡ Ok tt }
    ensures { IfOk result (λ f. f ≡ frame_of set.now parts.now options.now) }
{
    let axes = set.axes.as_slice();
    let dims = dims_of(alloc, axes, parts.widths.as_slice(), options)?;
    let vars = frame_vars(alloc, dims.as_slice(), options, parts.outlines.as_slice())?;
    let mut attrs = set.attrs.deep_copy(alloc)?;
    push_coordinates(alloc, &mut attrs, parts.unlisted.as_slice())?;
    Ok(CdfFile {
        version: options.version,
        numrecs: record_count(axes, options),
        dims,
        attrs,
        vars,
    })
}
