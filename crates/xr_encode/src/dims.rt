//! The dimensions of the file: the axes in order, then those of texts that no axis is.
ghost use Rattle.std.specs.Prelude.{◌≡◌, ◌∷◌, ◌++◌, [], map, filter, option_copied, IfOk, OnOk};
ghost use Rattle.xr_defs.specs.Encoding.{axis_named, record_dim, is_that, dim_of_axis, string_dim, number_of_dim, records_of, first_name, empty_axes};
ghost use Rattle.xr_encode.specs.Checks.{over};
ghost use Rattle.xr_encode.specs.Dimensions.{is_axisless, dims_with};

use crate::name::string_name;
use std::alloc::{AllocError, Global};
use xr_defs::WriteOptions;
use xr_files::CdfDim;
use xr_types::{Axis, DeepCopy, Items, Name};

/// The axis of a name.
pub fn axis_named<'a>(axes: &'a [Axis], name: &Name) -> Option<&'a Axis>
    ensures { option_copied result ≡ axis_named name.now axes.now }
{
    for axis in axes {
        if axis.name.is(name) {
            return Some(axis);
        }
    }
    None
}

fn first_empty(axes: &[Axis]) -> Option<&Name>
    ensures { option_copied result ≡ first_name (empty_axes (over axes.now)) }
{
    for axis in axes {
        if axis.size == 0 {
            return Some(&axis.name);
        }
    }
    None
}

/// The record dimension: the one that is asked for, or the axis of size 0.
pub fn record_dim<'a>(axes: &'a [Axis], options: &'a WriteOptions) -> Option<&'a Name>
    ensures { option_copied result ≡ record_dim (over axes.now) options.now }
{
    match &options.unlimited {
        Some(name) => Some(name),
        None => first_empty(axes),
    }
}

/// Whether the record dimension has this name.
pub fn is_that(records: Option<&Name>, name: &Name) -> bool
    ensures { result ≡ is_that (option_copied records.entry) name.now }
{
    match records {
        Some(other) => other.is(name),
        None => false,
    }
}

fn dim_of_axis(alloc: Global, records: Option<&Name>, axis: &Axis) -> Result<CdfDim, AllocError>
    ensures { IfOk result (λ d. d ≡ dim_of_axis (option_copied records.entry) axis.now) }
{
    Ok(CdfDim {
        name: axis.name.deep_copy(alloc)?,
        len: if is_that(records, &axis.name) {
            0
        } else {
            axis.size
        },
    })
}

fn push_axes(
    alloc: Global,
    dims: &mut Items<CdfDim>,
    records: Option<&Name>,
    axes: &[Axis],
) -> Result<(), AllocError>
    ensures { OnOk result (dims.new ≡ dims.old ++ map (dim_of_axis (option_copied records.entry)) axes.now) }
{
    for axis in axes {
        dims.push(dim_of_axis(alloc, records, axis)?)?;
    }
    Ok(())
}

fn push_string(
    alloc: Global,
    dims: &mut Items<CdfDim>,
    axes: &[Axis],
    width: u64,
) -> Result<(), AllocError>
    ensures { OnOk result (dims.new ≡ dims.old ++ map string_dim (filter (is_axisless axes.now) (width ∷ []))) }
{
    let name = string_name(alloc, width)?;
    match axis_named(axes, &name) {
        Some(_) => Ok(()),
        None => dims.push(CdfDim { name, len: width }),
    }
}

fn push_strings(
    alloc: Global,
    dims: &mut Items<CdfDim>,
    axes: &[Axis],
    widths: &[u64],
) -> Result<(), AllocError>
    ensures { OnOk result (dims.new ≡ dims.old ++ map string_dim (filter (is_axisless axes.now) widths.now)) }
{
    for width in widths {
        push_string(alloc, dims, axes, *width)?;
    }
    Ok(())
}

/// The dimensions of the file of these axes and texts of these widths.
pub fn dims_of(
    alloc: Global,
    axes: &[Axis],
    widths: &[u64],
    options: &WriteOptions,
) -> Result<Items<CdfDim>, AllocError>
    ensures { IfOk result (λ dims. dims ≡ dims_with axes.now widths.now options.now) }
{
    let records = record_dim(axes, options);
    let mut dims = Items::new(alloc);
    push_axes(alloc, &mut dims, records, axes)?;
    push_strings(alloc, &mut dims, axes, widths)?;
    Ok(dims)
}

fn number_of_dim(dims: &[CdfDim], name: &Name) -> u64
    ensures { result ≡ number_of_dim dims.now name.now }
{
    for i in 0..dims.len() {
        if dims[i].name.is(name) {
            return i as u64;
        }
    }
    dims.len() as u64
}

/// The numbers of dimensions by their names.
pub fn numbers_of_dims(
    alloc: Global,
    dims: &[CdfDim],
    names: &[Name],
) -> Result<Items<u64>, AllocError>
    ensures { IfOk result (λ ids. ids ≡ map (number_of_dim dims.now) names.now) }
{
    let mut ids = Items::new(alloc);
    for name in names {
        ids.push(number_of_dim(dims, name))?;
    }
    Ok(ids)
}

/// How many records the file has.
pub fn record_count(axes: &[Axis], options: &WriteOptions) -> u64
    ensures { result ≡ records_of (over axes.now) options.now }
{
    match record_dim(axes, options) {
        Some(name) => match axis_named(axes, name) {
            Some(axis) => axis.size,
            None => 0,
        },
        None => 0,
    }
}
