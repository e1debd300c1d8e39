//! The checks that look at no cells.
ghost use Rattle.std.specs.Prelude.{◌≡◌, ◌&&◌, ◌++◌, map, option_copied, IfOk};
ghost use Rattle.std.specs.List.{list_any, list_all};
ghost use Rattle.xr_types.specs.Results.{Answers, unless, all_of};
ghost use Rattle.xr_defs.specs.Decoding.{is_attr};
ghost use Rattle.xr_defs.specs.Encoding.{has_texts_of, has_width, are_new, coord_names, dtype_added, fill_added, coordinates_added, is_that, empty_axes, stands_first, check_unlimited, check_fill, check_fit};
ghost use Rattle.xr_files.specs.Canonical.{has_types};
ghost use Rattle.xr_encode.specs.Outlines.{without_cells};
ghost use Rattle.xr_encode.specs.Checks.{over, is_fill_new, list_none, has_new, names_checked, is_first, has_blank, are_typed, places_checked, records_checked};

use crate::attrs::{are_typed, fill_in_use};
use crate::dims::{axis_named, is_that, record_dim};
use crate::fill::{fill_for, fill_numbers, is_attr, uses_option};
use crate::name::string_name;
use crate::number::{holds, may_fill, type_of};
use crate::outline::Outline;
use crate::widths::index_width;
use std::alloc::{AllocError, Global};
use xr_defs::{Coord, WriteOptions};
use xr_types::{Attr, Axis, CallFault, DType, DeepCopy, Fault, Name};

/// A fault unless the test holds.
#[tactic(auto, unfolding(xr_types::specs::Results::unless))]
pub fn refuse_unless(holds: bool, fault: Fault) -> Result<(), CallFault>
    ensures { Answers (λ u. u) result (unless holds fault) }
{
    if holds {
        Ok(())
    } else {
        Err(CallFault::Refused(fault))
    }
}

/// The dimension that is asked for is there.
#[tactic(auto, unfolding(xr_defs::specs::Encoding::check_unlimited, xr_types::specs::Results::unless))]
pub fn check_unlimited(
    alloc: Global,
    axes: &[Axis],
    options: &WriteOptions,
) -> Result<(), CallFault>
    ensures { Answers (λ u. u) result (check_unlimited (over axes.now) options.now) }
{
    match &options.unlimited {
        Some(name) => match axis_named(axes, name) {
            Some(_) => Ok(()),
            None => Err(CallFault::Refused(Fault::NoDimension(name.deep_copy(alloc)?))),
        },
        None => Ok(()),
    }
}

fn has_texts_of(width: u64, axis: &Axis) -> bool
    ensures { result ≡ has_texts_of width axis.now }
{
    match index_width(axis) {
        Some(own) => own == width,
        None => false,
    }
}

// An axis that is the dimension of texts of a width has it as its size, and no texts of that width as its labels.
fn has_width(alloc: Global, axes: &[Axis], width: u64) -> Result<bool, AllocError>
    ensures { IfOk result (λ b. b ≡ has_width (over axes.now) width) }
{
    let name = string_name(alloc, width)?;
    match axis_named(axes, &name) {
        Some(axis) => Ok(axis.size == width && !has_texts_of(width, axis)),
        None => Ok(true),
    }
}

fn have_widths(alloc: Global, axes: &[Axis], widths: &[u64]) -> Result<bool, AllocError>
    ensures { IfOk result (λ b. b ≡ list_all (has_width (over axes.now)) widths.now) }
{
    for width in widths {
        if !has_width(alloc, axes, *width)? {
            return Ok(false);
        }
    }
    Ok(true)
}

fn has_attr(name: &str, attrs: &[Attr]) -> bool
    ensures { result ≡ list_any (is_attr name.now) attrs.now }
{
    for attr in attrs {
        if is_attr(name, attr) {
            return true;
        }
    }
    false
}

// No attribute has the name of one of these others.
fn are_new(own: &[Attr], more: &[Attr]) -> bool
    ensures { result ≡ are_new own.now more.now }
{
    for attr in more {
        if has_attr(attr.name.as_str(), own) {
            return false;
        }
    }
    true
}

fn is_dtype_new(kind: DType, own: &[Attr]) -> bool
    ensures { result ≡ are_new own.now (dtype_added kind) }
{
    match kind {
        DType::Bool => !has_attr("dtype", own),
        DType::Char | DType::Int8 | DType::Int16 | DType::Int32 | DType::Int64 => true,
        DType::UInt8 | DType::UInt16 | DType::UInt32 | DType::UInt64 => true,
    }
}

fn is_fill_new(uses_option: bool, own: &[Attr]) -> bool
    ensures { result ≡ is_fill_new uses_option own.now }
{
    !uses_option || !has_attr("_FillValue", own)
}

fn are_coordinates_new(names: &[Name], own: &[Attr]) -> bool
    ensures { result ≡ are_new own.now (coordinates_added names.now) }
{
    match names {
        [] => true,
        [_, ..] => !has_attr("coordinates", own),
    }
}

// Neither `dtype` nor `_FillValue` nor `coordinates` is there already where it is added to a variable.
fn has_plain_new(
    alloc: Global,
    options: &WriteOptions,
    outline: &Outline,
) -> Result<bool, AllocError>
    ensures { IfOk result (λ b. b ≡ are_new outline.now.attrs (dtype_added outline.now.kind ++ (fill_added options.now (without_cells outline.now) ++ coordinates_added outline.now.lists))) }
{
    let own = outline.attrs.as_slice();
    let fills = fill_numbers(alloc, own)?;
    let uses_option = uses_option(options, outline, fills.as_slice());
    Ok(
        is_dtype_new(outline.kind, own)
            && is_fill_new(uses_option, own)
            && are_coordinates_new(outline.lists.as_slice(), own),
    )
}

// No attribute that is added to a variable is there already.
fn has_new(alloc: Global, options: &WriteOptions, outline: &Outline) -> Result<bool, AllocError>
    ensures { IfOk result (λ b. b ≡ has_new options.now outline.now) }
{
    let own = outline.attrs.as_slice();
    if !are_new(own, outline.coding.as_slice()) {
        return Ok(false);
    }
    has_plain_new(alloc, options, outline)
}

fn have_new(alloc: Global, options: &WriteOptions, outlines: &[Outline]) -> Result<bool, AllocError>
    ensures { IfOk result (λ b. b ≡ list_all (has_new options.now) outlines.now) }
{
    for outline in outlines {
        if !has_new(alloc, options, outline)? {
            return Ok(false);
        }
    }
    Ok(true)
}

/// An axis that is a dimension of texts has their width, and no attribute that is added is there already.
#[tactic(auto, unfolding(crate::specs::Checks::names_checked))]
pub fn check_names(
    alloc: Global,
    axes: &[Axis],
    widths: &[u64],
    outlines: &[Outline],
    attrs: &[Attr],
    unlisted: &[Name],
    options: &WriteOptions,
) -> Result<(), CallFault>
    ensures { Answers (λ u. u) result (names_checked axes.now widths.now outlines.now attrs.now unlisted.now options.now) }
{
    refuse_unless(have_widths(alloc, axes, widths)?, Fault::DuplicateName)?;
    refuse_unless(have_new(alloc, options, outlines)?, Fault::DuplicateName)?;
    refuse_unless(are_coordinates_new(unlisted, attrs), Fault::DuplicateName)
}

fn have_one_empty(axes: &[Axis], records: Option<&Name>) -> bool
    ensures { result ≡ list_all (is_that (option_copied records.entry)) (empty_axes (over axes.now)) }
{
    for axis in axes {
        if axis.size == 0 && !is_that(records, &axis.name) {
            return false;
        }
    }
    true
}

fn is_none_of(records: Option<&Name>, names: &[Name]) -> bool
    ensures { result ≡ list_none (is_that (option_copied records.entry)) names.now }
{
    for name in names {
        if is_that(records, name) {
            return false;
        }
    }
    true
}

fn stands_first(records: Option<&Name>, outline: &Outline) -> bool
    ensures { result ≡ stands_first (option_copied records.entry) (without_cells outline.now) }
{
    match outline.dims.as_slice() {
        [] => true,
        [_, rest @ ..] => is_none_of(records, rest),
    }
}

fn stand_first(records: Option<&Name>, outlines: &[Outline]) -> bool
    ensures { result ≡ list_all (λ o. stands_first (option_copied records.entry) (without_cells o)) outlines.now }
{
    for outline in outlines {
        if !stands_first(records, outline) {
            return false;
        }
    }
    true
}

fn has_blank(name: &Name) -> bool
    ensures { result ≡ has_blank name.now }
{
    for byte in name.as_bytes() {
        if *byte == b' ' || *byte == b'\t' {
            return true;
        }
    }
    false
}

fn have_blank(coords: &[Coord]) -> bool
    ensures { result ≡ list_any has_blank (coord_names coords.now) }
{
    for coord in coords {
        if has_blank(&coord.name) {
            return true;
        }
    }
    false
}

// The version has the type of each attribute of a variable, as it is written.
#[tactic(auto, using(crate::proofs::Typed::typed_are))]
fn are_outline_attrs_typed(
    alloc: Global,
    options: &WriteOptions,
    outline: &Outline,
) -> Result<bool, AllocError>
    ensures { IfOk result (λ b. b ≡ are_typed options.now outline.now) }
{
    let fill = fill_in_use(alloc, outline)?;
    let coding = outline.coding.as_slice();
    Ok(
        are_typed(options.version, fill, outline.attrs.as_slice())
            && are_typed(options.version, None, coding),
    )
}

fn are_all_typed(
    alloc: Global,
    options: &WriteOptions,
    outlines: &[Outline],
) -> Result<bool, AllocError>
    ensures { IfOk result (λ b. b ≡ list_all (are_typed options.now) outlines.now) }
{
    for outline in outlines {
        if !are_outline_attrs_typed(alloc, options, outline)? {
            return Ok(false);
        }
    }
    Ok(true)
}

// The version has the type of each attribute of a dataset, and of its variables.
#[tactic(auto, using(crate::proofs::Typed::given_none))]
fn has_types(
    alloc: Global,
    options: &WriteOptions,
    outlines: &[Outline],
    attrs: &[Attr],
) -> Result<bool, AllocError>
    ensures { IfOk result (λ b. b ≡ (has_types options.now.version attrs.now && list_all (are_typed options.now) outlines.now)) }
{
    Ok(are_typed(options.version, None, attrs) && are_all_typed(alloc, options, outlines)?)
}

// There is one record dimension at most, which stands first only, and no coordinate's name has a blank.
#[tactic(auto, unfolding(crate::specs::Checks::places_checked))]
fn check_places(
    axes: &[Axis],
    outlines: &[Outline],
    coords: &[Coord],
    options: &WriteOptions,
) -> Result<(), CallFault>
    ensures { Answers (λ u. u) result (places_checked axes.now outlines.now (coord_names coords.now) options.now) }
{
    let records = record_dim(axes, options);
    refuse_unless(have_one_empty(axes, records), Fault::CannotHold)?;
    refuse_unless(stand_first(records, outlines), Fault::CannotHold)?;
    refuse_unless(!have_blank(coords), Fault::CannotHold)
}

/// There is one record dimension at most, which stands first only, no coordinate's name has a blank, and the version has
/// the types of the attributes.
#[tactic(auto, unfolding(crate::specs::Checks::records_checked))]
pub fn check_records(
    alloc: Global,
    axes: &[Axis],
    outlines: &[Outline],
    coords: &[Coord],
    attrs: &[Attr],
    options: &WriteOptions,
) -> Result<(), CallFault>
    ensures { Answers (λ u. u) result (records_checked axes.now outlines.now (coord_names coords.now) attrs.now options.now) }
{
    check_places(axes, outlines, coords, options)?;
    refuse_unless(
        has_types(alloc, options, outlines, attrs)?,
        Fault::CannotHold,
    )
}

#[tactic(auto, unfolding(xr_defs::specs::Encoding::check_fill))]
fn check_fill(alloc: Global, options: &WriteOptions, outline: &Outline) -> Result<(), CallFault>
    ensures { Answers (λ u. u) result (check_fill options.now (without_cells outline.now)) }
{
    let fills = fill_numbers(alloc, outline.attrs.as_slice())?;
    let fill = fill_for(options, outline, fills.as_slice());
    refuse_unless(!outline.masked || fill.is_some(), Fault::NoFill)
}

/// Each masked variable has a number for its missing cells.
pub fn check_fills(
    alloc: Global,
    options: &WriteOptions,
    outlines: &[Outline],
) -> Result<(), CallFault>
    ensures { Answers (λ u. u) result (all_of (check_fill options.now) (map without_cells outlines.now)) }
{
    for outline in outlines {
        check_fill(alloc, options, outline)?;
    }
    Ok(())
}

#[tactic(auto, unfolding(xr_defs::specs::Encoding::check_fit))]
fn check_fit(alloc: Global, options: &WriteOptions, outline: &Outline) -> Result<(), CallFault>
    ensures { Answers (λ u. u) result (check_fit options.now (without_cells outline.now)) }
{
    let fills = fill_numbers(alloc, outline.attrs.as_slice())?;
    let uses_option = uses_option(options, outline, fills.as_slice());
    let option = options.fill.unwrap_or(0);
    refuse_unless(
        !uses_option || may_fill(outline.kind, option),
        Fault::DoesNotFit,
    )?;
    let fill = fill_for(options, outline, fills.as_slice()).unwrap_or(0);
    refuse_unless(
        !outline.masked || holds(type_of(options.version, outline.kind), fill),
        Fault::CannotHold,
    )
}

/// The option's number is one of each kind that uses it, and each number in use one of its type.
pub fn check_fits(
    alloc: Global,
    options: &WriteOptions,
    outlines: &[Outline],
) -> Result<(), CallFault>
    ensures { Answers (λ u. u) result (all_of (check_fit options.now) (map without_cells outlines.now)) }
{
    for outline in outlines {
        check_fit(alloc, options, outline)?;
    }
    Ok(())
}
