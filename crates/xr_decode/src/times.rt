//! Times that the whole numbers of an index stand for.
ghost use Rattle.std.specs.Prelude.{◌≡◌, ◌&&◌, not, map, true, Some, option_map, codes, IfOk, IfSome};
ghost use Rattle.std.specs.Str.{is_utf8};
ghost use Rattle.xr_arrays.specs.Arrays.{wide};
ghost use Rattle.xr_times.specs.Times.{decoded};
ghost use Rattle.xr_times.specs.Units.{units_of};
ghost use Rattle.xr_defs.specs.Decoding.{all_there, text_attr, has_calendar, coded, coding_of, times_counted, times_of};

use crate::attributes::{is_attr, text_attr};
use crate::kinds::is_char;
use cf_time::{decode, read_units};
use std::alloc::{AllocError, Global};
use xr_arrays::Cells;
use xr_types::{Attr, Elem, Items, LabelList, Shared, TextBytes, TimeCoding, Units};

// Whether the calendar is named by a text, or isn't named.
fn has_calendar(attrs: &[Attr]) -> bool
    ensures { result ≡ has_calendar attrs.now }
{
    attrs
        .iter()
        .all(|attr| !is_attr("calendar", attr) || is_char(attr.kind))
}

// A text in new memory.
fn copied(alloc: Global, text: &[u8]) -> Result<TextBytes, AllocError>
    requires { is_utf8 text.now ≡ true }
    ensures { IfOk result (λ t. t ≡ text.now) }
{
    match str::from_utf8(text) {
        Ok(text) => TextBytes::from_str(alloc, text),
        Err(_) => unreachable!(),
    }
}

// The name of a calendar in new memory.
fn copied_name(alloc: Global, name: Option<&[u8]>) -> Result<Option<TextBytes>, AllocError>
    requires { IfSome name (λ t. is_utf8 t.now ≡ true) }
    ensures { IfOk result (λ o. o ≡ option_map (λ t. t.now) name.entry) }
{
    match name {
        Some(name) => Ok(Some(copied(alloc, name)?)),
        None => Ok(None),
    }
}

// How counts in these units stand for times.
fn coded(alloc: Global, attrs: &[Attr], text: &[u8], units: Units) -> Result<TimeCoding, AllocError>
    requires { units_of text.now (text_attr (codes "calendar") attrs.now) ≡ Some units }
    ensures { IfOk result (λ c. c ≡ coded attrs.now text.now units) }
{
    Ok(TimeCoding {
        units,
        units_text: copied(alloc, text)?,
        calendar_text: copied_name(alloc, text_attr("calendar", attrs))?,
    })
}

// How the numbers of a variable with these attributes stand for times, where they do.
#[tactic(auto, unfolding(xr_defs::specs::Decoding::coding_of))]
fn coding_of(alloc: Global, attrs: &[Attr]) -> Result<Option<TimeCoding>, AllocError>
    ensures { IfOk result (λ o. o ≡ coding_of attrs.now) }
{
    let Some(text) = text_attr("units", attrs) else {
        return Ok(None);
    };
    if !has_calendar(attrs) {
        return Ok(None);
    }
    match read_units(text, text_attr("calendar", attrs)) {
        Some(units) => Ok(Some(coded(alloc, attrs, text, units)?)),
        None => Ok(None),
    }
}

// The time that each count stands for, where each does.
fn decoded_all<T: Elem>(
    alloc: Global,
    units: &Units,
    counts: &[T],
) -> Result<Option<Items<i64>>, AllocError>
    ensures { IfOk result (λ o. o ≡ all_there (map (decoded units.now) (map T.number counts.now))) }
{
    let mut times = Vec::with_capacity(alloc, counts.len())?;
    for count in counts {
        match decode(units, count.widen()) {
            Some(time) => times.push(time)?,
            None => return Ok(None),
        }
    }
    Ok(Some(Items::of(times)))
}

// The times that the numbers of cells stand for.
fn times_in(alloc: Global, units: &Units, cells: &Cells) -> Result<Option<Items<i64>>, AllocError>
    ensures { IfOk result (λ o. o ≡ all_there (map (decoded units.now) (wide cells.now))) }
{
    match cells {
        Cells::Bool(v) | Cells::Char(v) | Cells::UInt8(v) => {
            decoded_all(alloc, units, v.as_slice())
        }
        Cells::Int8(v) => decoded_all(alloc, units, v.as_slice()),
        Cells::Int16(v) => decoded_all(alloc, units, v.as_slice()),
        Cells::Int32(v) => decoded_all(alloc, units, v.as_slice()),
        Cells::Int64(v) => decoded_all(alloc, units, v.as_slice()),
        Cells::UInt16(v) => decoded_all(alloc, units, v.as_slice()),
        Cells::UInt32(v) => decoded_all(alloc, units, v.as_slice()),
        Cells::UInt64(v) => decoded_all(alloc, units, v.as_slice()),
    }
}

// Times as labels, where each number stands for one.
#[tactic(auto, unfolding(xr_defs::specs::Decoding::times_counted))]
fn times_counted(
    alloc: Global,
    coding: TimeCoding,
    cells: &Cells,
) -> Result<Option<LabelList>, AllocError>
    ensures { IfOk result (λ o. o ≡ times_counted coding (wide cells.now)) }
{
    match times_in(alloc, &coding.units, cells)? {
        Some(times) => Ok(Some(LabelList::Times(coding, Shared::of(alloc, times)?))),
        None => Ok(None),
    }
}

/// The times that the numbers of a variable with these attributes stand for, where they stand for times.
#[tactic(auto, unfolding(xr_defs::specs::Decoding::times_of))]
pub(crate) fn times_of(
    alloc: Global,
    attrs: &[Attr],
    cells: &Cells,
) -> Result<Option<LabelList>, AllocError>
    ensures { IfOk result (λ o. o ≡ times_of attrs.now (wide cells.now)) }
{
    match coding_of(alloc, attrs)? {
        Some(coding) => times_counted(alloc, coding, cells),
        None => Ok(None),
    }
}
