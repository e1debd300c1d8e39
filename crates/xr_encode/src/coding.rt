//! The attributes that say how the numbers of a variable count times (CF Conventions, "Time Coordinate" and "Calendar").
ghost use Rattle.std.specs.Prelude.{◌≡◌, ◌≤◌, length, IfOk};
ghost use Rattle.std.specs.List.{prefix_len};
ghost use Rattle.cf_time.specs.Parts.{Says};
ghost use Rattle.xr_times.specs.Units.{is_blank, is_dark, behind_blanks, behind_since, behind_word};
ghost use Rattle.xr_defs.specs.Encoding.{unit_name, same_unit, reference_text, units_written, coding_attrs};

use crate::attrs::text_attr;
use std::alloc::{AllocError, Global};
use xr_types::{Attr, ByteList, Items, TimeCoding, TimeUnit};

fn unit_name(unit: TimeUnit) -> &'static str
    ensures { result.now ≡ unit_name unit }
{
    match unit {
        TimeUnit::Days => "days",
        TimeUnit::Hours => "hours",
        TimeUnit::Minutes => "minutes",
        TimeUnit::Seconds => "seconds",
    }
}

fn is_same(a: TimeUnit, b: TimeUnit) -> bool
    ensures { result ≡ same_unit a b }
{
    match (a, b) {
        (TimeUnit::Days, TimeUnit::Days) => true,
        (TimeUnit::Hours, TimeUnit::Hours) => true,
        (TimeUnit::Minutes, TimeUnit::Minutes) => true,
        (TimeUnit::Seconds, TimeUnit::Seconds) => true,
        _ => false,
    }
}

fn is_blank(byte: u8) -> bool
    ensures { result ≡ is_blank byte }
{
    byte == b' ' || byte == b'\t'
}

// How many blanks stand at the front.
fn blank_run(text: &[u8]) -> usize
    ensures value { result ≡ prefix_len is_blank text.now }
    ensures bound { result ≤ length text.now }
{
    text.iter().take_while(|byte| is_blank(**byte)).count()
}

// How many bytes other than blanks stand at the front.
fn dark_run(text: &[u8]) -> usize
    ensures value { result ≡ prefix_len is_dark text.now }
    ensures bound { result ≤ length text.now }
{
    text.iter().take_while(|byte| !is_blank(**byte)).count()
}

// The text behind one or more blanks.
fn behind_blanks(text: &[u8]) -> Option<&[u8]>
    ensures { Says (λ t. t.now) result (behind_blanks text.now) }
{
    let blanks = blank_run(text);
    if blanks == 0 {
        return None;
    }
    Some(text.split_at(blanks).1)
}

// The text behind the word `since`.
fn behind_since(text: &[u8]) -> Option<&[u8]>
    ensures { Says (λ t. t.now) result (behind_since text.now) }
{
    let (word, rest) = text.split_at(dark_run(text));
    if word != "since".as_bytes() {
        return None;
    }
    Some(rest)
}

#[tactic(auto, unfolding(xr_times::specs::Units::behind_word))]
fn behind_word(text: &[u8]) -> Option<&[u8]>
    ensures { Says (λ t. t.now) result (behind_word text.now) }
{
    let rest = behind_blanks(text)?;
    let rest = behind_since(rest)?;
    behind_blanks(rest)
}

// The reference of a text of units: what stands behind `since` and the blanks round it.
#[tactic(auto, unfolding(xr_defs::specs::Encoding::reference_text))]
fn reference_text(text: &[u8]) -> &[u8]
    ensures { result.now ≡ reference_text text.now }
{
    let rest = text.split_at(dark_run(text)).1;
    match behind_word(rest) {
        Some(reference) => reference,
        None => &[],
    }
}

// The text of the units of counts of a unit.
#[tactic(auto, unfolding(xr_defs::specs::Encoding::units_written))]
fn units_text(alloc: Global, coding: &TimeCoding, unit: TimeUnit) -> Result<ByteList, AllocError>
    ensures { IfOk result (λ text. text ≡ units_written coding.now unit) }
{
    let own = coding.units_text.as_bytes();
    if is_same(unit, coding.units.unit) {
        return Items::from_slice(alloc, own);
    }
    let mut text = Vec::from_slice(alloc, unit_name(unit).as_bytes())?;
    text.extend_from_slice(" since ".as_bytes())?;
    text.extend_from_slice(reference_text(own))?;
    Ok(Items::of(text))
}

/// `units`, and `calendar` where there is its text, of counts of a unit.
pub fn coding_attrs(
    alloc: Global,
    coding: &TimeCoding,
    unit: TimeUnit,
) -> Result<Items<Attr>, AllocError>
    ensures { IfOk result (λ attrs. attrs ≡ coding_attrs coding.now unit) }
{
    let mut attrs = Items::new(alloc);
    let text = units_text(alloc, coding, unit)?;
    attrs.push(text_attr(alloc, "units", text)?)?;
    if let Some(calendar) = &coding.calendar_text {
        let text = Items::from_slice(alloc, calendar.as_bytes())?;
        attrs.push(text_attr(alloc, "calendar", text)?)?;
    }
    Ok(attrs)
}
