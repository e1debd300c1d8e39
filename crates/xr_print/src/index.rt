//! The lines of indexes.
ghost use Rattle.std.specs.Prelude.{◌≡◌, ◌++◌, All, flat_map, map, OnOk};
ghost use Rattle.std.specs.Fmt.{signed_decimal};
ghost use Rattle.xr_defs.specs.Text.{after_blanks, quoted, label_kind, index_line, index_text};
ghost use Rattle.xr_times.specs.Times.{IsTime};
ghost use Rattle.xr_print.specs.Conditions.{AreTimes, HasTimes};
ghost use Rattle.xr_print.specs.Pieces.{index_head, label_items, shown_time};

use crate::cells::Decimal;
use crate::names::{push_name, push_quoted};
use crate::rows::push_after_blanks;
use crate::times::push_time;
use itoa::Buffer;
use std::alloc::AllocError;
use xr_types::{Axis, Calendar, Integers, IntegersForm, LabelList, TextBytes};

fn push_times(out: &mut Vec<u8>, times: &[i64], calendar: Calendar) -> Result<(), AllocError>
    requires { All (IsTime calendar) times.now }
    ensures { OnOk result (out.new.items ≡ out.old.items ++ after_blanks (map (shown_time calendar) times.now)) }
{
    for time in times {
        out.push(b' ')?;
        push_time(out, *time, calendar)?;
    }
    Ok(())
}

fn push_texts(out: &mut Vec<u8>, texts: &[TextBytes]) -> Result<(), AllocError>
    ensures { OnOk result (out.new.items ≡ out.old.items ++ after_blanks (map quoted texts.now)) }
{
    for text in texts {
        out.push(b' ')?;
        push_quoted(out, text.as_bytes())?;
    }
    Ok(())
}

#[tactic(auto, using(crate::proofs::Lines::decimals))]
fn push_integers(
    out: &mut Vec<u8>,
    digits: &mut Buffer,
    numbers: &Integers,
) -> Result<(), AllocError>
    ensures { OnOk result (out.new.items ≡ out.old.items ++ after_blanks (map signed_decimal numbers.now)) }
{
    match numbers.form() {
        IntegersForm::Signed(numbers) => push_after_blanks::<i64, Decimal>(out, digits, numbers),
        IntegersForm::Unsigned(numbers) => push_after_blanks::<u64, Decimal>(out, digits, numbers),
    }
}

fn push_labels(out: &mut Vec<u8>, digits: &mut Buffer, labels: &LabelList) -> Result<(), AllocError>
    requires { AreTimes labels.now }
    ensures { OnOk result (out.new.items ≡ out.old.items ++ after_blanks (label_items labels.now)) }
{
    match labels {
        LabelList::Numbers(_, numbers) => push_integers(out, digits, numbers),
        LabelList::Times(coding, times) => push_times(out, times.as_slice(), coding.units.calendar),
        LabelList::Texts(texts) => push_texts(out, texts.as_slice()),
    }
}

fn push_label_kind(out: &mut Vec<u8>, labels: &LabelList) -> Result<(), AllocError>
    ensures { OnOk result (out.new.items ≡ out.old.items ++ label_kind labels.now) }
{
    match labels {
        LabelList::Numbers(kind, _) => out.extend_from_slice(kind.name().as_bytes()),
        LabelList::Times(_, _) => out.extend_from_slice(b"time"),
        LabelList::Texts(_) => out.extend_from_slice(b"text"),
    }
}

// Appends the part of a line before its labels.
fn push_index_head(out: &mut Vec<u8>, name: &[u8], labels: &LabelList) -> Result<(), AllocError>
    ensures { OnOk result (out.new.items ≡ out.old.items ++ index_head name.now labels.now) }
{
    out.extend_from_slice(b"coord ")?;
    push_name(out, name)?;
    out.push(b' ')?;
    push_label_kind(out, labels)?;
    out.extend_from_slice(b" (")?;
    push_name(out, name)?;
    out.extend_from_slice(b"):")
}

fn push_index_line(
    out: &mut Vec<u8>,
    digits: &mut Buffer,
    name: &[u8],
    labels: &LabelList,
) -> Result<(), AllocError>
    requires { AreTimes labels.now }
    ensures { OnOk result (out.new.items ≡ out.old.items ++ index_line name.now labels.now) }
{
    push_index_head(out, name, labels)?;
    push_labels(out, digits, labels)?;
    Ok(out.push(b'\n')?)
}

fn push_index(out: &mut Vec<u8>, digits: &mut Buffer, axis: &Axis) -> Result<(), AllocError>
    requires { HasTimes axis.now }
    ensures { OnOk result (out.new.items ≡ out.old.items ++ index_text axis.now) }
{
    match &axis.labels {
        Some(labels) => push_index_line(out, digits, axis.name.as_bytes(), &labels.list),
        None => Ok(()),
    }
}

/// Appends the indexes of axes.
pub(crate) fn push_indexes(
    out: &mut Vec<u8>,
    digits: &mut Buffer,
    axes: &[Axis],
) -> Result<(), AllocError>
    requires { All HasTimes axes.now }
    ensures { OnOk result (out.new.items ≡ out.old.items ++ flat_map index_text axes.now) }
{
    for axis in axes {
        push_index(out, digits, axis)?;
    }
    Ok(())
}
