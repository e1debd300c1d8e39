//! Axes that are the same in all that they hold.
ghost use Rattle.std.specs.Prelude.{◌≡◌, true, pos, map};

use xr_types::{Attr, Axis, Integers, IntegersForm, LabelList, Labels, TextBytes, TimeCoding};

#[tactic(auto, using(crate::proofs::Bytes::same_bytes))]
fn same_text(a: &TextBytes, b: &TextBytes) -> bool
    ensures { result ≡ true → a.now ≡ b.now }
{
    a.is(b)
}

fn same_texts(a: &[TextBytes], b: &[TextBytes]) -> bool
    ensures { result ≡ true → a.now ≡ b.now }
{
    if a.len() != b.len() {
        return false;
    }
    for at in 0..a.len() {
        if !same_text(&a[at], &b[at]) {
            return false;
        }
    }
    true
}

fn same_text_or_none(a: &Option<TextBytes>, b: &Option<TextBytes>) -> bool
    ensures { result ≡ true → a.now ≡ b.now }
{
    match (a, b) {
        (None, None) => true,
        (Some(a), Some(b)) => same_text(a, b),
        _ => false,
    }
}

fn same_attribute(a: &Attr, b: &Attr) -> bool
    ensures { result ≡ true → a.now ≡ b.now }
{
    same_text(&a.name, &b.name) && a.kind == b.kind && a.raw.as_slice() == b.raw.as_slice()
}

fn same_attributes(a: &[Attr], b: &[Attr]) -> bool
    ensures { result ≡ true → a.now ≡ b.now }
{
    match (a, b) {
        ([], []) => true,
        ([a, more @ ..], [b, rest @ ..]) => same_attribute(a, b) && same_attributes(more, rest),
        _ => false,
    }
}

fn same_coding(a: &TimeCoding, b: &TimeCoding) -> bool
    ensures { result ≡ true → a.now ≡ b.now }
{
    a.units == b.units
        && same_text(&a.units_text, &b.units_text)
        && same_text_or_none(&a.calendar_text, &b.calendar_text)
}

#[tactic(auto, using(crate::proofs::Bytes::same_signed))]
fn same_signed(a: &[i64], b: &[i64]) -> bool
    ensures { result ≡ true → a.now ≡ b.now }
{
    a == b
}

// Numbers that are kept in two ways count as two.
fn same_numbers(a: &Integers, b: &Integers) -> bool
    ensures { result ≡ true → a.now ≡ b.now }
{
    match (a.form(), b.form()) {
        (IntegersForm::Signed(a), IntegersForm::Signed(b)) => same_signed(a, b),
        (IntegersForm::Unsigned(a), IntegersForm::Unsigned(b)) => a == b,
        _ => false,
    }
}

fn same_list(a: &LabelList, b: &LabelList) -> bool
    ensures { result ≡ true → a.now ≡ b.now }
{
    match (a, b) {
        (LabelList::Numbers(kind, a), LabelList::Numbers(other, b)) => {
            kind == other && same_numbers(a, b)
        }
        (LabelList::Times(coding, a), LabelList::Times(other, b)) => {
            same_coding(coding, other) && same_signed(a.as_slice(), b.as_slice())
        }
        (LabelList::Texts(a), LabelList::Texts(b)) => same_texts(a.as_slice(), b.as_slice()),
        _ => false,
    }
}

fn same_labels(a: &Option<Labels>, b: &Option<Labels>) -> bool
    ensures { result ≡ true → a.now ≡ b.now }
{
    match (a, b) {
        (None, None) => true,
        (Some(a), Some(b)) => {
            same_list(&a.list, &b.list) && same_attributes(a.attrs.as_slice(), b.attrs.as_slice())
        }
        _ => false,
    }
}

/// Whether two axes are the same in all that they hold.
pub fn same_axis(a: &Axis, b: &Axis) -> bool
    ensures { result ≡ true → a.now ≡ b.now }
{
    same_text(&a.name, &b.name) && a.size == b.size && same_labels(&a.labels, &b.labels)
}
