//! Labels of lists, and lists of labels.
ghost use Rattle.std.specs.Prelude.{◌≡◌, ◌<◌, ◌&&◌, ◌==◌, pos, [], length, map, get_or, IfOk};
ghost use Rattle.xr_types.specs.declared.axis.Label.TheVariants as label;
ghost use Rattle.xr_arrays.specs.Labels.{labels_of, label_at, same};
ghost use Rattle.xr_defs.specs.Building as building;

use crate::key::Key;
use crate::kind::same_calendar;
use std::alloc::{AllocError, Global};
use xr_types::{DeepCopy, Integers, IntegersForm, Label, LabelList, TextBytes};

/// How many labels a list has.
pub fn count(list: &LabelList) -> usize
    ensures { result ≡ length (labels_of list.now) }
{
    match list {
        LabelList::Numbers(_, numbers) => numbers.len(),
        LabelList::Times(_, times) => times.as_slice().len(),
        LabelList::Texts(texts) => texts.as_slice().len(),
    }
}

/// The label at a position.
#[tactic(auto, using(label_index::proofs::Rows::numbers_at, label_index::proofs::Rows::times_at, label_index::proofs::Rows::texts_at))]
pub fn label_at(alloc: Global, list: &LabelList, at: usize) -> Result<Key, AllocError>
    requires { at < length (labels_of list.now) }
    ensures { IfOk result (λ l. l ≡ label_at (labels_of list.now) at) }
{
    match list {
        LabelList::Numbers(_, numbers) => Ok(Key::of(Label::Int(numbers.get(at)))),
        LabelList::Times(_, times) => Ok(Key::of(Label::Time(times.as_slice()[at]))),
        LabelList::Texts(texts) => {
            let text = texts.as_slice()[at].deep_copy(alloc)?;
            Ok(Key::of(Label::Text(text)))
        }
    }
}

/// All labels of a list.
pub fn labels(alloc: Global, list: &LabelList) -> Result<Vec<Key>, AllocError>
    ensures { IfOk result (λ v. v.items ≡ labels_of list.now) }
{
    let mut all = Vec::new(alloc);
    for at in 0..count(list) {
        all.push(label_at(alloc, list, at)?)?;
    }
    Ok(all)
}

// ---- equal lists

#[tactic(auto, using(crate::proofs::Same::ints_same))]
fn same_signed(a: &[i64], b: &[i64]) -> bool
    ensures { result ≡ building.same_labels (map label.Int a.now) (map label.Int b.now) }
{
    a == b
}

#[tactic(auto, using(crate::proofs::Same::naturals_same))]
fn same_unsigned(a: &[u64], b: &[u64]) -> bool
    ensures { result ≡ building.same_labels (map label.Int (map pos a.now)) (map label.Int (map pos b.now)) }
{
    a == b
}

#[tactic(auto, using(crate::proofs::Same::times_same))]
fn same_times(a: &[i64], b: &[i64]) -> bool
    ensures { result ≡ building.same_labels (map label.Time a.now) (map label.Time b.now) }
{
    a == b
}

fn same_number(a: &Integers, b: &Integers, at: usize) -> bool
    ensures { result ≡ same (label.Int (get_or a.now at (pos 0))) (label.Int (get_or b.now at (pos 0))) }
{
    a.get(at).cmp(&b.get(at)).is_eq()
}

/// Whether numbers of two forms are equal, one by one.
#[tactic(auto, using(crate::proofs::Same::lengths_by, crate::proofs::Same::each_by, crate::proofs::Same::one_by))]
fn same_mixed(a: &Integers, b: &Integers) -> bool
    ensures { result ≡ building.same_labels (map label.Int a.now) (map label.Int b.now) }
{
    if a.len() != b.len() {
        return false;
    }
    for at in 0..a.len() {
        if !same_number(a, b, at) {
            return false;
        }
    }
    true
}

fn same_text(a: &[TextBytes], b: &[TextBytes], at: usize) -> bool
    requires first { at < length a.now }
    requires second { at < length b.now }
    ensures { result ≡ same (label.Text (get_or a.now at [])) (label.Text (get_or b.now at [])) }
{
    a[at].as_bytes().cmp(b[at].as_bytes()).is_eq()
}

#[tactic(auto, using(crate::proofs::Same::lengths_by, crate::proofs::Same::each_by, crate::proofs::Same::one_by))]
fn same_texts(a: &[TextBytes], b: &[TextBytes]) -> bool
    ensures { result ≡ building.same_labels (map label.Text a.now) (map label.Text b.now) }
{
    if a.len() != b.len() {
        return false;
    }
    for at in 0..a.len() {
        if !same_text(a, b, at) {
            return false;
        }
    }
    true
}

fn same_numbers(a: &Integers, b: &Integers) -> bool
    ensures { result ≡ building.same_labels (map label.Int a.now) (map label.Int b.now) }
{
    match (a.form(), b.form()) {
        (IntegersForm::Signed(a), IntegersForm::Signed(b)) => same_signed(a, b),
        (IntegersForm::Unsigned(a), IntegersForm::Unsigned(b)) => same_unsigned(a, b),
        (IntegersForm::Signed(_), IntegersForm::Unsigned(_)) => same_mixed(a, b),
        (IntegersForm::Unsigned(_), IntegersForm::Signed(_)) => same_mixed(a, b),
    }
}

// Labels of two kinds are equal where there are none.
fn are_none(a: usize, b: usize) -> bool
    ensures { result ≡ ((a == 0) && (b == 0)) }
{
    a == 0 && b == 0
}

#[tactic(auto, using(crate::proofs::Same::int_time, crate::proofs::Same::int_text))]
fn same_as_numbers(a: &Integers, b: &LabelList) -> bool
    ensures { result ≡ building.same_labels (map label.Int a.now) (labels_of b.now) }
{
    match b {
        LabelList::Numbers(_, b) => same_numbers(a, b),
        LabelList::Times(_, b) => are_none(a.len(), b.as_slice().len()),
        LabelList::Texts(b) => are_none(a.len(), b.as_slice().len()),
    }
}

#[tactic(auto, using(crate::proofs::Same::time_int, crate::proofs::Same::time_text))]
fn same_as_times(a: &[i64], b: &LabelList) -> bool
    ensures { result ≡ building.same_labels (map label.Time a.now) (labels_of b.now) }
{
    match b {
        LabelList::Numbers(_, b) => are_none(a.len(), b.len()),
        LabelList::Times(_, b) => same_times(a, b.as_slice()),
        LabelList::Texts(b) => are_none(a.len(), b.as_slice().len()),
    }
}

#[tactic(auto, using(crate::proofs::Same::text_int, crate::proofs::Same::text_time))]
fn same_as_texts(a: &[TextBytes], b: &LabelList) -> bool
    ensures { result ≡ building.same_labels (map label.Text a.now) (labels_of b.now) }
{
    match b {
        LabelList::Numbers(_, b) => are_none(a.len(), b.len()),
        LabelList::Times(_, b) => are_none(a.len(), b.as_slice().len()),
        LabelList::Texts(b) => same_texts(a, b.as_slice()),
    }
}

/// Whether lists are equal.
pub fn same_labels(a: &LabelList, b: &LabelList) -> bool
    ensures { result ≡ building.same_labels (labels_of a.now) (labels_of b.now) }
{
    match a {
        LabelList::Numbers(_, a) => same_as_numbers(a, b),
        LabelList::Times(_, a) => same_as_times(a.as_slice(), b),
        LabelList::Texts(a) => same_as_texts(a.as_slice(), b),
    }
}

fn have_one_calendar(a: &LabelList, b: &LabelList) -> bool
    ensures { result ≡ building.have_one_calendar a.now b.now }
{
    match (a, b) {
        (LabelList::Times(a, _), LabelList::Times(b, _)) => {
            same_calendar(a.units.calendar, b.units.calendar)
        }
        _ => true,
    }
}

/// Whether lists are equal, and times are of one calendar.
pub fn equal_labels(a: &LabelList, b: &LabelList) -> bool
    ensures { result ≡ building.equal_labels a.now b.now }
{
    have_one_calendar(a, b) && same_labels(a, b)
}
