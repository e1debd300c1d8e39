//! The labels of a list, one at a time.
ghost use Rattle.std.specs.Prelude.{◌≡◌, ◌<◌, length};
ghost use Rattle.xr_arrays.specs.Labels.{labels_of, label_at, order, distance, is_kin, is_text};
ghost use Rattle.label_index.specs.Slots.{numbers_of, number_of, shown};

use std::cmp::Ordering;
use xr_types::{IntegersForm, Label, LabelList};

/// How many labels a list has.
pub fn count(list: &LabelList) -> usize
    ensures { result ≡ length (labels_of list.now) }
{
    match list {
        LabelList::Numbers(_, numbers) => numbers.len(),
        LabelList::Times(_, times) => times.as_slice().len(),
        LabelList::Texts(texts) => texts.as_slice().len(),
    }
}

/// How the label at a position stands to another label.
#[tactic(auto, using(crate::proofs::Rows::numbers_at, crate::proofs::Rows::times_at, crate::proofs::Rows::texts_at))]
pub fn compare(list: &LabelList, at: usize, label: &Label) -> Ordering
    requires { at < length (labels_of list.now) }
    ensures { result ≡ order (label_at (labels_of list.now) at) label.now }
{
    match list {
        LabelList::Numbers(_, numbers) => match label {
            Label::Int(number) => numbers.get(at).cmp(number),
            Label::Time(_) => Ordering::Less,
            Label::Text(_) => Ordering::Less,
        },
        LabelList::Times(_, times) => match label {
            Label::Int(_) => Ordering::Greater,
            Label::Time(time) => times.as_slice()[at].cmp(time),
            Label::Text(_) => Ordering::Less,
        },
        LabelList::Texts(texts) => match label {
            Label::Text(text) => texts.as_slice()[at].as_bytes().cmp(text.as_bytes()),
            Label::Int(_) => Ordering::Greater,
            Label::Time(_) => Ordering::Greater,
        },
    }
}

/// How the labels at two positions stand to each other.
#[tactic(auto, using(crate::proofs::Rows::numbers_at, crate::proofs::Rows::times_at, crate::proofs::Rows::texts_at))]
pub fn compare_two(list: &LabelList, at: usize, other: usize) -> Ordering
    requires first { at < length (labels_of list.now) }
    requires second { other < length (labels_of list.now) }
    ensures { result ≡ order (label_at (labels_of list.now) at) (label_at (labels_of list.now) other) }
{
    match list {
        LabelList::Numbers(_, numbers) => numbers.get(at).cmp(&numbers.get(other)),
        LabelList::Times(_, times) => times.as_slice()[at].cmp(&times.as_slice()[other]),
        LabelList::Texts(texts) => texts.as_slice()[at]
            .as_bytes()
            .cmp(texts.as_slice()[other].as_bytes()),
    }
}

/// How far the label at a position lies from another label.
#[tactic(auto, using(crate::proofs::Rows::numbers_at, crate::proofs::Rows::times_at, crate::proofs::Rows::texts_at))]
pub fn far(list: &LabelList, at: usize, label: &Label) -> u128
    requires { at < length (labels_of list.now) }
    ensures { result ≡ distance (label_at (labels_of list.now) at) label.now }
{
    match list {
        LabelList::Numbers(_, numbers) => match label {
            Label::Int(number) => numbers.get(at).abs_diff(*number),
            Label::Time(_) => 0,
            Label::Text(_) => 0,
        },
        LabelList::Times(_, times) => match label {
            Label::Time(time) => u128::from(times.as_slice()[at].abs_diff(*time)),
            Label::Int(_) => 0,
            Label::Text(_) => 0,
        },
        LabelList::Texts(_) => 0,
    }
}

/// Whether a label is of the list's kind.
pub fn is_kin(list: &LabelList, label: &Label) -> bool
    ensures { result ≡ is_kin list.now label.now }
{
    match list {
        LabelList::Numbers(_, _) => matches!(label, Label::Int(_)),
        LabelList::Times(_, _) => matches!(label, Label::Time(_)),
        LabelList::Texts(_) => matches!(label, Label::Text(_)),
    }
}

/// The numbers of a list, times by their seconds; texts have none.
#[tactic(auto, using(crate::proofs::Numbers::shows_is))]
pub fn numbers(list: &LabelList) -> IntegersForm<'_>
    ensures { shown result ≡ numbers_of list.now }
{
    match list {
        LabelList::Numbers(_, numbers) => numbers.form(),
        LabelList::Times(_, times) => IntegersForm::Signed(times.as_slice()),
        LabelList::Texts(_) => IntegersForm::Signed(&[]),
    }
}

/// The number of a label, a time by its seconds, or 0.
pub fn number(label: &Label) -> i128
    ensures { result ≡ number_of label.now }
{
    match label {
        Label::Int(number) => *number,
        Label::Time(time) => i128::from(*time),
        Label::Text(_) => 0,
    }
}
