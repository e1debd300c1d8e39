//! A guess at the position of a label among ascending ones, by their mean step. Evenly spaced labels are found by
//! one division; a wrong guess costs a look, and never gives a wrong answer.
ghost use Rattle.std.specs.Prelude.{◌≡◌, ◌<◌, pos, length, false, true, slice_index_or, IfSome, Ok};
ghost use Rattle.xr_arrays.specs.Labels.{labels_of, label_at, same, repeats, place};

use crate::label;
use crate::place::Places;
use crate::rank::Ranks;
use xr_types::{Integers, IntegersForm, Label, LabelList};

/// The mean step of numbers that ascend, or 0.
fn mean_step(numbers: &[i64]) -> u64 {
    match numbers {
        [first, .., last] => last.abs_diff(*first) / (numbers.len() as u64 - 1),
        _ => 0,
    }
}

/// The mean step of labels that ascend, or 0: texts and numbers past those of `int64` have none.
pub fn step_of(list: &LabelList, places: &Places) -> u64 {
    match places {
        Places::Ranked(Ranks::Rising) => match label::numbers(list) {
            IntegersForm::Signed(numbers) => mean_step(numbers),
            IntegersForm::Unsigned(_) => 0,
        },
        _ => 0,
    }
}

/// The place to which so many steps lead, if the number is there.
fn place_of(numbers: &[i64], step: u64, number: i64) -> Option<usize>
    requires { 0 < step }
    ensures { IfSome result (λ p. (p < length numbers.now) × (slice_index_or numbers.now p (pos 0) ≡ number)) }
{
    let Some(first) = numbers.first() else {
        return None;
    };
    let at = (number.abs_diff(*first) / step) as usize;
    if at < numbers.len() && numbers[at] == number {
        return Some(at);
    }
    None
}

/// The place of a number among those that an `int64` holds.
fn place_among(numbers: &Integers, step: u64, number: i128) -> Option<usize>
    requires { 0 < step }
    ensures { IfSome result (λ p. (p < length numbers.now) × (slice_index_or numbers.now p (pos 0) ≡ number)) }
{
    match numbers.form() {
        IntegersForm::Signed(numbers) => match i64::try_from(number) {
            Ok(number) => place_of(numbers, step, number),
            Err(_) => None,
        },
        IntegersForm::Unsigned(_) => None,
    }
}

/// A position that holds a label.
#[tactic(auto, using(crate::proofs::Guessing::same_number, crate::proofs::Guessing::same_time))]
fn guess(list: &LabelList, step: u64, label: &Label) -> Option<usize>
    requires { 0 < step }
    ensures { IfSome result (λ p. (p < length (labels_of list.now)) × (same (label_at (labels_of list.now) p) label.now ≡ true)) }
{
    match list {
        LabelList::Numbers(_, numbers) => match label {
            Label::Int(number) => place_among(numbers, step, *number),
            Label::Time(_) | Label::Text(_) => None,
        },
        LabelList::Times(_, times) => match label {
            Label::Time(time) => place_of(times.as_slice(), step, *time),
            Label::Int(_) | Label::Text(_) => None,
        },
        LabelList::Texts(_) => None,
    }
}

/// The one position that holds a label, if the guess finds it. A step other than 0 is one of labels of which
/// none stands twice.
#[tactic(auto, using(crate::proofs::Guessing::unique_place))]
pub fn find(list: &LabelList, step: u64, label: &Label) -> Option<u64>
    requires { 0 < step → repeats (labels_of list.now) ≡ false }
    ensures { IfSome result (λ p. place (labels_of list.now) label.now ≡ Ok p) }
{
    if step == 0 {
        return None;
    }
    match guess(list, step, label) {
        Some(at) => Some(at as u64),
        None => None,
    }
}
