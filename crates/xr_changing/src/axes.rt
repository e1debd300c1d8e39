//! Axes with new labels: those at positions of the old ones, or others.
ghost use Rattle.std.specs.Prelude.{◌≡◌, pos, true, ⊤, [], length, map, All, IfOk, MatchOption};
ghost use Rattle.xr_types.specs.Kinds.{InRange};
ghost use Rattle.xr_types.specs.declared.kind.DType.TheVariants as kinds;
ghost use Rattle.xr_times.specs.Times.{IsTime};
ghost use Rattle.xr_defs.specs.Values as values;
ghost use Rattle.xr_defs.specs.Values.{chosen, label_count};
ghost use Rattle.xr_defs.specs.WellFormed.{AreLabels, IsIndex};
ghost use Rattle.xr_operations.specs.Alignment.{number_of, relisted, text_of};
ghost use Rattle.xr_operations.specs.Changing as of;
ghost use Rattle.xr_operations.specs.Changing.{shown};
ghost use Rattle.xr_changing.specs.Steps.{AreIndexed};

use crate::steps::change_called;
use std::alloc::Global;
use xr_operations::Change;
use xr_types::{
    Axis, Calendar, DType, DeepCopy, Integers, IntegersForm, Items, Label, LabelList, Labels,
    NoMemory, Shared, TextBytes,
};

// ---- labels at positions

fn chosen_numbers<T: Copy>(
    alloc: Global,
    list: &[T],
    from: &[Option<u32>],
) -> Result<Items<T>, NoMemory>
    ensures { (d : T) → IfOk result (λ s. s ≡ chosen d list.now (shown from.now)) }
{
    let mut out = Vec::new(alloc);
    for at in from {
        match list.get(at.unwrap_or(0) as usize) {
            Some(number) => out.push(*number)?,
            None => return Err(NoMemory),
        }
    }
    Ok(Items::of(out))
}

fn chosen_integers(
    alloc: Global,
    numbers: &Integers,
    from: &[Option<u32>],
) -> Result<Integers, NoMemory>
    ensures { IfOk result (λ s. s ≡ chosen (pos 0) numbers.now (shown from.now)) }
{
    match numbers.form() {
        IntegersForm::Signed(list) => {
            let chosen = chosen_numbers(alloc, list, from)?;
            Ok(Integers::signed(alloc, chosen)?)
        }
        IntegersForm::Unsigned(list) => {
            let chosen = chosen_numbers(alloc, list, from)?;
            Ok(Integers::unsigned(alloc, chosen)?)
        }
    }
}

fn chosen_texts(
    alloc: Global,
    list: &[TextBytes],
    from: &[Option<u32>],
) -> Result<Items<TextBytes>, NoMemory>
    ensures { IfOk result (λ s. s ≡ chosen [] list.now (shown from.now)) }
{
    let mut out = Items::new(alloc);
    for at in from {
        match list.get(at.unwrap_or(0) as usize) {
            Some(text) => out.push(text.deep_copy(alloc)?)?,
            None => return Err(NoMemory),
        }
    }
    Ok(out)
}

// The labels at these positions, where none counts as the first. One that the list doesn't have wants memory.
fn chosen_list(alloc: Global, list: &LabelList, from: &[Option<u32>]) -> Result<LabelList, NoMemory>
    ensures { IfOk result (λ l. l ≡ values.chosen_list list.now (shown from.now)) }
{
    match list {
        LabelList::Numbers(kind, numbers) => {
            let numbers = chosen_integers(alloc, numbers, from)?;
            Ok(LabelList::Numbers(*kind, numbers))
        }
        LabelList::Times(coding, times) => {
            let times = Shared::of(alloc, chosen_numbers(alloc, times.as_slice(), from)?)?;
            Ok(LabelList::Times(coding.deep_copy(alloc)?, times))
        }
        LabelList::Texts(texts) => {
            let texts = Shared::of(alloc, chosen_texts(alloc, texts.as_slice(), from)?)?;
            Ok(LabelList::Texts(texts))
        }
    }
}

// ---- given labels

// The number of a label. One past 64 bits, which is refused before, wants memory.
fn number_of(label: &Label) -> Result<i64, NoMemory>
    ensures { IfOk result (λ n. n ≡ number_of label.now) }
{
    match label {
        Label::Int(number) => i64::try_from(*number).map_err(|_| NoMemory),
        Label::Time(time) => Ok(*time),
        Label::Text(_) => Ok(0),
    }
}

fn numbers_of(alloc: Global, labels: &[Label]) -> Result<Items<i64>, NoMemory>
    ensures is { IfOk result (λ ns. ns ≡ map number_of labels.now) }
    ensures range { IfOk result (All (InRange kinds.Int64)) }
{
    let mut numbers = Items::new(alloc);
    for label in labels {
        numbers.push(number_of(label)?)?;
    }
    Ok(numbers)
}

// Whether a time stands in the years 1 to 9999 of a calendar.
fn is_time(time: i64, calendar: Calendar) -> bool
    ensures { result ≡ true → IsTime calendar time }
{
    match calendar {
        Calendar::Civil => time >= -62_135_596_800 && time < 253_402_300_800,
        Calendar::NoLeap => time >= -62_094_384_000 && time < 253_234_080_000,
        Calendar::Days360 => time >= -61_243_776_000 && time < 249_765_120_000,
    }
}

fn are_times(times: &[i64], calendar: Calendar) -> bool
    ensures { result ≡ true → All (IsTime calendar) times.now }
{
    times.iter().all(|time| is_time(*time, calendar))
}

fn texts_of(alloc: Global, labels: &[Label]) -> Result<Items<TextBytes>, NoMemory>
    ensures { IfOk result (λ ts. ts ≡ map text_of labels.now) }
{
    let mut texts = Items::new(alloc);
    for label in labels {
        match label {
            Label::Text(text) => texts.push(text.deep_copy(alloc)?)?,
            _ => texts.push(TextBytes::from_str(alloc, "")?)?,
        }
    }
    Ok(texts)
}

// Labels of the sort of a list, whole numbers as those of kind int64. Times outside the years 1 to 9999, which no text of a date
// has, want memory.
fn relisted(alloc: Global, list: &LabelList, labels: &[Label]) -> Result<LabelList, NoMemory>
    ensures is { IfOk result (λ l. l ≡ relisted kinds.Int64 list.now labels.now) }
    ensures range { IfOk result AreLabels }
{
    match list {
        LabelList::Numbers(_, _) => {
            let numbers = Integers::signed(alloc, numbers_of(alloc, labels)?)?;
            Ok(LabelList::Numbers(DType::Int64, numbers))
        }
        LabelList::Times(coding, _) => {
            let times = numbers_of(alloc, labels)?;
            if !are_times(times.as_slice(), coding.units.calendar) {
                return Err(NoMemory);
            }
            Ok(LabelList::Times(coding.deep_copy(alloc)?, Shared::of(alloc, times)?))
        }
        LabelList::Texts(_) => {
            let texts = Shared::of(alloc, texts_of(alloc, labels)?)?;
            Ok(LabelList::Texts(texts))
        }
    }
}

// ---- axes

// The labels of an axis, as a change has them.
#[tactic(auto, using(crate::proofs::NewAxes::chosen_range, crate::proofs::NewAxes::chosen_count, crate::proofs::NewAxes::listed_count))]
fn new_list(alloc: Global, change: &Change, labels: &Labels) -> Result<Labels, NoMemory>
    ensures is { IfOk result (λ l. l ≡ of.new_list change.now labels.now) }
    ensures count { IfOk result (λ l. label_count l.list ≡ length change.now.from) }
    ensures range { AreLabels labels.now.list → IfOk result (λ l. AreLabels l.list) }
{
    let from = change.from.as_slice();
    let list = match &change.labels {
        None => chosen_list(alloc, &labels.list, from)?,
        Some(new) => {
            if new.as_slice().len() != from.len() {
                return Err(NoMemory);
            }
            relisted(alloc, &labels.list, new.as_slice())?
        }
    };
    let attrs = labels.attrs.deep_copy(alloc)?;
    Ok(Labels { list, attrs })
}

#[tactic(auto, using(crate::proofs::NewAxes::attrs_kept))]
fn new_axis(alloc: Global, changes: &[Change], axis: &Axis) -> Result<Axis, NoMemory>
    ensures is { IfOk result (λ x. x ≡ of.new_axis changes.now axis.now) }
    ensures index { MatchOption axis.now.labels ⊤ (IsIndex axis.now.size) → IfOk result (λ x. MatchOption x.labels ⊤ (IsIndex x.size)) }
{
    match change_called(changes, &axis.name) {
        None => Ok(axis.deep_copy(alloc)?),
        Some(change) => Ok(Axis {
            name: axis.name.deep_copy(alloc)?,
            size: change.from.as_slice().len() as u64,
            labels: match &axis.labels {
                None => None,
                Some(labels) => Some(new_list(alloc, change, labels)?),
            },
        }),
    }
}

/// Axes with the labels that changes give them.
pub fn new_axes(alloc: Global, changes: &[Change], axes: &[Axis]) -> Result<Items<Axis>, NoMemory>
    ensures is { IfOk result (λ xs. xs ≡ map (of.new_axis changes.now) axes.now) }
    ensures indexes { IfOk result (λ xs. AreIndexed changes.now axes.now) }
{
    let mut out = Items::new(alloc);
    for axis in axes {
        out.push(new_axis(alloc, changes, axis)?)?;
    }
    Ok(out)
}
