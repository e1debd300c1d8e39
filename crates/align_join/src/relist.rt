//! Lists made of labels.
ghost use Rattle.std.specs.Prelude.{◌≡◌, map, pos, IfOk};
ghost use Rattle.xr_arrays.specs.Labels.{labels_of};
ghost use Rattle.xr_operations.specs.Alignment.{number_of, text_of, relisted};

use crate::key::Key;
use crate::label;
use std::alloc::{AllocError, Global};
use xr_types::{DType, DeepCopy, Integers, Items, Label, LabelList, Shared, TextBytes};

/// The number of a label, a time by its seconds.
fn number(label: &Label) -> i128
    ensures { result ≡ number_of label.now }
{
    match label {
        Label::Int(number) => *number,
        Label::Time(time) => i128::from(*time),
        Label::Text(_) => 0,
    }
}

fn signed(alloc: Global, labels: &[Key]) -> Result<Items<i64>, AllocError>
    ensures { IfOk result (λ s. s ≡ map number_of labels.now) }
{
    let mut all = Items::new(alloc);
    for key in labels {
        match i64::try_from(number(key.label())) {
            Ok(number) => all.push(number)?,
            Err(_) => return Err(AllocError),
        }
    }
    Ok(all)
}

fn unsigned(alloc: Global, labels: &[Key]) -> Result<Items<u64>, AllocError>
    ensures { IfOk result (λ s. map pos s ≡ map number_of labels.now) }
{
    let mut all = Items::new(alloc);
    for key in labels {
        match u64::try_from(number(key.label())) {
            Ok(number) => all.push(number)?,
            Err(_) => return Err(AllocError),
        }
    }
    Ok(all)
}

/// The numbers of labels that a kind holds.
fn numbers(alloc: Global, kind: DType, labels: &[Key]) -> Result<Integers, AllocError>
    ensures { IfOk result (λ s. s ≡ map number_of labels.now) }
{
    if kind == DType::UInt64 {
        Integers::unsigned(alloc, unsigned(alloc, labels)?)
    } else {
        Integers::signed(alloc, signed(alloc, labels)?)
    }
}

fn text(alloc: Global, label: &Label) -> Result<TextBytes, AllocError>
    ensures { IfOk result (λ t. t ≡ text_of label.now) }
{
    match label {
        Label::Text(text) => text.deep_copy(alloc),
        Label::Int(_) | Label::Time(_) => TextBytes::from_str(alloc, ""),
    }
}

fn texts(alloc: Global, labels: &[Key]) -> Result<Items<TextBytes>, AllocError>
    ensures { IfOk result (λ s. s ≡ map text_of labels.now) }
{
    let mut all = Items::new(alloc);
    for key in labels {
        all.push(text(alloc, key.label())?)?;
    }
    Ok(all)
}

/// These labels in a list of the sort of another, whole numbers as those of a kind.
pub fn of_labels(
    alloc: Global,
    kind: DType,
    sort: &LabelList,
    labels: &[Key],
) -> Result<LabelList, AllocError>
    ensures { IfOk result (λ l. l ≡ relisted kind sort.now labels.now) }
{
    match sort {
        LabelList::Numbers(_, _) => {
            let numbers = numbers(alloc, kind, labels)?;
            Ok(LabelList::Numbers(kind, numbers))
        }
        LabelList::Times(coding, _) => {
            let times = Shared::of(alloc, signed(alloc, labels)?)?;
            Ok(LabelList::Times(coding.deep_copy(alloc)?, times))
        }
        LabelList::Texts(_) => {
            let texts = Shared::of(alloc, texts(alloc, labels)?)?;
            Ok(LabelList::Texts(texts))
        }
    }
}

/// The labels of a list in one of the sort of another. Lists of one sort share them.
#[tactic(auto, using(crate::proofs::Relisted::numbers_again, crate::proofs::Relisted::times_again, crate::proofs::Relisted::texts_again))]
pub fn of_list(
    alloc: Global,
    kind: DType,
    sort: &LabelList,
    list: &LabelList,
) -> Result<LabelList, AllocError>
    ensures { IfOk result (λ l. l ≡ relisted kind sort.now (labels_of list.now)) }
{
    match (sort, list) {
        (LabelList::Numbers(_, _), LabelList::Numbers(_, numbers)) => {
            Ok(LabelList::Numbers(kind, numbers.deep_copy(alloc)?))
        }
        (LabelList::Times(coding, _), LabelList::Times(_, times)) => Ok(LabelList::Times(
            coding.deep_copy(alloc)?,
            times.deep_copy(alloc)?,
        )),
        (LabelList::Texts(_), LabelList::Texts(texts)) => {
            Ok(LabelList::Texts(texts.deep_copy(alloc)?))
        }
        _ => {
            let labels = label::labels(alloc, list)?;
            of_labels(alloc, kind, sort, labels.as_slice())
        }
    }
}
