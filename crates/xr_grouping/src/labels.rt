//! The labels of blocks: their least, their greatest or their sum.
ghost use Rattle.std.specs.Prelude.{◌≡◌, ◌≤◌, ◌<◌, ◌*◌, ◌+◌, ◌-◌, ◌^◌, ◌+ℤ◌, true, length, map, Some, IfOk};
ghost use Rattle.std.specs.Int.{int_max, int_min};
ghost use Rattle.std.specs.List.{range_with_len};
ghost use Rattle.xr_arrays.specs.FeedPositions.{block};
ghost use Rattle.xr_arrays.specs.Folds as folds;
ghost use Rattle.xr_defs.specs.Values.{label_count};
ghost use Rattle.xr_groups.specs.Blocks as of;
ghost use Rattle.xr_groups.specs.Groupings.{is_func};
ghost use Rattle.xr_types.specs.declared.axis.LabelList.TheVariants.{Numbers, Texts, Times};
ghost use Rattle.xr_grouping.specs.Labelled.{choice_of, numbers_in};

use crate::asked::folded_kind;
use crate::keys::{integers, signed};
use std::alloc::{AllocError, Global};
use xr_types::{
    DType, DeepCopy, FoldKind, Integers, Items, LabelList, Shared, TextBytes, TimeCoding, wrap,
};

// ---- numbers

fn lower(number: i128, best: Option<i128>) -> Option<i128>
    ensures { result ≡ folds.of_both int_min (Some number) best }
{
    match best {
        None => Some(number),
        Some(other) => {
            if other < number {
                Some(other)
            } else {
                Some(number)
            }
        }
    }
}

fn upper(number: i128, best: Option<i128>) -> Option<i128>
    ensures { result ≡ folds.of_both int_max (Some number) best }
{
    match best {
        None => Some(number),
        Some(other) => {
            if other < number {
                Some(number)
            } else {
                Some(other)
            }
        }
    }
}

// A sum of numbers, none of which is past 2^100.
fn plus(one: i128, other: i128) -> Result<i128, AllocError>
    ensures { IfOk result (λ n. n ≡ one +ℤ other) }
{
    let most = 1_267_650_600_228_229_401_496_703_205_376;
    if one < -most || one > most || other < -most || other > most {
        return Err(AllocError);
    }
    Ok(one + other)
}

// The least of the numbers from a position up to another.
#[tactic(auto, using(crate::proofs::Labelled::least_none, crate::proofs::Labelled::least_down, crate::proofs::Labelled::least_end))]
fn least_in(numbers: &Integers, from: u64, to: u64) -> Option<i128>
    requires { from ≤ to }
    ensures { result ≡ folds.least (numbers_in numbers.now (range_with_len from (to - from))) }
{
    let mut best = None;
    let mut at = to;
    while at > from {
        at -= 1;
        best = lower(numbers.get(at as usize), best);
    }
    best
}

#[tactic(auto, using(crate::proofs::Labelled::greatest_none, crate::proofs::Labelled::greatest_down, crate::proofs::Labelled::greatest_end))]
fn greatest_in(numbers: &Integers, from: u64, to: u64) -> Option<i128>
    requires { from ≤ to }
    ensures { result ≡ folds.greatest (numbers_in numbers.now (range_with_len from (to - from))) }
{
    let mut best = None;
    let mut at = to;
    while at > from {
        at -= 1;
        best = upper(numbers.get(at as usize), best);
    }
    best
}

#[tactic(auto, using(crate::proofs::Labelled::sum_none, crate::proofs::Labelled::sum_down, crate::proofs::Labelled::sum_end))]
fn sum_in(numbers: &Integers, from: u64, to: u64) -> Result<i128, AllocError>
    requires { from ≤ to }
    ensures { IfOk result (λ n. n ≡ folds.sum_of (numbers_in numbers.now (range_with_len from (to - from)))) }
{
    let mut total = 0;
    let mut at = to;
    while at > from {
        at -= 1;
        total = plus(numbers.get(at as usize), total)?;
    }
    Ok(total)
}

fn number_or_zero(number: Option<i128>) -> i128
    ensures { result ≡ of.number_or_zero number }
{
    match number {
        None => 0,
        Some(number) => number,
    }
}

// The label of a block of numbers.
#[tactic(auto, using(crate::proofs::Labelled::least_is, crate::proofs::Labelled::greatest_is, crate::proofs::Labelled::sum_is, crate::proofs::Labelled::block_range))]
fn block_number(
    fold: FoldKind,
    kind: DType,
    numbers: &Integers,
    from: u64,
    width: u64,
) -> Result<i128, AllocError>
    requires func { is_func (Some fold) ≡ true }
    requires small { from + width < 2 ^ 64 }
    ensures { IfOk result (λ n. n ≡ of.block_number fold kind numbers.now (range_with_len from width)) }
{
    let to = from + width;
    match fold {
        FoldKind::Min => Ok(number_or_zero(least_in(numbers, from, to))),
        FoldKind::Max => Ok(number_or_zero(greatest_in(numbers, from, to))),
        FoldKind::Sum => {
            let total = sum_in(numbers, from, to)?;
            Ok(wrap(folded_kind(fold, kind), total))
        }
        _ => unreachable!(),
    }
}

// Where a block begins.
#[tactic(auto, using(xr_arrays::proofs::FeedPositions::block_ends))]
fn block_start(count: u64, width: u64, at: u64) -> u64
    requires small { count * width < 2 ^ 64 }
    requires inside { at < count }
    ensures start { result ≡ at * width }
    ensures end { result + width ≤ count * width }
{
    at * width
}

fn block_numbers(
    alloc: Global,
    fold: FoldKind,
    kind: DType,
    numbers: &Integers,
    count: u64,
    width: u64,
) -> Result<Vec<i128>, AllocError>
    requires func { is_func (Some fold) ≡ true }
    requires small { count * width < 2 ^ 64 }
    ensures { IfOk result (λ v. v.items ≡ map (of.block_number fold kind numbers.now) (map (block width) (range_with_len 0 count))) }
{
    let mut out = Vec::new(alloc);
    for at in 0..count {
        let from = block_start(count, width, at);
        out.push(block_number(fold, kind, numbers, from, width)?)?;
    }
    Ok(out)
}

// ---- texts

fn lower_text<'a>(one: &'a TextBytes, other: &'a TextBytes) -> &'a TextBytes
    ensures { result.now ≡ of.lower_text one.now other.now }
{
    if other.as_bytes().cmp(one.as_bytes()).is_lt() {
        other
    } else {
        one
    }
}

fn upper_text<'a>(one: &'a TextBytes, other: &'a TextBytes) -> &'a TextBytes
    ensures { result.now ≡ of.upper_text one.now other.now }
{
    if one.as_bytes().cmp(other.as_bytes()).is_lt() {
        other
    } else {
        one
    }
}

fn is_max(fold: FoldKind) -> bool
    ensures { result ≡ of.is_max fold }
{
    match fold {
        FoldKind::Max => true,
        FoldKind::Min | FoldKind::Sum | FoldKind::Prod | FoldKind::Count => false,
        FoldKind::First | FoldKind::Last | FoldKind::ArgMin | FoldKind::ArgMax => false,
        FoldKind::Any | FoldKind::All => false,
    }
}

fn better<'a>(fold: FoldKind, one: &'a TextBytes, other: &'a TextBytes) -> &'a TextBytes
    ensures { result.now ≡ choice_of fold one.now other.now }
{
    if is_max(fold) {
        upper_text(one, other)
    } else {
        lower_text(one, other)
    }
}

// The label of a block of texts.
fn block_text<'a>(
    fold: FoldKind,
    texts: &'a [TextBytes],
    from: usize,
    width: usize,
) -> &'a TextBytes
    requires some { 0 < width }
    requires inside { from + width ≤ length texts.now }
    ensures { result.now ≡ of.block_text fold texts.now (range_with_len from width) }
{
    let to = from + width;
    let mut best = &texts[from];
    for at in from + 1..to {
        best = better(fold, best, &texts[at]);
    }
    best
}

fn block_texts(
    alloc: Global,
    fold: FoldKind,
    texts: &[TextBytes],
    count: u64,
    width: u64,
) -> Result<Items<TextBytes>, AllocError>
    requires some { 0 < width }
    requires inside { count * width ≤ length texts.now }
    ensures { IfOk result (λ ts. ts ≡ map (of.block_text fold texts.now) (map (block width) (range_with_len 0 count))) }
{
    let mut out = Items::new(alloc);
    for at in 0..count {
        let from = block_start(count, width, at);
        let label = block_text(fold, texts, from as usize, width as usize);
        out.push(label.deep_copy(alloc)?)?;
    }
    Ok(out)
}

// ---- labels

fn number_list(
    alloc: Global,
    fold: FoldKind,
    kind: DType,
    numbers: &Integers,
    count: u64,
    width: u64,
) -> Result<LabelList, AllocError>
    requires func { is_func (Some fold) ≡ true }
    requires small { count * width < 2 ^ 64 }
    ensures { IfOk result (λ l. l ≡ of.block_list fold (map (block width) (range_with_len 0 count)) (Numbers kind numbers.now)) }
{
    let held = block_numbers(alloc, fold, kind, numbers, count, width)?;
    let held = integers(alloc, &held)?;
    Ok(LabelList::Numbers(folded_kind(fold, kind), held))
}

fn time_list(
    alloc: Global,
    fold: FoldKind,
    coding: &TimeCoding,
    times: &[i64],
    count: u64,
    width: u64,
) -> Result<LabelList, AllocError>
    requires func { is_func (Some fold) ≡ true }
    requires small { count * width < 2 ^ 64 }
    ensures { IfOk result (λ l. l ≡ of.block_list fold (map (block width) (range_with_len 0 count)) (Times coding.now times.now)) }
{
    let numbers = Integers::signed(alloc, Items::from_slice(alloc, times)?)?;
    let held = block_numbers(alloc, fold, DType::Int64, &numbers, count, width)?;
    let held = Shared::of(alloc, signed(alloc, &held)?)?;
    Ok(LabelList::Times(coding.deep_copy(alloc)?, held))
}

fn text_list(
    alloc: Global,
    fold: FoldKind,
    texts: &[TextBytes],
    count: u64,
    width: u64,
) -> Result<LabelList, AllocError>
    requires some { 0 < width }
    requires inside { count * width ≤ length texts.now }
    ensures { IfOk result (λ l. l ≡ of.block_list fold (map (block width) (range_with_len 0 count)) (Texts texts.now)) }
{
    let held = block_texts(alloc, fold, texts, count, width)?;
    Ok(LabelList::Texts(Shared::of(alloc, held)?))
}

/// The labels of so many blocks.
pub(crate) fn block_list(
    alloc: Global,
    fold: FoldKind,
    list: &LabelList,
    count: u64,
    width: u64,
) -> Result<LabelList, AllocError>
    requires func { is_func (Some fold) ≡ true }
    requires some { 0 < width }
    requires small { count * width < 2 ^ 64 }
    requires inside { count * width ≤ label_count list.now }
    ensures { IfOk result (λ l. l ≡ of.block_list fold (map (block width) (range_with_len 0 count)) list.now) }
{
    match list {
        LabelList::Numbers(kind, numbers) => {
            number_list(alloc, fold, *kind, numbers, count, width)
        }
        LabelList::Times(coding, times) => {
            time_list(alloc, fold, coding, times.as_slice(), count, width)
        }
        LabelList::Texts(texts) => text_list(alloc, fold, texts.as_slice(), count, width),
    }
}
