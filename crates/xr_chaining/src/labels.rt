//! Labels one after the other.
ghost use Rattle.std.specs.Prelude.{◌≡◌, ◌∷◌, ◌++◌, pos, map, IfOk, OnOk};
ghost use Rattle.std.specs.List.{list_all};
ghost use Rattle.std.specs.Str.{bytes_eq};
ghost use Rattle.xr_types.specs.Kinds.{kind_name};
ghost use Rattle.xr_types.specs.Results.{Answers};
ghost use Rattle.xr_arrays.specs.Labels.{labels_of};
ghost use Rattle.xr_operations.specs.Alignment as alignment;
ghost use Rattle.xr_combination.specs.Concat as calls;
ghost use Rattle.xr_combination.specs.Pieces.{all_labels, chained_index};

use std::alloc::{AllocError, Global};
use xr_types::{
    CallFault, DType, DeepCopy, Fault, Integers, IntegersForm, Items, LabelList, Labels, Shared,
    TextBytes, promote,
};
use xr_values::same_calendar;

// ---- of one kind

/// Whether labels are of one kind: whole numbers, times of one calendar, or texts.
pub(crate) fn are_kin(a: &LabelList, b: &LabelList) -> bool
    ensures { result ≡ alignment.are_kin a.now b.now }
{
    match (a, b) {
        (LabelList::Numbers(_, _), LabelList::Numbers(_, _)) => true,
        (LabelList::Times(a, _), LabelList::Times(b, _)) => {
            same_calendar(a.units.calendar, b.units.calendar)
        }
        (LabelList::Texts(_), LabelList::Texts(_)) => true,
        _ => false,
    }
}

fn all_kin(first: &LabelList, others: &[&Labels]) -> bool
    ensures { result ≡ list_all (alignment.are_kin first.now) (alignment.listed (map (λ l. l.now) others.now)) }
{
    match others {
        [] => true,
        [other, rest @ ..] => are_kin(first, &other.list) && all_kin(first, rest),
    }
}

/// The kind of whole numbers.
pub(crate) fn number_kind(list: &LabelList) -> DType
    ensures { result ≡ alignment.number_kind list.now }
{
    match list {
        LabelList::Numbers(kind, _) => *kind,
        LabelList::Times(_, _) | LabelList::Texts(_) => DType::Int64,
    }
}

#[tactic(auto, unfolding(xr_operations::specs::Alignment::common_kind))]
fn common_kind(kind: DType, others: &[&Labels]) -> Result<DType, CallFault>
    ensures { Answers (λ t. t) result (alignment.common_kind kind (alignment.listed (map (λ l. l.now) others.now))) }
{
    let mut common = kind;
    for other in others {
        match &other.list {
            LabelList::Numbers(own, _) => match promote(common, *own) {
                Some(both) => common = both,
                None => return Err(CallFault::Refused(Fault::WouldPromote)),
            },
            LabelList::Times(_, _) | LabelList::Texts(_) => {}
        }
    }
    Ok(common)
}

// ---- numbers with a sign

fn push_signed(out: &mut Items<i64>, numbers: &[i64]) -> Result<(), AllocError>
    ensures { OnOk result (out.new ≡ out.old ++ numbers.now) }
{
    for number in numbers {
        out.push(*number)?;
    }
    Ok(())
}

// Numbers that no `int64` is, which none of its kind are, want memory.
fn push_small(out: &mut Items<i64>, numbers: &[u64]) -> Result<(), AllocError>
    ensures { OnOk result (out.new ≡ out.old ++ map pos numbers.now) }
{
    for number in numbers {
        match i64::try_from(*number) {
            Ok(number) => out.push(number)?,
            Err(_) => return Err(AllocError),
        }
    }
    Ok(())
}

fn push_as_signed(out: &mut Items<i64>, numbers: &Integers) -> Result<(), AllocError>
    ensures { OnOk result (out.new ≡ out.old ++ numbers.now) }
{
    match numbers.form() {
        IntegersForm::Signed(numbers) => push_signed(out, numbers),
        IntegersForm::Unsigned(numbers) => push_small(out, numbers),
    }
}

// Texts among numbers, which none of one kind are, want memory.
#[tactic(auto, using(crate::proofs::Relisted::numbers_again, crate::proofs::Relisted::times_again))]
fn push_numbers(out: &mut Items<i64>, list: &LabelList) -> Result<(), AllocError>
    ensures { OnOk result (out.new ≡ out.old ++ map alignment.number_of (labels_of list.now)) }
{
    match list {
        LabelList::Numbers(_, numbers) => push_as_signed(out, numbers),
        LabelList::Times(_, times) => push_signed(out, times.as_slice()),
        LabelList::Texts(_) => Err(AllocError),
    }
}

#[tactic(auto, using(crate::proofs::Relisted::numbers_more))]
fn push_all_numbers(out: &mut Items<i64>, indexes: &[&Labels]) -> Result<(), AllocError>
    ensures { OnOk result (out.new ≡ out.old ++ map alignment.number_of (all_labels (map (λ l. l.now) indexes.now))) }
{
    match indexes {
        [] => Ok(()),
        [index, rest @ ..] => {
            push_numbers(out, &index.list)?;
            push_all_numbers(out, rest)
        }
    }
}

// ---- numbers without a sign

fn push_unsigned(out: &mut Items<u64>, numbers: &[u64]) -> Result<(), AllocError>
    ensures { OnOk result (map pos out.new ≡ map pos out.old ++ map pos numbers.now) }
{
    for number in numbers {
        out.push(*number)?;
    }
    Ok(())
}

// Numbers below 0, which none of its kind are, want memory.
fn push_positive(out: &mut Items<u64>, numbers: &[i64]) -> Result<(), AllocError>
    ensures { OnOk result (map pos out.new ≡ map pos out.old ++ numbers.now) }
{
    for number in numbers {
        match u64::try_from(*number) {
            Ok(number) => out.push(number)?,
            Err(_) => return Err(AllocError),
        }
    }
    Ok(())
}

fn push_as_unsigned(out: &mut Items<u64>, numbers: &Integers) -> Result<(), AllocError>
    ensures { OnOk result (map pos out.new ≡ map pos out.old ++ numbers.now) }
{
    match numbers.form() {
        IntegersForm::Signed(numbers) => push_positive(out, numbers),
        IntegersForm::Unsigned(numbers) => push_unsigned(out, numbers),
    }
}

#[tactic(auto, using(crate::proofs::Relisted::numbers_again))]
fn push_naturals(out: &mut Items<u64>, list: &LabelList) -> Result<(), AllocError>
    ensures { OnOk result (map pos out.new ≡ map pos out.old ++ map alignment.number_of (labels_of list.now)) }
{
    match list {
        LabelList::Numbers(_, numbers) => push_as_unsigned(out, numbers),
        LabelList::Times(_, _) | LabelList::Texts(_) => Err(AllocError),
    }
}

#[tactic(auto, using(crate::proofs::Relisted::numbers_more))]
fn push_all_naturals(out: &mut Items<u64>, indexes: &[&Labels]) -> Result<(), AllocError>
    ensures { OnOk result (map pos out.new ≡ map pos out.old ++ map alignment.number_of (all_labels (map (λ l. l.now) indexes.now))) }
{
    match indexes {
        [] => Ok(()),
        [index, rest @ ..] => {
            push_naturals(out, &index.list)?;
            push_all_naturals(out, rest)
        }
    }
}

// ---- texts

fn push_copies(
    alloc: Global,
    out: &mut Items<TextBytes>,
    texts: &[TextBytes],
) -> Result<(), AllocError>
    ensures { OnOk result (out.new ≡ out.old ++ texts.now) }
{
    for text in texts {
        out.push(text.deep_copy(alloc)?)?;
    }
    Ok(())
}

#[tactic(auto, using(crate::proofs::Relisted::texts_again))]
fn push_texts(alloc: Global, out: &mut Items<TextBytes>, list: &LabelList) -> Result<(), AllocError>
    ensures { OnOk result (out.new ≡ out.old ++ map alignment.text_of (labels_of list.now)) }
{
    match list {
        LabelList::Texts(texts) => push_copies(alloc, out, texts.as_slice()),
        LabelList::Numbers(_, _) | LabelList::Times(_, _) => Err(AllocError),
    }
}

#[tactic(auto, using(crate::proofs::Relisted::texts_more))]
fn push_all_texts(
    alloc: Global,
    out: &mut Items<TextBytes>,
    indexes: &[&Labels],
) -> Result<(), AllocError>
    ensures { OnOk result (out.new ≡ out.old ++ map alignment.text_of (all_labels (map (λ l. l.now) indexes.now))) }
{
    match indexes {
        [] => Ok(()),
        [index, rest @ ..] => {
            push_texts(alloc, out, &index.list)?;
            push_all_texts(alloc, out, rest)
        }
    }
}

// ---- in one list

fn naturals(alloc: Global, indexes: &[&Labels]) -> Result<Integers, AllocError>
    ensures { IfOk result (λ ns. ns ≡ map alignment.number_of (all_labels (map (λ l. l.now) indexes.now))) }
{
    let mut out = Items::new(alloc);
    push_all_naturals(&mut out, indexes)?;
    Integers::unsigned(alloc, out)
}

fn integers(alloc: Global, indexes: &[&Labels]) -> Result<Items<i64>, AllocError>
    ensures { IfOk result (λ ns. ns ≡ map alignment.number_of (all_labels (map (λ l. l.now) indexes.now))) }
{
    let mut out = Items::new(alloc);
    push_all_numbers(&mut out, indexes)?;
    Ok(out)
}

fn numbers(alloc: Global, kind: DType, indexes: &[&Labels]) -> Result<Integers, AllocError>
    ensures { IfOk result (λ ns. ns ≡ map alignment.number_of (all_labels (map (λ l. l.now) indexes.now))) }
{
    if kind == DType::UInt64 {
        naturals(alloc, indexes)
    } else {
        Integers::signed(alloc, integers(alloc, indexes)?)
    }
}

fn texts(alloc: Global, indexes: &[&Labels]) -> Result<Items<TextBytes>, AllocError>
    ensures { IfOk result (λ ts. ts ≡ map alignment.text_of (all_labels (map (λ l. l.now) indexes.now))) }
{
    let mut out = Items::new(alloc);
    push_all_texts(alloc, &mut out, indexes)?;
    Ok(out)
}

/// The labels of all in a list of the sort of another, whole numbers as those of a kind.
pub(crate) fn chained_list(
    alloc: Global,
    kind: DType,
    sort: &LabelList,
    indexes: &[&Labels],
) -> Result<LabelList, AllocError>
    ensures { IfOk result (λ l. l ≡ alignment.relisted kind sort.now (all_labels (map (λ l. l.now) indexes.now))) }
{
    match sort {
        LabelList::Numbers(_, _) => Ok(LabelList::Numbers(kind, numbers(alloc, kind, indexes)?)),
        LabelList::Times(coding, _) => {
            let times = Shared::of(alloc, integers(alloc, indexes)?)?;
            Ok(LabelList::Times(coding.deep_copy(alloc)?, times))
        }
        LabelList::Texts(_) => {
            let texts = Shared::of(alloc, texts(alloc, indexes)?)?;
            Ok(LabelList::Texts(texts))
        }
    }
}

fn index_with(alloc: Global, first: &Labels, list: LabelList) -> Result<Labels, AllocError>
    ensures { IfOk result (λ l. l ≡ record { list = list; attrs = first.now.attrs }) }
{
    let attrs = first.attrs.deep_copy(alloc)?;
    Ok(Labels { list, attrs })
}

#[tactic(auto, unfolding(xr_combination::specs::Pieces::chained_index, xr_types::specs::Results::unless))]
fn chained_index(
    alloc: Global,
    first: &Labels,
    rest: &[&Labels],
    all: &[&Labels],
) -> Result<Labels, CallFault>
    requires { map (λ l. l.now) all.now ≡ first.now ∷ map (λ l. l.now) rest.now }
    ensures { Answers (λ l. l) result (chained_index first.now (map (λ l. l.now) rest.now)) }
{
    if !all_kin(&first.list, rest) {
        return Err(CallFault::Refused(Fault::LabelKind));
    }
    let kind = common_kind(number_kind(&first.list), rest)?;
    let list = chained_list(alloc, kind, &first.list, all)?;
    let index = index_with(alloc, first, list)?;
    Ok(index)
}

/// The index of so many axes of a dimension: the labels of all one after the other, or none where none has some. It has the
/// attributes of the first, and its units where they are times.
///
/// # Errors
/// `LabelKind` where some have labels and others don't, and for labels of two kinds; then `WouldPromote` for whole numbers that
/// aren't promoted to one kind.
#[tactic(auto, unfolding(xr_combination::specs::Concat::index_along, xr_types::specs::Results::unless))]
pub fn index_along(
    alloc: Global,
    count: usize,
    indexes: &[&Labels],
) -> Result<Option<Labels>, CallFault>
    ensures { Answers (λ l. l) result (calls.index_along count (map (λ l. l.now) indexes.now)) }
{
    match indexes {
        [] => Ok(None),
        [first, rest @ ..] => {
            if indexes.len() != count {
                return Err(CallFault::Refused(Fault::LabelKind));
            }
            let index = chained_index(alloc, first, rest, indexes)?;
            Ok(Some(index))
        }
    }
}

// ---- of scalars

fn same_kind(a: DType, b: DType) -> bool
    ensures { result ≡ bytes_eq (kind_name a) (kind_name b) }
{
    a.name() == b.name()
}

fn is_same_sort(first: &Labels, other: &Labels) -> bool
    ensures { result ≡ calls.is_same_sort first.now other.now }
{
    are_kin(&first.list, &other.list)
        && same_kind(number_kind(&first.list), number_kind(&other.list))
}

fn all_same_sort(first: &Labels, others: &[&Labels]) -> bool
    ensures { result ≡ list_all (calls.is_same_sort first.now) (map (λ l. l.now) others.now) }
{
    match others {
        [] => true,
        [other, rest @ ..] => is_same_sort(first, other) && all_same_sort(first, rest),
    }
}

/// The index that the labels of scalars give, where each of so many has one, and all are of exactly one kind.
pub fn index_of_scalars(
    alloc: Global,
    count: usize,
    indexes: &[&Labels],
) -> Result<Option<Labels>, AllocError>
    ensures { IfOk result (λ l. l ≡ calls.index_of_scalars count (map (λ l. l.now) indexes.now)) }
{
    match indexes {
        [] => Ok(None),
        [first, rest @ ..] => {
            if indexes.len() != count || !all_same_sort(first, rest) {
                return Ok(None);
            }
            let list = chained_list(alloc, number_kind(&first.list), &first.list, indexes)?;
            let index = index_with(alloc, first, list)?;
            Ok(Some(index))
        }
    }
}
