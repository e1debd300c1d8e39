//! Lists of labels, joined.
ghost use Rattle.std.specs.Prelude.{◌≡◌, ◌≤◌, map, not, length, All, IfOk};
ghost use Rattle.std.specs.List.{filter, list_all, list_any};
ghost use Rattle.xr_types.specs.Results.{Answers};
ghost use Rattle.xr_arrays.specs.Labels.{labels_of, repeats};
ghost use Rattle.xr_defs.specs.Building as building;
ghost use Rattle.xr_operations.specs.Alignment.{holds_label, is_empty, is_exact, last_of, outer_of, relisted};
ghost use Rattle.align_join.specs.Joined.{IsFew, chosen_list, joined_list, joined_lists};

use crate::key::Key;
use crate::{kind, label, ordered, relist, source};
use label_index::Index;
use std::alloc::{AllocError, Global};
use xr_types::{CallFault, DType, Fault, How, Items, LabelList, NoMemory, Shared};

/// Whether all lists are equal.
fn all_same(first: &LabelList, others: &[&LabelList]) -> bool
    ensures { result ≡ list_all (building.same_labels (labels_of first.now)) (map labels_of (map (λ l. l.now) others.now)) }
{
    for list in others {
        if !label::same_labels(first, list) {
            return false;
        }
    }
    true
}

/// Whether a label stands twice in a list.
fn repeats(alloc: Global, list: &LabelList) -> Result<bool, NoMemory>
    requires { IsFew list.now }
    ensures { IfOk result (λ b. b ≡ repeats (labels_of list.now)) }
{
    let index = Index::over(alloc, list)?;
    Ok(!index.is_unique())
}

/// Whether a label stands twice in one of the lists.
fn any_repeats(alloc: Global, lists: &[&LabelList]) -> Result<bool, NoMemory>
    requires { All (λ l. IsFew l.now) lists.now }
    ensures { IfOk result (λ b. b ≡ list_any repeats (map labels_of (map (λ l. l.now) lists.now))) }
{
    for list in lists {
        if repeats(alloc, list)? {
            return Ok(true);
        }
    }
    Ok(false)
}

/// The labels that all have, in the order of the first.
fn inner(alloc: Global, first: &LabelList, others: &[&LabelList]) -> Result<Vec<Key>, NoMemory>
    requires { All (λ l. IsFew l.now) others.now }
    ensures { IfOk result (λ v. v.items ≡ filter (λ l. list_all (λ ms. holds_label ms l) (map labels_of (map (λ l. l.now) others.now))) (labels_of first.now)) }
{
    let mut labels = label::labels(alloc, first)?;
    for list in others {
        labels = source::keep(alloc, labels, list)?;
    }
    Ok(labels)
}

fn is_empty(list: &LabelList) -> bool
    ensures { result ≡ is_empty (labels_of list.now) }
{
    match list {
        LabelList::Numbers(_, numbers) => numbers.is_empty(),
        LabelList::Times(_, times) => times.as_slice().is_empty(),
        LabelList::Texts(texts) => texts.as_slice().is_empty(),
    }
}

/// The lists that aren't empty.
fn not_empty<'a>(alloc: Global, lists: &[&'a LabelList]) -> Result<Vec<&'a LabelList>, AllocError>
    ensures { IfOk result (λ v. map labels_of (map (λ l. l.now) v.items) ≡ filter (λ ms. not (is_empty ms)) (map labels_of (map (λ l. l.now) lists.now))) }
{
    let mut full = Vec::new(alloc);
    for list in lists {
        if !is_empty(list) {
            full.push(*list)?;
        }
    }
    Ok(full)
}

/// The labels of lists that aren't empty, ascending, or as they stand where all are equal.
fn outer_of(
    alloc: Global,
    kind: DType,
    sort: &LabelList,
    lists: &[&LabelList],
) -> Result<LabelList, AllocError>
    ensures { IfOk result (λ l. l ≡ relisted kind sort.now (outer_of (map labels_of (map (λ l. l.now) lists.now)))) }
{
    match lists {
        [] => relist::of_labels(alloc, kind, sort, &[]),
        [first, others @ ..] => {
            if all_same(first, others) {
                return relist::of_list(alloc, kind, sort, first);
            }
            let labels = ordered::ascending(alloc, lists)?;
            relist::of_labels(alloc, kind, sort, labels.as_slice())
        }
    }
}

/// The labels of all lists, ascending, or those of the lists that aren't empty where these are equal.
fn outer(
    alloc: Global,
    kind: DType,
    sort: &LabelList,
    lists: &[&LabelList],
) -> Result<LabelList, AllocError>
    ensures { IfOk result (λ l. l ≡ relisted kind sort.now (outer_of (filter (λ ms. not (is_empty ms)) (map labels_of (map (λ l. l.now) lists.now))))) }
{
    let full = not_empty(alloc, lists)?;
    outer_of(alloc, kind, sort, full.as_slice())
}

/// The last list.
fn last_of<'a>(first: &'a LabelList, others: &[&'a LabelList]) -> &'a LabelList
    ensures { labels_of result.now ≡ last_of (labels_of first.now) (map labels_of (map (λ l. l.now) others.now)) }
{
    let mut last = first;
    for list in others {
        last = *list;
    }
    last
}

/// Lists that aren't equal, joined.
fn chosen_list(
    alloc: Global,
    how: How,
    kind: DType,
    lists: &[&LabelList],
) -> Result<LabelList, NoMemory>
    requires { All (λ l. IsFew l.now) lists.now }
    ensures { IfOk result (λ l. l ≡ chosen_list how kind (map (λ l. l.now) lists.now)) }
{
    let [first, others @ ..] = lists else {
        return Ok(LabelList::Texts(Shared::of(alloc, Items::new(alloc))?));
    };
    match how {
        How::Exact | How::Left => Ok(relist::of_list(alloc, kind, first, first)?),
        How::Right => Ok(relist::of_list(alloc, kind, first, last_of(first, others))?),
        How::Inner => {
            let labels = inner(alloc, first, others)?;
            Ok(relist::of_labels(alloc, kind, first, labels.as_slice())?)
        }
        How::Outer => Ok(outer(alloc, kind, first, lists)?),
    }
}

fn is_exact(how: How) -> bool
    ensures { result ≡ is_exact how }
{
    match how {
        How::Exact => true,
        How::Inner | How::Outer | How::Left | How::Right => false,
    }
}

/// Lists of one kind, joined.
#[tactic(auto, unfolding(xr_operations::specs::Alignment::joined_labels, xr_types::specs::Results::unless))]
fn joined_list(
    alloc: Global,
    how: How,
    kind: DType,
    lists: &[&LabelList],
) -> Result<LabelList, CallFault>
    requires { All (λ l. IsFew l.now) lists.now }
    ensures { Answers (λ l. l) result (joined_list how kind (map (λ l. l.now) lists.now)) }
{
    let [first, others @ ..] = lists else {
        return Ok(LabelList::Texts(Shared::of(alloc, Items::new(alloc))?));
    };
    if all_same(first, others) {
        return Ok(relist::of_list(alloc, kind, first, first)?);
    }
    if is_exact(how) {
        return Err(CallFault::Refused(Fault::NotAligned));
    }
    if any_repeats(alloc, lists)? {
        return Err(CallFault::Refused(Fault::NotUnique));
    }
    Ok(chosen_list(alloc, how, kind, lists)?)
}

/// Lists of labels, joined: one with labels of the kind that all have, in the sort of the first.
#[tactic(auto, unfolding(xr_types::specs::Results::unless))]
pub fn joined_lists(alloc: Global, how: How, lists: &[&LabelList]) -> Result<LabelList, CallFault>
    requires { All (λ l. IsFew l.now) lists.now }
    ensures { Answers (λ l. l) result (joined_lists how (map (λ l. l.now) lists.now)) }
{
    let [first, others @ ..] = lists else {
        return Ok(LabelList::Texts(Shared::of(alloc, Items::new(alloc))?));
    };
    if !kind::all_kin(first, others) {
        return Err(CallFault::Refused(Fault::LabelKind));
    }
    let kind = kind::common_kind(kind::number_kind(first), others)?;
    joined_list(alloc, how, kind, lists)
}
