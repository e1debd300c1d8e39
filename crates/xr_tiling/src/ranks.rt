//! The ranks of datasets along a dimension, by their first labels.
ghost use Rattle.std.specs.Prelude.{◌≡◌, ◌≤◌, length, map, IfOk};
ghost use Rattle.xr_arrays.specs.Labels.{below, is_ascending, is_descending, labels_of};
ghost use Rattle.xr_operations.specs.Alignment.{holds_label};
ghost use Rattle.xr_combination.specs.Combine as calls;

use align_join::{Key, count, label_at};
use label_index::is_chain;
use std::alloc::{AllocError, Global};
use xr_types::{Items, Label, LabelList};

// ---- the direction of labels

/// Whether the labels ascend.
pub(crate) fn ascends(list: &LabelList) -> bool
    ensures { result ≡ is_ascending (labels_of list.now) }
{
    is_chain(list, false)
}

/// Whether the labels descend.
pub(crate) fn descends(list: &LabelList) -> bool
    ensures { result ≡ is_descending (labels_of list.now) }
{
    is_chain(list, true)
}

/// Whether the labels of all ascend.
pub(crate) fn all_ascend(lists: &[&LabelList]) -> bool
    ensures { result ≡ calls.all_ascend (map (λ l. l.now) lists.now) }
{
    match lists {
        [] => true,
        [list, rest @ ..] => ascends(list) && all_ascend(rest),
    }
}

/// Whether the labels of all descend.
pub(crate) fn all_descend(lists: &[&LabelList]) -> bool
    ensures { result ≡ calls.all_descend (map (λ l. l.now) lists.now) }
{
    match lists {
        [] => true,
        [list, rest @ ..] => descends(list) && all_descend(rest),
    }
}

// ---- the first labels

// Where there is none, the number 0 stands for it.
#[tactic(auto, using(crate::proofs::Ranking::none_first))]
fn first_label(alloc: Global, list: &LabelList) -> Result<Key, AllocError>
    ensures { IfOk result (λ k. k ≡ calls.first_label list.now) }
{
    if count(list) == 0 {
        return Ok(Key::of(Label::Int(0)));
    }
    label_at(alloc, list, 0)
}

fn heads(alloc: Global, lists: &[&LabelList]) -> Result<Items<Key>, AllocError>
    ensures { IfOk result (λ keys. keys ≡ calls.heads (map (λ l. l.now) lists.now)) }
{
    let mut keys = Items::new(alloc);
    for list in lists {
        keys.push(first_label(alloc, list)?)?;
    }
    Ok(keys)
}

fn holds(keys: &[&Key], key: &Key) -> bool
    ensures { result ≡ holds_label (map (λ k. k.now) keys.now) key.now }
{
    match keys {
        [] => false,
        [other, rest @ ..] => **other == *key || holds(rest, key),
    }
}

fn distinct_labels<'a>(alloc: Global, heads: &'a [Key]) -> Result<Items<&'a Key>, AllocError>
    ensures { IfOk result (λ keys. map (λ k. k.now) keys ≡ calls.distinct_labels heads.now) }
{
    let mut distinct = Items::new(alloc);
    for head in heads {
        if !holds(distinct.as_slice(), head) {
            distinct.push(head)?;
        }
    }
    Ok(distinct)
}

// ---- ranks

fn is_below(key: &Key, other: &Key) -> bool
    ensures { result ≡ below key.now other.now }
{
    key.cmp(other).is_lt()
}

fn comes_before(rises: bool, key: &Key, other: &Key) -> bool
    ensures { result ≡ calls.comes_before rises key.now other.now }
{
    if rises {
        is_below(key, other)
    } else {
        is_below(other, key)
    }
}

fn rank_of(rises: bool, distinct: &[&Key], key: &Key) -> usize
    ensures rank { result ≡ calls.rank_of rises (map (λ k. k.now) distinct.now) key.now }
    ensures within { result ≤ length distinct.now }
{
    match distinct {
        [] => 0,
        [other, rest @ ..] => {
            let behind = rank_of(rises, rest, key);
            if comes_before(rises, other, key) {
                behind + 1
            } else {
                behind
            }
        }
    }
}

fn ranks_of(
    alloc: Global,
    rises: bool,
    distinct: &[&Key],
    heads: &[Key],
) -> Result<Items<u64>, AllocError>
    ensures { IfOk result (λ ranks. ranks ≡ map (calls.rank_of rises (map (λ k. k.now) distinct.now)) heads.now) }
{
    let mut ranks = Items::new(alloc);
    for head in heads {
        ranks.push(rank_of(rises, distinct, head) as u64)?;
    }
    Ok(ranks)
}

/// Where datasets stand along a dimension.
#[derive(Drop)]
pub(crate) struct Ranking {
    /// Whether the labels of all ascend.
    pub rises: bool,
    /// How many places there are.
    pub extent: u64,
    /// The place of each dataset.
    pub ranks: Items<u64>,
}

/// Where the datasets of these labels stand: ranked by their first labels, of which equal ones count once.
pub(crate) fn ranked(alloc: Global, lists: &[&LabelList]) -> Result<Ranking, AllocError>
    ensures rises { IfOk result (λ r. r.rises ≡ calls.all_ascend (map (λ l. l.now) lists.now)) }
    ensures extent { IfOk result (λ r. r.extent ≡ calls.extent (map (λ l. l.now) lists.now)) }
    ensures ranks { IfOk result (λ r. r.ranks ≡ calls.ranks (map (λ l. l.now) lists.now)) }
{
    let heads = heads(alloc, lists)?;
    let distinct = distinct_labels(alloc, heads.as_slice())?;
    let rises = all_ascend(lists);
    let ranks = ranks_of(alloc, rises, distinct.as_slice(), heads.as_slice())?;
    Ok(Ranking {
        rises,
        extent: distinct.as_slice().len() as u64,
        ranks,
    })
}
