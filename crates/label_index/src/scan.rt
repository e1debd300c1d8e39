//! How the labels of an axis are ranked: as they stand where they ascend or descend, else by a sort.
ghost use Rattle.std.specs.Prelude.{◌≡◌, ◌<◌, ◌≤◌, ◌^◌, ◌-◌, ℕ, ℤ, pos, [], length, map, slice_index_or, IfOk, IfSome, None, true, false};
ghost use Rattle.std.specs.List.{range_with_len};
ghost use Rattle.std.specs.List.Sorted.{IsPermutation, IsSortedBy};
ghost use Rattle.std.specs.Ordering.{is_lt, int_cmp, nat_cmp};
ghost use Rattle.std.specs.Cmp.Lexicographic.{slice_cmp};
ghost use Rattle.xr_arrays.specs.Labels.{labels_of, label_at, each_next, is_ascending, is_descending};
ghost use Rattle.label_index.specs.Ranks.{next_way, IsRanked};

use crate::label;
use crate::rank::Ranks;
use std::alloc::{AllocError, Global};
use std::cmp::Ordering;
use xr_types::{Integers, IntegersForm, LabelList, TextBytes};

/// Whether the label at a position is at least the one before; where they are to fall, at most.
#[tactic(auto, using(xr_arrays::proofs::LabelLaws::at_least_is))]
fn steps(list: &LabelList, at: usize, falling: bool) -> bool
    requires from { 0 < at }
    requires within { at < length (labels_of list.now) }
    ensures { result ≡ next_way falling (label_at (labels_of list.now) (at - 1)) (label_at (labels_of list.now) at) }
{
    let order = label::compare_two(list, at - 1, at);
    if falling {
        order.is_ge()
    } else {
        order.is_le()
    }
}

/// Whether each label is at most the next; where they are to fall, at least the next.
pub fn is_chain(list: &LabelList, falling: bool) -> bool
    ensures { result ≡ each_next (next_way falling) (labels_of list.now) }
{
    for at in 1..label::count(list) {
        if !steps(list, at, falling) {
            return false;
        }
    }
    true
}

/// The positions below a count.
#[tactic(auto, using(crate::proofs::Permuting::range_push))]
fn places(alloc: Global, count: usize) -> Result<Vec<u32>, AllocError>
    requires { count < 2 ^ 32 }
    ensures { IfOk result (λ v. v.items ≡ range_with_len 0 count) }
{
    let mut all = Vec::with_capacity(alloc, count)?;
    for at in 0..count {
        all.push(at as u32)?;
    }
    Ok(all)
}

/// The number at a place, or 0 past the end.
fn number_at(numbers: &[i64], at: u32) -> i64
    ensures { result ≡ slice_index_or numbers.now at (pos 0) }
{
    match numbers.get(at as usize) {
        Some(number) => *number,
        None => 0,
    }
}

/// The number without a sign at a place, or 0 past the end.
#[tactic(auto, using(crate::proofs::Numbers::natural_at))]
fn natural_at(numbers: &[u64], at: u32) -> u64
    ensures { pos result ≡ slice_index_or (map pos numbers.now) at (pos 0) }
{
    match numbers.get(at as usize) {
        Some(number) => *number,
        None => 0,
    }
}

/// The text at a place, or no bytes past the end.
fn text_at(texts: &[TextBytes], at: u32) -> &[u8]
    ensures { result.now ≡ slice_index_or texts.now at [] }
{
    match texts.get(at as usize) {
        Some(text) => text.as_bytes(),
        None => &[],
    }
}

/// Puts places in the order of their numbers.
fn sort_numbers(order: &mut Vec<u32>, numbers: &[i64])
    ensures permutation { IsPermutation order.old.items order.new.items }
    ensures sorted { IsSortedBy (λ p q. is_lt (int_cmp (slice_index_or numbers.now p (pos 0)) (slice_index_or numbers.now q (pos 0)))) order.new.items }
{
    order.sort_unstable_by(|a: &u32, b: &u32| number_at(numbers, *a).cmp(&number_at(numbers, *b)));
}

/// How the numbers at two places stand to each other.
fn compare_naturals(numbers: &[u64], at: u32, other: u32) -> Ordering
    ensures { result ≡ int_cmp (slice_index_or (map pos numbers.now) at (pos 0)) (slice_index_or (map pos numbers.now) other (pos 0)) }
{
    natural_at(numbers, at).cmp(&natural_at(numbers, other))
}

/// Puts places in the order of their numbers, which have no sign.
fn sort_naturals(order: &mut Vec<u32>, numbers: &[u64])
    ensures permutation { IsPermutation order.old.items order.new.items }
    ensures sorted { IsSortedBy (λ p q. is_lt (int_cmp (slice_index_or (map pos numbers.now) p (pos 0)) (slice_index_or (map pos numbers.now) q (pos 0)))) order.new.items }
{
    order.sort_unstable_by(|a: &u32, b: &u32| compare_naturals(numbers, *a, *b));
}

/// Puts places in the order of their whole numbers.
fn sort_integers(order: &mut Vec<u32>, numbers: &Integers)
    ensures permutation { IsPermutation order.old.items order.new.items }
    ensures sorted { IsSortedBy (λ p q. is_lt (int_cmp (slice_index_or numbers.now p (pos 0)) (slice_index_or numbers.now q (pos 0)))) order.new.items }
{
    match numbers.form() {
        IntegersForm::Signed(numbers) => sort_numbers(order, numbers),
        IntegersForm::Unsigned(numbers) => sort_naturals(order, numbers),
    }
}

/// Puts places in the order of their texts.
fn sort_texts(order: &mut Vec<u32>, texts: &[TextBytes])
    ensures permutation { IsPermutation order.old.items order.new.items }
    ensures sorted { IsSortedBy (λ p q. is_lt (slice_cmp nat_cmp (slice_index_or texts.now p []) (slice_index_or texts.now q []))) order.new.items }
{
    order.sort_unstable_by(|a: &u32, b: &u32| text_at(texts, *a).cmp(text_at(texts, *b)));
}

/// The ranks where the labels ascend or descend.
pub fn in_order(list: &LabelList) -> Option<Ranks>
    ensures ranked { IfSome result (IsRanked (labels_of list.now)) }
    ensures up { result ≡ None → is_ascending (labels_of list.now) ≡ false }
    ensures down { result ≡ None → is_descending (labels_of list.now) ≡ false }
{
    if is_chain(list, false) {
        return Some(Ranks::Rising);
    }
    if is_chain(list, true) {
        return Some(Ranks::Falling);
    }
    None
}

/// The ranks where the labels neither ascend nor descend, by a sort.
pub fn sorted(alloc: Global, list: &LabelList) -> Result<Ranks, AllocError>
    requires most { length (labels_of list.now) < 2 ^ 32 }
    requires up { is_ascending (labels_of list.now) ≡ false }
    requires down { is_descending (labels_of list.now) ≡ false }
    ensures { IfOk result (IsRanked (labels_of list.now)) }
{
    let mut order = places(alloc, label::count(list))?;
    match list {
        LabelList::Numbers(_, numbers) => sort_integers(&mut order, numbers),
        LabelList::Times(_, times) => sort_numbers(&mut order, times.as_slice()),
        LabelList::Texts(texts) => sort_texts(&mut order, texts.as_slice()),
    }
    Ok(Ranks::Sorted(order))
}
