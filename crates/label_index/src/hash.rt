//! A hash table of the positions of scattered numbers, six bytes a number. A slot holds a position and six bits of
//! the number's hash. The table is taken where each number is then found at its own position, so that no number
//! stands twice and a search that finds none is right.
ghost use Rattle.std.specs.Prelude.{◌≡◌, ◌&&◌, nat_lt, ◌<◌, ◌≤◌, ◌^◌, ◌-◌, ◌+◌, ℕ, pos, length, min, take, drop, slice_index_or, true, false, IfOk, IfSome, Some};
ghost use Rattle.std.specs.Ordering.{int_eq};
ghost use Rattle.xr_arrays.specs.Labels.{labels_of, place, is_kin};
ghost use Rattle.label_index.specs.Slots.{numbers_of, number_of, shown, hash, mark, home, holds, seek, look, FindsEach, IsHashed};

use crate::label;
use std::alloc::{AllocError, Global};
use xr_types::{Fault, IntegersForm, Label, LabelList};

/// The hash of a number.
#[tactic(auto, unfolding(crate::specs::Slots::hash))]
fn hash(number: i128) -> u64
    ensures value { result ≡ hash number }
{
    let low = (number.unsigned_abs() % (1 << 64)) as u64;
    low.wrapping_mul(11_400_714_819_323_198_485)
}

/// What tells most numbers apart that are sought in the same slots.
#[tactic(auto, unfolding(crate::specs::Slots::mark))]
fn mark(number: i128) -> u32
    ensures value { result ≡ mark number }
    ensures bound { result < 128 }
{
    64 + ((hash(number) >> 26) % 64) as u32
}

/// The slot at which the search for a number begins.
#[tactic(auto, unfolding(crate::specs::Slots::home))]
fn home(number: i128, count: usize) -> usize
    requires { count < 2 ^ 27 }
    ensures value { result ≡ home number count }
    ensures bound { result ≤ count - 256 }
{
    let last = count.saturating_sub(256) as u64;
    let scaled = ((hash(number) >> 32) * last) >> 32;
    scaled.min(last) as usize
}

/// How many numbers there are.
#[tactic(auto, using(crate::proofs::Numbers::natural_count))]
fn count(numbers: IntegersForm<'_>) -> usize
    ensures { result ≡ length (shown numbers.entry) }
{
    match numbers {
        IntegersForm::Signed(numbers) => numbers.len(),
        IntegersForm::Unsigned(numbers) => numbers.len(),
    }
}

/// The number at a position.
#[tactic(auto, using(crate::proofs::Numbers::natural_at, crate::proofs::Numbers::natural_count))]
fn number_at(numbers: IntegersForm<'_>, at: usize) -> i128
    requires { at < length (shown numbers) }
    ensures { result ≡ slice_index_or (shown numbers.entry) at (pos 0) }
{
    match numbers {
        IntegersForm::Signed(numbers) => i128::from(numbers[at]),
        IntegersForm::Unsigned(numbers) => i128::from(numbers[at]),
    }
}

/// Whether there is such a position, and it holds a number.
fn is_at(numbers: IntegersForm<'_>, at: usize, number: i128) -> bool
    ensures { result ≡ (nat_lt at (length (shown numbers.entry)) && int_eq (slice_index_or (shown numbers.entry) at (pos 0)) number) }
{
    at < count(numbers) && number_at(numbers, at) == number
}

/// Whether a slot holds the position of a number of this mark.
fn holds(numbers: IntegersForm<'_>, number: i128, wanted: u32, slot: u32) -> bool
    requires { wanted ≡ mark number }
    ensures { result ≡ holds (shown numbers.entry) number slot }
{
    if slot >> 25 != wanted {
        return false;
    }
    is_at(numbers, (slot % (1 << 25)) as usize, number)
}

/// The position in the first slot that holds a number's, before an empty one.
fn seek(numbers: IntegersForm<'_>, number: i128, wanted: u32, slots: &[u32]) -> Option<u32>
    requires { wanted ≡ mark number }
    ensures { result ≡ seek (holds (shown numbers.entry) number) slots.now }
{
    for slot in slots {
        if *slot == 0 {
            return None;
        }
        if holds(numbers, number, wanted, *slot) {
            return Some(*slot % (1 << 25));
        }
    }
    None
}

/// The slots in which a number is sought, from the first on.
fn reach(slots: &[u32], from: usize) -> &[u32]
    requires { from ≤ length slots.now }
    ensures { result.now ≡ take 256 (drop from slots.now) }
{
    let (_, rest) = slots.split_at(from);
    let (near, _) = rest.split_at(256.min(rest.len()));
    near
}

/// The position of a number.
#[tactic(auto, unfolding(crate::specs::Slots::look))]
fn look(numbers: IntegersForm<'_>, slots: &[u32], number: i128) -> Option<u32>
    requires { length slots.now < 2 ^ 27 }
    ensures { result ≡ look (shown numbers.entry) slots.now number }
{
    let near = reach(slots, home(number, slots.len()));
    seek(numbers, number, mark(number), near)
}

/// Whether the number at a position is found there.
fn finds(numbers: IntegersForm<'_>, slots: &[u32], at: usize) -> bool
    requires few { length slots.now < 2 ^ 27 }
    requires within { at < length (shown numbers) }
    ensures { result ≡ true → look (shown numbers.entry) slots.now (slice_index_or (shown numbers.entry) at (pos 0)) ≡ Some at }
{
    match look(numbers, slots, number_at(numbers, at)) {
        Some(found) => found as usize == at,
        None => false,
    }
}

/// Whether each number is found at its own position.
fn finds_each(numbers: IntegersForm<'_>, slots: &[u32]) -> bool
    requires { length slots.now < 2 ^ 27 }
    ensures { result ≡ true → FindsEach (shown numbers.entry) slots.now }
{
    for at in 0..count(numbers) {
        if !finds(numbers, slots, at) {
            return false;
        }
    }
    true
}

/// Puts the position of a number into the first empty slot of those in which it is sought, if there is one.
fn put(slots: &mut [u32], number: i128, at: u32) -> bool
    requires few { length slots.old < 2 ^ 27 }
    requires most { at < 2 ^ 25 }
    ensures { length slots.new ≡ length slots.old }
{
    let from = home(number, slots.len());
    for place in from..slots.len().min(from + 256) {
        if slots[place] == 0 {
            slots[place] = mark(number) * (1 << 25) + at;
            return true;
        }
    }
    false
}

/// Puts the position of each number into a slot, unless too many are sought in the same ones.
fn put_all(slots: &mut [u32], numbers: IntegersForm<'_>) -> bool
    requires few { length slots.old < 2 ^ 27 }
    requires most { length (shown numbers) ≤ 2 ^ 25 }
    ensures { length slots.new ≡ length slots.old }
{
    for at in 0..count(numbers) {
        if !put(slots, number_at(numbers, at), at as u32) {
            return false;
        }
    }
    true
}

/// Slots that find each number, or none where a number stands twice or too many are sought in the same slots.
fn hashed(alloc: Global, numbers: IntegersForm<'_>) -> Result<Option<Vec<u32>>, AllocError>
    requires { length (shown numbers) ≤ 2 ^ 25 }
    ensures { IfOk result (λ o. IfSome o (λ v. FindsEach (shown numbers.entry) v.items × (length v.items < 2 ^ 27))) }
{
    let mut slots = Vec::new(alloc);
    slots.resize(count(numbers) + count(numbers) / 2 + 256, 0)?;
    if put_all(slots.as_mut_slice(), numbers) && finds_each(numbers, slots.as_slice()) {
        return Ok(Some(slots));
    }
    Ok(None)
}

/// Slots that find each label of a list, if it has numbers or times, of which none stands twice.
pub fn slots_of(alloc: Global, list: &LabelList) -> Result<Option<Vec<u32>>, AllocError>
    requires { length (labels_of list.now) ≤ 2 ^ 25 }
    ensures { IfOk result (λ o. IfSome o (λ v. IsHashed list.now v.items)) }
{
    match list {
        LabelList::Numbers(_, _) | LabelList::Times(_, _) => hashed(alloc, label::numbers(list)),
        LabelList::Texts(_) => Ok(None),
    }
}

/// The one position that holds a label.
pub fn find(list: &LabelList, slots: &[u32], label: &Label) -> Result<u64, Fault>
    requires hashed { IsHashed list.now slots.now }
    requires kin { is_kin list.now label.now ≡ true }
    ensures { result ≡ place (labels_of list.now) label.now }
{
    match look(label::numbers(list), slots, label::number(label)) {
        Some(at) => Ok(u64::from(at)),
        None => Err(Fault::NoSuchLabel),
    }
}
