//! Searches among ranks.
ghost use Rattle.std.specs.Prelude.{◌≡◌, ◌<◌, ◌≤◌, ◌+◌, ◌-◌, ◌&&◌, nat_lt, not, ℕ, length, true, false};
ghost use Rattle.xr_arrays.specs.Labels.{labels_of, label_at, order, same, place, repeats};
ghost use Rattle.label_index.specs.Ranks.{position, HasRank, IsRanked, ranked, stands_before};

use crate::rank::Ranks;
use crate::{label, rank};
use xr_types::{Fault, Label, LabelList};

/// Whether the label at a rank stands before another label; with `past`, whether it isn't behind it.
fn is_before(list: &LabelList, ranks: &Ranks, at: usize, label: &Label, past: bool) -> bool
    requires ranked { IsRanked (labels_of list.now) ranks.now }
    requires within { at < length (labels_of list.now) }
    ensures { result ≡ stands_before past (ranked (labels_of list.now) ranks.now at) label.now }
{
    let order = label::compare(list, rank::position(ranks, label::count(list), at), label);
    if past { order.is_le() } else { order.is_lt() }
}

/// How many ranks have labels that stand before a label; with `past`, that aren't behind it.
pub fn first_rank(list: &LabelList, ranks: &Ranks, label: &Label, past: bool) -> usize
    requires { IsRanked (labels_of list.now) ranks.now }
    ensures bound { result ≤ length (labels_of list.now) }
    ensures before { (k : ℕ) → k < result → stands_before past (ranked (labels_of list.now) ranks.now k) label.now ≡ true }
    ensures behind { (k : ℕ) → result ≤ k → k < length (labels_of list.now) → stands_before past (ranked (labels_of list.now) ranks.now k) label.now ≡ false }
{
    let mut low = 0;
    let mut high = label::count(list);
    while low < high {
        let middle = low + (high - low) / 2;
        if is_before(list, ranks, middle, label, past) {
            low = middle + 1;
        } else {
            high = middle;
        }
    }
    low
}

/// Whether there is such a rank and its label is this one.
fn holds(list: &LabelList, ranks: &Ranks, at: usize, label: &Label) -> bool
    requires { IsRanked (labels_of list.now) ranks.now }
    ensures { result ≡ (nat_lt at (length (labels_of list.now)) && same (ranked (labels_of list.now) ranks.now at) label.now) }
{
    let count = label::count(list);
    at < count && label::compare(list, rank::position(ranks, count, at), label).is_eq()
}

/// The one position that holds a label.
pub fn find(list: &LabelList, ranks: &Ranks, label: &Label) -> Result<u64, Fault>
    requires { IsRanked (labels_of list.now) ranks.now }
    ensures { result ≡ place (labels_of list.now) label.now }
{
    let count = label::count(list);
    let low = first_rank(list, ranks, label, false);
    if !holds(list, ranks, low, label) {
        return Err(Fault::NoSuchLabel);
    }
    if holds(list, ranks, low + 1, label) {
        return Err(Fault::NotUnique);
    }
    Ok(rank::position(ranks, count, low) as u64)
}

/// Whether the label at a rank is that at the rank before.
fn is_again(list: &LabelList, ranks: &Ranks, at: usize) -> bool
    requires ranked { IsRanked (labels_of list.now) ranks.now }
    requires from { 0 < at }
    requires within { at < length (labels_of list.now) }
    ensures { result ≡ same (ranked (labels_of list.now) ranks.now (at - 1)) (ranked (labels_of list.now) ranks.now at) }
{
    let count = label::count(list);
    let before = rank::position(ranks, count, at - 1);
    label::compare_two(list, before, rank::position(ranks, count, at)).is_eq()
}

/// Whether no label stands twice.
pub fn is_distinct(list: &LabelList, ranks: &Ranks) -> bool
    requires { IsRanked (labels_of list.now) ranks.now }
    ensures { result ≡ not (repeats (labels_of list.now)) }
{
    for at in 1..label::count(list) {
        if is_again(list, ranks, at) {
            return false;
        }
    }
    true
}
