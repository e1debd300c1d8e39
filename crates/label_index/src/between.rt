//! The positions between two labels.
ghost use Rattle.std.specs.Prelude.{◌≡◌, ◌≢◌, ◌<◌, ◌≤◌, ◌-◌, ◌&&◌, ◌||◌, nat_le, nat_lt, ℕ, length, true, false, is_some, Some, Ok, Err, MatchResult, IfOk};
ghost use Rattle.std.specs.List.{range_with_len};
ghost use Rattle.std.specs.Option.{option_copied};
ghost use Rattle.xr_arrays.specs.Labels.{labels_of, label_at, is_from, is_to, is_neither, is_kin_end, direction_of, ordered_slice};
ghost use Rattle.xr_arrays.specs.declared.search.Direction.TheVariants.{Neither};
ghost use Rattle.label_index.specs.Ranks.{direction, IsRanked};

use crate::label;
use crate::rank::Ranks;
use crate::search::first_rank;
use xr_arrays::Span;
use xr_types::{Fault, Label, LabelList};

/// Whether an end is of the list's kind, if there is one.
pub fn is_kin_end(list: &LabelList, end: Option<&Label>) -> bool
    ensures { result ≡ is_kin_end list.now (option_copied end.entry) }
{
    match end {
        Some(label) => label::is_kin(list, label),
        None => true,
    }
}

/// The first position whose label isn't before a label.
pub fn start(list: &LabelList, ranks: &Ranks, from: &Label) -> usize
    requires ranked { IsRanked (labels_of list.now) ranks.now }
    requires way { direction ranks.now ≢ Neither }
    ensures bound { result ≤ length (labels_of list.now) }
    ensures cut { (p : ℕ) → p < length (labels_of list.now) → is_from (direction ranks.now) (Some from.now) (label_at (labels_of list.now) p) ≡ nat_le result p }
{
    match ranks {
        Ranks::Falling => label::count(list) - first_rank(list, ranks, from, true),
        Ranks::Rising => first_rank(list, ranks, from, false),
        Ranks::Sorted(_) => 0,
    }
}

/// The first position whose label is past a label.
pub fn end(list: &LabelList, ranks: &Ranks, to: &Label) -> usize
    requires ranked { IsRanked (labels_of list.now) ranks.now }
    requires way { direction ranks.now ≢ Neither }
    ensures bound { result ≤ length (labels_of list.now) }
    ensures cut { (p : ℕ) → p < length (labels_of list.now) → is_to (direction ranks.now) (Some to.now) (label_at (labels_of list.now) p) ≡ nat_lt p result }
{
    match ranks {
        Ranks::Falling => label::count(list) - first_rank(list, ranks, to, false),
        Ranks::Rising => first_rank(list, ranks, to, true),
        Ranks::Sorted(_) => 0,
    }
}

/// The positions from one to before another.
pub fn span(from: usize, to: usize) -> Span
    ensures positions { range_with_len result.first result.length ≡ range_with_len from (to - from) }
    ensures empty { result.length ≡ 0 → result.first ≡ 0 }
    ensures length { result.length ≡ to - from }
{
    if from < to {
        Span {
            first: from as u64,
            length: (to - from) as u64,
        }
    } else {
        Span {
            first: 0,
            length: 0,
        }
    }
}

/// The first position that isn't before the first end.
fn start_of(list: &LabelList, ranks: &Ranks, from: Option<&Label>) -> usize
    requires ranked { IsRanked (labels_of list.now) ranks.now }
    requires way { (is_neither (direction ranks.now) && is_some from) ≡ false }
    ensures cut { (p : ℕ) → p < length (labels_of list.now) → is_from (direction ranks.now) (option_copied from.entry) (label_at (labels_of list.now) p) ≡ nat_le result p }
{
    match from {
        Some(label) => start(list, ranks, label),
        None => 0,
    }
}

/// The first position past the last end.
fn end_of(list: &LabelList, ranks: &Ranks, to: Option<&Label>) -> usize
    requires ranked { IsRanked (labels_of list.now) ranks.now }
    requires way { (is_neither (direction ranks.now) && is_some to) ≡ false }
    ensures bound { result ≤ length (labels_of list.now) }
    ensures cut { (p : ℕ) → p < length (labels_of list.now) → is_to (direction ranks.now) (option_copied to.entry) (label_at (labels_of list.now) p) ≡ nat_lt p result }
{
    match to {
        Some(label) => end(list, ranks, label),
        None => label::count(list),
    }
}

/// Whether there is an end, and the labels have no direction.
fn lacks_order(ranks: &Ranks, from: Option<&Label>, to: Option<&Label>) -> bool
    ensures { result ≡ (is_neither (direction ranks.now) && (is_some from.entry || is_some to.entry)) }
{
    matches!(ranks, Ranks::Sorted(_)) && (from.is_some() || to.is_some())
}

/// The positions between two ends, of the list's kind.
pub fn slice(
    list: &LabelList,
    ranks: &Ranks,
    from: Option<&Label>,
    to: Option<&Label>,
) -> Result<Span, Fault>
    requires { IsRanked (labels_of list.now) ranks.now }
    ensures positions { MatchResult result (λ s. ordered_slice (labels_of list.now) (option_copied from.entry) (option_copied to.entry) ≡ Ok (range_with_len s.first s.length)) (λ f. ordered_slice (labels_of list.now) (option_copied from.entry) (option_copied to.entry) ≡ Err f) }
    ensures empty { IfOk result (λ s. s.length ≡ 0 → s.first ≡ 0) }
{
    if lacks_order(ranks, from, to) {
        return Err(Fault::NotMonotonic);
    }
    let low = start_of(list, ranks, from);
    let high = end_of(list, ranks, to);
    Ok(span(low, high))
}

/// Whether there is an end.
fn has_end(from: Option<&Label>, to: Option<&Label>) -> bool
    ensures { result ≡ (is_some from.entry || is_some to.entry) }
{
    from.is_some() || to.is_some()
}

/// The positions between two ends where the labels neither ascend nor descend: all, or a fault where an end is given.
pub fn whole(list: &LabelList, from: Option<&Label>, to: Option<&Label>) -> Result<Span, Fault>
    requires { direction_of (labels_of list.now) ≡ Neither }
    ensures positions { MatchResult result (λ s. ordered_slice (labels_of list.now) (option_copied from.entry) (option_copied to.entry) ≡ Ok (range_with_len s.first s.length)) (λ f. ordered_slice (labels_of list.now) (option_copied from.entry) (option_copied to.entry) ≡ Err f) }
    ensures empty { IfOk result (λ s. s.length ≡ 0 → s.first ≡ 0) }
{
    if has_end(from, to) {
        return Err(Fault::NotMonotonic);
    }
    Ok(span(0, label::count(list)))
}
