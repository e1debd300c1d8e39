//! The position whose label is near one.
ghost use Rattle.std.specs.Prelude.{◌≡◌, ◌<◌, ℕ, length, true, false, IfSome, Some};
ghost use Rattle.std.specs.Option.{option_to_list};
ghost use Rattle.xr_arrays.specs.Labels.{labels_of, repeats, near, is_kin, is_text, can_be_near, suits, reached};
ghost use Rattle.xr_types.specs.declared.operation.Near.TheVariants as methods;
ghost use Rattle.label_index.specs.Ranks.{direction, IsRanked};

use crate::rank::Ranks;
use crate::search::first_rank;
use crate::{label, rank};
use xr_types::{Fault, Label, LabelList, Near};

/// Whether a label can be sought near: it is of the list's kind, and a text has no distance.
pub fn can_be_near(list: &LabelList, label: &Label, method: Near, tolerance: Option<u128>) -> bool
    ensures { result ≡ can_be_near list.now label.now method tolerance }
{
    let measured = matches!(method, Near::Nearest) || tolerance.is_some();
    label::is_kin(list, label) && !(matches!(label, Label::Text(_)) && measured)
}

/// Whether labels of this direction can be sought so.
pub fn suits(method: Near, ranks: &Ranks) -> bool
    ensures { result ≡ suits method (direction ranks.now) }
{
    match ranks {
        Ranks::Rising => true,
        Ranks::Falling => matches!(method, Near::Nearest),
        Ranks::Sorted(_) => false,
    }
}

/// The position of the greatest label not above a label.
fn pad(list: &LabelList, ranks: &Ranks, label: &Label) -> Option<usize>
    requires ranked { IsRanked (labels_of list.now) ranks.now }
    requires once { repeats (labels_of list.now) ≡ false }
    ensures value { option_to_list result ≡ near methods.Pad (labels_of list.now) label.now }
    ensures within { IfSome result (λ p. p < length (labels_of list.now)) }
{
    let past = first_rank(list, ranks, label, true);
    if past == 0 {
        return None;
    }
    Some(rank::position(ranks, label::count(list), past - 1))
}

/// The position of the least label not below a label.
fn backfill(list: &LabelList, ranks: &Ranks, label: &Label) -> Option<usize>
    requires ranked { IsRanked (labels_of list.now) ranks.now }
    requires once { repeats (labels_of list.now) ≡ false }
    ensures value { option_to_list result ≡ near methods.Backfill (labels_of list.now) label.now }
    ensures within { IfSome result (λ p. p < length (labels_of list.now)) }
{
    let count = label::count(list);
    let low = first_rank(list, ranks, label, false);
    if low == count {
        return None;
    }
    Some(rank::position(ranks, count, low))
}

/// The position of the label with the least distance, of two the larger label's.
fn nearest(list: &LabelList, ranks: &Ranks, label: &Label) -> Option<usize>
    requires ranked { IsRanked (labels_of list.now) ranks.now }
    requires once { repeats (labels_of list.now) ≡ false }
    requires kin { is_kin list.now label.now ≡ true }
    requires number { is_text label.now ≡ false }
    ensures value { option_to_list result ≡ near methods.Nearest (labels_of list.now) label.now }
    ensures within { IfSome result (λ p. p < length (labels_of list.now)) }
{
    let count = label::count(list);
    let low = first_rank(list, ranks, label, false);
    if count == 0 {
        return None;
    }
    if low == 0 {
        return Some(rank::position(ranks, count, 0));
    }
    let before = rank::position(ranks, count, low - 1);
    if low == count {
        return Some(before);
    }
    let behind = rank::position(ranks, count, low);
    if label::far(list, before, label) < label::far(list, behind, label) {
        return Some(before);
    }
    Some(behind)
}

/// The position that a method names, unless its label is too far.
fn reach(
    list: &LabelList,
    label: &Label,
    tolerance: Option<u128>,
    found: Option<usize>,
) -> Result<u64, Fault>
    requires { IfSome found (λ p. p < length (labels_of list.now)) }
    ensures { result ≡ reached (labels_of list.now) label.now tolerance (option_to_list found) }
{
    let Some(at) = found else {
        return Err(Fault::NoSuchLabel);
    };
    if let Some(most) = tolerance {
        if label::far(list, at, label) > most {
            return Err(Fault::NoSuchLabel);
        }
    }
    Ok(at as u64)
}

/// The position of the label near one, where the list takes the label and its direction the method.
pub fn find(
    list: &LabelList,
    ranks: &Ranks,
    label: &Label,
    method: Near,
    tolerance: Option<u128>,
) -> Result<u64, Fault>
    requires ranked { IsRanked (labels_of list.now) ranks.now }
    requires once { repeats (labels_of list.now) ≡ false }
    requires fits { can_be_near list.now label.now method tolerance ≡ true }
    ensures { result ≡ reached (labels_of list.now) label.now tolerance (near method (labels_of list.now) label.now) }
{
    let found = match method {
        Near::Pad => pad(list, ranks, label),
        Near::Backfill => backfill(list, ranks, label),
        Near::Nearest => nearest(list, ranks, label),
    };
    reach(list, label, tolerance, found)
}
