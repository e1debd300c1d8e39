//! The positions of labels.
ghost use Rattle.std.specs.Prelude.{◌≡◌, true, Ok};
ghost use Rattle.std.specs.List.{list_all, list_any};
ghost use Rattle.xr_arrays.specs.Labels.{is_kin, suits};
ghost use Rattle.xr_types.specs.Results.{Answers};
ghost use Rattle.xr_operations.specs.Selection as of;
ghost use Rattle.xr_selecting.specs.Searches.{search_in};

use crate::options::Search;
use label_index::Index;
use std::alloc::Global;
use xr_arrays::Direction;
use xr_types::{CallFault, Fault, Items, Label, LabelList, Near};

/// The position of a label.
///
/// # Errors
/// `LabelKind`, `NotUnique`, `NotMonotonic` where a method doesn't take the direction, and `NoSuchLabel`.
#[tactic(auto, unfolding(xr_operations::specs::Selection::found))]
pub fn found(index: &Index<'_>, by: Search, label: &Label) -> Result<u64, CallFault>
    ensures { Answers (λ p. p) result (of.found (search_in by) index.now label.now) }
{
    let place = match by.method {
        Some(near) => index.find_near(label, near, by.tolerance),
        None => index.find(label),
    };
    place.map_err(|fault| CallFault::Refused(fault))
}

fn is_kin(list: &LabelList, label: &Label) -> bool
    ensures { result ≡ is_kin list.now label.now }
{
    match list {
        LabelList::Numbers(_, _) => matches!(label, Label::Int(_)),
        LabelList::Times(_, _) => matches!(label, Label::Time(_)),
        LabelList::Texts(_) => matches!(label, Label::Text(_)),
    }
}

/// Whether all labels are of the list's kind.
pub fn are_kin(list: &LabelList, labels: &[Label]) -> bool
    ensures { result ≡ list_all (is_kin list.now) labels.now }
{
    labels.iter().all(|label| is_kin(list, label))
}

// Whether a label of the list's kind stands twice.
fn stands_twice(index: &Index<'_>, label: &Label) -> bool
    requires { is_kin index.now label.now ≡ true }
    ensures { result ≡ of.stands_twice index.now label.now }
{
    matches!(index.find(label), Err(Fault::NotUnique))
}

fn any_twice(index: &Index<'_>, labels: &[Label]) -> bool
    requires { list_all (is_kin index.now) labels.now ≡ true }
    ensures { result ≡ list_any (of.stands_twice index.now) labels.now }
{
    for label in labels {
        if stands_twice(index, label) {
            return true;
        }
    }
    false
}

fn suits(near: Near, direction: Direction) -> bool
    ensures { result ≡ suits near direction }
{
    match direction {
        Direction::Ascending => true,
        Direction::Descending => matches!(near, Near::Nearest),
        Direction::Neither => false,
    }
}

/// Refuses labels among which a method can't search.
///
/// # Errors
/// `LabelKind` for texts with `nearest` or a tolerance; then `NotUnique` where a label stands twice; then `NotMonotonic` for a
/// direction that the method doesn't take.
#[tactic(auto, unfolding(xr_operations::specs::Selection::check_search, xr_types::specs::Results::unless))]
pub fn check_search(
    index: &Index<'_>,
    list: &LabelList,
    near: Near,
    tolerance: Option<u128>,
) -> Result<(), CallFault>
    requires { index.now ≡ list.now }
    ensures { Answers (λ u. u) result (of.check_search list.now near tolerance) }
{
    let far = matches!(near, Near::Nearest) || tolerance.is_some();
    if far && matches!(list, LabelList::Texts(_)) {
        return Err(CallFault::Refused(Fault::LabelKind));
    }
    if !index.is_unique() {
        return Err(CallFault::Refused(Fault::NotUnique));
    }
    if !suits(near, index.direction()) {
        return Err(CallFault::Refused(Fault::NotMonotonic));
    }
    Ok(())
}

/// Refuses a list of labels of which one is of another kind; then one of which a label stands twice, or, with a method, where any
/// label does; then, with a method, a direction that it doesn't take.
#[tactic(auto, unfolding(xr_operations::specs::Selection::check_list, xr_types::specs::Results::unless))]
pub fn check_list(
    index: &Index<'_>,
    list: &LabelList,
    by: Search,
    labels: &[Label],
) -> Result<(), CallFault>
    requires { index.now ≡ list.now }
    ensures { Answers (λ u. u) result (of.check_list (search_in by) list.now labels.now) }
{
    if !are_kin(list, labels) {
        return Err(CallFault::Refused(Fault::LabelKind));
    }
    match by.method {
        Some(near) => check_search(index, list, near, by.tolerance),
        None if any_twice(index, labels) => Err(CallFault::Refused(Fault::NotUnique)),
        None => Ok(()),
    }
}

/// The positions of labels.
#[tactic(auto, using(xr_indexing::proofs::Loops::behind_both), unfolding(xr_operations::specs::Selection::each_found))]
pub fn each_found(
    alloc: Global,
    index: &Index<'_>,
    by: Search,
    labels: &[Label],
) -> Result<Items<u64>, CallFault>
    ensures { Answers (λ ps. ps) result (of.each_found (search_in by) index.now labels.now) }
{
    let mut out = Items::new(alloc);
    for label in labels {
        out.push(found(index, by, label)?)?;
    }
    Ok(out)
}
