//! The positions of an old axis that stand for those of a new one.
ghost use Rattle.std.specs.Prelude.{◌≡◌, ◌≤◌, true, map, filter, length, IfOk};
ghost use Rattle.xr_arrays.specs.Labels.{labels_of};
ghost use Rattle.xr_operations.specs.Alignment.{each_position, found, holds_label, sources};
ghost use Rattle.align_join.specs.Joined.{HasFew, stays};

use crate::key::Key;
use crate::label;
use label_index::Index;
use std::alloc::{AllocError, Global};
use xr_arrays::Sources;
use xr_types::{Axis, Fault, Items, Label, LabelList, NoMemory};

/// Whether a label stands in an indexed list.
#[tactic(auto, using(crate::proofs::Found::held_is))]
fn is_held(index: &Index<'_>, label: &Label) -> bool
    ensures { result ≡ holds_label (labels_of index.now) label.now }
{
    match index.find(label) {
        Ok(_) => true,
        Err(fault) => matches!(fault, Fault::NotUnique),
    }
}

/// The labels that stand in a list too.
pub fn keep(alloc: Global, labels: Vec<Key>, list: &LabelList) -> Result<Vec<Key>, NoMemory>
    requires { length (labels_of list.now) ≤ 33554432 }
    ensures { IfOk result (λ v. v.items ≡ filter (holds_label (labels_of list.now)) labels.items) }
{
    let index = Index::over(alloc, list)?;
    let mut kept = labels;
    kept.retain(
        |key: &Key| -> bool
            ensures { result ≡ holds_label (labels_of index.entry) key.now }
        { is_held(&index, key.label()) },
    );
    Ok(kept)
}

/// The position that holds a label, if there is one and no other.
#[tactic(auto, using(crate::proofs::Found::found_is, crate::proofs::Found::place_within))]
fn found(index: &Index<'_>, label: &Label) -> Option<u32>
    requires { length (labels_of index.now) ≤ 33554432 }
    ensures { result ≡ found (labels_of index.now) label.now }
{
    match index.find(label) {
        Ok(at) => Some(at as u32),
        Err(_) => None,
    }
}

/// Each of so many positions.
#[tactic(auto, using(crate::proofs::Found::each_more))]
fn each_position(alloc: Global, size: u64) -> Result<Sources, AllocError>
    ensures { IfOk result (λ s. s ≡ each_position size) }
{
    let Ok(size) = u32::try_from(size) else {
        return Err(AllocError);
    };
    let mut all = Items::new(alloc);
    for at in 0..size {
        all.push(Some(at))?;
    }
    Ok(all)
}

/// The positions of an old list that hold the labels of a new one.
fn by_labels(alloc: Global, old: &LabelList, new: &LabelList) -> Result<Sources, NoMemory>
    requires { length (labels_of old.now) ≤ 33554432 }
    ensures { IfOk result (λ s. s ≡ map (found (labels_of old.now)) (labels_of new.now)) }
{
    let index = Index::over(alloc, old)?;
    let mut all = Items::new(alloc);
    for at in 0..label::count(new) {
        let key = label::label_at(alloc, new, at)?;
        all.push(found(&index, key.label()))?;
    }
    Ok(all)
}

/// Whether the positions of an old axis stay: it is bare, or has the labels of the new one. Of an old axis with labels and a new
/// one without, which no join gives, they stay too.
#[tactic(auto, using(crate::proofs::Told::stays_each))]
pub fn stays(old: &Axis, new: &Axis) -> bool
    ensures stays { result ≡ stays old.now.labels new.now.labels }
    ensures each { result ≡ true → sources old.now new.now ≡ each_position new.now.size }
{
    match (&old.labels, &new.labels) {
        (Some(own), Some(joined)) => label::same_labels(&own.list, &joined.list),
        (None, _) | (Some(_), None) => true,
    }
}

/// The position of an old axis that stands for each position of a new one.
pub fn sources(alloc: Global, old: &Axis, new: &Axis) -> Result<Sources, NoMemory>
    requires { HasFew old.now }
    ensures { IfOk result (λ s. s ≡ sources old.now new.now) }
{
    if let (Some(own), Some(joined)) = (&old.labels, &new.labels) {
        if !label::same_labels(&own.list, &joined.list) {
            return by_labels(alloc, &own.list, &joined.list);
        }
    }
    Ok(each_position(alloc, new.size)?)
}
