//! The labels of several lists in ascending order, each once.
ghost use Rattle.std.specs.Prelude.{◌≡◌, map, fold, IfOk, OnOk};
ghost use Rattle.std.specs.BTreeSet.{insert_key};
ghost use Rattle.xr_arrays.specs.Labels.{labels_of, order};
ghost use Rattle.xr_operations.specs.Alignment.{all_of_lists, ascending};

use crate::key::Key;
use crate::label;
use std::alloc::{AllocError, Global};
use std::collections::BTreeSet;
use xr_types::LabelList;

/// Puts all labels of a list among others.
fn put_all(alloc: Global, set: &mut BTreeSet<Key>, list: &LabelList) -> Result<(), AllocError>
    ensures { OnOk result (set.new.keys ≡ fold (insert_key order) set.old.keys (labels_of list.now)) }
{
    for at in 0..label::count(list) {
        set.insert(label::label_at(alloc, list, at)?)?;
    }
    Ok(())
}

/// The labels of all lists, put in their places.
fn put_each(alloc: Global, lists: &[&LabelList]) -> Result<BTreeSet<Key>, AllocError>
    ensures { IfOk result (λ s. s.keys ≡ ascending (all_of_lists (map labels_of (map (λ l. l.now) lists.now)))) }
{
    let mut set = BTreeSet::new(alloc);
    for list in lists {
        put_all(alloc, &mut set, list)?;
    }
    Ok(set)
}

/// The labels of all lists in ascending order, each once.
pub fn ascending(alloc: Global, lists: &[&LabelList]) -> Result<Vec<Key>, AllocError>
    ensures { IfOk result (λ v. v.items ≡ ascending (all_of_lists (map labels_of (map (λ l. l.now) lists.now)))) }
{
    let set = put_each(alloc, lists)?;
    set.into_iter().collect(alloc)
}
