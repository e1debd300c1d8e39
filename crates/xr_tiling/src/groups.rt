//! Datasets that have the same data variables.
ghost use Rattle.std.specs.Prelude.{◌≡◌, List, [], fold, get_or, map, IfOk};
ghost use Rattle.std.specs.BTreeSet.{insert_key};
ghost use Rattle.xr_arrays.specs.declared.node.Node.{Node};
ghost use Rattle.xr_combination.specs.Combine as calls;
ghost use Rattle.xr_combination.specs.Pieces.{no_set};
ghost use Rattle.xr_values.specs.Stands.{dataset_in};
ghost use Rattle.xr_tiling.specs.Groups.{held_names, positions_of, texts, texts_of};

use std::alloc::{AllocError, Global};
use std::collections::BTreeSet;
use xr_types::Items;
use xr_values::Dataset;

// The names of its data variables, ascending by bytes.
fn sorted_names(alloc: Global, set: &Dataset) -> Result<Vec<&str>, AllocError>
    ensures { IfOk result (λ names. texts names.items ≡ held_names set.now) }
{
    let vars = set.vars.as_slice();
    let mut names = BTreeSet::new(alloc);
    for var in vars {
        names.insert(var.name.as_str())?;
    }
    names.into_iter().collect(alloc)
}

fn all_names<'a>(alloc: Global, sets: &[&'a Dataset]) -> Result<Items<Vec<&'a str>>, AllocError>
    ensures { IfOk result (λ all. map texts_of all ≡ map held_names (map (λ s. s.now) sets.now)) }
{
    let mut all = Items::new(alloc);
    for set in sets {
        all.push(sorted_names(alloc, set)?)?;
    }
    Ok(all)
}

// The names of each group, in the order of these lists.
fn group_names<'a, 'b>(
    alloc: Global,
    all: &'a [Vec<&'b str>],
) -> Result<Vec<&'a [&'b str]>, AllocError>
    ensures { IfOk result (λ groups. map (λ g. texts g.now) groups.items ≡ fold (insert_key calls.names_cmp) [] (map texts_of all.now)) }
{
    let mut groups = BTreeSet::new(alloc);
    for names in all {
        groups.insert(names.as_slice())?;
    }
    groups.into_iter().collect(alloc)
}

fn members_of(alloc: Global, group: &[&str], all: &[Vec<&str>]) -> Result<Items<u64>, AllocError>
    ensures { IfOk result (λ members. members ≡ positions_of (texts group.now) (map texts_of all.now) 0) }
{
    let mut members = Items::new(alloc);
    for (at, names) in all.iter().enumerate() {
        if Ord::cmp(&group, &names.as_slice()).is_eq() {
            members.push(at as u64)?;
        }
    }
    Ok(members)
}

fn all_members(
    alloc: Global,
    groups: &[&[&str]],
    all: &[Vec<&str>],
) -> Result<Items<Items<u64>>, AllocError>
    ensures { IfOk result (λ members. members ≡ map (λ g. positions_of g (map texts_of all.now) 0) (map (λ g. texts g.now) groups.now)) }
{
    let mut members = Items::new(alloc);
    for group in groups {
        members.push(members_of(alloc, group, all)?)?;
    }
    Ok(members)
}

/// The groups of datasets that have the same data variables, in the order of their names: of each the positions of its members.
pub fn grouped(alloc: Global, sets: &[&Dataset]) -> Result<Items<Items<u64>>, AllocError>
    ensures { (nodes : List Node) → IfOk result (λ groups. map (map (λ i. get_or (map (dataset_in nodes) (map (λ s. s.now) sets.now)) i no_set)) groups ≡ calls.groups (map (dataset_in nodes) (map (λ s. s.now) sets.now))) }
{
    let all = all_names(alloc, sets)?;
    let groups = group_names(alloc, all.as_slice())?;
    let members = all_members(alloc, groups.as_slice(), all.as_slice())?;
    Ok(members)
}
