//! The names of variables and coordinates of several datasets.
ghost use Rattle.std.specs.Prelude.{◌≡◌, ◌||◌, ◌++◌, [], List, flat_map, filter, fold, map, not, IfOk, OnOk};
ghost use Rattle.std.specs.List.{list_any};
ghost use Rattle.xr_types.specs.Names.{among, axis_names};
ghost use Rattle.xr_arrays.specs.declared.node.Node.{Node};
ghost use Rattle.xr_defs.specs.Values.{Dataset as TheSet};
ghost use Rattle.xr_defs.specs.WellFormed.{names_of};
ghost use Rattle.xr_operations.specs.Alignment.{add_name};
ghost use Rattle.xr_relations.specs.Aligning as aligning;
ghost use Rattle.xr_combination.specs.Concat.{set_names};
ghost use Rattle.xr_combination.specs.Merge as calls;
ghost use Rattle.xr_combination.specs.Pieces.{all_skipped};
ghost use Rattle.xr_values.specs.Stands.{dataset_in};
ghost use Rattle.xr_merging.specs.Names.{names_in};

use std::alloc::{AllocError, Global};
use xr_defs::Coord;
use xr_types::{Axis, DeepCopy, Items, Name};
use xr_values::{Dataset, Variable};

// ---- one name

/// Whether an axis has this name.
pub fn has_axis(axes: &[Axis], name: &Name) -> bool
    ensures { result ≡ among (axis_names axes.now) name.now }
{
    match axes {
        [] => false,
        [axis, rest @ ..] => name.is(&axis.name) || has_axis(rest, name),
    }
}

/// Whether a name is one of these.
pub fn has_name(names: &[Name], name: &Name) -> bool
    ensures { result ≡ among names.now name.now }
{
    match names {
        [] => false,
        [other, rest @ ..] => name.is(other) || has_name(rest, name),
    }
}

fn has_coord(coords: &[Coord], name: &Name) -> bool
    ensures { result ≡ aligning.has_coord coords.now name.now }
{
    match coords {
        [] => false,
        [coord, rest @ ..] => coord.name.is(name) || has_coord(rest, name),
    }
}

fn has_index(axes: &[Axis], name: &Name) -> bool
    ensures { result ≡ aligning.has_index axes.now name.now }
{
    match axes {
        [] => false,
        [axis, rest @ ..] => {
            (axis.name.is(name) && axis.labels.is_some()) || has_index(rest, name)
        }
    }
}

fn is_reserved(axes: &[Axis], coords: &[Coord], name: &Name) -> bool
    ensures { result ≡ aligning.is_reserved axes.now coords.now name.now }
{
    has_axis(axes, name) || has_coord(coords, name)
}

// ---- names that cross

fn some_reserved(set: &Dataset, vars: &[Variable]) -> bool
    ensures { (nodes : List Node) → result ≡ list_any (aligning.is_reserved set.now.axes set.now.coords) (names_in nodes vars.now) }
{
    match vars {
        [] => false,
        [var, rest @ ..] => {
            is_reserved(set.axes.as_slice(), set.coords.as_slice(), &var.name)
                || some_reserved(set, rest)
        }
    }
}

// Whether a data variable of the one has the name of a dimension or coordinate of the other.
fn crosses(one: &Dataset, other: &Dataset) -> bool
    ensures { (nodes : List Node) → result ≡ calls.crosses (dataset_in nodes one.now) (dataset_in nodes other.now) }
{
    some_reserved(other, one.vars.as_slice())
}

fn is_own(set: &Dataset, name: &Name) -> bool
    ensures { result ≡ (aligning.has_coord set.now.coords name.now || aligning.has_index set.now.axes name.now) }
{
    has_coord(set.coords.as_slice(), name) || has_index(set.axes.as_slice(), name)
}

fn some_own(set: &Dataset, vars: &[Variable]) -> bool
    ensures { (nodes : List Node) → result ≡ list_any (λ n. aligning.has_coord set.now.coords n || aligning.has_index set.now.axes n) (names_in nodes vars.now) }
{
    match vars {
        [] => false,
        [var, rest @ ..] => is_own(set, &var.name) || some_own(set, rest),
    }
}

// Whether a data variable has the name of a coordinate or index of its own dataset.
fn crosses_own(set: &Dataset) -> bool
    ensures { (nodes : List Node) → result ≡ calls.crosses_own (dataset_in nodes set.now) }
{
    some_own(set, set.vars.as_slice())
}

fn crosses_any(set: &Dataset, others: &[Dataset]) -> bool
    ensures { (nodes : List Node) → result ≡ list_any (λ (t : TheSet). calls.crosses (dataset_in nodes set.now) t || calls.crosses t (dataset_in nodes set.now)) (map (dataset_in nodes) others.now) }
{
    match others {
        [] => false,
        [other, rest @ ..] => {
            crosses(set, other) || crosses(other, set) || crosses_any(set, rest)
        }
    }
}

/// Whether a data variable has the name of a dimension or coordinate of another dataset, or that of a coordinate or index of its
/// own, as that of an array may.
pub fn have_crossing(sets: &[Dataset]) -> bool
    ensures { (nodes : List Node) → result ≡ calls.have_crossing (map (dataset_in nodes) sets.now) }
{
    match sets {
        [] => false,
        [set, rest @ ..] => crosses_own(set) || crosses_any(set, rest) || have_crossing(rest),
    }
}

// ---- each name once

/// Adds a name, unless it is there.
fn add_name(alloc: Global, names: &mut Items<Name>, name: &Name) -> Result<(), AllocError>
    ensures { OnOk result (names.new ≡ add_name names.old name.now) }
{
    if !has_name(names.as_slice(), name) {
        names.push(name.deep_copy(alloc)?)?;
    }
    Ok(())
}

fn add_variables(
    alloc: Global,
    names: &mut Items<Name>,
    vars: &[Variable],
) -> Result<(), AllocError>
    ensures { (nodes : List Node) → OnOk result (names.new ≡ fold add_name names.old (names_in nodes vars.now)) }
{
    match vars {
        [] => Ok(()),
        [var, rest @ ..] => {
            add_name(alloc, names, &var.name)?;
            add_variables(alloc, names, rest)
        }
    }
}

#[tactic(auto, using(crate::proofs::Folded::folds_on))]
fn add_all_variables(
    alloc: Global,
    names: &mut Items<Name>,
    sets: &[Dataset],
) -> Result<(), AllocError>
    ensures { (nodes : List Node) → OnOk result (names.new ≡ fold add_name names.old (flat_map set_names (map (dataset_in nodes) sets.now))) }
{
    match sets {
        [] => Ok(()),
        [set, rest @ ..] => {
            add_variables(alloc, names, set.vars.as_slice())?;
            add_all_variables(alloc, names, rest)
        }
    }
}

/// The names of the data variables of all, each once, in the order of first appearance.
pub fn all_variables(alloc: Global, sets: &[Dataset]) -> Result<Items<Name>, AllocError>
    ensures { (nodes : List Node) → IfOk result (λ names. names ≡ calls.all_variables (map (dataset_in nodes) sets.now)) }
{
    let mut names = Items::new(alloc);
    add_all_variables(alloc, &mut names, sets)?;
    Ok(names)
}

fn add_coords(alloc: Global, names: &mut Items<Name>, coords: &[Coord]) -> Result<(), AllocError>
    ensures { OnOk result (names.new ≡ fold add_name names.old (names_of coords.now)) }
{
    match coords {
        [] => Ok(()),
        [coord, rest @ ..] => {
            add_name(alloc, names, &coord.name)?;
            add_coords(alloc, names, rest)
        }
    }
}

#[tactic(auto, using(crate::proofs::Folded::folds_on))]
fn add_all_coords(
    alloc: Global,
    names: &mut Items<Name>,
    sets: &[Dataset],
) -> Result<(), AllocError>
    ensures { (nodes : List Node) → OnOk result (names.new ≡ fold add_name names.old (flat_map (λ (s : TheSet). names_of s.coords) (map (dataset_in nodes) sets.now))) }
{
    match sets {
        [] => Ok(()),
        [set, rest @ ..] => {
            add_coords(alloc, names, set.coords.as_slice())?;
            add_all_coords(alloc, names, rest)
        }
    }
}

fn push_free(
    alloc: Global,
    out: &mut Items<Name>,
    axes: &[Axis],
    names: &[Name],
) -> Result<(), AllocError>
    ensures { OnOk result (out.new ≡ out.old ++ filter (λ n. not (among (axis_names axes.now) n)) names.now) }
{
    match names {
        [] => Ok(()),
        [name, rest @ ..] => {
            if !has_axis(axes, name) {
                out.push(name.deep_copy(alloc)?)?;
            }
            push_free(alloc, out, axes, rest)
        }
    }
}

/// The names of the coordinates of all, each once, in the order of first appearance, without those that are named as a dimension.
pub fn all_coords(alloc: Global, axes: &[Axis], sets: &[Dataset]) -> Result<Items<Name>, AllocError>
    ensures { (nodes : List Node) → IfOk result (λ names. names ≡ calls.all_coords axes.now (map (dataset_in nodes) sets.now)) }
{
    let mut names = Items::new(alloc);
    add_all_coords(alloc, &mut names, sets)?;
    let mut free = Items::new(alloc);
    push_free(alloc, &mut free, axes, names.as_slice())?;
    Ok(free)
}

// ---- variables that were skipped

fn add_names(alloc: Global, names: &mut Items<Name>, more: &[Name]) -> Result<(), AllocError>
    ensures { OnOk result (names.new ≡ fold add_name names.old more.now) }
{
    match more {
        [] => Ok(()),
        [name, rest @ ..] => {
            add_name(alloc, names, name)?;
            add_names(alloc, names, rest)
        }
    }
}

#[tactic(auto, using(crate::proofs::Folded::folds_on))]
fn add_all_skipped(
    alloc: Global,
    names: &mut Items<Name>,
    sets: &[Dataset],
) -> Result<(), AllocError>
    ensures { (nodes : List Node) → OnOk result (names.new ≡ fold add_name names.old (flat_map (λ (s : TheSet). s.skipped) (map (dataset_in nodes) sets.now))) }
{
    match sets {
        [] => Ok(()),
        [set, rest @ ..] => {
            add_names(alloc, names, set.skipped.as_slice())?;
            add_all_skipped(alloc, names, rest)
        }
    }
}

/// The names of the variables that were skipped when the datasets were read, each once.
pub fn all_skipped(alloc: Global, sets: &[Dataset]) -> Result<Items<Name>, AllocError>
    ensures { (nodes : List Node) → IfOk result (λ names. names ≡ all_skipped (map (dataset_in nodes) sets.now)) }
{
    let mut names = Items::new(alloc);
    add_all_skipped(alloc, &mut names, sets)?;
    Ok(names)
}
