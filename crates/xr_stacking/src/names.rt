//! The names of dimensions of several datasets.
ghost use Rattle.std.specs.Prelude.{◌≡◌, ◌++◌, ◌∷◌, List, fold, map, IfOk, OnOk};
ghost use Rattle.xr_types.specs.Names.{among, axis_names};
ghost use Rattle.xr_arrays.specs.declared.node.Node.{Node};
ghost use Rattle.xr_defs.specs.Parts.{axes_called};
ghost use Rattle.xr_defs.specs.Values.{Dataset as TheSet};
ghost use Rattle.xr_operations.specs.Alignment as alignment;
ghost use Rattle.xr_combination.specs.Concat as calls;
ghost use Rattle.xr_values.specs.Stands.{dataset_in};

use std::alloc::{AllocError, Global};
use xr_chaining::{axis_called, is_new};
use xr_types::{Axis, DeepCopy, Items, Name, NoMemory};
use xr_values::Dataset;

/// Whether a name is one of these.
pub fn has_name(names: &[Name], name: &Name) -> bool
    ensures { result ≡ among names.now name.now }
{
    match names {
        [] => false,
        [other, rest @ ..] => name.is(other) || has_name(rest, name),
    }
}

fn add_name(alloc: Global, names: &mut Items<Name>, name: &Name) -> Result<(), AllocError>
    ensures { OnOk result (names.new ≡ alignment.add_name names.old name.now) }
{
    if !has_name(names.as_slice(), name) {
        names.push(name.deep_copy(alloc)?)?;
    }
    Ok(())
}

fn add_axes(alloc: Global, names: &mut Items<Name>, axes: &[Axis]) -> Result<(), AllocError>
    ensures { OnOk result (names.new ≡ fold alignment.add_name names.old (axis_names axes.now)) }
{
    match axes {
        [] => Ok(()),
        [axis, rest @ ..] => {
            add_name(alloc, names, &axis.name)?;
            add_axes(alloc, names, rest)
        }
    }
}

#[tactic(auto, using(xr_merging::proofs::Folded::folds_on))]
fn add_all(alloc: Global, names: &mut Items<Name>, sets: &[Dataset]) -> Result<(), AllocError>
    ensures { (nodes : List Node) → OnOk result (names.new ≡ fold alignment.add_name names.old (alignment.all_names (map (λ (s : TheSet). s.axes) (map (dataset_in nodes) sets.now)))) }
{
    match sets {
        [] => Ok(()),
        [set, rest @ ..] => {
            add_axes(alloc, names, set.axes.as_slice())?;
            add_all(alloc, names, rest)
        }
    }
}

fn names_once(alloc: Global, sets: &[Dataset]) -> Result<Items<Name>, AllocError>
    ensures { (nodes : List Node) → IfOk result (λ ns. ns ≡ alignment.names_once (alignment.all_names (map (λ (s : TheSet). s.axes) (map (dataset_in nodes) sets.now)))) }
{
    let mut names = Items::new(alloc);
    add_all(alloc, &mut names, sets)?;
    Ok(names)
}

fn push_names(alloc: Global, out: &mut Items<Name>, names: &[Name]) -> Result<(), AllocError>
    ensures { OnOk result (out.new ≡ out.old ++ names.now) }
{
    match names {
        [] => Ok(()),
        [name, rest @ ..] => {
            out.push(name.deep_copy(alloc)?)?;
            push_names(alloc, out, rest)
        }
    }
}

/// A name before others.
pub fn with_first(alloc: Global, name: &Name, names: &[Name]) -> Result<Items<Name>, AllocError>
    ensures { IfOk result (λ ns. ns ≡ name.now ∷ names.now) }
{
    let mut all = Items::new(alloc);
    all.push(name.deep_copy(alloc)?)?;
    push_names(alloc, &mut all, names)?;
    Ok(all)
}

/// The names of the dimensions of what datasets give: a new one, then those of all, each once, in the order of first appearance.
fn result_names(alloc: Global, dim: &Name, sets: &[Dataset]) -> Result<Items<Name>, AllocError>
    ensures { (nodes : List Node) → IfOk result (λ ns. ns ≡ calls.result_names dim.now (map (dataset_in nodes) sets.now)) }
{
    let names = names_once(alloc, sets)?;
    if is_new(dim, sets) {
        return with_first(alloc, dim, names.as_slice());
    }
    Ok(names)
}

fn push_called(
    alloc: Global,
    out: &mut Items<Axis>,
    axes: &[Axis],
    names: &[Name],
) -> Result<(), NoMemory>
    ensures { OnOk result (out.new ≡ out.old ++ axes_called axes.now names.now) }
{
    match names {
        [] => Ok(()),
        [name, rest @ ..] => {
            let axis = axis_called(axes, name)?;
            out.push(axis.deep_copy(alloc)?)?;
            push_called(alloc, out, axes, rest)
        }
    }
}

/// The axes of these names. One that isn't there wants memory.
pub fn axes_called(alloc: Global, axes: &[Axis], names: &[Name]) -> Result<Items<Axis>, NoMemory>
    ensures { IfOk result (λ xs. xs ≡ axes_called axes.now names.now) }
{
    let mut out = Items::new(alloc);
    push_called(alloc, &mut out, axes, names)?;
    Ok(out)
}

/// The axes of what datasets give, in their order.
pub fn result_axes(
    alloc: Global,
    dim: &Name,
    axes: &[Axis],
    sets: &[Dataset],
) -> Result<Items<Axis>, NoMemory>
    ensures { (nodes : List Node) → IfOk result (λ xs. xs ≡ axes_called axes.now (calls.result_names dim.now (map (dataset_in nodes) sets.now))) }
{
    let names = result_names(alloc, dim, sets)?;
    let all = axes_called(alloc, axes, names.as_slice())?;
    Ok(all)
}
