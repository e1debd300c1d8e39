//! `drop_vars(names)`: arrays and datasets without some coordinates, labels and data variables.
ghost use Rattle.std.specs.Prelude.{◌||◌, ◌≡◌};
ghost use Rattle.xr_parts.specs.Common.{Answers, AnswersArray, AnswersSet, Coord as Other, IfOk, IsArrayIn, IsDatasetIn, List, NoVariable, Node, OnOk, Variable as Var, [], among, are_distinct, array_in, axis_names, bytes_eq, dataset_in, filter, given, list_any, map, names_of, true, unless, with_variables};
ghost use Rattle.xr_defs.specs.Parts as of;
ghost use Rattle.xr_parts.specs.Kept.{array_without, has_variable, is_held, names_checked, set_without, vars_left};

use crate::dataset_of::{has_axis, has_coord};
use crate::texts::{is_among, names_given};
use std::alloc::{AllocError, Global};
use xr_defs::Coord;
use xr_types::{Axis, CallFault, DeepCopy, Fault, Items, TextBytes};
use xr_values::{Args, DataArray, Dataset, Variable, Variables, copy_coord};

// An axis without its labels, where it is named.
fn unlabelled(alloc: Global, names: &[TextBytes], axis: &Axis) -> Result<Axis, AllocError>
    ensures { IfOk result (λ x. x ≡ of.unlabelled names.now axis.now) }
{
    let mut left = axis.deep_copy(alloc)?;
    if is_among(names, &axis.name) {
        left.labels = None;
    }
    Ok(left)
}

fn all_unlabelled(
    alloc: Global,
    names: &[TextBytes],
    axes: &[Axis],
) -> Result<Items<Axis>, AllocError>
    ensures { IfOk result (λ xs. xs ≡ map (of.unlabelled names.now) axes.now) }
{
    let mut out = Items::new(alloc);
    for axis in axes {
        out.push(unlabelled(alloc, names, axis)?)?;
    }
    Ok(out)
}

// The coordinates that aren't named, whose axes lose their labels too.
fn coords_left(
    alloc: Global,
    names: &[TextBytes],
    coords: &[Coord],
) -> Result<Items<Coord>, AllocError>
    ensures { IfOk result (λ cs. cs ≡ of.coords_left names.now [] coords.now) }
{
    let mut out = Items::new(alloc);
    for coord in coords {
        if !is_among(names, &coord.name) {
            let mut left = copy_coord(alloc, coord)?;
            left.axes = all_unlabelled(alloc, names, coord.axes.as_slice())?;
            out.push(left)?;
        }
    }
    Ok(out)
}

fn has_index(axes: &[Axis], name: &TextBytes) -> bool
    ensures { result ≡ list_any (of.is_labelled_as name.now) axes.now }
{
    axes.iter()
        .any(|axis| axis.name.is(name) && axis.labels.is_some())
}

fn has_coordinate(axes: &[Axis], coords: &[Coord], name: &TextBytes) -> bool
    ensures { result ≡ of.has_coordinate axes.now coords.now name.now }
{
    has_coord(coords, name) || has_index(axes, name)
}

fn has_variable(vars: &[Variable], name: &TextBytes) -> bool
    ensures { result ≡ has_variable vars.now name.now }
{
    vars.iter().any(|variable| variable.name.is(name))
}

fn has_name(vars: &[Variable], axes: &[Axis], coords: &[Coord], name: &TextBytes) -> bool
    ensures { result ≡ (has_variable vars.now name.now || of.has_coordinate axes.now coords.now name.now) }
{
    has_variable(vars, name) || has_coordinate(axes, coords, name)
}

// The names that a call gives, each of something that is there.
#[tactic(auto, unfolding(crate::specs::Kept::names_checked, xr_types::specs::Results::unless))]
fn names_checked(
    alloc: Global,
    vars: &[Variable],
    axes: &[Axis],
    coords: &[Coord],
    args: &Args,
) -> Result<Items<TextBytes>, CallFault>
    ensures { (nodes : List Node) → Answers (λ ns. ns) result (names_checked vars.now axes.now coords.now (given nodes args.now)) }
{
    let names = names_given(alloc, args)?;
    let list = names.as_slice();
    for name in list {
        if !has_name(vars, axes, coords, name) {
            return Err(CallFault::Refused(Fault::NoVariable(name.deep_copy(alloc)?)));
        }
    }
    Ok(names)
}

fn array_without(
    alloc: Global,
    names: &[TextBytes],
    on: &DataArray,
) -> Result<DataArray, AllocError>
    ensures { IfOk result (λ a. a ≡ array_without names.now on.now) }
{
    let axes = all_unlabelled(alloc, names, on.axes.as_slice())?;
    let coords = coords_left(alloc, names, on.coords.as_slice())?;
    let mut array = on.deep_copy(alloc)?;
    array.axes = axes;
    array.coords = coords;
    Ok(array)
}

/// An array without the coordinates and the labels of these names.
///
/// # Errors
/// `BadArgument` unless there is one argument, without a keyword; then `WrongKind` unless it is a text or a list of texts;
/// then `NoVariable` for the first name that is neither a coordinate nor an index.
#[tactic(auto, using(crate::proofs::Dropped::array_dropped, crate::proofs::Dropped::array_dropped_is))]
pub fn dropped_of_array(alloc: Global, on: &DataArray, args: &Args) -> Result<DataArray, CallFault>
    ensures { (nodes : List Node) → IsArrayIn nodes on.now → AnswersArray nodes result (of.dropped_of_array (array_in nodes on.now) (given nodes args.now)) }
{
    let names = names_checked(alloc, &[], on.axes.as_slice(), on.coords.as_slice(), args)?;
    Ok(array_without(alloc, names.as_slice(), on)?)
}

// Puts the variables that aren't named.
fn put_left(
    alloc: Global,
    left: &mut Variables,
    names: &[TextBytes],
    vars: &[Variable],
) -> Result<(), AllocError>
    ensures { OnOk result (left.new ≡ with_variables left.old (vars_left names.now vars.now)) }
{
    for variable in vars {
        if !is_among(names, &variable.name) {
            left.put(alloc, variable.deep_copy(alloc)?)?;
        }
    }
    Ok(())
}

#[tactic(auto, using(crate::proofs::Dropped::put_apart))]
fn vars_left(alloc: Global, names: &[TextBytes], vars: &[Variable]) -> Result<Variables, AllocError>
    requires { are_distinct (names_of vars.now) ≡ true }
    ensures { IfOk result (λ vs. vs ≡ vars_left names.now vars.now) }
{
    let mut left = Variables::new(alloc);
    put_left(alloc, &mut left, names, vars)?;
    Ok(left)
}

fn have_axis(coords: &[Coord], name: &TextBytes) -> bool
    ensures { result ≡ list_any (λ (c : Other). among (axis_names c.axes) name.now) coords.now }
{
    coords
        .iter()
        .any(|coord| has_axis(coord.axes.as_slice(), name))
}

fn have_dim(vars: &[Variable], name: &TextBytes) -> bool
    ensures { result ≡ list_any (λ (v : Var). among v.dims name.now) vars.now }
{
    vars.iter()
        .any(|variable| is_among(variable.dims.as_slice(), name))
}

#[tactic(auto, unfolding(crate::specs::Kept::is_held))]
fn is_held(coords: &[Coord], vars: &[Variable], axis: &Axis) -> bool
    ensures { result ≡ is_held coords.now vars.now axis.now }
{
    axis.labels.is_some() || have_axis(coords, &axis.name) || have_dim(vars, &axis.name)
}

/// The axes with labels, and those that a coordinate or a variable has.
pub fn axes_kept(
    alloc: Global,
    coords: &[Coord],
    vars: &[Variable],
    axes: &[Axis],
) -> Result<Items<Axis>, AllocError>
    ensures { IfOk result (λ xs. xs ≡ filter (is_held coords.now vars.now) axes.now) }
{
    let mut out = Items::new(alloc);
    for axis in axes {
        if is_held(coords, vars, axis) {
            out.push(axis.deep_copy(alloc)?)?;
        }
    }
    Ok(out)
}

fn set_without(alloc: Global, names: &[TextBytes], on: &Dataset) -> Result<Dataset, AllocError>
    ensures { IfOk result (λ s. s ≡ set_without names.now on.now) }
{
    let coords = coords_left(alloc, names, on.coords.as_slice())?;
    let vars = vars_left(alloc, names, on.vars.as_slice())?;
    let all = all_unlabelled(alloc, names, on.axes.as_slice())?;
    let axes = axes_kept(alloc, coords.as_slice(), vars.as_slice(), all.as_slice())?;
    Ok(Dataset {
        axes,
        coords,
        vars,
        attrs: on.attrs.deep_copy(alloc)?,
        skipped: on.skipped.deep_copy(alloc)?,
    })
}

/// A dataset without the data variables, the coordinates and the labels of these names. An axis without labels goes with the
/// last that has it.
///
/// # Errors
/// `BadArgument` unless there is one argument, without a keyword; then `WrongKind` unless it is a text or a list of texts;
/// then `NoVariable` for the first name that is neither a data variable nor a coordinate or an index.
#[tactic(auto, using(crate::proofs::Left::set_dropped_is))]
pub fn dropped_of_set(alloc: Global, on: &Dataset, args: &Args) -> Result<Dataset, CallFault>
    ensures { (nodes : List Node) → IsDatasetIn nodes on.now → AnswersSet nodes result (of.dropped_of_set (dataset_in nodes on.now) (given nodes args.now)) }
{
    let names = names_checked(
        alloc,
        on.vars.as_slice(),
        on.axes.as_slice(),
        on.coords.as_slice(),
        args,
    )?;
    Ok(set_without(alloc, names.as_slice(), on)?)
}
