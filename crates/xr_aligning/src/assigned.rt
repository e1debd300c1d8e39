//! A variable that is put into a dataset: `name["v"] = array`.
ghost use Rattle.std.specs.Prelude.{◌≡◌, ◌||◌, ◌∷◌, ◌++◌, List, [], false, true, map, filter, IfOk, OnOk};
ghost use Rattle.xr_aligning.specs.Common.{AllByRecursion, Answers, AnswersSet, Grows, IsArrayIn, IsDatasetIn, Node, among, array_in, axis_names, bytes_eq, dataset_in, is_busy, is_name, list_any, with_variable};
ghost use Rattle.xr_types.specs.declared.axis.Axis.{Axis as AnAxis};
ghost use Rattle.xr_types.specs.declared.operation.How.TheVariants as hows;
ghost use Rattle.xr_defs.specs.declared.value.Coord.{Coord as Other};
ghost use Rattle.xr_operations.specs.Alignment as alignment;
ghost use Rattle.xr_relations.specs.Aligning as calls;
ghost use Rattle.xr_values.specs.declared.variable.Variable.{Variable as Var};
ghost use Rattle.xr_aligning.specs.Assigned as made;
ghost use Rattle.xr_aligning.specs.Assigned.{IsApart, IsPlaced, Stays};
ghost use Rattle.xr_aligning.specs.Joined.{AreLoose};

use crate::arrays::array_after;
use crate::coords::axes_after;
use crate::fits::joined_in;
use crate::limits::{are_short, is_set_within};
use align_join::aligned;
use plan_core::Plan;
use std::alloc::{AllocError, Global};
use xr_defs::Coord;
use xr_joining::have_few;
use xr_parts::{axes_kept, has_axis, is_among};
use xr_reducing::names_of;
use xr_types::{Axis, CallFault, DeepCopy, Fault, How, Items, Name, NoMemory, TextBytes};
use xr_values::{DataArray, Dataset, Variable, Variables, copy_content, copy_coord};

// ---- names

fn has_coord(coords: &[Coord], name: &TextBytes) -> bool
    ensures { result ≡ calls.has_coord coords.now name.now }
{
    coords.iter().any(|coord| coord.name.is(name))
}

/// Whether the axis of a name has labels.
pub fn has_index(axes: &[Axis], name: &TextBytes) -> bool
    ensures { result ≡ calls.has_index axes.now name.now }
{
    axes.iter()
        .any(|axis| axis.name.is(name) && axis.labels.is_some())
}

fn coords_have(coords: &[Coord], name: &TextBytes) -> bool
    ensures { result ≡ list_any (λ (c : Other). among (axis_names c.axes) name.now) coords.now }
{
    coords
        .iter()
        .any(|coord| has_axis(coord.axes.as_slice(), name))
}

// ---- the dataset without the variable

fn others_have(vars: &[Variable], but: &TextBytes, name: &TextBytes) -> bool
    ensures { result ≡ list_any (λ (v : Var). among v.dims name.now) (made.others but.now vars.now) }
{
    match vars {
        [] => false,
        [var, rest @ ..] => {
            if var.name.is(but) {
                others_have(rest, but, name)
            } else {
                is_among(var.dims.as_slice(), name) || others_have(rest, but, name)
            }
        }
    }
}

fn is_kept(set: &Dataset, but: &TextBytes, axis: &Axis) -> bool
    ensures { result ≡ is_busy set.now.coords (made.others but.now set.now.vars) axis.now }
{
    axis.labels.is_some()
        || coords_have(set.coords.as_slice(), &axis.name)
        || others_have(set.vars.as_slice(), but, &axis.name)
}

// The axes that are left without a variable.
fn rest_axes(alloc: Global, set: &Dataset, name: &TextBytes) -> Result<Items<Axis>, AllocError>
    ensures { IfOk result (λ xs. xs ≡ made.rest_axes name.now set.now) }
{
    let axes = set.axes.as_slice();
    let mut out = Items::new(alloc);
    for axis in axes {
        if is_kept(set, name, axis) {
            out.push(axis.deep_copy(alloc)?)?;
        }
    }
    Ok(out)
}

// ---- checks

fn aligned_left(alloc: Global, rest: &[Axis], theirs: &[Axis]) -> Result<Items<Axis>, CallFault>
    ensures { Answers (λ (xs : List AnAxis). xs) result (alignment.aligned hows.Left false (rest.now ∷ theirs.now ∷ [])) }
{
    if !have_few(rest) || !have_few(theirs) {
        return Err(CallFault::NoMemory);
    }
    aligned(alloc, &[rest, theirs], How::Left, false)
}

fn is_reserved(axes: &[Axis], coords: &[Coord], name: &TextBytes) -> bool
    ensures { result ≡ calls.is_reserved axes.now coords.now name.now }
{
    has_axis(axes, name) || has_coord(coords, name)
}

fn meet(array: &DataArray, but: &TextBytes, vars: &[Variable]) -> bool
    ensures { result ≡ list_any (λ (v : Var). calls.has_coord array.now.coords v.name || calls.has_index array.now.axes v.name) (made.others but.now vars.now) }
{
    match vars {
        [] => false,
        [var, rest @ ..] => {
            if var.name.is(but) {
                meet(array, but, rest)
            } else {
                has_coord(array.coords.as_slice(), &var.name)
                    || has_index(array.axes.as_slice(), &var.name)
                    || meet(array, but, rest)
            }
        }
    }
}

fn is_taken(rest: &[Axis], set: &Dataset, name: &TextBytes, array: &DataArray) -> bool
    ensures { result ≡ made.is_taken rest.now set.now name.now array.now }
{
    is_reserved(rest, set.coords.as_slice(), name)
        || is_reserved(array.axes.as_slice(), array.coords.as_slice(), name)
        || meet(array, name, set.vars.as_slice())
}

// ---- what stays

fn axes_stay(axes: &[Axis], own: &[Axis]) -> bool
    ensures { result ≡ true → AllByRecursion (Stays axes.now) own.now }
{
    match own {
        [] => true,
        [axis, rest @ ..] => {
            has_axis(axes, &axis.name)
                && joined_in(axes, axis).size == axis.size
                && axes_stay(axes, rest)
        }
    }
}

fn are_named(axes: &[Axis], theirs: &[Axis]) -> bool
    ensures { result ≡ true → AllByRecursion (λ (x : AnAxis). among (axis_names axes.now) x.name ≡ true) theirs.now }
{
    match theirs {
        [] => true,
        [axis, rest @ ..] => has_axis(axes, &axis.name) && are_named(axes, rest),
    }
}

/// Whether no coordinate and no index has the name of a variable.
pub fn are_apart(axes: &[Axis], coords: &[Coord], vars: &[Variable]) -> bool
    ensures { result ≡ true → AllByRecursion (IsApart axes.now coords.now) vars.now }
{
    match vars {
        [] => true,
        [var, rest @ ..] => {
            !has_index(axes, &var.name)
                && !has_coord(coords, &var.name)
                && are_apart(axes, coords, rest)
        }
    }
}

// ---- what is made

fn coords_with(
    alloc: Global,
    axes: &[Axis],
    own: &[Coord],
    new: &[Coord],
) -> Result<Items<Coord>, AllocError>
    ensures { IfOk result (λ cs. cs ≡ made.coords_with axes.now own.now new.now) }
{
    let mut out = Items::new(alloc);
    for coord in own {
        if !has_axis(axes, &coord.name) {
            out.push(Coord {
                name: coord.name.deep_copy(alloc)?,
                axes: axes_after(alloc, axes, coord.axes.as_slice())?,
                attrs: coord.attrs.deep_copy(alloc)?,
                content: copy_content(alloc, &coord.content)?,
            })?;
        }
    }
    for other in new {
        if !has_coord(own, &other.name) && !has_axis(axes, &other.name) {
            out.push(copy_coord(alloc, other)?)?;
        }
    }
    Ok(out)
}

fn variable_of(alloc: Global, name: &TextBytes, array: &DataArray) -> Result<Variable, AllocError>
    ensures { IfOk result (λ v. v ≡ made.variable_of name.now array.now) }
{
    Ok(Variable {
        name: name.deep_copy(alloc)?,
        dims: names_of(alloc, array.axes.as_slice())?,
        kind: array.kind,
        masked: array.masked,
        attrs: array.attrs.deep_copy(alloc)?,
        node: array.node,
    })
}

fn vars_with(
    alloc: Global,
    vars: &Variables,
    name: &TextBytes,
    array: &DataArray,
) -> Result<Variables, AllocError>
    ensures { IfOk result (λ vs. vs ≡ with_variable vars.now (made.variable_of name.now array.now)) }
{
    let mut all = vars.deep_copy(alloc)?;
    all.put(alloc, variable_of(alloc, name, array)?)?;
    Ok(all)
}

/// Whether an axis has labels, or is one of a coordinate or a variable.
pub fn is_held(coords: &[Coord], vars: &[Variable], axis: &Axis) -> bool
    ensures { result ≡ is_busy coords.now vars.now axis.now }
{
    axis.labels.is_some() || coords_have(coords, &axis.name) || vars_have(vars, &axis.name)
}

fn vars_have(vars: &[Variable], name: &TextBytes) -> bool
    ensures { result ≡ list_any (λ (v : Var). among v.dims name.now) vars.now }
{
    vars.iter().any(|var| is_among(var.dims.as_slice(), name))
}

// Names that meet, which those that are checked don't, want memory.
#[tactic(auto, unfolding(xr_parts::specs::Kept::is_held))]
fn set_with(
    alloc: Global,
    axes: &[Axis],
    set: &Dataset,
    name: &TextBytes,
    array: &DataArray,
) -> Result<Dataset, NoMemory>
    ensures is { IfOk result (λ t. t ≡ made.set_with axes.now set.now name.now array.now) }
    ensures apart { IfOk result (λ t. AllByRecursion (IsApart axes.now t.coords) t.vars) }
{
    let coords = coords_with(alloc, axes, set.coords.as_slice(), array.coords.as_slice())?;
    let vars = vars_with(alloc, &set.vars, name, array)?;
    if !are_apart(axes, coords.as_slice(), vars.as_slice()) {
        return Err(NoMemory);
    }
    let axes = axes_kept(alloc, coords.as_slice(), vars.as_slice(), axes)?;
    Ok(Dataset {
        axes,
        coords,
        vars,
        attrs: set.attrs.deep_copy(alloc)?,
        skipped: set.skipped.deep_copy(alloc)?,
    })
}

// The dataset with the variable over joined axes, which leave the dataset's own axes in their sizes; others want memory.
fn placed(
    alloc: Global,
    plan: &mut Plan,
    axes: &[Axis],
    rest: &[Axis],
    set: &Dataset,
    name: &TextBytes,
    array: &DataArray,
) -> Result<Dataset, NoMemory>
    requires rest { rest.now ≡ made.rest_axes name.now set.now }
    requires set { IsDatasetIn plan.old set.now }
    requires array { IsArrayIn plan.old array.now }
    ensures placed { AreLoose axes.now → is_name name.now ≡ true → IfOk result (IsPlaced plan.old plan.new axes.now set.now name.now array.now) }
    ensures grows { Grows plan.old plan.new }
{
    if !are_short(axes) || !axes_stay(axes, rest) || !are_named(axes, array.axes.as_slice()) {
        return Err(NoMemory);
    }
    let value = array_after(alloc, plan, axes, None, array)?;
    let placed = set_with(alloc, axes, set, name, &value)?;
    Ok(placed)
}

// The joined axes, once nothing speaks against the names.
fn joined_with(
    alloc: Global,
    rest: &[Axis],
    set: &Dataset,
    name: &TextBytes,
    array: &DataArray,
) -> Result<Items<Axis>, CallFault>
    requires { rest.now ≡ made.rest_axes name.now set.now }
    ensures axes { (nodes : List Node) → Answers (λ (xs : List AnAxis). xs) result (made.joined_with (dataset_in nodes set.now) name.now (array_in nodes array.now)) }
    ensures loose { (nodes : List Node) → IsDatasetIn nodes set.now → IsArrayIn nodes array.now → IfOk result AreLoose }
{
    let axes = aligned_left(alloc, rest, array.axes.as_slice())?;
    if is_taken(rest, set, name, array) {
        return Err(CallFault::Refused(Fault::DuplicateName));
    }
    Ok(axes)
}

/// The dataset with an array as its variable of this name, in the place of one of that name or at the end. The array comes over the
/// dataset's labels, each of which it has; its other axes and coordinates are added. Other variables stay, and what else names
/// the dataset keeps what it had. Cells are those of nodes that are added.
///
/// # Errors
/// The first of: `BadArgument` for an empty name; of the dimensions in the dataset's order, the first that can't be joined;
/// `DuplicateName` where a dimension or coordinate of either has the name, or a coordinate or index of the array that of another
/// variable; `TooLarge` past the limits.
pub fn variable_assigned(
    alloc: Global,
    plan: &mut Plan,
    set: &Dataset,
    name: &TextBytes,
    array: &DataArray,
) -> Result<Dataset, CallFault>
    requires set { IsDatasetIn plan.old set.now }
    requires array { IsArrayIn plan.old array.now }
    ensures answers { AnswersSet plan.new result (calls.variable_assigned (dataset_in plan.old set.now) name.now (array_in plan.old array.now)) }
    ensures grows { Grows plan.old plan.new }
{
    if name.as_str().len() == 0 {
        return Err(CallFault::Refused(Fault::BadArgument));
    }
    let rest = rest_axes(alloc, set, name)?;
    let rest = rest.as_slice();
    let axes = joined_with(alloc, rest, set, name, array)?;
    let made = placed(alloc, plan, axes.as_slice(), rest, set, name, array)?;
    if !is_set_within(&made) {
        return Err(CallFault::Refused(Fault::TooLarge));
    }
    Ok(made)
}
