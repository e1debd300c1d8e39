//! Arrays as datasets of one variable: `to_dataset(name)`.
ghost use Rattle.std.specs.Prelude.{◌+◌, ◌||◌, ◌≡◌};
ghost use Rattle.xr_parts.specs.Common.{Answers, AnswersSet, Coord as Other, IfOk, IsArrayIn, List, Node, among, array_in, axis_names, bytes_eq, codes, given, is_name, length, list_any, meaning, most_variables, nat_le, true};
ghost use Rattle.xr_defs.specs.Parts as of;
ghost use Rattle.xr_parts.specs.Single.{is_bare, set_of};

use crate::names::{new_name, own_name};
use std::alloc::{AllocError, Global};
use xr_arguments::only;
use xr_defs::Coord;
use xr_types::{Axis, CallFault, DeepCopy, Fault, Items, MOST_VARIABLES, Name, TextBytes};
use xr_values::{Args, DataArray, Dataset, Value, Variable, Variables, copy_coords};

/// Whether an axis has this name.
pub fn has_axis(axes: &[Axis], name: &TextBytes) -> bool
    ensures { result ≡ among (axis_names axes.now) name.now }
{
    match axes {
        [] => false,
        [axis, rest @ ..] => name.is(&axis.name) || has_axis(rest, name),
    }
}

/// Whether a coordinate has this name.
pub(crate) fn has_coord(coords: &[Coord], name: &TextBytes) -> bool
    ensures { result ≡ list_any (λ (c : Other). bytes_eq c.name name.now) coords.now }
{
    coords.iter().any(|coord| coord.name.is(name))
}

fn names_of(alloc: Global, axes: &[Axis]) -> Result<Items<Name>, AllocError>
    ensures { IfOk result (λ names. names ≡ axis_names axes.now) }
{
    let mut names = Items::new(alloc);
    for axis in axes {
        names.push(axis.name.deep_copy(alloc)?)?;
    }
    Ok(names)
}

// Whether a dimension or a coordinate has the name.
fn is_taken(on: &DataArray, name: &TextBytes) -> bool
    ensures { result ≡ (among (axis_names on.now.axes) name.now || list_any (λ (c : Other). bytes_eq c.name name.now) on.now.coords) }
{
    has_axis(on.axes.as_slice(), name) || has_coord(on.coords.as_slice(), name)
}

// Whether there is a place for a variable beside the coordinates.
fn has_room(on: &DataArray) -> bool
    ensures { result ≡ nat_le (length on.now.coords + 1) most_variables }
{
    on.coords.as_slice().len() + 1 <= MOST_VARIABLES
}

fn set_of(alloc: Global, name: &TextBytes, on: &DataArray) -> Result<Dataset, AllocError>
    ensures { IfOk result (λ s. s ≡ set_of name.now on.now) }
{
    let mut vars = Variables::new(alloc);
    let variable = Variable {
        name: name.deep_copy(alloc)?,
        dims: names_of(alloc, on.axes.as_slice())?,
        kind: on.kind,
        masked: on.masked,
        attrs: on.attrs.deep_copy(alloc)?,
        node: on.node,
    };
    vars.put(alloc, variable)?;
    Ok(Dataset {
        axes: on.axes.deep_copy(alloc)?,
        coords: copy_coords(alloc, on.coords.as_slice())?,
        vars,
        attrs: Items::new(alloc),
        skipped: Items::new(alloc),
    })
}

/// An array as the dataset of one variable of this name.
///
/// # Errors
/// `DuplicateName` where a dimension or a coordinate has the name; then `TooLarge` where its coordinates and the variable
/// are more than a dataset may have. The rest of an array is within the limits.
#[tactic(auto, using(crate::proofs::Alone::taken_name, crate::proofs::Alone::too_many))]
pub fn as_set(alloc: Global, name: &TextBytes, on: &DataArray) -> Result<Dataset, CallFault>
    ensures { (nodes : List Node) → IsArrayIn nodes on.now → is_name name.now ≡ true → AnswersSet nodes result (of.as_set name.now (array_in nodes on.now)) }
{
    if is_taken(on, name) {
        return Err(CallFault::Refused(Fault::DuplicateName));
    }
    if !has_room(on) {
        return Err(CallFault::Refused(Fault::TooLarge));
    }
    Ok(set_of(alloc, name, on)?)
}

// `None` stands for the array's own name.
#[tactic(auto, using(xr_arguments::proofs::Variants::is_absent, xr_values::proofs::Meaning::meaning_out), unfolding(xr_defs::specs::Parts::name_given))]
fn name_given<'a>(on: &'a DataArray, value: &'a Value) -> Result<&'a TextBytes, CallFault>
    ensures answers { (nodes : List Node) → Answers (λ t. t.now) result (of.name_given (array_in nodes on.now) (meaning nodes value.now)) }
    ensures named { (nodes : List Node) → IsArrayIn nodes on.now → IfOk result (λ t. is_name t.now ≡ true) }
{
    match value {
        Value::Absent => own_name(on),
        _ => new_name(value),
    }
}

#[tactic(auto, unfolding(xr_values::specs::Meaning::given))]
fn is_bare(args: &Args) -> bool
    ensures { (nodes : List Node) → result ≡ is_bare (given nodes args.now) }
{
    args.plain.len() == 0 && args.keyed.len() == 0
}

#[tactic(auto, using(crate::proofs::Naming::asked_name))]
fn set_name<'a>(on: &'a DataArray, args: &'a Args) -> Result<&'a TextBytes, CallFault>
    ensures answers { (nodes : List Node) → Answers (λ t. t.now) result (of.set_name (array_in nodes on.now) (given nodes args.now)) }
    ensures named { (nodes : List Node) → IsArrayIn nodes on.now → IfOk result (λ t. is_name t.now ≡ true) }
{
    if is_bare(args) {
        own_name(on)
    } else {
        name_given(on, only(args, "name")?)
    }
}

/// An array as the dataset of one variable.
///
/// # Errors
/// `BadArgument` unless there is no argument, or one that is plain or named `name`; then `WrongKind` unless it is a text or
/// `None`; then `BadArgument` for the empty text, or where the array's own name is asked for and it has none; then those of
/// `as_set`.
#[tactic(auto, unfolding(xr_defs::specs::Parts::to_dataset))]
pub fn to_dataset(alloc: Global, on: &DataArray, args: &Args) -> Result<Dataset, CallFault>
    ensures { (nodes : List Node) → IsArrayIn nodes on.now → AnswersSet nodes result (of.to_dataset (array_in nodes on.now) (given nodes args.now)) }
{
    let name = set_name(on, args)?;
    as_set(alloc, name, on)
}
