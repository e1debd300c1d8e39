//! Which variables and dimensions values have that are put together along a dimension.
ghost use Rattle.std.specs.Prelude.{◌≡◌, ◌||◌, List, flat_map, map, find, not, option_map};
ghost use Rattle.std.specs.List.{list_all, list_any};
ghost use Rattle.xr_arrays.specs.declared.node.Node.{Node};
ghost use Rattle.xr_types.specs.Names.{among, axis_names};
ghost use Rattle.xr_types.specs.Results.{Answers};
ghost use Rattle.xr_defs.specs.Meanings as meant;
ghost use Rattle.xr_combination.specs.Concat as calls;
ghost use Rattle.xr_combination.specs.Pieces as pieces;
ghost use Rattle.xr_values.specs.Meaning.{meaning};
ghost use Rattle.xr_values.specs.Stands.{array_in, dataset_in};
ghost use Rattle.xr_chaining.specs.Sets.{is_lacked_in, names_in};

use std::alloc::Global;
use xr_defs::Coord;
use xr_types::{Axis, CallFault, DeepCopy, Fault, Name};
use xr_values::{DataArray, Dataset, Value, Variable};

// ---- the same data variables in all

fn has_variable(vars: &[Variable], name: &Name) -> bool
    ensures { (nodes : List Node) → result ≡ among (names_in nodes vars.now) name.now }
{
    match vars {
        [] => false,
        [var, rest @ ..] => name.is(&var.name) || has_variable(rest, name),
    }
}

#[tactic(auto, unfolding(crate::specs::Sets::is_lacked_in))]
fn is_lacked(sets: &[Dataset], name: &Name) -> bool
    ensures { (nodes : List Node) → result ≡ is_lacked_in nodes sets.now name.now }
{
    match sets {
        [] => false,
        [set, rest @ ..] => !has_variable(set.vars.as_slice(), name) || is_lacked(rest, name),
    }
}

fn first_lacked_of<'a>(sets: &[Dataset], vars: &'a [Variable]) -> Option<&'a Name>
    ensures { (nodes : List Node) → option_map (λ n. n.now) result ≡ find (is_lacked_in nodes sets.now) (names_in nodes vars.now) }
{
    match vars {
        [] => None,
        [var, rest @ ..] => {
            if is_lacked(sets, &var.name) {
                Some(&var.name)
            } else {
                first_lacked_of(sets, rest)
            }
        }
    }
}

#[tactic(auto, using(crate::proofs::Searched::found_here))]
fn first_lacked<'a>(sets: &[Dataset], rest: &'a [Dataset]) -> Option<&'a Name>
    ensures { (nodes : List Node) → option_map (λ n. n.now) result ≡ find (is_lacked_in nodes sets.now) (flat_map calls.set_names (map (dataset_in nodes) rest.now)) }
{
    match rest {
        [] => None,
        [set, rest @ ..] => match first_lacked_of(sets, set.vars.as_slice()) {
            Some(name) => Some(name),
            None => first_lacked(sets, rest),
        },
    }
}

/// Refuses datasets that haven't all the same data variables.
///
/// # Errors
/// `NoVariable` with the first name, in their order, that another lacks.
#[tactic(auto, unfolding(xr_combination::specs::Concat::check_variables, crate::specs::Sets::is_lacked_in))]
pub fn check_variables(alloc: Global, sets: &[Dataset]) -> Result<(), CallFault>
    ensures { (nodes : List Node) → Answers (λ u. u) result (calls.check_variables (map (dataset_in nodes) sets.now)) }
{
    match first_lacked(sets, sets) {
        None => Ok(()),
        Some(name) => Err(CallFault::Refused(Fault::NoVariable(name.deep_copy(alloc)?))),
    }
}

// ---- the dimension

/// Whether an axis has this name.
pub fn has_axis(axes: &[Axis], name: &Name) -> bool
    ensures { result ≡ among (axis_names axes.now) name.now }
{
    match axes {
        [] => false,
        [axis, rest @ ..] => name.is(&axis.name) || has_axis(rest, name),
    }
}

fn all_have(sets: &[Dataset], dim: &Name) -> bool
    ensures { (nodes : List Node) → result ≡ list_all (calls.has_dimension dim.now) (map (dataset_in nodes) sets.now) }
{
    match sets {
        [] => true,
        [set, rest @ ..] => has_axis(set.axes.as_slice(), dim) && all_have(rest, dim),
    }
}

fn some_has(sets: &[Dataset], dim: &Name) -> bool
    ensures { (nodes : List Node) → result ≡ list_any (calls.has_dimension dim.now) (map (dataset_in nodes) sets.now) }
{
    match sets {
        [] => false,
        [set, rest @ ..] => has_axis(set.axes.as_slice(), dim) || some_has(rest, dim),
    }
}

fn is_along(dim: &Name, coord: &Coord) -> bool
    ensures { result ≡ calls.is_along_of dim.now coord.now }
{
    coord.name.is(dim) && coord.axes.as_slice().len() != 0
}

fn some_along(dim: &Name, coords: &[Coord]) -> bool
    ensures { result ≡ list_any (calls.is_along_of dim.now) coords.now }
{
    match coords {
        [] => false,
        [coord, rest @ ..] => is_along(dim, coord) || some_along(dim, rest),
    }
}

fn is_called(array: &DataArray, name: &Name) -> bool
    ensures { result ≡ among (pieces.name_list array.now.name) name.now }
{
    match &array.name {
        None => false,
        Some(own) => name.is(own),
    }
}

fn array_has_name(dim: &Name, array: &DataArray) -> bool
    ensures { (nodes : List Node) → result ≡ calls.has_name dim.now (meant.Array (array_in nodes array.now)) }
{
    is_called(array, dim) || some_along(dim, array.coords.as_slice())
}

fn set_has_name(dim: &Name, set: &Dataset) -> bool
    ensures { (nodes : List Node) → result ≡ calls.has_name dim.now (meant.Set (dataset_in nodes set.now)) }
{
    has_variable(set.vars.as_slice(), dim) || some_along(dim, set.coords.as_slice())
}

#[tactic(auto, using(xr_values::proofs::Meaning::meaning_out))]
fn has_name(dim: &Name, value: &Value) -> bool
    ensures { (nodes : List Node) → result ≡ calls.has_name dim.now (meaning nodes value.now) }
{
    match value {
        Value::Array(array) => array_has_name(dim, array),
        Value::Set(set) => set_has_name(dim, set),
        _ => false,
    }
}

fn some_has_name(dim: &Name, values: &[Value]) -> bool
    ensures { (nodes : List Node) → result ≡ list_any (calls.has_name dim.now) (map (meaning nodes) values.now) }
{
    match values {
        [] => false,
        [value, rest @ ..] => has_name(dim, value) || some_has_name(dim, rest),
    }
}

fn suits(sets: &[Dataset], dim: &Name) -> bool
    ensures { (nodes : List Node) → result ≡ (list_all (calls.has_dimension dim.now) (map (dataset_in nodes) sets.now) || not (list_any (calls.has_dimension dim.now) (map (dataset_in nodes) sets.now))) }
{
    all_have(sets, dim) || !some_has(sets, dim)
}

/// Refuses a dimension along which values can't be put together.
///
/// # Errors
/// `NoDimension` where some of them have it and others don't; then `DuplicateName` where a data variable, or a coordinate over
/// dimensions, has its name.
#[tactic(auto, unfolding(xr_combination::specs::Concat::check_dimension, xr_types::specs::Results::unless))]
pub fn check_dimension(
    alloc: Global,
    dim: &Name,
    values: &[Value],
    sets: &[Dataset],
) -> Result<(), CallFault>
    ensures { (nodes : List Node) → Answers (λ u. u) result (calls.check_dimension dim.now (map (meaning nodes) values.now) (map (dataset_in nodes) sets.now)) }
{
    if !suits(sets, dim) {
        return Err(CallFault::Refused(Fault::NoDimension(dim.deep_copy(alloc)?)));
    }
    if some_has_name(dim, values) {
        return Err(CallFault::Refused(Fault::DuplicateName));
    }
    Ok(())
}
