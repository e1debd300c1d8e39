//! What a method of a grouped dataset is asked, and what refuses it.
ghost use Rattle.std.specs.Prelude.{◌≡◌, ◌-◌, ◌^◌, List, map, min, option_map, IfOk};
ghost use Rattle.xr_types.specs.Names.{shape_over};
ghost use Rattle.xr_types.specs.Points.{size};
ghost use Rattle.xr_types.specs.Results.{Answers, all_of};
ghost use Rattle.xr_arrays.specs.declared.node.Node.{Node};
ghost use Rattle.xr_defs.specs.Building.{element_cell};
ghost use Rattle.xr_groups.specs.Listed as lists;
ghost use Rattle.xr_groups.specs.Methods as methods;
ghost use Rattle.xr_operations.specs.Moves as moves;
ghost use Rattle.xr_operations.specs.Reductions as reductions;
ghost use Rattle.xr_values.specs.Meaning.{meaning};
ghost use Rattle.xr_values.specs.Stands.{variable_in};
ghost use Rattle.xr_values.specs.Variables as named;
ghost use Rattle.xr_group_sets.specs.Asked.{cell_given, check_range_at};

use crate::groupings::{dim_by, is_grouped};
use std::alloc::{AllocError, Global};
use xr_grouping::{check_given, fill_called, folded_kind};
use xr_groups::Change;
use xr_types::{Axis, CallFault, DeepCopy, Fault, FoldKind, Items, MOST_CELLS, Name, TextBytes};
use xr_values::{Value, Variable};

#[tactic(auto, using(xr_arguments::proofs::Variants::is_missing, xr_arguments::proofs::Variants::is_number, xr_arguments::proofs::Variants::is_truth, xr_values::proofs::Meaning::meaning_out))]
fn is_literal(value: &Value) -> bool
    ensures { (nodes : List Node) → result ≡ moves.is_literal (meaning nodes value.now) }
{
    match value {
        Value::Number(_) => true,
        Value::Truth(_) => true,
        Value::Missing => true,
        _ => false,
    }
}

/// Refuses a fill that is no literal.
#[tactic(auto, unfolding(xr_groups::specs::Methods::check_literal, xr_types::specs::Results::unless))]
pub(crate) fn check_literal(value: Option<&Value>) -> Result<(), CallFault>
    ensures { (nodes : List Node) → Answers (λ u. u) result (methods.check_literal (option_map (λ v. meaning nodes v.now) value.entry)) }
{
    match value {
        None => Ok(()),
        Some(value) => {
            if is_literal(value) {
                Ok(())
            } else {
                Err(CallFault::Refused(Fault::WrongKind))
            }
        }
    }
}

// The cell that a literal is.
#[tactic(auto, using(xr_arguments::proofs::Variants::is_number, xr_arguments::proofs::Variants::is_truth, xr_values::proofs::Meaning::meaning_out))]
fn cell_of(value: &Value) -> Option<i128>
    ensures { (nodes : List Node) → result ≡ element_cell (meaning nodes value.now) }
{
    match value {
        Value::Number(n) => Some(*n),
        Value::Truth(b) => Some(*b as i128),
        _ => None,
    }
}

/// The cell that a fill is, where one is given.
pub(crate) fn cell_given(value: Option<&Value>) -> Option<Option<i128>>
    ensures { (nodes : List Node) → result ≡ cell_given (option_map (λ v. meaning nodes v.now) value.entry) }
{
    match value {
        None => None,
        Some(value) => Some(cell_of(value)),
    }
}

// Refuses a fill that is no literal for the kind of a variable that is grouped.
#[tactic(auto, unfolding(xr_groups::specs::Methods::check_kind))]
fn check_kind(
    fold: FoldKind,
    changes: &[Change],
    fill: Option<&Value>,
    var: &Variable,
) -> Result<(), CallFault>
    ensures { (nodes others : List Node) → Answers (λ u. u) result (methods.check_kind fold (lists.dimensions changes.now) (option_map (λ v. meaning others v.now) fill.entry) (variable_in nodes var.now)) }
{
    if is_grouped(changes, var.dims.as_slice()) {
        let kind = folded_kind(fold, var.kind);
        let _fill = fill_called(kind, fill)?;
        Ok(())
    } else {
        Ok(())
    }
}

/// Refuses a fill that is no literal for the kind of one of these variables that is grouped.
pub(crate) fn check_kinds(
    fold: FoldKind,
    changes: &[Change],
    fill: Option<&Value>,
    vars: &[Variable],
) -> Result<(), CallFault>
    ensures { (nodes others : List Node) → Answers (λ u. u) result (all_of (methods.check_kind fold (lists.dimensions changes.now) (option_map (λ v. meaning others v.now) fill.entry)) (map (variable_in nodes) vars.now)) }
{
    match vars {
        [] => Ok(()),
        [var, rest @ ..] => {
            check_kind(fold, changes, fill, var)?;
            check_kinds(fold, changes, fill, rest)
        }
    }
}

/// Refuses a fill that isn't in the range of one of these variables that is grouped.
#[tactic(auto, unfolding(crate::specs::Asked::check_range_at))]
pub(crate) fn check_ranges(
    fold: FoldKind,
    changes: &[Change],
    fill: Option<Option<i128>>,
    vars: &[Variable],
) -> Result<(), CallFault>
    ensures { (nodes : List Node) → Answers (λ u. u) result (all_of (check_range_at fold changes.now fill) (map (variable_in nodes) vars.now)) }
{
    match vars {
        [] => Ok(()),
        [var, rest @ ..] => {
            if is_grouped(changes, var.dims.as_slice()) {
                check_given(folded_kind(fold, var.kind), fill)?;
            }
            check_ranges(fold, changes, fill, rest)
        }
    }
}

// The size of the axis of a name.
#[tactic(auto, using(xr_parts::proofs::Axes::called_cons))]
fn size_called(axes: &[Axis], name: &TextBytes) -> u64
    ensures { result ≡ reductions.size_called axes.now name.now }
{
    match axes {
        [] => 0,
        [axis, rest @ ..] => {
            if axis.name.is(name) {
                axis.size
            } else {
                size_called(rest, name)
            }
        }
    }
}

// The product of the sizes of dimensions that are grouped, as far as 64 bits count.
#[tactic(auto, using(xr_reducing::proofs::Products::saturates))]
fn points_by(changes: &[Change], axes: &[Axis], dims: &[Name]) -> u64
    ensures { result ≡ min (size (map (reductions.size_called axes.now) (map (lists.dim_by changes.now) dims.now))) (2 ^ 64 - 1) }
{
    match dims {
        [] => 1,
        [dim, rest @ ..] => {
            size_called(axes, dim_by(changes, dim)).saturating_mul(points_by(changes, axes, rest))
        }
    }
}

/// Refuses variables with more cells over the axes afterwards than an array may have.
#[tactic(auto, unfolding(xr_groups::specs::Methods::check_points, xr_operations::specs::Reductions::check_size, xr_types::specs::Results::unless))]
pub(crate) fn check_points(
    changes: &[Change],
    axes: &[Axis],
    after: &[Axis],
    vars: &[Variable],
) -> Result<(), CallFault>
    requires { after.now ≡ lists.axes_by changes.now axes.now }
    ensures { (nodes : List Node) → Answers (λ u. u) result (all_of (methods.check_points changes.now axes.now) (map (variable_in nodes) vars.now)) }
{
    match vars {
        [] => Ok(()),
        [var, rest @ ..] => {
            if points_by(changes, after, var.dims.as_slice()) > MOST_CELLS {
                return Err(CallFault::Refused(Fault::TooLarge));
            }
            check_points(changes, axes, after, rest)
        }
    }
}

/// The names of data variables.
pub(crate) fn names_of(alloc: Global, vars: &[Variable]) -> Result<Items<Name>, AllocError>
    ensures { IfOk result (λ ns. ns ≡ named.names_of vars.now) }
{
    let mut out = Items::new(alloc);
    for var in vars {
        out.push(var.name.deep_copy(alloc)?)?;
    }
    Ok(out)
}
