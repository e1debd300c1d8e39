//! What stands at labels that weren't there.
ghost use Rattle.std.specs.Prelude.{◌≡◌, List, map, option_map};
ghost use Rattle.xr_arrays.specs.declared.node.Node.{Node};
ghost use Rattle.xr_types.specs.Results.{Answers, all_of};
ghost use Rattle.xr_defs.specs.Building.{element_cell};
ghost use Rattle.xr_operations.specs.Moves as fills;
ghost use Rattle.xr_relations.specs.Reindexing as of;
ghost use Rattle.xr_values.specs.Meaning.{meaning};
ghost use Rattle.xr_values.specs.Stands.{variable_in};

use std::alloc::Global;
use xr_changing::{has_hole, names_of};
use xr_defs::{Content, Coord};
use xr_formulas::{check_fits, is_truths};
use xr_operations::Change;
use xr_types::{CallFault, DType, Fault, Name};
use xr_values::{Value, Variable};

// The cell that a fill is, for cells of this kind.
#[tactic(auto, using(xr_arguments::proofs::Variants::is_missing, xr_arguments::proofs::Variants::is_number, xr_arguments::proofs::Variants::is_truth, xr_values::proofs::Meaning::meaning_out), unfolding(xr_operations::specs::Moves::fill_for, xr_operations::specs::CellMethods::literal_for, xr_types::specs::Results::unless))]
fn fill_for(kind: DType, value: &Value) -> Result<Option<i128>, CallFault>
    ensures { (nodes : List Node) → Answers (λ n. n) result (fills.fill_for kind (meaning nodes value.now)) }
{
    match value {
        Value::Missing => Ok(None),
        Value::Number(n) if !is_truths(kind) => Ok(Some(*n)),
        Value::Truth(b) if is_truths(kind) => Ok(Some(*b as i128)),
        _ => Err(CallFault::Refused(Fault::WrongKind)),
    }
}

/// The cell that a fill is, where one is given, for cells of this kind.
///
/// # Errors
/// `WrongKind` unless it is `NA` or a literal of the kind.
#[tactic(auto, unfolding(xr_operations::specs::Moves::fill_called))]
pub fn fill_called(kind: DType, value: Option<&Value>) -> Result<Option<Option<i128>>, CallFault>
    ensures { (nodes : List Node) → Answers (λ n. n) result (fills.fill_called kind (option_map (λ v. meaning nodes v.now) value.entry)) }
{
    match value {
        None => Ok(None),
        Some(value) => {
            let fill = fill_for(kind, value)?;
            Ok(Some(fill))
        }
    }
}

#[tactic(auto, using(xr_arguments::proofs::Variants::is_missing, xr_arguments::proofs::Variants::is_number, xr_arguments::proofs::Variants::is_truth, xr_values::proofs::Meaning::meaning_out))]
fn is_literal(value: &Value) -> bool
    ensures { (nodes : List Node) → result ≡ fills.is_literal (meaning nodes value.now) }
{
    matches!(value, Value::Number(_) | Value::Truth(_) | Value::Missing)
}

/// Refuses a fill that is neither a literal nor `NA`.
#[tactic(auto, unfolding(xr_relations::specs::Reindexing::check_literal, xr_types::specs::Results::unless))]
pub fn check_literal(value: Option<&Value>) -> Result<(), CallFault>
    ensures { (nodes : List Node) → Answers (λ u. u) result (of.check_literal (option_map (λ v. meaning nodes v.now) value.entry)) }
{
    match value {
        Some(value) if !is_literal(value) => Err(CallFault::Refused(Fault::WrongKind)),
        _ => Ok(()),
    }
}

#[tactic(auto, using(xr_arguments::proofs::Variants::is_number, xr_arguments::proofs::Variants::is_truth, xr_values::proofs::Meaning::meaning_out))]
fn literal_cell(value: &Value) -> Option<i128>
    ensures { (nodes : List Node) → result ≡ element_cell (meaning nodes value.now) }
{
    match value {
        Value::Number(n) => Some(*n),
        Value::Truth(b) => Some(*b as i128),
        _ => None,
    }
}

/// The number that fills, or none where missing cells do.
pub fn cell_of(value: Option<&Value>) -> Option<i128>
    ensures { (nodes : List Node) → result ≡ element_cell (of.fill_or_missing (option_map (λ v. meaning nodes v.now) value.entry)) }
{
    match value {
        None => None,
        Some(value) => literal_cell(value),
    }
}

// ---- whether it fits

/// Refuses a fill that isn't one for cells of this kind over these dimensions, where some position shows no old one.
///
/// # Errors
/// `WrongKind`, then `DoesNotFit`.
#[tactic(auto, unfolding(xr_relations::specs::Reindexing::check_fit, xr_operations::specs::Moves::fill_for, xr_operations::specs::Moves::check_fill))]
pub fn check_fit(
    changes: &[Change],
    value: Option<&Value>,
    dims: &[Name],
    kind: DType,
) -> Result<(), CallFault>
    ensures { (nodes : List Node) → Answers (λ u. u) result (of.check_fit changes.now (of.fill_or_missing (option_map (λ v. meaning nodes v.now) value.entry)) dims.now kind) }
{
    match value {
        Some(value) if has_hole(changes, dims) => match fill_for(kind, value)? {
            Some(n) => check_fits(kind, n),
            None => Ok(()),
        },
        _ => Ok(()),
    }
}

#[tactic(auto, unfolding(xr_relations::specs::Reindexing::check_coord))]
fn check_coord(
    alloc: Global,
    changes: &[Change],
    value: Option<&Value>,
    coord: &Coord,
) -> Result<(), CallFault>
    ensures { (nodes : List Node) → Answers (λ u. u) result (of.check_coord changes.now (of.fill_or_missing (option_map (λ v. meaning nodes v.now) value.entry)) coord.now) }
{
    match &coord.content {
        Content::Cells(cells, _) => {
            let names = names_of(alloc, coord.axes.as_slice())?;
            check_fit(changes, value, names.as_slice(), cells.kind())
        }
        _ => Ok(()),
    }
}

/// Refuses a fill that isn't one for the cells of each coordinate along the changes.
pub fn check_coords(
    alloc: Global,
    changes: &[Change],
    value: Option<&Value>,
    coords: &[Coord],
) -> Result<(), CallFault>
    ensures { (nodes : List Node) → Answers (λ u. u) result (all_of (of.check_coord changes.now (of.fill_or_missing (option_map (λ v. meaning nodes v.now) value.entry))) coords.now) }
{
    match coords {
        [] => Ok(()),
        [coord, rest @ ..] => {
            check_coord(alloc, changes, value, coord)?;
            check_coords(alloc, changes, value, rest)
        }
    }
}

#[tactic(auto, unfolding(xr_relations::specs::Reindexing::check_variable))]
fn check_variable(
    changes: &[Change],
    value: Option<&Value>,
    var: &Variable,
) -> Result<(), CallFault>
    ensures { (nodes others : List Node) → Answers (λ u. u) result (of.check_variable changes.now (of.fill_or_missing (option_map (λ v. meaning others v.now) value.entry)) (variable_in nodes var.now)) }
{
    check_fit(changes, value, var.dims.as_slice(), var.kind)
}

/// Refuses a fill that isn't one for the cells of each variable along the changes.
pub fn check_variables(
    changes: &[Change],
    value: Option<&Value>,
    vars: &[Variable],
) -> Result<(), CallFault>
    ensures { (nodes others : List Node) → Answers (λ u. u) result (all_of (of.check_variable changes.now (of.fill_or_missing (option_map (λ v. meaning others v.now) value.entry))) (map (variable_in nodes) vars.now)) }
{
    match vars {
        [] => Ok(()),
        [var, rest @ ..] => {
            check_variable(changes, value, var)?;
            check_variables(changes, value, rest)
        }
    }
}
