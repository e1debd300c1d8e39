//! `shift(DIM, fill_value)` of a dataset.
ghost use Rattle.std.specs.Prelude.{◌≡◌, ◌∷◌, List, [], true, map, option_map, IfOk};
ghost use Rattle.xr_types.specs.Results.{Answers, all_of, unless};
ghost use Rattle.xr_types.specs.declared.fault.Fault.TheVariants.{WrongKind};
ghost use Rattle.xr_arrays.specs.declared.node.Node.{Node};
ghost use Rattle.xr_arrays.specs.Added.{AddsAtMost};
ghost use Rattle.xr_defs.specs.Building.{element_cell};
ghost use Rattle.xr_defs.specs.Room.{of_set, room};
ghost use Rattle.plan_core.specs.Plans.{Grows};
ghost use Rattle.xr_operations.specs.Moves as of;
ghost use Rattle.xr_values.specs.Answers.{AnswersSet};
ghost use Rattle.xr_values.specs.Meaning.{given, meaning};
ghost use Rattle.xr_values.specs.Stands.{dataset_in, variable_in, IsDatasetIn};
ghost use Rattle.xr_moving.specs.Sets.{AnswersSetMade};
ghost use Rattle.xr_moving.specs.Steps.{check_kind, check_kinds_by, check_range, shifted_by, typed_shift_set};

use crate::fills::{check_fill, fill_for, fill_given};
use crate::moves::{Move, Moves, is_moved};
use crate::names::{check_dimensions, distances};
use crate::set_moves::set_moved;
use crate::sets::{SetMade, realize_set};
use plan_core::Plan;
use std::alloc::Global;
use xr_types::{CallFault, Fault, Items, TextBytes};
use xr_values::{Args, Dataset, Value, Variable};

#[tactic(auto, using(xr_arguments::proofs::Variants::is_missing, xr_arguments::proofs::Variants::is_number, xr_arguments::proofs::Variants::is_truth, xr_values::proofs::Meaning::meaning_out))]
fn is_literal(value: &Value) -> bool
    ensures { (nodes : List Node) → result ≡ of.is_literal (meaning nodes value.now) }
{
    match value {
        Value::Number(_) => true,
        Value::Truth(_) => true,
        Value::Missing => true,
        _ => false,
    }
}

// The cell that a literal is.
#[tactic(auto, using(xr_arguments::proofs::Variants::is_number, xr_arguments::proofs::Variants::is_truth, xr_values::proofs::Meaning::meaning_out))]
fn cell_of(value: &Value) -> Option<i128>
    ensures { (nodes : List Node) → result ≡ element_cell (meaning nodes value.now) }
{
    match value {
        Value::Number(n) => Some(*n),
        Value::Truth(b) => Some(*b as i128),
        _ => None,
    }
}

// Refuses a fill that is no literal for one of these variables that moves.
#[tactic(auto, unfolding(crate::specs::Steps::check_kind))]
fn check_each_kind(
    bys: &[(TextBytes, i128)],
    value: &Value,
    vars: &[Variable],
) -> Result<(), CallFault>
    ensures { (nodes others : List Node) → Answers (λ u. u) result (all_of (check_kind bys.now (meaning others value.now)) (map (variable_in nodes) vars.now)) }
{
    match vars {
        [] => Ok(()),
        [var, rest @ ..] => {
            if is_moved(bys, var.dims.as_slice()) {
                fill_for(var.kind, value)?;
            }
            check_each_kind(bys, value, rest)
        }
    }
}

#[tactic(auto, unfolding(xr_types::specs::Results::unless))]
fn check_literal(value: &Value) -> Result<(), CallFault>
    ensures { (nodes : List Node) → Answers (λ u. u) result (unless (of.is_literal (meaning nodes value.now)) WrongKind) }
{
    if is_literal(value) {
        Ok(())
    } else {
        Err(CallFault::Refused(Fault::WrongKind))
    }
}

#[tactic(auto, unfolding(crate::specs::Steps::check_kinds_by))]
fn check_kinds(
    bys: &[(TextBytes, i128)],
    value: Option<&Value>,
    vars: &[Variable],
) -> Result<(), CallFault>
    ensures { (nodes others : List Node) → Answers (λ u. u) result (check_kinds_by bys.now (option_map (λ v. meaning others v.now) value.entry) (map (variable_in nodes) vars.now)) }
{
    match value {
        None => Ok(()),
        Some(value) => {
            check_literal(value)?;
            check_each_kind(bys, value, vars)
        }
    }
}

// Refuses a fill that isn't in the range of one of these variables that moves.
#[tactic(auto, unfolding(crate::specs::Steps::check_range))]
fn check_ranges(
    bys: &[(TextBytes, i128)],
    value: &Value,
    vars: &[Variable],
) -> Result<(), CallFault>
    ensures { (nodes others : List Node) → Answers (λ u. u) result (all_of (check_range bys.now (meaning others value.now)) (map (variable_in nodes) vars.now)) }
{
    match vars {
        [] => Ok(()),
        [var, rest @ ..] => {
            if is_moved(bys, var.dims.as_slice()) {
                check_fill(var.kind, fill_for(var.kind, value)?)?;
            }
            check_ranges(bys, value, rest)
        }
    }
}

// The moved dataset, once its fill is one that each variable can have.
fn shift_by(
    alloc: Global,
    on: &Dataset,
    by: Items<(TextBytes, i128)>,
    value: &Value,
) -> Result<SetMade, CallFault>
    ensures { (nodes others : List Node) → IsDatasetIn nodes on.now → of.is_literal (meaning others value.now) ≡ true → AnswersSetMade nodes result (shifted_by by (meaning others value.now) (dataset_in nodes on.now)) }
{
    check_ranges(by.as_slice(), value, on.vars.as_slice())?;
    let how = Move::Shift;
    let fill = cell_of(value);
    let moves = Moves { how, fill, by };
    let made = set_moved(alloc, &moves, on)?;
    Ok(made)
}

// The checks of `shift` in their order, and then what it makes.
#[tactic(auto, using(crate::proofs::ShiftedSets::kinds_literal), unfolding(crate::specs::Steps::typed_shift_set, xr_operations::specs::Moves::needed, xr_types::specs::Results::unless, xr_values::specs::Meaning::given))]
fn typed_shift(alloc: Global, on: &Dataset, args: &Args) -> Result<SetMade, CallFault>
    ensures { (nodes others : List Node) → IsDatasetIn nodes on.now → AnswersSetMade nodes result (typed_shift_set (dataset_in nodes on.now) (given others args.now)) }
{
    if args.plain.len() != 0 {
        return Err(CallFault::Refused(Fault::BadArgument));
    }
    let by = distances(alloc, true, args.keyed.as_slice())?;
    let value = fill_given(args);
    check_kinds(by.as_slice(), value, on.vars.as_slice())?;
    check_dimensions(alloc, on.axes.as_slice(), true, args.keyed.as_slice())?;
    match value {
        None => Err(CallFault::Refused(Fault::WouldPromote)),
        Some(value) => shift_by(alloc, on, by, value),
    }
}

/// A dataset with the cells of its variables moved along each dimension that an argument names, and `fill_value` where none
/// moves in.
///
/// # Errors
/// `BadArgument` for a plain argument; then `WrongKind` for a fill that is neither `NA` nor a literal of the kind of each
/// variable that moves, and for an argument that is no whole number; then `NoDimension` for the first name that is no
/// dimension; then `WouldPromote` where no fill is given; then `DoesNotFit`.
pub fn set_shifted(
    alloc: Global,
    plan: &mut Plan,
    on: &Dataset,
    args: &Args,
) -> Result<Dataset, CallFault>
    requires { IsDatasetIn plan.old on.now }
    ensures answers { (nodes : List Node) → AnswersSet plan.new result (of.shift_set (dataset_in plan.old on.now) (given nodes args.now)) }
    ensures grows { Grows plan.old plan.new }
    ensures room { IfOk result (λ t. AddsAtMost plan.old plan.new (room (of_set (dataset_in plan.old on.now) ∷ of_set (dataset_in plan.new t) ∷ []))) }
{
    let made = typed_shift(alloc, on, args)?;
    let set = realize_set(alloc, plan, made)?;
    Ok(set)
}
