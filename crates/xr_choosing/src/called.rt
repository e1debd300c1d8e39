//! The function and the method `where`.
ghost use Rattle.std.specs.Prelude.{◌≡◌, ◌∷◌, ◌++◌, [], List, Some, None, option_map, codes, if◌then◌else◌, IfOk};
ghost use Rattle.xr_arrays.specs.declared.node.Node.{Node};
ghost use Rattle.xr_arrays.specs.Added.{AddsAtMost};
ghost use Rattle.xr_defs.specs.Building.{given_value};
ghost use Rattle.xr_defs.specs.Room.{of_array, room, Portion};
ghost use Rattle.plan_core.specs.Plans.{Grows};
ghost use Rattle.xr_operations.specs.CellMethods as calls;
ghost use Rattle.xr_values.specs.Answers.{AnswersArray};
ghost use Rattle.xr_values.specs.Meaning.{given, meaning, AreArgsIn, IsValueIn};
ghost use Rattle.xr_values.specs.Stands.{array_in, IsArrayIn};
ghost use Rattle.xr_formulas.specs.Mades.{AnswersMade};
ghost use Rattle.xr_choosing.specs.Branches.{branch_in, IsBranchIn};
ghost use Rattle.xr_choosing.specs.Called.{function_over, function_told, method_over, method_told, with_other};
ghost use Rattle.xr_choosing.specs.Held.{held};

use crate::branches::{Branch, as_branch, as_condition};
use crate::choices::chosen;
use crate::held::{held, needed};
use plan_core::Plan;
use std::alloc::Global;
use xr_arguments::bound;
use xr_formulas::{Made, realize};
use xr_types::{CallFault, Fault};
use xr_values::{Args, DataArray, Value};

// ---- the function

fn of_function(
    alloc: Global,
    cond: &DataArray,
    x: Branch<'_>,
    y: Branch<'_>,
) -> Result<Made, CallFault>
    ensures { (nodes : List Node) → IsArrayIn nodes cond.now → IsBranchIn nodes x.entry → IsBranchIn nodes y.entry → AnswersMade nodes result (function_over (array_in nodes cond.now) (branch_in nodes x.entry) (branch_in nodes y.entry)) }
{
    chosen(alloc, false, cond, x, y)
}

#[tactic(auto, unfolding(crate::specs::Called::function_told))]
fn function_held(alloc: Global, args: &Args) -> Result<Made, CallFault>
    ensures { (nodes : List Node) → AreArgsIn nodes args.now → AnswersMade nodes result (function_told nodes args.now) }
{
    let cond = needed(args, 0, "cond")?;
    let x = needed(args, 1, "x")?;
    let y = needed(args, 2, "y")?;
    let cond = as_condition(cond)?;
    let x = as_branch(x)?;
    let y = as_branch(y)?;
    of_function(alloc, cond, x, y)
}

fn function_made(alloc: Global, args: &Args) -> Result<Made, CallFault>
    ensures { (nodes : List Node) → AreArgsIn nodes args.now → AnswersMade nodes result (calls.where_called (given nodes args.now)) }
{
    bound(alloc, &["cond", "x", "y"], args)?;
    function_held(alloc, args)
}

/// `where(cond, x, y)`: the cells of `x` where the condition holds, those of `y` where it doesn't, and missing ones where it is
/// missing. The cells are those of nodes that are added, no more than the array leaves room for beside any operands.
///
/// # Errors
/// The first of: `BadArgument` for arguments that don't fit the parameters; `WrongKind` for a condition that is no array of truth
/// values, and for a branch that is no array, number, truth value or missing cell; then those of the choice.
pub fn where_called(alloc: Global, plan: &mut Plan, args: &Args) -> Result<DataArray, CallFault>
    requires { AreArgsIn plan.old args.now }
    ensures answers { AnswersArray plan.new result (calls.where_called (given plan.old args.now)) }
    ensures grows { Grows plan.old plan.new }
    ensures room { (ps : List Portion) → IfOk result (λ c. AddsAtMost plan.old plan.new (room (ps ++ of_array (array_in plan.new c) ∷ []))) }
{
    let made = function_made(alloc, args)?;
    let array = realize(alloc, plan, made)?;
    Ok(array)
}

// ---- the method

fn of_method(
    alloc: Global,
    on: &DataArray,
    cond: &DataArray,
    y: Branch<'_>,
) -> Result<Made, CallFault>
    ensures { (nodes : List Node) → IsArrayIn nodes on.now → IsArrayIn nodes cond.now → IsBranchIn nodes y.entry → AnswersMade nodes result (method_over (array_in nodes on.now) (array_in nodes cond.now) (branch_in nodes y.entry)) }
{
    chosen(alloc, true, cond, Branch::Array(on), y)
}

// `None` is no argument.
#[tactic(auto, using(xr_arguments::proofs::Variants::is_absent, xr_values::proofs::Meaning::meaning_out))]
fn is_absent(value: &Value) -> bool
    ensures { (nodes : List Node) → given_value (Some (meaning nodes value.now)) ≡ (if result then None else Some (meaning nodes value.now)) }
{
    match value {
        Value::Absent => true,
        _ => false,
    }
}

fn with_given(
    alloc: Global,
    on: &DataArray,
    cond: &DataArray,
    other: &Value,
) -> Result<Made, CallFault>
    ensures { (nodes : List Node) → IsArrayIn nodes on.now → IsArrayIn nodes cond.now → IsValueIn nodes other.now → AnswersMade nodes result (with_other (array_in nodes on.now) (array_in nodes cond.now) (given_value (Some (meaning nodes other.now)))) }
{
    if is_absent(other) {
        return Err(CallFault::Refused(Fault::WouldPromote));
    }
    let y = as_branch(other)?;
    of_method(alloc, on, cond, y)
}

// The other branch, without which the result would promote.
#[tactic(auto, using(crate::proofs::Inside::held_inside))]
fn with_held(
    alloc: Global,
    on: &DataArray,
    cond: &DataArray,
    args: &Args,
) -> Result<Made, CallFault>
    ensures { (nodes : List Node) → IsArrayIn nodes on.now → IsArrayIn nodes cond.now → AreArgsIn nodes args.now → AnswersMade nodes result (with_other (array_in nodes on.now) (array_in nodes cond.now) (given_value (option_map (meaning nodes) (held 1 (codes "other") args.now)))) }
{
    match held(args, 1, "other") {
        Some(other) => with_given(alloc, on, cond, other),
        None => Err(CallFault::Refused(Fault::WouldPromote)),
    }
}

#[tactic(auto, unfolding(crate::specs::Called::method_told))]
fn method_held(alloc: Global, on: &DataArray, args: &Args) -> Result<Made, CallFault>
    ensures { (nodes : List Node) → IsArrayIn nodes on.now → AreArgsIn nodes args.now → AnswersMade nodes result (method_told nodes (array_in nodes on.now) args.now) }
{
    let cond = needed(args, 0, "cond")?;
    let cond = as_condition(cond)?;
    with_held(alloc, on, cond, args)
}

fn method_made(alloc: Global, on: &DataArray, args: &Args) -> Result<Made, CallFault>
    ensures { (nodes : List Node) → IsArrayIn nodes on.now → AreArgsIn nodes args.now → AnswersMade nodes result (calls.where_method (array_in nodes on.now) (given nodes args.now)) }
{
    bound(alloc, &["cond", "other"], args)?;
    method_held(alloc, on, args)
}

/// `array.where(cond, other)`: the array's cells where the condition holds, those of `other` where it doesn't, and missing ones
/// where it is missing; the array's name and attributes. The cells are those of nodes that are added, no more than the result
/// leaves room for beside any operands.
///
/// # Errors
/// The first of: `BadArgument` for arguments that don't fit the parameters; `WrongKind` for a condition that is no array of truth
/// values; `WouldPromote` without `other`; `WrongKind` where that is no array, number, truth value or missing cell; then those of
/// the choice.
pub fn where_method(
    alloc: Global,
    plan: &mut Plan,
    on: &DataArray,
    args: &Args,
) -> Result<DataArray, CallFault>
    requires on { IsArrayIn plan.old on.now }
    requires given { AreArgsIn plan.old args.now }
    ensures answers { AnswersArray plan.new result (calls.where_method (array_in plan.old on.now) (given plan.old args.now)) }
    ensures grows { Grows plan.old plan.new }
    ensures room { (ps : List Portion) → IfOk result (λ c. AddsAtMost plan.old plan.new (room (ps ++ of_array (array_in plan.new c) ∷ []))) }
{
    let made = method_made(alloc, on, args)?;
    let array = realize(alloc, plan, made)?;
    Ok(array)
}
