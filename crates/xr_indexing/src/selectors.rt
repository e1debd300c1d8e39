//! Selectors that a call is given: a position, a slice of positions, or a list of them.
ghost use Rattle.std.specs.Prelude.{List};
ghost use Rattle.xr_arrays.specs.declared.node.Node.{Node};
ghost use Rattle.xr_types.specs.Results.{Answers};
ghost use Rattle.xr_defs.specs.Meanings.{Slice};
ghost use Rattle.xr_defs.specs.Arguments as calls;
ghost use Rattle.xr_defs.specs.Selecting as of;
ghost use Rattle.xr_values.specs.Meaning.{meaning, with_key};
ghost use Rattle.xr_indexing.specs.Choices.{positions_in, selector_in};

use crate::arguments::as_numbers;
use crate::axes::position_of;
use crate::choice::{Positions, Selector};
use std::alloc::Global;
use xr_defs::Part;
use xr_types::{Axis, CallFault, DeepCopy, Fault, TextBytes};
use xr_values::Value;

#[tactic(auto, unfolding(xr_defs::specs::Arguments::as_position))]
fn as_position(part: &Part) -> Result<Option<i128>, CallFault>
    ensures { Answers (λ n. n) result (calls.as_position part.now) }
{
    match part {
        Part::Open => Ok(None),
        Part::At(n) => Ok(Some(*n)),
        Part::Label(_) => Err(CallFault::Refused(Fault::WrongKind)),
    }
}

#[tactic(auto, unfolding(xr_defs::specs::Arguments::as_positions, xr_types::specs::Results::unless))]
fn as_positions(start: &Part, stop: &Part, step: Option<i128>) -> Result<Positions, CallFault>
    ensures { Answers positions_in result (calls.as_positions (Slice start.now stop.now step)) }
{
    let start = as_position(start)?;
    let stop = as_position(stop)?;
    if let Some(0) = step {
        return Err(CallFault::Refused(Fault::BadArgument));
    }
    Ok(Positions { start, stop, step })
}

/// The selector that a value is.
///
/// # Errors
/// `WrongKind` unless it is a number, a list of numbers or a slice of positions; `BadArgument` for a step of 0.
#[tactic(auto, using(xr_arguments::proofs::Variants::is_number, xr_arguments::proofs::Variants::is_list, xr_arguments::proofs::Variants::is_slice, xr_values::proofs::Meaning::meaning_out), unfolding(xr_defs::specs::Selecting::as_selector))]
pub fn as_selector(alloc: Global, value: &Value) -> Result<Selector, CallFault>
    ensures { (nodes : List Node) → Answers selector_in result (of.as_selector (meaning nodes value.now)) }
{
    match value {
        Value::Number(n) => Ok(Selector::At(*n)),
        Value::List(list) => {
            let numbers = as_numbers(alloc, list.as_slice())?;
            Ok(Selector::Each(numbers))
        }
        Value::Slice(start, stop, step) => {
            let span = as_positions(start, stop, *step)?;
            Ok(Selector::Span(span))
        }
        _ => Err(CallFault::Refused(Fault::WrongKind)),
    }
}

/// Refuses an argument that is no selector.
#[tactic(auto, unfolding(xr_defs::specs::Selecting::check_selector))]
pub fn check_selector(alloc: Global, argument: &(TextBytes, Value)) -> Result<(), CallFault>
    ensures { (nodes : List Node) → Answers (λ u. u) result (of.check_selector (with_key nodes argument.now)) }
{
    as_selector(alloc, &argument.1)?;
    Ok(())
}

/// Refuses an argument whose name is no dimension.
#[tactic(auto, unfolding(xr_defs::specs::Arguments::check_dimension))]
pub fn check_dimension(
    alloc: Global,
    axes: &[Axis],
    argument: &(TextBytes, Value),
) -> Result<(), CallFault>
    ensures { (nodes : List Node) → Answers (λ u. u) result (calls.check_dimension axes.now (with_key nodes argument.now)) }
{
    match position_of(axes, &argument.0) {
        Some(_) => Ok(()),
        None => Err(CallFault::Refused(Fault::NoDimension(argument.0.deep_copy(alloc)?))),
    }
}
