//! The arguments of calls that put values together.
ghost use Rattle.std.specs.Prelude.{List, map, option_map};
ghost use Rattle.xr_arrays.specs.declared.node.Node.{Node};
ghost use Rattle.xr_types.specs.Results.{Answers};
ghost use Rattle.xr_relations.specs.Aligning as relations;
ghost use Rattle.xr_combination.specs.Arguments as calls;
ghost use Rattle.xr_values.specs.Meaning.{meaning};

use xr_arguments::as_text;
use xr_combination::Compat;
use xr_types::{CallFault, Fault, How, TextBytes};
use xr_values::Value;

/// The values of a list.
///
/// # Errors
/// `WrongKind` for what is no list.
#[tactic(auto, using(xr_arguments::proofs::Variants::is_list, xr_values::proofs::Meaning::meaning_out, crate::proofs::Listed::list_told), unfolding(xr_combination::specs::Arguments::list_given))]
pub(crate) fn list_given(value: &Value) -> Result<&[Value], CallFault>
    ensures { (nodes : List Node) → Answers (λ vs. map (meaning nodes) vs.now) result (calls.list_given (meaning nodes value.now)) }
{
    match value {
        Value::List(list) => Ok(list.as_slice()),
        _ => Err(CallFault::Refused(Fault::WrongKind)),
    }
}

#[tactic(auto, unfolding(xr_combination::specs::Arguments::compat_named))]
fn compat_named(text: &TextBytes) -> Result<Compat, CallFault>
    ensures { Answers (λ c. c) result (calls.compat_named text.now) }
{
    if text.as_str() == "no_conflicts" {
        Ok(Compat::NoConflicts)
    } else if text.as_str() == "equals" {
        Ok(Compat::Equals)
    } else if text.as_str() == "override" {
        Ok(Compat::Override)
    } else {
        Err(CallFault::Refused(Fault::BadArgument))
    }
}

/// How values of one name go together.
///
/// # Errors
/// `WrongKind` for what is no text, and `BadArgument` for another text than the names of the three ways.
#[tactic(auto, unfolding(xr_combination::specs::Arguments::compat_given))]
pub fn compat_given(value: Option<&Value>) -> Result<Compat, CallFault>
    ensures { (nodes : List Node) → Answers (λ c. c) result (calls.compat_given (option_map (λ v. meaning nodes v.now) value.entry)) }
{
    match value {
        None => Ok(Compat::NoConflicts),
        Some(value) => compat_named(as_text(value)?),
    }
}

#[tactic(auto, unfolding(xr_relations::specs::Aligning::how_named))]
fn how_named(text: &TextBytes) -> Result<How, CallFault>
    ensures { Answers (λ j. j) result (relations.how_named text.now) }
{
    if text.as_str() == "exact" {
        Ok(How::Exact)
    } else if text.as_str() == "inner" {
        Ok(How::Inner)
    } else if text.as_str() == "outer" {
        Ok(How::Outer)
    } else if text.as_str() == "left" {
        Ok(How::Left)
    } else if text.as_str() == "right" {
        Ok(How::Right)
    } else {
        Err(CallFault::Refused(Fault::BadArgument))
    }
}

/// How labels are joined: by `outer` where nothing else is said.
///
/// # Errors
/// `WrongKind` for what is no text, and `BadArgument` for a text that names no join.
#[tactic(auto, unfolding(xr_combination::specs::Arguments::how_given))]
pub fn how_given(value: Option<&Value>) -> Result<How, CallFault>
    ensures { (nodes : List Node) → Answers (λ j. j) result (calls.how_given (option_map (λ v. meaning nodes v.now) value.entry)) }
{
    match value {
        None => Ok(How::Outer),
        Some(value) => how_named(as_text(value)?),
    }
}

#[tactic(auto, using(xr_arguments::proofs::Variants::is_number, xr_arguments::proofs::Variants::is_truth, xr_arguments::proofs::Variants::is_missing, xr_values::proofs::Meaning::meaning_out), unfolding(xr_relations::specs::Aligning::check_literal))]
fn check_literal(value: &Value) -> Result<(), CallFault>
    ensures { (nodes : List Node) → Answers (λ u. u) result (relations.check_literal (meaning nodes value.now)) }
{
    match value {
        Value::Number(_) => Ok(()),
        Value::Truth(_) => Ok(()),
        Value::Missing => Ok(()),
        _ => Err(CallFault::Refused(Fault::WrongKind)),
    }
}

/// What stands where a value has no label.
///
/// # Errors
/// `WrongKind` for what is no number, truth value or missing cell.
#[tactic(auto, unfolding(xr_relations::specs::Aligning::fill_given))]
pub fn fill_given(value: Option<&Value>) -> Result<Option<&Value>, CallFault>
    ensures { (nodes : List Node) → Answers (option_map (λ v. meaning nodes v.now)) result (relations.fill_given (option_map (λ v. meaning nodes v.now) value.entry)) }
{
    match value {
        None => Ok(None),
        Some(value) => {
            check_literal(value)?;
            Ok(Some(value))
        }
    }
}
