//! The arguments of `align` by keyword.
ghost use Rattle.std.specs.Prelude.{◌≡◌, List, Some, map, option_map};
ghost use Rattle.xr_aligning.specs.Common.{Answers, Node, meaning, with_key};
ghost use Rattle.xr_types.specs.declared.operation.How.{How as AHow};
ghost use Rattle.xr_defs.specs.Building as building;
ghost use Rattle.xr_relations.specs.Aligning as calls;
ghost use Rattle.xr_aligning.specs.Aligned.{are_options, is_option};

use xr_arguments::as_text;
use xr_formulas::truth_number;
use xr_types::{CallFault, Fault, How, TextBytes};
use xr_values::Value;

#[tactic(auto, unfolding(crate::specs::Aligned::is_option))]
fn is_option(name: &TextBytes) -> bool
    ensures { result ≡ is_option name.now }
{
    let name = name.as_str();
    name == "join" || name == "fill_value"
}

/// Whether each keyword is one of the call.
pub fn are_options(keyed: &[(TextBytes, Value)]) -> bool
    ensures { (nodes : List Node) → result ≡ are_options (map (with_key nodes) keyed.now) }
{
    match keyed {
        [] => true,
        [argument, rest @ ..] => is_option(&argument.0) && are_options(rest),
    }
}

#[tactic(auto, using(xr_arguments::proofs::Variants::is_absent, xr_values::proofs::Meaning::meaning_out))]
fn unless_absent(value: &Value) -> Option<&Value>
    ensures { (nodes : List Node) → option_map (λ v. meaning nodes v.now) result ≡ building.given_value (Some (meaning nodes value.now)) }
{
    match value {
        Value::Absent => None,
        value => Some(value),
    }
}

/// The argument by this keyword, where `None` is no argument.
pub fn option<'a>(keyed: &'a [(TextBytes, Value)], name: &str) -> Option<&'a Value>
    ensures { (nodes : List Node) → option_map (λ v. meaning nodes v.now) result ≡ building.given_value (building.keyword name.now (map (with_key nodes) keyed.now)) }
{
    match keyed {
        [] => None,
        [argument, rest @ ..] => {
            if argument.0.as_str() == name {
                unless_absent(&argument.1)
            } else {
                option(rest, name)
            }
        }
    }
}

#[tactic(auto, unfolding(xr_relations::specs::Aligning::how_named))]
fn how_named(text: &TextBytes) -> Result<How, CallFault>
    ensures { Answers (λ (j : AHow). j) result (calls.how_named text.now) }
{
    let text = text.as_str();
    if text == "exact" {
        Ok(How::Exact)
    } else if text == "inner" {
        Ok(How::Inner)
    } else if text == "outer" {
        Ok(How::Outer)
    } else if text == "left" {
        Ok(How::Left)
    } else if text == "right" {
        Ok(How::Right)
    } else {
        Err(CallFault::Refused(Fault::BadArgument))
    }
}

/// The join that a call asks for: `inner` where it asks for none.
///
/// # Errors
/// `WrongKind` for what is no text, then `BadArgument` for one that names no join.
#[tactic(auto, unfolding(xr_relations::specs::Aligning::how_given))]
pub fn how_given(value: Option<&Value>) -> Result<How, CallFault>
    ensures { (nodes : List Node) → Answers (λ (j : AHow). j) result (calls.how_given (option_map (λ v. meaning nodes v.now) value.entry)) }
{
    match value {
        None => Ok(How::Inner),
        Some(value) => {
            let text = as_text(value)?;
            how_named(text)
        }
    }
}

#[tactic(auto, using(xr_arguments::proofs::Variants::is_missing, xr_arguments::proofs::Variants::is_number, xr_arguments::proofs::Variants::is_truth, xr_values::proofs::Meaning::meaning_out), unfolding(xr_relations::specs::Aligning::check_literal))]
fn check_literal(value: &Value) -> Result<(), CallFault>
    ensures { (nodes : List Node) → Answers (λ u. u) result (calls.check_literal (meaning nodes value.now)) }
{
    match value {
        Value::Number(_) => Ok(()),
        Value::Truth(_) => Ok(()),
        Value::Missing => Ok(()),
        _ => Err(CallFault::Refused(Fault::WrongKind)),
    }
}

/// Refuses a fill that is no number, truth value or `NA`.
///
/// # Errors
/// `WrongKind`.
#[tactic(auto, unfolding(xr_relations::specs::Aligning::fill_given))]
pub fn check_given(fill: Option<&Value>) -> Result<(), CallFault>
    ensures { (nodes : List Node) → Answers (λ u. option_map (λ v. meaning nodes v.now) fill.entry) result (calls.fill_given (option_map (λ v. meaning nodes v.now) fill.entry)) }
{
    match fill {
        None => Ok(()),
        Some(value) => check_literal(value),
    }
}

#[tactic(auto, using(xr_arguments::proofs::Variants::is_number, xr_arguments::proofs::Variants::is_truth, xr_values::proofs::Meaning::meaning_out))]
fn cell_of(value: &Value) -> Option<i128>
    ensures { (nodes : List Node) → result ≡ calls.fill_cell (Some (meaning nodes value.now)) }
{
    match value {
        Value::Number(n) => Some(*n),
        Value::Truth(truth) => Some(truth_number(*truth)),
        _ => None,
    }
}

/// The number that fills, or none where missing cells do.
pub fn fill_cell(fill: Option<&Value>) -> Option<i128>
    ensures { (nodes : List Node) → result ≡ calls.fill_cell (option_map (λ v. meaning nodes v.now) fill.entry) }
{
    match fill {
        None => None,
        Some(value) => cell_of(value),
    }
}
