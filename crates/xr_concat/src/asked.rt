//! The values and the dimension that the call is given.
ghost use Rattle.std.specs.Prelude.{◌≡◌, ◌||◌, List, map, IfOk};
ghost use Rattle.std.specs.List.{list_all, AllByRecursion};
ghost use Rattle.xr_arrays.specs.declared.node.Node.{Node};
ghost use Rattle.xr_types.specs.Results.{Answers};
ghost use Rattle.xr_defs.specs.Parts as parts;
ghost use Rattle.xr_combination.specs.Arguments as calls;
ghost use Rattle.xr_combination.specs.Pieces as pieces;
ghost use Rattle.xr_values.specs.Meaning.{meaning, IsValueIn};

use xr_arguments::as_text;
use xr_types::{CallFault, Fault, TextBytes};
use xr_values::Value;

#[tactic(auto, using(xr_combining::proofs::Listed::list_told, xr_arguments::proofs::Variants::is_list, xr_values::proofs::Meaning::meaning_out, crate::proofs::Listed::list_inside), unfolding(xr_combination::specs::Arguments::list_given))]
fn list_given(value: &Value) -> Result<&[Value], CallFault>
    ensures inside { (nodes : List Node) → IsValueIn nodes value.now → IfOk result (λ vs. AllByRecursion (IsValueIn nodes) vs.now) }
    ensures answers { (nodes : List Node) → Answers (λ vs. map (meaning nodes) vs.now) result (calls.list_given (meaning nodes value.now)) }
{
    match value {
        Value::List(list) => Ok(list.as_slice()),
        _ => Err(CallFault::Refused(Fault::WrongKind)),
    }
}

#[tactic(auto, using(xr_arguments::proofs::Variants::is_array, xr_values::proofs::Meaning::meaning_out))]
fn is_array(value: &Value) -> bool
    ensures { (nodes : List Node) → result ≡ pieces.is_array (meaning nodes value.now) }
{
    match value {
        Value::Array(_) => true,
        _ => false,
    }
}

#[tactic(auto, using(xr_arguments::proofs::Variants::is_set, xr_values::proofs::Meaning::meaning_out))]
fn is_set(value: &Value) -> bool
    ensures { (nodes : List Node) → result ≡ pieces.is_set (meaning nodes value.now) }
{
    match value {
        Value::Set(_) => true,
        _ => false,
    }
}

/// Whether all values are arrays.
pub(crate) fn are_arrays(values: &[Value]) -> bool
    ensures { (nodes : List Node) → result ≡ list_all pieces.is_array (map (meaning nodes) values.now) }
{
    match values {
        [] => true,
        [value, rest @ ..] => is_array(value) && are_arrays(rest),
    }
}

/// Whether all values are datasets.
pub(crate) fn are_sets(values: &[Value]) -> bool
    ensures { (nodes : List Node) → result ≡ list_all pieces.is_set (map (meaning nodes) values.now) }
{
    match values {
        [] => true,
        [value, rest @ ..] => is_set(value) && are_sets(rest),
    }
}

fn are_alike(values: &[Value]) -> bool
    ensures { (nodes : List Node) → result ≡ list_all pieces.is_array (map (meaning nodes) values.now) || list_all pieces.is_set (map (meaning nodes) values.now) }
{
    are_arrays(values) || are_sets(values)
}

#[tactic(auto, using(crate::proofs::Alike::counted), unfolding(xr_combination::specs::Arguments::check_alike, xr_types::specs::Results::unless))]
fn check_alike(values: &[Value]) -> Result<(), CallFault>
    ensures { (nodes : List Node) → Answers (λ u. u) result (calls.check_alike (map (meaning nodes) values.now)) }
{
    if !are_alike(values) {
        return Err(CallFault::Refused(Fault::WrongKind));
    }
    if values.len() == 0 {
        return Err(CallFault::Refused(Fault::BadArgument));
    }
    Ok(())
}

/// Arrays alone or datasets alone, of which there are some.
///
/// # Errors
/// `WrongKind` for what is no list of them; then `BadArgument` for an empty list.
#[tactic(auto, unfolding(xr_combination::specs::Arguments::alike_given))]
pub(crate) fn alike_given(value: &Value) -> Result<&[Value], CallFault>
    ensures inside { (nodes : List Node) → IsValueIn nodes value.now → IfOk result (λ vs. AllByRecursion (IsValueIn nodes) vs.now) }
    ensures answers { (nodes : List Node) → Answers (λ vs. map (meaning nodes) vs.now) result (calls.alike_given (meaning nodes value.now)) }
{
    let values = list_given(value)?;
    check_alike(values)?;
    Ok(values)
}

/// The name of a dimension, which isn't empty.
///
/// # Errors
/// `WrongKind` for what is no text; then `BadArgument` for the empty one.
#[tactic(auto, unfolding(xr_defs::specs::Parts::new_name, xr_types::specs::Results::unless))]
pub(crate) fn dim_given(value: &Value) -> Result<&TextBytes, CallFault>
    ensures { (nodes : List Node) → Answers (λ t. t.now) result (parts.new_name (meaning nodes value.now)) }
{
    let text = as_text(value)?;
    if text.as_str().len() == 0 {
        return Err(CallFault::Refused(Fault::BadArgument));
    }
    Ok(text)
}
