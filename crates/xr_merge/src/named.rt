//! The values of a list that are put together by their names.
ghost use Rattle.std.specs.Prelude.{◌≡◌, true, is_some, List, map, IfOk};
ghost use Rattle.std.specs.List.{list_all, AllByRecursion};
ghost use Rattle.xr_arrays.specs.declared.node.Node.{Node};
ghost use Rattle.xr_types.specs.Results.{Answers};
ghost use Rattle.xr_combination.specs.Arguments as calls;
ghost use Rattle.xr_combining.specs.Held.{holds_labelled, holds_named};
ghost use Rattle.xr_values.specs.Meaning.{meaning, IsValueIn};

use xr_types::{CallFault, Fault};
use xr_values::{DataArray, Value};

#[tactic(auto, using(xr_combining::proofs::Listed::list_told, xr_arguments::proofs::Variants::is_list, xr_values::proofs::Meaning::meaning_out, crate::proofs::Given::list_inside), unfolding(xr_combination::specs::Arguments::list_given))]
fn list_given(value: &Value) -> Result<&[Value], CallFault>
    ensures inside { (nodes : List Node) → IsValueIn nodes value.now → IfOk result (λ vs. AllByRecursion (IsValueIn nodes) vs.now) }
    ensures answers { (nodes : List Node) → Answers (λ vs. map (meaning nodes) vs.now) result (calls.list_given (meaning nodes value.now)) }
{
    match value {
        Value::List(list) => Ok(list.as_slice()),
        _ => Err(CallFault::Refused(Fault::WrongKind)),
    }
}

#[tactic(auto, using(xr_arguments::proofs::Variants::is_array, xr_arguments::proofs::Variants::is_set, xr_values::proofs::Meaning::meaning_out))]
fn is_labelled(value: &Value) -> bool
    ensures { result ≡ holds_labelled value.now }
{
    match value {
        Value::Array(_) => true,
        Value::Set(_) => true,
        _ => false,
    }
}

fn has_name(array: &DataArray) -> bool
    ensures { result ≡ is_some array.now.name }
{
    array.name.is_some()
}

#[tactic(auto, using(crate::proofs::Opened::array_named, xr_values::proofs::Meaning::meaning_out))]
fn is_named(value: &Value) -> bool
    ensures { result ≡ holds_named value.now }
{
    match value {
        Value::Array(array) => has_name(array),
        _ => true,
    }
}

fn are_labelled(values: &[Value]) -> bool
    ensures { result ≡ list_all holds_labelled values.now }
{
    values.iter().all(|value| is_labelled(value))
}

fn are_named(values: &[Value]) -> bool
    ensures { result ≡ list_all holds_named values.now }
{
    values.iter().all(|value| is_named(value))
}

#[tactic(auto, using(xr_combining::proofs::Alike::named_is), unfolding(xr_types::specs::Results::unless))]
fn check_named(values: &[Value]) -> Result<(), CallFault>
    ensures named { IfOk result (λ u. list_all holds_named values.now ≡ true) }
    ensures answers { (nodes : List Node) → Answers (λ u. u) result (calls.check_named (map (meaning nodes) values.now)) }
{
    if !are_labelled(values) {
        return Err(CallFault::Refused(Fault::WrongKind));
    }
    if values.len() == 0 {
        return Err(CallFault::Refused(Fault::BadArgument));
    }
    if !are_named(values) {
        return Err(CallFault::Refused(Fault::BadArgument));
    }
    Ok(())
}

/// Datasets, and arrays that have names, of which there are some.
///
/// # Errors
/// `WrongKind` for what is no list of them; then `BadArgument` for an empty list, or an array without a name.
#[tactic(auto, unfolding(xr_combination::specs::Arguments::named_given))]
pub(crate) fn named_given(value: &Value) -> Result<&[Value], CallFault>
    ensures named { IfOk result (λ vs. list_all holds_named vs.now ≡ true) }
    ensures inside { (nodes : List Node) → IsValueIn nodes value.now → IfOk result (λ vs. AllByRecursion (IsValueIn nodes) vs.now) }
    ensures answers { (nodes : List Node) → Answers (λ vs. map (meaning nodes) vs.now) result (calls.named_given (meaning nodes value.now)) }
{
    let values = list_given(value)?;
    check_named(values)?;
    Ok(values)
}
