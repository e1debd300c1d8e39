//! Lists of values that are put together.
ghost use Rattle.std.specs.Prelude.{◌≡◌, List, map};
ghost use Rattle.std.specs.List.{list_all};
ghost use Rattle.xr_arrays.specs.declared.node.Node.{Node};
ghost use Rattle.xr_types.specs.Results.{Answers};
ghost use Rattle.xr_combination.specs.Arguments as calls;
ghost use Rattle.xr_values.specs.Meaning.{meaning};
ghost use Rattle.xr_combining.specs.Held.{holds_set};

use crate::asked::list_given;
use xr_types::{CallFault, Fault};
use xr_values::Value;

#[tactic(auto, using(xr_arguments::proofs::Variants::is_set, xr_values::proofs::Meaning::meaning_out))]
fn is_set(value: &Value) -> bool
    ensures { result ≡ holds_set value.now }
{
    match value {
        Value::Set(_) => true,
        _ => false,
    }
}

fn are_sets(values: &[Value]) -> bool
    ensures { result ≡ list_all holds_set values.now }
{
    values.iter().all(|value| is_set(value))
}

#[tactic(auto, using(crate::proofs::Alike::sets_is), unfolding(xr_types::specs::Results::unless))]
fn check_sets(values: &[Value]) -> Result<(), CallFault>
    ensures { (nodes : List Node) → Answers (λ u. u) result (calls.check_sets (map (meaning nodes) values.now)) }
{
    if !are_sets(values) {
        return Err(CallFault::Refused(Fault::WrongKind));
    }
    if values.len() == 0 {
        return Err(CallFault::Refused(Fault::BadArgument));
    }
    Ok(())
}

/// Datasets, of which there are some.
///
/// # Errors
/// `WrongKind` for what is no list of them; then `BadArgument` for an empty list.
#[tactic(auto, unfolding(xr_combination::specs::Arguments::sets_given))]
pub fn sets_given(value: &Value) -> Result<&[Value], CallFault>
    ensures { (nodes : List Node) → Answers (λ vs. map (meaning nodes) vs.now) result (calls.sets_given (meaning nodes value.now)) }
{
    let values = list_given(value)?;
    check_sets(values)?;
    Ok(values)
}
