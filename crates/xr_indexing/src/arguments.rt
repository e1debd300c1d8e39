//! What a call takes from its arguments.
ghost use Rattle.std.specs.Prelude.{List};
ghost use Rattle.xr_arrays.specs.declared.node.Node.{Node};
ghost use Rattle.xr_types.specs.Results.{Answers};
ghost use Rattle.xr_defs.specs.Selecting as of;
ghost use Rattle.xr_values.specs.Meaning.{meaning, all_values};

use std::alloc::Global;
use xr_types::{CallFault, Fault, Items};
use xr_values::Value;

/// The number that a value is.
///
/// # Errors
/// `WrongKind` unless it is a number.
#[tactic(auto, using(xr_arguments::proofs::Variants::is_number, xr_values::proofs::Meaning::meaning_out), unfolding(xr_defs::specs::Selecting::as_number))]
pub fn as_number(value: &Value) -> Result<i128, CallFault>
    ensures { (nodes : List Node) → Answers (λ n. n) result (of.as_number (meaning nodes value.now)) }
{
    match value {
        Value::Number(n) => Ok(*n),
        _ => Err(CallFault::Refused(Fault::WrongKind)),
    }
}

/// The numbers of a list.
pub fn as_numbers(alloc: Global, list: &[Value]) -> Result<Items<i128>, CallFault>
    ensures { (nodes : List Node) → Answers (λ ns. ns) result (of.as_numbers (all_values nodes list.now)) }
{
    let mut out = Items::new(alloc);
    for value in list {
        out.push(as_number(value)?)?;
    }
    Ok(out)
}
