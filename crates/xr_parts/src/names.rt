//! Names of arrays: `rename(name)`, and the name of an array as a data variable.
ghost use Rattle.std.specs.Prelude.{◌≡◌};
ghost use Rattle.xr_parts.specs.Common.{Answers, AnswersArray, IfOk, IsArrayIn, List, Node, array_in, codes, given, is_name, meaning, true};
ghost use Rattle.xr_defs.specs.Parts as of;

use std::alloc::Global;
use xr_arguments::{as_text, only};
use xr_types::{CallFault, DeepCopy, Fault, TextBytes};
use xr_values::{Args, DataArray, Value};

/// The name that a value gives.
///
/// # Errors
/// `WrongKind` unless it is a text; then `BadArgument` for the empty text.
#[tactic(auto, using(crate::proofs::Naming::named_text), unfolding(xr_defs::specs::Parts::new_name, xr_types::specs::Results::unless))]
pub fn new_name(value: &Value) -> Result<&TextBytes, CallFault>
    ensures answers { (nodes : List Node) → Answers (λ t. t.now) result (of.new_name (meaning nodes value.now)) }
    ensures named { IfOk result (λ t. is_name t.now ≡ true) }
{
    let text = as_text(value)?;
    if text.as_str().len() == 0 {
        Err(CallFault::Refused(Fault::BadArgument))
    } else {
        Ok(text)
    }
}

/// An array under a new name.
///
/// # Errors
/// `BadArgument` unless there is one argument, plain or named `name`; then `WrongKind` unless it is a text; then
/// `BadArgument` for the empty text.
#[tactic(auto, using(crate::proofs::Naming::named_array), unfolding(xr_defs::specs::Parts::renamed))]
pub fn renamed(alloc: Global, on: &DataArray, args: &Args) -> Result<DataArray, CallFault>
    ensures { (nodes : List Node) → IsArrayIn nodes on.now → AnswersArray nodes result (of.renamed (array_in nodes on.now) (given nodes args.now)) }
{
    let name = new_name(only(args, "name")?)?;
    let mut array = on.deep_copy(alloc)?;
    array.name = Some(name.deep_copy(alloc)?);
    Ok(array)
}

/// The name of an array.
///
/// # Errors
/// `BadArgument` where it has none.
pub fn own_name(on: &DataArray) -> Result<&TextBytes, CallFault>
    ensures answers { (nodes : List Node) → Answers (λ t. t.now) result (of.own_name (array_in nodes on.now)) }
    ensures named { (nodes : List Node) → IsArrayIn nodes on.now → IfOk result (λ t. is_name t.now ≡ true) }
{
    match &on.name {
        Some(name) => Ok(name),
        None => Err(CallFault::Refused(Fault::BadArgument)),
    }
}
