//! What a call takes from its arguments.
ghost use Rattle.std.specs.Prelude.{List};
ghost use Rattle.xr_arrays.specs.declared.node.Node.{Node};
ghost use Rattle.xr_types.specs.Results.{Answers};
ghost use Rattle.xr_defs.specs.Arguments as calls;
ghost use Rattle.xr_defs.specs.Parts as parts;
ghost use Rattle.xr_values.specs.Meaning.{all_values, given, meaning};

use std::alloc::Global;
use xr_types::{CallFault, DeepCopy, Fault, Items, TextBytes};
use xr_values::{Args, Value};

/// The one argument, plain or by this keyword.
#[tactic(auto, unfolding(xr_defs::specs::Arguments::only_of, xr_values::specs::Meaning::given))]
pub fn only<'a>(args: &'a Args, name: &str) -> Result<&'a Value, CallFault>
    ensures { (nodes : List Node) → Answers (λ v. meaning nodes v.now) result (calls.only name.now (given nodes args.now)) }
{
    match (args.plain.as_slice(), args.keyed.as_slice()) {
        ([argument], []) => Ok(argument),
        ([], [argument]) => {
            if argument.0.as_str() == name {
                Ok(&argument.1)
            } else {
                Err(CallFault::Refused(Fault::BadArgument))
            }
        }
        _ => Err(CallFault::Refused(Fault::BadArgument)),
    }
}

/// The text that a value is.
#[tactic(auto, using(crate::proofs::Variants::is_text, xr_values::proofs::Meaning::meaning_out), unfolding(xr_defs::specs::Arguments::as_text))]
pub fn as_text(value: &Value) -> Result<&TextBytes, CallFault>
    ensures { (nodes : List Node) → Answers (λ t. t.now) result (calls.as_text (meaning nodes value.now)) }
{
    match value {
        Value::Text(text) => Ok(text),
        _ => Err(CallFault::Refused(Fault::WrongKind)),
    }
}

/// The texts of a list.
///
/// # Errors
/// `WrongKind` for a value that is none.
pub fn texts_in(alloc: Global, list: &[Value]) -> Result<Items<TextBytes>, CallFault>
    ensures { (nodes : List Node) → Answers (λ ts. ts) result (parts.texts_in (all_values nodes list.now)) }
{
    let mut out = Items::new(alloc);
    for value in list {
        let text = as_text(value)?;
        out.push(text.deep_copy(alloc)?)?;
    }
    Ok(out)
}

/// Refuses every argument.
#[tactic(auto, unfolding(xr_defs::specs::Arguments::nothing_given, xr_types::specs::Results::unless, xr_values::specs::Meaning::given))]
pub fn nothing_given(args: &Args) -> Result<(), CallFault>
    ensures { (nodes : List Node) → Answers (λ u. u) result (calls.nothing_given (given nodes args.now)) }
{
    if args.plain.len() == 0 && args.keyed.len() == 0 {
        Ok(())
    } else {
        Err(CallFault::Refused(Fault::BadArgument))
    }
}
