//! `slice(stop)`, `slice(start, stop)` and `slice(start, stop, step)`.
ghost use Rattle.std.specs.Prelude.{◌≡◌, List, map, IfOk};
ghost use Rattle.xr_arrays.specs.declared.node.Node.{Node};
ghost use Rattle.xr_types.specs.Results.{Answers};
ghost use Rattle.xr_defs.specs.Arguments as calls;
ghost use Rattle.xr_defs.specs.Meanings.{Slice};
ghost use Rattle.xr_values.specs.Meaning.{meaning, given, IsValueIn};

use std::alloc::Global;
use xr_defs::Part;
use xr_types::{CallFault, DeepCopy, Fault};
use xr_values::{Args, Value};

#[tactic(auto, using(xr_arguments::proofs::Variants::is_slice, xr_arguments::proofs::Inside::slice_inside))]
fn slice(start: Part, stop: Part, step: Option<i128>) -> Value
    ensures means { (nodes : List Node) → meaning nodes result ≡ Slice start stop step }
    ensures inside { (nodes : List Node) → IsValueIn nodes result }
{
    Value::Slice(start, stop, step)
}

#[tactic(auto, using(xr_arguments::proofs::Variants::is_absent, xr_arguments::proofs::Variants::is_number, xr_arguments::proofs::Variants::is_text, xr_values::proofs::Meaning::meaning_out), unfolding(xr_defs::specs::Arguments::as_part))]
fn as_part(alloc: Global, value: &Value) -> Result<Part, CallFault>
    ensures { (nodes : List Node) → Answers (λ p. p) result (calls.as_part (meaning nodes value.now)) }
{
    match value {
        Value::Absent => Ok(Part::Open),
        Value::Number(n) => Ok(Part::At(*n)),
        Value::Text(text) => Ok(Part::Label(text.deep_copy(alloc)?)),
        _ => Err(CallFault::Refused(Fault::WrongKind)),
    }
}

#[tactic(auto, using(xr_arguments::proofs::Variants::is_absent, xr_arguments::proofs::Variants::is_number, xr_values::proofs::Meaning::meaning_out), unfolding(xr_defs::specs::Arguments::as_step))]
fn as_step(value: &Value) -> Result<Option<i128>, CallFault>
    ensures { (nodes : List Node) → Answers (λ n. n) result (calls.as_step (meaning nodes value.now)) }
{
    match value {
        Value::Absent => Ok(None),
        Value::Number(n) => Ok(Some(*n)),
        _ => Err(CallFault::Refused(Fault::WrongKind)),
    }
}

#[tactic(auto, unfolding(xr_defs::specs::Arguments::slice_of))]
fn slice_of(alloc: Global, plain: &[Value]) -> Result<Value, CallFault>
    ensures means { (nodes : List Node) → Answers (meaning nodes) result (calls.slice_of (map (meaning nodes) plain.now)) }
    ensures inside { IfOk result (λ v. (nodes : List Node) → IsValueIn nodes v) }
{
    match plain {
        [stop] => {
            let stop = as_part(alloc, stop)?;
            Ok(slice(Part::Open, stop, None))
        }
        [start, stop] => {
            let start = as_part(alloc, start)?;
            let stop = as_part(alloc, stop)?;
            Ok(slice(start, stop, None))
        }
        [start, stop, step] => {
            let start = as_part(alloc, start)?;
            let stop = as_part(alloc, stop)?;
            let step = as_step(step)?;
            Ok(slice(start, stop, step))
        }
        [] | [_, _, _, _, ..] => Err(CallFault::Refused(Fault::BadArgument)),
    }
}

/// The slice of one to three plain arguments: its ends are none, numbers or texts, and its step is none or a number.
#[tactic(auto, unfolding(xr_defs::specs::Arguments::slice_given, xr_types::specs::Results::unless, xr_values::specs::Meaning::given))]
pub(crate) fn slice_given(alloc: Global, args: &Args) -> Result<Value, CallFault>
    ensures means { (nodes : List Node) → Answers (meaning nodes) result (calls.slice_given (given nodes args.now)) }
    ensures inside { IfOk result (λ v. (nodes : List Node) → IsValueIn nodes v) }
{
    if args.keyed.len() == 0 {
        slice_of(alloc, args.plain.as_slice())
    } else {
        Err(CallFault::Refused(Fault::BadArgument))
    }
}
