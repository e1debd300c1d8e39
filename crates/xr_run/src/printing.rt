//! The text that a statement prints.
ghost use Rattle.std.specs.Prelude.{◌≡◌, ◌∷◌, [], ◌++◌, IfOk};
ghost use Rattle.std.specs.Fmt.{signed_decimal};
ghost use denote.Param.Send.{IsSync};
ghost use Rattle.xr_runs.specs.Calls.{text_printed, truth_line as truth_line_of};
ghost use Rattle.xr_values.specs.Meaning.{meaning, IsValueIn};
ghost use Rattle.xr_values.specs.Stands.{array_in, IsArrayIn};
ghost use Rattle.xr_defs.specs.Printing.{array_text as array_text_of};
ghost use Rattle.xr_run.specs.Answers.{Gives};

use crate::stopped::Stopped;
use graph_pool::{Gate, Pool};
use itoa::Buffer;
use plan_core::Compute;
use std::alloc::{AllocError, Global};
use std::thread::Threads;
use xr_print::{array_text, set_text};
use xr_types::{ComputeFault, Fault};
use xr_values::{Cx, DataArray, Value};

// The cells of an array of the plan, in its printed form.
fn array_printed<R: Threads + Sync, G: Gate>(
    rt: &R,
    alloc: Global,
    cx: &mut Cx<Pool<'_, G>>,
    array: &DataArray,
) -> Result<Vec<u8>, AllocError>
    requires sync { IsSync R.row }
    requires inside { IsArrayIn cx.old.plan array.now }
    ensures text { IfOk result (λ text. text.items ≡ array_text_of (array_in cx.old.plan array.now)) }
    ensures keeps { cx.new.plan ≡ cx.old.plan }
{
    match cx.compute.cells(rt, alloc, &cx.plan, array.node) {
        Ok(cells) => array_text(alloc, array, &cells),
        // Nothing is declined.
        Err(ComputeFault::Declined(_) | ComputeFault::NoMemory) => Err(AllocError),
    }
}

fn line_of(alloc: Global, text: &[u8]) -> Result<Vec<u8>, AllocError>
    ensures { IfOk result (λ line. line.items ≡ text.now ++ 10 ∷ []) }
{
    let mut line = Vec::from_slice(alloc, text)?;
    line.push(b'\n')?;
    Ok(line)
}

fn number_line(alloc: Global, n: i128) -> Result<Vec<u8>, AllocError>
    ensures { IfOk result (λ line. line.items ≡ signed_decimal n ++ 10 ∷ []) }
{
    let mut digits = Buffer::new();
    line_of(alloc, digits.format(n).as_bytes())
}

fn truth_line(alloc: Global, truth: bool) -> Result<Vec<u8>, AllocError>
    ensures { IfOk result (λ line. line.items ≡ truth_line_of truth) }
{
    if truth {
        Vec::from_slice(alloc, b"True\n")
    } else {
        Vec::from_slice(alloc, b"False\n")
    }
}

/// The bytes that `print` prints of a value: an array or a dataset in its printed form; a number, a text as it is, `True` or
/// `False` on a line. Another value is of a wrong kind.
#[tactic(auto, using(xr_arguments::proofs::Variants::is_truth, xr_arguments::proofs::Variants::is_number, xr_arguments::proofs::Variants::is_text, xr_arguments::proofs::Variants::is_array, xr_values::proofs::Meaning::meaning_out), unfolding(xr_runs::specs::Calls::text_printed))]
pub(crate) fn printed<R: Threads + Sync, G: Gate>(
    rt: &R,
    alloc: Global,
    cx: &mut Cx<Pool<'_, G>>,
    value: &Value,
) -> Result<Vec<u8>, Stopped>
    requires sync { IsSync R.row }
    requires inside { IsValueIn cx.old.plan value.now }
    ensures text { Gives (λ text. text.items) result (text_printed (meaning cx.old.plan value.now)) }
    ensures keeps { cx.new.plan ≡ cx.old.plan }
{
    match value {
        Value::Array(array) => Ok(array_printed(rt, alloc, cx, array)?),
        Value::Set(set) => Ok(set_text(alloc, set)?),
        Value::Number(n) => Ok(number_line(alloc, *n)?),
        Value::Text(text) => Ok(line_of(alloc, text.as_bytes())?),
        Value::Truth(truth) => Ok(truth_line(alloc, *truth)?),
        _ => Err(Stopped::Refused(Fault::WrongKind)),
    }
}
