//! What `open_dataset(name, mask)` is asked for.
ghost use Rattle.std.specs.Prelude.{List, Some, option_map};
ghost use Rattle.xr_arrays.specs.declared.node.Node.{Node};
ghost use Rattle.xr_types.specs.Results.{Answers};
ghost use Rattle.xr_runs.specs.Calls.{mask_given as mask_told, open_asked};
ghost use Rattle.xr_values.specs.Meaning.{meaning, given};
ghost use Rattle.dataset_core.specs.Answers.{AnswersOpening};

use std::alloc::Global;
use xr_arguments::{argument, as_text, bound, option, required};
use xr_types::{CallFault, DeepCopy, Fault, TextBytes};
use xr_values::{Args, Value};

/// What `open_dataset` is asked for: the name of a file, and whether its missing cells are found.
#[derive(Drop)]
pub struct OpenRequest {
    pub name: TextBytes,
    pub mask: bool,
}

#[tactic(auto, using(xr_arguments::proofs::Variants::is_truth, xr_values::proofs::Meaning::meaning_out), unfolding(xr_runs::specs::Calls::mask_given))]
fn as_mask(value: &Value) -> Result<bool, CallFault>
    ensures { (nodes : List Node) → Answers (λ b. b) result (mask_told (Some (meaning nodes value.now))) }
{
    match value {
        Value::Truth(mask) => Ok(*mask),
        _ => Err(CallFault::Refused(Fault::WrongKind)),
    }
}

// Whether missing cells are asked for.
#[tactic(auto, unfolding(xr_runs::specs::Calls::mask_given))]
fn mask_given(value: Option<&Value>) -> Result<bool, CallFault>
    ensures { (nodes : List Node) → Answers (λ b. b) result (mask_told (option_map (λ v. meaning nodes v.now) value.entry)) }
{
    match value {
        None => Ok(false),
        Some(value) => as_mask(value),
    }
}

/// What a call of `open_dataset` is asked for: `name`, and `mask`, which may be left out.
///
/// # Errors
/// `BadArgument` for arguments that fit no parameter, and where there is no name; then `WrongKind` for a name that is no
/// text; then for a mask that is no truth value.
#[tactic(auto, unfolding(xr_runs::specs::Calls::open_asked))]
pub fn open_request(alloc: Global, args: &Args) -> Result<OpenRequest, CallFault>
    ensures { (nodes : List Node) → AnswersOpening result (open_asked (given nodes args.now)) }
{
    let values = bound(alloc, &["name", "mask"], args)?;
    let values = values.as_slice();
    let name = as_text(required(argument(values, 0))?)?;
    let mask = mask_given(option(values, 1))?;
    Ok(OpenRequest {
        name: name.deep_copy(alloc)?,
        mask,
    })
}
