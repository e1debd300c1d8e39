//! The condition, and what stands where it holds or doesn't.
ghost use Rattle.std.specs.Prelude.{◌≡◌, List, IfOk};
ghost use Rattle.xr_types.specs.Results.{Answers};
ghost use Rattle.xr_arrays.specs.declared.node.Node.{Node};
ghost use Rattle.xr_operations.specs.CellMethods as calls;
ghost use Rattle.xr_values.specs.Meaning.{meaning, IsValueIn};
ghost use Rattle.xr_values.specs.Stands.{array_in, IsArrayIn};
ghost use Rattle.xr_choosing.specs.Branches.{branch_in, IsBranchIn};

use xr_formulas::is_truths;
use xr_types::{CallFault, Fault};
use xr_values::{DataArray, Value};

/// What stands where the condition holds, or where it doesn't.
#[derive(Clone, Copy)]
pub enum Branch<'a> {
    Array(&'a DataArray),
    Number(i128),
    Truth(bool),
    Missing,
}

/// What an argument stands for in a choice.
///
/// # Errors
/// `WrongKind` for what is no array, number, truth value or missing cell.
#[tactic(auto, using(xr_arguments::proofs::Variants::is_array, xr_arguments::proofs::Variants::is_number, xr_arguments::proofs::Variants::is_truth, xr_arguments::proofs::Variants::is_missing, xr_values::proofs::Meaning::meaning_out), unfolding(xr_operations::specs::CellMethods::as_branch))]
pub fn as_branch(value: &Value) -> Result<Branch<'_>, CallFault>
    ensures answers { (nodes : List Node) → Answers (branch_in nodes) result (calls.as_branch (meaning nodes value.now)) }
    ensures inside { (nodes : List Node) → IsValueIn nodes value.now → IfOk result (IsBranchIn nodes) }
{
    match value {
        Value::Array(array) => Ok(Branch::Array(array)),
        Value::Number(n) => Ok(Branch::Number(*n)),
        Value::Truth(truth) => Ok(Branch::Truth(*truth)),
        Value::Missing => Ok(Branch::Missing),
        _ => Err(CallFault::Refused(Fault::WrongKind)),
    }
}

/// The array of truth values that an argument is.
///
/// # Errors
/// `WrongKind` for anything else.
#[tactic(auto, using(xr_arguments::proofs::Variants::is_array, xr_values::proofs::Meaning::meaning_out), unfolding(xr_operations::specs::CellMethods::as_condition, xr_types::specs::Results::unless))]
pub fn as_condition(value: &Value) -> Result<&DataArray, CallFault>
    ensures answers { (nodes : List Node) → Answers (λ c. array_in nodes c.now) result (calls.as_condition (meaning nodes value.now)) }
    ensures inside { (nodes : List Node) → IsValueIn nodes value.now → IfOk result (λ c. IsArrayIn nodes c.now) }
{
    match value {
        Value::Array(array) => {
            if is_truths(array.kind) {
                Ok(array)
            } else {
                Err(CallFault::Refused(Fault::WrongKind))
            }
        }
        _ => Err(CallFault::Refused(Fault::WrongKind)),
    }
}
