//! The kind of a choice, and whether what is chosen fits it.
ghost use Rattle.std.specs.Prelude.{◌≡◌, List};
ghost use Rattle.xr_types.specs.Results.{unless, Answers};
ghost use Rattle.xr_types.specs.declared.fault.Fault.TheVariants.{WrongKind};
ghost use Rattle.xr_arrays.specs.declared.node.Node.{Node};
ghost use Rattle.xr_operations.specs.CellMethods as calls;
ghost use Rattle.xr_values.specs.Stands.{array_in};
ghost use Rattle.xr_choosing.specs.Branches.{branch_in};

use crate::branches::Branch;
use xr_formulas::{fits, is_truths};
use xr_types::{CallFault, DType, Fault, promote};
use xr_values::DataArray;

#[tactic(auto, unfolding(xr_types::specs::Results::unless))]
/// Refuses what isn't of the kind.
pub fn check_kind(fits: bool) -> Result<(), CallFault>
    ensures { Answers (λ u. u) result (unless fits WrongKind) }
{
    if fits {
        Ok(())
    } else {
        Err(CallFault::Refused(Fault::WrongKind))
    }
}

// The kind to which those of two arrays are promoted.
#[tactic(auto, unfolding(xr_operations::specs::CellMethods::chosen_kind))]
fn of_both(one: &DataArray, other: &DataArray) -> Result<DType, CallFault>
    ensures { (nodes : List Node) → Answers (λ k. k) result (calls.chosen_kind (calls.FromArray (array_in nodes one.now)) (calls.FromArray (array_in nodes other.now))) }
{
    match promote(one.kind, other.kind) {
        Some(kind) => Ok(kind),
        None => Err(CallFault::Refused(Fault::WouldPromote)),
    }
}

// An array keeps its kind beside literals of its sort.
#[tactic(auto, unfolding(xr_operations::specs::CellMethods::chosen_kind))]
fn array_beside(one: &DataArray, other: Branch<'_>) -> Result<DType, CallFault>
    ensures { (nodes : List Node) → Answers (λ k. k) result (calls.chosen_kind (calls.FromArray (array_in nodes one.now)) (branch_in nodes other.entry)) }
{
    match other {
        Branch::Array(other) => of_both(one, other),
        Branch::Number(_) => {
            check_kind(!is_truths(one.kind))?;
            Ok(one.kind)
        }
        Branch::Truth(_) => {
            check_kind(is_truths(one.kind))?;
            Ok(one.kind)
        }
        Branch::Missing => Ok(one.kind),
    }
}

#[tactic(auto, unfolding(xr_operations::specs::CellMethods::chosen_kind))]
fn number_beside(n: i128, other: Branch<'_>) -> Result<DType, CallFault>
    ensures { (nodes : List Node) → Answers (λ k. k) result (calls.chosen_kind (calls.FromNumber n) (branch_in nodes other.entry)) }
{
    match other {
        Branch::Array(other) => {
            check_kind(!is_truths(other.kind))?;
            Ok(other.kind)
        }
        Branch::Number(_) | Branch::Missing => Ok(DType::Int64),
        Branch::Truth(_) => Err(CallFault::Refused(Fault::WrongKind)),
    }
}

#[tactic(auto, unfolding(xr_operations::specs::CellMethods::chosen_kind))]
fn truth_beside(truth: bool, other: Branch<'_>) -> Result<DType, CallFault>
    ensures { (nodes : List Node) → Answers (λ k. k) result (calls.chosen_kind (calls.FromTruth truth) (branch_in nodes other.entry)) }
{
    match other {
        Branch::Array(other) => {
            check_kind(is_truths(other.kind))?;
            Ok(other.kind)
        }
        Branch::Number(_) => Err(CallFault::Refused(Fault::WrongKind)),
        Branch::Truth(_) | Branch::Missing => Ok(DType::Bool),
    }
}

#[tactic(auto, unfolding(xr_operations::specs::CellMethods::chosen_kind))]
fn missing_beside(other: Branch<'_>) -> Result<DType, CallFault>
    ensures { (nodes : List Node) → Answers (λ k. k) result (calls.chosen_kind calls.FromMissing (branch_in nodes other.entry)) }
{
    match other {
        Branch::Array(other) => Ok(other.kind),
        Branch::Number(_) => Ok(DType::Int64),
        Branch::Truth(_) => Ok(DType::Bool),
        Branch::Missing => Err(CallFault::Refused(Fault::WrongKind)),
    }
}

/// The kind of a choice between two branches: that to which two arrays are promoted, that of one array, or that of literals.
///
/// # Errors
/// `WouldPromote` for two arrays that aren't promoted to one kind, and `WrongKind` for a literal of another sort.
pub fn chosen_kind(x: Branch<'_>, y: Branch<'_>) -> Result<DType, CallFault>
    ensures { (nodes : List Node) → Answers (λ k. k) result (calls.chosen_kind (branch_in nodes x.entry) (branch_in nodes y.entry)) }
{
    match x {
        Branch::Array(one) => array_beside(one, y),
        Branch::Number(n) => number_beside(n, y),
        Branch::Truth(truth) => truth_beside(truth, y),
        Branch::Missing => missing_beside(y),
    }
}

/// Refuses a number that the kind doesn't have.
///
/// # Errors
/// `DoesNotFit`.
#[tactic(auto, unfolding(xr_operations::specs::CellMethods::check_branch, xr_types::specs::Results::unless))]
pub fn check_branch(kind: DType, branch: Branch<'_>) -> Result<(), CallFault>
    ensures { (nodes : List Node) → Answers (λ u. u) result (calls.check_branch kind (branch_in nodes branch.entry)) }
{
    match branch {
        Branch::Number(n) => {
            if fits(kind, n) {
                Ok(())
            } else {
                Err(CallFault::Refused(Fault::DoesNotFit))
            }
        }
        Branch::Array(_) | Branch::Truth(_) | Branch::Missing => Ok(()),
    }
}

/// Whether no branch has cells.
pub fn both_missing(x: Branch<'_>, y: Branch<'_>) -> bool
    ensures { (nodes : List Node) → result ≡ calls.both_missing (branch_in nodes x.entry) (branch_in nodes y.entry) }
{
    match x {
        Branch::Missing => match y {
            Branch::Missing => true,
            Branch::Array(_) | Branch::Number(_) | Branch::Truth(_) => false,
        },
        Branch::Array(_) | Branch::Number(_) | Branch::Truth(_) => false,
    }
}

/// Whether cells of a branch may be missing.
pub fn may_miss(branch: Branch<'_>) -> bool
    ensures { (nodes : List Node) → result ≡ calls.may_miss (branch_in nodes branch.entry) }
{
    match branch {
        Branch::Array(array) => array.masked,
        Branch::Number(_) | Branch::Truth(_) => false,
        Branch::Missing => true,
    }
}
