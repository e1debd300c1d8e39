//! What stands where no cell moves in.
ghost use Rattle.std.specs.Prelude.{◌≡◌, List, map, option_map, codes, OnOk};
ghost use Rattle.xr_arrays.specs.declared.node.Node.{Node};
ghost use Rattle.xr_arrays.specs.Arrays.{IsCell};
ghost use Rattle.xr_types.specs.Results.{Answers};
ghost use Rattle.xr_defs.specs.Building as calls;
ghost use Rattle.xr_operations.specs.Moves as of;
ghost use Rattle.xr_values.specs.Meaning.{given, meaning, with_key};

use crate::names::is_fill;
use xr_formulas::{fits, is_truths};
use xr_types::{CallFault, DType, Fault, TextBytes};
use xr_values::{Args, Value};

fn keyword(keyed: &[(TextBytes, Value)]) -> Option<&Value>
    ensures { (nodes : List Node) → option_map (λ v. meaning nodes v.now) result ≡ calls.keyword (codes "fill_value") (map (with_key nodes) keyed.now) }
{
    match keyed {
        [] => None,
        [argument, rest @ ..] => {
            if is_fill(&argument.0) {
                Some(&argument.1)
            } else {
                keyword(rest)
            }
        }
    }
}

// `None` is no argument.
#[tactic(auto, using(xr_arguments::proofs::Variants::is_absent, xr_values::proofs::Meaning::meaning_out))]
fn given_value<'a>(value: Option<&'a Value>) -> Option<&'a Value>
    ensures { (nodes : List Node) → option_map (λ v. meaning nodes v.now) result ≡ calls.given_value (option_map (λ v. meaning nodes v.now) value.entry) }
{
    match value {
        Some(Value::Absent) => None,
        Some(value) => Some(value),
        None => None,
    }
}

/// The fill that a call is given.
#[tactic(auto, unfolding(xr_values::specs::Meaning::given))]
pub fn fill_given(args: &Args) -> Option<&Value>
    ensures { (nodes : List Node) → option_map (λ v. meaning nodes v.now) result ≡ of.fill_given (given nodes args.now) }
{
    given_value(keyword(args.keyed.as_slice()))
}

/// The cell that a fill is, for cells of this kind.
///
/// # Errors
/// `WrongKind` unless it is `NA` or a literal of the kind.
#[tactic(auto, using(xr_arguments::proofs::Variants::is_missing, xr_arguments::proofs::Variants::is_number, xr_arguments::proofs::Variants::is_truth, xr_values::proofs::Meaning::meaning_out), unfolding(xr_operations::specs::Moves::fill_for, xr_operations::specs::CellMethods::literal_for, xr_types::specs::Results::unless))]
pub fn fill_for(kind: DType, value: &Value) -> Result<Option<i128>, CallFault>
    ensures { (nodes : List Node) → Answers (λ n. n) result (of.fill_for kind (meaning nodes value.now)) }
{
    match value {
        Value::Missing => Ok(None),
        Value::Number(n) => {
            if is_truths(kind) {
                Err(CallFault::Refused(Fault::WrongKind))
            } else {
                Ok(Some(*n))
            }
        }
        Value::Truth(b) => {
            if is_truths(kind) {
                Ok(Some(*b as i128))
            } else {
                Err(CallFault::Refused(Fault::WrongKind))
            }
        }
        _ => Err(CallFault::Refused(Fault::WrongKind)),
    }
}

/// The cell that the fill is, where one is given.
///
/// # Errors
/// Those of `fill_for`.
#[tactic(auto, unfolding(xr_operations::specs::Moves::fill_called))]
pub fn fill_called(kind: DType, value: Option<&Value>) -> Result<Option<Option<i128>>, CallFault>
    ensures { (nodes : List Node) → Answers (λ n. n) result (of.fill_called kind (option_map (λ v. meaning nodes v.now) value.entry)) }
{
    match value {
        None => Ok(None),
        Some(value) => {
            let fill = fill_for(kind, value)?;
            Ok(Some(fill))
        }
    }
}

/// Refuses that no fill is given.
#[tactic(auto, unfolding(xr_operations::specs::Moves::needed))]
pub fn needed(fill: Option<Option<i128>>) -> Result<Option<i128>, CallFault>
    ensures { Answers (λ n. n) result (of.needed fill) }
{
    match fill {
        Some(fill) => Ok(fill),
        None => Err(CallFault::Refused(Fault::WouldPromote)),
    }
}

/// Refuses a fill that isn't in the range of the kind.
#[tactic(auto, using(crate::proofs::InKind::in_kind), unfolding(xr_operations::specs::Moves::check_fill, xr_operations::specs::CellMethods::check_fits, xr_types::specs::Results::unless))]
pub fn check_fill(kind: DType, fill: Option<i128>) -> Result<(), CallFault>
    ensures answers { Answers (λ u. u) result (of.check_fill kind fill) }
    ensures fits { OnOk result (IsCell kind fill) }
{
    match fill {
        None => Ok(()),
        Some(n) => {
            if fits(kind, n) {
                Ok(())
            } else {
                Err(CallFault::Refused(Fault::DoesNotFit))
            }
        }
    }
}
