//! Methods of one array that work cell by cell.
ghost use Rattle.std.specs.Prelude.{◌≡◌, not, false, List};
ghost use Rattle.xr_types.specs.Results.{unless, Answers};
ghost use Rattle.xr_types.specs.declared.kind.DType.TheVariants as kinds;
ghost use Rattle.xr_arrays.specs.declared.node.Node.{Node};
ghost use Rattle.xr_operations.specs.CellMethods as calls;
ghost use Rattle.xr_operations.specs.Methods as methods;
ghost use Rattle.xr_values.specs.Meaning.{meaning, given};
ghost use Rattle.xr_values.specs.Stands.{array_in, IsArrayIn};
ghost use Rattle.xr_formulas.specs.Cellwise.{masked_after, Changes};
ghost use Rattle.xr_formulas.specs.Mades.{AnswersMade};

use crate::cellwise::{changed, of_method};
use crate::kinds::{fits, is_chars, is_truths, kind_named, truth_number};
use crate::made::Made;
use crate::numbers::filled;
use std::alloc::Global;
use xr_arguments::{as_text, nothing_given, only};
use xr_types::{CallFault, DType, DeepCopy, Fault, OpKind, TextBytes};
use xr_values::{Args, DataArray, Value};

// `isnull()` and `notnull()`
#[tactic(auto, using(crate::proofs::Answered::answered), unfolding(xr_operations::specs::CellMethods::tested))]
fn tested(alloc: Global, op: OpKind, on: &DataArray, args: &Args) -> Result<Made, CallFault>
    requires tests { Changes op kinds.Bool on.now.kind }
    requires mask { masked_after op on.now.masked ≡ false }
    ensures { (nodes : List Node) → IsArrayIn nodes on.now → AnswersMade nodes result (calls.tested op (array_in nodes on.now) (given nodes args.now)) }
{
    nothing_given(args)?;
    let made = of_method(alloc, on, op, DType::Bool)?;
    Ok(made)
}

// Refuses what doesn't hold.
#[tactic(auto, unfolding(xr_types::specs::Results::unless))]
pub(crate) fn check(holds: bool, fault: Fault) -> Result<(), CallFault>
    ensures { Answers (λ u. u) result (unless holds fault) }
{
    if holds {
        Ok(())
    } else {
        Err(CallFault::Refused(fault))
    }
}

// `astype(kind)`
#[tactic(auto, using(crate::proofs::Answered::answered), unfolding(xr_operations::specs::CellMethods::cast_called, xr_operations::specs::CellMethods::kind_called))]
fn cast_called(alloc: Global, on: &DataArray, args: &Args) -> Result<Made, CallFault>
    ensures { (nodes : List Node) → IsArrayIn nodes on.now → AnswersMade nodes result (calls.cast_called (array_in nodes on.now) (given nodes args.now)) }
{
    check(!is_chars(on.kind), Fault::WrongKind)?;
    let text = as_text(only(args, "kind")?)?;
    let Some(kind) = kind_named(text.as_str()) else {
        return Err(CallFault::Refused(Fault::BadArgument));
    };
    let attrs = on.attrs.deep_copy(alloc)?;
    let made = changed(alloc, on, OpKind::Cast, kind, attrs)?;
    Ok(made)
}

// The one plain argument.
#[tactic(auto, unfolding(xr_operations::specs::CellMethods::one_of, xr_values::specs::Meaning::given))]
fn the_one(args: &Args) -> Result<&Value, CallFault>
    ensures { (nodes : List Node) → Answers (λ v. meaning nodes v.now) result (calls.the_one (given nodes args.now)) }
{
    match (args.plain.as_slice(), args.keyed.as_slice()) {
        ([argument], []) => Ok(argument),
        _ => Err(CallFault::Refused(Fault::BadArgument)),
    }
}

/// A literal for cells of a kind: a truth value for truth values, and a whole number for the others.
///
/// # Errors
/// `WrongKind` for any other value.
#[tactic(auto, using(xr_arguments::proofs::Variants::is_number, xr_arguments::proofs::Variants::is_truth, xr_values::proofs::Meaning::meaning_out), unfolding(xr_operations::specs::CellMethods::literal_for))]
pub fn literal_for(kind: DType, value: &Value) -> Result<i128, CallFault>
    ensures { (nodes : List Node) → Answers (λ n. n) result (calls.literal_for kind (meaning nodes value.now)) }
{
    match value {
        Value::Number(n) => {
            check(!is_truths(kind), Fault::WrongKind)?;
            Ok(*n)
        }
        Value::Truth(truth) => {
            check(is_truths(kind), Fault::WrongKind)?;
            Ok(truth_number(*truth))
        }
        _ => Err(CallFault::Refused(Fault::WrongKind)),
    }
}

/// Refuses a number that a kind doesn't have.
///
/// # Errors
/// `DoesNotFit`.
#[tactic(auto, unfolding(xr_operations::specs::CellMethods::check_fits))]
pub fn check_fits(kind: DType, n: i128) -> Result<(), CallFault>
    ensures { Answers (λ u. u) result (calls.check_fits kind n) }
{
    check(fits(kind, n), Fault::DoesNotFit)
}

// `fillna(literal)`
#[tactic(auto, using(crate::proofs::Answered::answered, crate::proofs::Sorts::passes), unfolding(xr_operations::specs::CellMethods::fill_called, xr_operations::specs::CellMethods::check_fits))]
fn fill_called(alloc: Global, on: &DataArray, args: &Args) -> Result<Made, CallFault>
    ensures { (nodes : List Node) → IsArrayIn nodes on.now → AnswersMade nodes result (calls.fill_called (array_in nodes on.now) (given nodes args.now)) }
{
    let n = literal_for(on.kind, the_one(args)?)?;
    check_fits(on.kind, n)?;
    let made = filled(alloc, on, n)?;
    Ok(made)
}

/// What a method that works cell by cell makes of an array: `isnull`, `notnull`, `astype` and `fillna`.
///
/// # Errors
/// `UnknownName` for any other; then those of the method.
#[tactic(auto, unfolding(xr_operations::specs::Methods::array_method))]
pub fn array_method(
    alloc: Global,
    name: &TextBytes,
    on: &DataArray,
    args: &Args,
) -> Result<Made, CallFault>
    ensures { (nodes : List Node) → IsArrayIn nodes on.now → AnswersMade nodes result (methods.array_method name.now (array_in nodes on.now) (given nodes args.now)) }
{
    match name.as_str() {
        "isnull" => tested(alloc, OpKind::IsNull, on, args),
        "notnull" => tested(alloc, OpKind::NotNull, on, args),
        "astype" => cast_called(alloc, on, args),
        "fillna" => fill_called(alloc, on, args),
        _ => Err(CallFault::Refused(Fault::UnknownName(name.deep_copy(alloc)?))),
    }
}
