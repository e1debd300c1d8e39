//! What `to_netcdf(name, format, fill_value, unlimited_dims)` is asked for.
ghost use Rattle.std.specs.Prelude.{◌≡◌, true, List, Some, map, option_map, IfOk};
ghost use Rattle.xr_arrays.specs.declared.node.Node.{Node};
ghost use Rattle.xr_files.specs.Files.{is_version};
ghost use Rattle.xr_types.specs.Results.{Answers};
ghost use Rattle.xr_defs.specs.Building.{option as option_at};
ghost use Rattle.xr_runs.specs.Calls as calls;
ghost use Rattle.xr_runs.specs.Calls.{write_asked};
ghost use Rattle.xr_values.specs.Meaning.{meaning, given, IsValueIn};
ghost use Rattle.dataset_core.specs.Answers.{AnswersShared, AnswersRequest};

use crate::method::is_labelled_data;
use std::alloc::Global;
use std::rc::Rc;
use xr_arguments::{argument, as_text, bound, option, required};
use xr_defs::WriteOptions;
use xr_parts::{as_set, own_name};
use xr_types::{CallFault, DeepCopy, Fault, TextBytes};
use xr_values::{Args, Dataset, Value};

/// What `to_netcdf` is asked for: the name of the file, how it is written, and the dataset.
#[derive(Drop)]
pub struct WriteRequest {
    pub name: TextBytes,
    pub options: WriteOptions,
    pub set: Rc<Dataset>,
}

// The version of the format.
#[tactic(auto, unfolding(xr_runs::specs::Calls::format_named))]
fn format_named(name: &TextBytes) -> Result<u8, CallFault>
    ensures told { Answers (λ v. v) result (calls.format_named name.now) }
    ensures known { IfOk result (λ v. is_version v ≡ true) }
{
    if name.as_str() == "NETCDF3_CLASSIC" {
        Ok(1)
    } else if name.as_str() == "NETCDF3_64BIT" {
        Ok(2)
    } else if name.as_str() == "NETCDF3_64BIT_DATA" {
        Ok(5)
    } else {
        Err(CallFault::Refused(Fault::BadArgument))
    }
}

#[tactic(auto, unfolding(xr_runs::specs::Calls::format_given))]
fn format_given(value: Option<&Value>) -> Result<u8, CallFault>
    ensures told { (nodes : List Node) → Answers (λ v. v) result (calls.format_given (option_map (λ v. meaning nodes v.now) value.entry)) }
    ensures known { IfOk result (λ v. is_version v ≡ true) }
{
    match value {
        None => Ok(5),
        Some(value) => {
            let name = as_text(value)?;
            format_named(name)
        }
    }
}

#[tactic(auto, using(xr_arguments::proofs::Variants::is_number, xr_values::proofs::Meaning::meaning_out), unfolding(xr_runs::specs::Calls::fill_given))]
fn as_fill(value: &Value) -> Result<Option<i128>, CallFault>
    ensures { (nodes : List Node) → Answers (λ n. n) result (calls.fill_given (Some (meaning nodes value.now))) }
{
    match value {
        Value::Number(n) => Ok(Some(*n)),
        _ => Err(CallFault::Refused(Fault::WrongKind)),
    }
}

// The number that stands for a missing cell.
#[tactic(auto, unfolding(xr_runs::specs::Calls::fill_given))]
fn fill_given(value: Option<&Value>) -> Result<Option<i128>, CallFault>
    ensures { (nodes : List Node) → Answers (λ n. n) result (calls.fill_given (option_map (λ v. meaning nodes v.now) value.entry)) }
{
    match value {
        None => Ok(None),
        Some(value) => as_fill(value),
    }
}

// The dimension that becomes the record dimension.
#[tactic(auto, unfolding(xr_runs::specs::Calls::unlimited_given))]
fn unlimited_given(alloc: Global, value: Option<&Value>) -> Result<Option<TextBytes>, CallFault>
    ensures { (nodes : List Node) → Answers (λ t. t) result (calls.unlimited_given (option_map (λ v. meaning nodes v.now) value.entry)) }
{
    match value {
        None => Ok(None),
        Some(value) => {
            let name = as_text(value)?;
            Ok(Some(name.deep_copy(alloc)?))
        }
    }
}

// The same by the places of the parameters.
fn version_of(values: &[Option<&Value>]) -> Result<u8, CallFault>
    ensures told { (nodes : List Node) → Answers (λ v. v) result (calls.format_given (option_at (map (option_map (λ v. meaning nodes v.now)) values.now) 1)) }
    ensures known { IfOk result (λ v. is_version v ≡ true) }
{
    format_given(option(values, 1))
}

fn fill_of(values: &[Option<&Value>]) -> Result<Option<i128>, CallFault>
    ensures { (nodes : List Node) → Answers (λ n. n) result (calls.fill_given (option_at (map (option_map (λ v. meaning nodes v.now)) values.now) 2)) }
{
    fill_given(option(values, 2))
}

fn unlimited_of(alloc: Global, values: &[Option<&Value>]) -> Result<Option<TextBytes>, CallFault>
    ensures { (nodes : List Node) → Answers (λ t. t) result (calls.unlimited_given (option_at (map (option_map (λ v. meaning nodes v.now)) values.now) 3)) }
{
    unlimited_given(alloc, option(values, 3))
}

#[tactic(auto, unfolding(xr_runs::specs::Calls::options_given))]
fn options_given(alloc: Global, values: &[Option<&Value>]) -> Result<WriteOptions, CallFault>
    ensures told { (nodes : List Node) → Answers (λ o. o) result (calls.options_given (map (option_map (λ v. meaning nodes v.now)) values.now)) }
    ensures known { IfOk result (λ o. is_version o.version ≡ true) }
{
    let version = version_of(values)?;
    let fill = fill_of(values)?;
    let unlimited = unlimited_of(alloc, values)?;
    Ok(WriteOptions {
        version,
        fill,
        unlimited,
    })
}

// An array is written as the dataset of it.
#[tactic(auto, using(xr_arguments::proofs::Variants::is_array, xr_arguments::proofs::Variants::is_set, xr_arguments::proofs::Inside::held_array, xr_arguments::proofs::Inside::held_set, xr_values::proofs::Meaning::meaning_out), unfolding(xr_runs::specs::Calls::as_dataset))]
fn as_dataset(alloc: Global, on: &Value) -> Result<Rc<Dataset>, CallFault>
    ensures { (nodes : List Node) → IsValueIn nodes on.now → AnswersShared nodes result (calls.as_dataset (meaning nodes on.now)) }
{
    match on {
        Value::Array(array) => {
            let name = own_name(array)?;
            let set = as_set(alloc, name, array)?;
            Ok(Rc::new(alloc, set)?)
        }
        Value::Set(set) => Ok(set.clone()?),
        _ => Err(CallFault::Refused(Fault::WrongKind)),
    }
}

/// What a call of `to_netcdf` is asked for: `name`, and `format`, `fill_value` and `unlimited_dims`, which may be left out.
///
/// # Errors
/// `WrongKind` for a receiver that is no array or dataset; then `BadArgument` for arguments that fit no parameter, and where
/// there is no name; then, for each argument in turn, `WrongKind` for a value of another kind, and `BadArgument` for a format
/// that isn't one of the three; then `BadArgument` for an array that has no name, and the faults of a dataset of it.
#[tactic(auto, unfolding(xr_runs::specs::Calls::write_asked, xr_types::specs::Results::unless))]
pub fn write_request(alloc: Global, on: &Value, args: &Args) -> Result<WriteRequest, CallFault>
    ensures { (nodes : List Node) → IsValueIn nodes on.now → AnswersRequest nodes result (write_asked (meaning nodes on.now) (given nodes args.now)) }
{
    if !is_labelled_data(on) {
        return Err(CallFault::Refused(Fault::WrongKind));
    }
    let values = bound(
        alloc,
        &["name", "format", "fill_value", "unlimited_dims"],
        args,
    )?;
    let values = values.as_slice();
    let name = as_text(required(argument(values, 0))?)?;
    let options = options_given(alloc, values)?;
    let set = as_dataset(alloc, on)?;
    Ok(WriteRequest {
        name: name.deep_copy(alloc)?,
        options,
        set,
    })
}
