//! `rolling(d=w, center, min_periods)`: the width of its windows, and how many present cells they need.
ghost use Rattle.std.specs.Prelude.{◌≡◌, ◌≤◌, ◌||◌, List, codes, map, filter, not, option_map, IfOk, IfSome, Some};
ghost use Rattle.std.specs.Str.{bytes_eq};
ghost use Rattle.xr_arrays.specs.declared.node.Node.{Node};
ghost use Rattle.xr_defs.specs.declared.grouping.Grouping.TheVariants.{Windows};
ghost use Rattle.xr_groups.specs.Calls as calls;
ghost use Rattle.xr_types.specs.Results.{Answers};
ghost use Rattle.xr_values.specs.Meaning.{given, meaning, with_key};
ghost use Rattle.xr_grouping.specs.Told as told;
ghost use Rattle.xr_grouping.specs.Told.{with_first};

use crate::coarsens::{bounded, option_by, size_given};
use std::alloc::Global;
use xr_types::{CallFault, DeepCopy, Fault, Name, TextBytes};
use xr_values::{Args, Value};

fn is_option(name: &str) -> bool
    ensures { result ≡ (bytes_eq name.now (codes "center") || bytes_eq name.now (codes "min_periods")) }
{
    name == "center" || name == "min_periods"
}

// The one argument that names a dimension, which was found before or is among these.
#[tactic(auto, unfolding(xr_groups::specs::Calls::sole_keyword))]
fn sole_named<'a>(
    found: Option<&'a (TextBytes, Value)>,
    keyed: &'a [(TextBytes, Value)],
) -> Result<&'a (TextBytes, Value), CallFault>
    ensures { (nodes : List Node) → Answers (λ kv. with_key nodes kv.now) result (calls.sole_keyword (with_first (option_map (λ kv. with_key nodes kv.now) found.entry) (filter (λ kv. not (calls.is_rolling_option kv)) (map (with_key nodes) keyed.now)))) }
{
    match keyed {
        [] => match found {
            Some(argument) => Ok(argument),
            None => Err(CallFault::Refused(Fault::BadArgument)),
        },
        [argument, rest @ ..] => {
            if is_option(argument.0.as_str()) {
                return sole_named(found, rest);
            }
            match found {
                None => sole_named(Some(argument), rest),
                Some(_) => Err(CallFault::Refused(Fault::BadArgument)),
            }
        }
    }
}

#[tactic(auto, using(xr_arguments::proofs::Variants::is_truth, xr_values::proofs::Meaning::meaning_out), unfolding(xr_groups::specs::Calls::center_given))]
fn truth_given(value: &Value) -> Result<bool, CallFault>
    ensures { (nodes : List Node) → Answers (λ b. b) result (calls.center_given (Some (meaning nodes value.now))) }
{
    match value {
        Value::Truth(truth) => Ok(*truth),
        _ => Err(CallFault::Refused(Fault::WrongKind)),
    }
}

#[tactic(auto, unfolding(xr_groups::specs::Calls::center_given))]
fn center_given(value: Option<&Value>) -> Result<bool, CallFault>
    ensures { (nodes : List Node) → Answers (λ b. b) result (calls.center_given (option_map (λ v. meaning nodes v.now) value.entry)) }
{
    match value {
        None => Ok(false),
        Some(value) => truth_given(value),
    }
}

#[tactic(auto, unfolding(xr_groups::specs::Calls::least_given))]
fn least_given(value: Option<&Value>) -> Result<Option<u128>, CallFault>
    ensures least { (nodes : List Node) → Answers (λ m. m) result (calls.least_given (option_map (λ v. meaning nodes v.now) value.entry)) }
    ensures some { IfOk result (λ m. IfSome m (λ n. 1 ≤ n)) }
{
    match value {
        None => Ok(None),
        Some(value) => {
            let least = size_given(value)?;
            Ok(Some(least))
        }
    }
}

// All positions of a window, where it isn't given.
#[tactic(auto, unfolding(xr_groups::specs::Calls::least_of, xr_types::specs::Results::unless))]
fn least_of(least: Option<u128>, width: u128) -> Result<u128, CallFault>
    requires width { 1 ≤ width }
    requires least { IfSome least (λ n. 1 ≤ n) }
    ensures least { Answers (λ n. n) result (calls.least_of least width) }
    ensures some { IfOk result (λ n. 1 ≤ n) }
{
    match least {
        None => Ok(width),
        Some(least) => {
            if least <= width {
                Ok(least)
            } else {
                Err(CallFault::Refused(Fault::BadArgument))
            }
        }
    }
}

/// What the arguments of `rolling` ask for.
#[derive(Drop)]
pub struct Rolled {
    pub dimension: Name,
    pub width: u64,
    pub center: bool,
    pub least: u64,
}

// Windows along a named dimension, of a width that is given.
#[tactic(auto, unfolding(crate::specs::Told::width_told))]
fn width_told(
    alloc: Global,
    argument: &(TextBytes, Value),
    center: bool,
    least: Option<u128>,
) -> Result<Rolled, CallFault>
    requires { IfSome least (λ n. 1 ≤ n) }
    ensures asked { (nodes : List Node) → Answers (λ r. Windows r.dimension r.width r.center r.least) result (told.width_told (with_key nodes argument.now) center least) }
    ensures some { IfOk result (λ r. 1 ≤ r.least) }
{
    let width = size_given(&argument.1)?;
    let least = least_of(least, width)?;
    Ok(Rolled {
        dimension: argument.0.deep_copy(alloc)?,
        width: bounded(width),
        center,
        least: bounded(least),
    })
}

// Windows along a named dimension, by the other arguments.
#[tactic(auto, unfolding(crate::specs::Told::options_told))]
fn options_told(
    alloc: Global,
    argument: &(TextBytes, Value),
    keyed: &[(TextBytes, Value)],
) -> Result<Rolled, CallFault>
    ensures asked { (nodes : List Node) → Answers (λ r. Windows r.dimension r.width r.center r.least) result (told.options_told (with_key nodes argument.now) (map (with_key nodes) keyed.now)) }
    ensures some { IfOk result (λ r. 1 ≤ r.least) }
{
    let center = center_given(option_by("center", keyed))?;
    let least = least_given(option_by("min_periods", keyed))?;
    width_told(alloc, argument, center, least)
}

/// What the arguments of `rolling` ask for.
#[tactic(auto, unfolding(xr_groups::specs::Calls::rolling_given, crate::specs::Told::options_told, crate::specs::Told::width_told, xr_types::specs::Results::unless, xr_values::specs::Meaning::given))]
pub fn rolling_given(alloc: Global, args: &Args) -> Result<Rolled, CallFault>
    ensures asked { (nodes : List Node) → Answers (λ r. Windows r.dimension r.width r.center r.least) result (calls.rolling_given (given nodes args.now)) }
    ensures some { IfOk result (λ r. 1 ≤ r.least) }
{
    if args.plain.len() != 0 {
        return Err(CallFault::Refused(Fault::BadArgument));
    }
    let keyed = args.keyed.as_slice();
    let argument = sole_named(None, keyed)?;
    options_told(alloc, argument, keyed)
}
