//! The arguments `method` and `tolerance`.
ghost use Rattle.std.specs.Prelude.{◌≡◌, List, map, option_map};
ghost use Rattle.xr_arrays.specs.declared.node.Node.{Node};
ghost use Rattle.xr_types.specs.Results.{Answers};
ghost use Rattle.xr_defs.specs.Building as calls;
ghost use Rattle.xr_operations.specs.Selection as of;
ghost use Rattle.xr_values.specs.Meaning.{meaning, with_key};
ghost use Rattle.xr_selecting.specs.Searches.{search_in};

use xr_arguments::as_text;
use xr_indexing::as_number;
use xr_types::{CallFault, Fault, Near, TextBytes};
use xr_values::Value;

/// How a label that isn't there is found, and how far it may be.
#[derive(Clone, Copy)]
pub struct Search {
    pub method: Option<Near>,
    pub tolerance: Option<u128>,
}

/// The argument by this keyword, where `None` is no argument.
#[tactic(auto, using(xr_arguments::proofs::Variants::is_absent, xr_values::proofs::Meaning::meaning_out))]
pub fn option<'a>(name: &str, keyed: &'a [(TextBytes, Value)]) -> Option<&'a Value>
    ensures { (nodes : List Node) → option_map (λ v. meaning nodes v.now) result ≡ calls.given_value (calls.keyword name.now (map (with_key nodes) keyed.now)) }
{
    match keyed {
        [] => None,
        [argument, rest @ ..] => {
            if argument.0.as_str() != name {
                return option(name, rest);
            }
            match &argument.1 {
                Value::Absent => None,
                value => Some(value),
            }
        }
    }
}

#[tactic(auto, unfolding(xr_operations::specs::Selection::as_method))]
fn as_method(value: Option<&Value>) -> Result<Option<Near>, CallFault>
    ensures { (nodes : List Node) → Answers (λ m. m) result (of.as_method (option_map (λ v. meaning nodes v.now) value.entry)) }
{
    match value {
        None => Ok(None),
        Some(value) => match as_text(value)?.as_str() {
            "pad" | "ffill" => Ok(Some(Near::Pad)),
            "backfill" | "bfill" => Ok(Some(Near::Backfill)),
            "nearest" => Ok(Some(Near::Nearest)),
            _ => Err(CallFault::Refused(Fault::BadArgument)),
        },
    }
}

#[tactic(auto, unfolding(xr_operations::specs::Selection::as_tolerance, xr_types::specs::Results::unless))]
fn as_tolerance(method: Option<Near>, value: Option<&Value>) -> Result<Option<u128>, CallFault>
    ensures { (nodes : List Node) → Answers (λ far. far) result (of.as_tolerance method (option_map (λ v. meaning nodes v.now) value.entry)) }
{
    let Some(value) = value else {
        return Ok(None);
    };
    let far = as_number(value)?;
    if far < 0 || method.is_none() {
        return Err(CallFault::Refused(Fault::BadArgument));
    }
    Ok(Some(far as u128))
}

/// The method and the tolerance that a call is given.
///
/// # Errors
/// `WrongKind` for a method that is no text, then `BadArgument` for one that there isn't; then `WrongKind` for a tolerance that is
/// no number, and `BadArgument` for one below 0 or without a method.
#[tactic(auto, unfolding(xr_operations::specs::Selection::search_given))]
pub fn search_given(keyed: &[(TextBytes, Value)]) -> Result<Search, CallFault>
    ensures { (nodes : List Node) → Answers search_in result (of.search_given (map (with_key nodes) keyed.now)) }
{
    let method = as_method(option("method", keyed))?;
    let tolerance = as_tolerance(method, option("tolerance", keyed))?;
    Ok(Search { method, tolerance })
}

/// Whether a keyword is none of a dimension.
pub fn is_option(name: &TextBytes) -> bool
    ensures { result ≡ of.is_option name.now }
{
    let name = name.as_str();
    name == "method" || name == "tolerance"
}
