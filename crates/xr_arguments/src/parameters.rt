//! Arguments by the names of a call's parameters.
ghost use Rattle.std.specs.Prelude.{◌≡◌, ◌++◌, List, map, option_map, OnOk};
ghost use Rattle.std.specs.List.{list_all};
ghost use Rattle.xr_arrays.specs.declared.node.Node.{Node};
ghost use Rattle.xr_types.specs.Names.{among};
ghost use Rattle.xr_types.specs.Results.{Answers};
ghost use Rattle.xr_defs.specs.Building as calls;
ghost use Rattle.xr_values.specs.Meaning.{meaning, given, with_key};

use std::alloc::{AllocError, Global};
use xr_types::{CallFault, Fault, Items, TextBytes};
use xr_values::{Args, Value};

// The argument by this keyword.
fn keyword<'a>(name: &str, keyed: &'a [(TextBytes, Value)]) -> Option<&'a Value>
    ensures { (nodes : List Node) → option_map (λ v. meaning nodes v.now) result ≡ calls.keyword name.now (map (with_key nodes) keyed.now) }
{
    match keyed {
        [] => None,
        [argument, rest @ ..] => {
            if argument.0.as_str() == name {
                Some(&argument.1)
            } else {
                keyword(name, rest)
            }
        }
    }
}

fn is_among(names: &[&str], name: &TextBytes) -> bool
    ensures { result ≡ among (map (λ n. n.now) names.now) name.now }
{
    match names {
        [] => false,
        [first, rest @ ..] => name.as_str() == *first || is_among(rest, name),
    }
}

fn are_keywords(names: &[&str], keyed: &[(TextBytes, Value)]) -> bool
    ensures { (nodes : List Node) → result ≡ list_all (calls.is_keyword_of (map (λ n. n.now) names.now)) (map (with_key nodes) keyed.now) }
{
    match keyed {
        [] => true,
        [argument, rest @ ..] => is_among(names, &argument.0) && are_keywords(names, rest),
    }
}

// Adds the arguments by these keywords.
fn push_keywords<'a>(
    values: &mut Items<Option<&'a Value>>,
    names: &[&str],
    keyed: &'a [(TextBytes, Value)],
) -> Result<(), AllocError>
    ensures { (nodes : List Node) → OnOk result (map (option_map (λ v. meaning nodes v.now)) values.new ≡ map (option_map (λ v. meaning nodes v.now)) values.old ++ map (λ name. calls.keyword name (map (with_key nodes) keyed.now)) (map (λ n. n.now) names.now)) }
{
    match names {
        [] => Ok(()),
        [name, rest @ ..] => {
            values.push(keyword(name, keyed))?;
            push_keywords(values, rest, keyed)
        }
    }
}

/// The arguments in the order of these parameters: plain ones stand for the first of them, and the others are taken by keyword.
///
/// # Errors
/// `BadArgument` for more plain arguments than parameters, and for a keyword that is none of the other parameters.
#[tactic(auto, unfolding(xr_defs::specs::Building::bound, xr_types::specs::Results::unless, xr_values::specs::Meaning::given))]
pub fn bound<'a>(
    alloc: Global,
    names: &[&str],
    args: &'a Args,
) -> Result<Items<Option<&'a Value>>, CallFault>
    ensures { (nodes : List Node) → Answers (λ vs. map (option_map (λ v. meaning nodes v.now)) vs) result (calls.bound (map (λ n. n.now) names.now) (given nodes args.now)) }
{
    let plain = args.plain.as_slice();
    let keyed = args.keyed.as_slice();
    if plain.len() > names.len() {
        return Err(CallFault::Refused(Fault::BadArgument));
    }
    let (_, others) = names.split_at(plain.len());
    if !are_keywords(others, keyed) {
        return Err(CallFault::Refused(Fault::BadArgument));
    }
    let mut values = Items::new(alloc);
    for value in plain {
        values.push(Some(value))?;
    }
    push_keywords(&mut values, others, keyed)?;
    Ok(values)
}

/// The argument of a parameter.
pub fn argument<'a>(values: &[Option<&'a Value>], place: usize) -> Option<&'a Value>
    ensures { (nodes : List Node) → option_map (λ v. meaning nodes v.now) result ≡ calls.argument (map (option_map (λ v. meaning nodes v.now)) values.now) place }
{
    *values.get(place)?
}

// `None` is no argument.
#[tactic(auto, using(crate::proofs::Variants::is_absent, xr_values::proofs::Meaning::meaning_out))]
fn given_value<'a>(value: Option<&'a Value>) -> Option<&'a Value>
    ensures { (nodes : List Node) → option_map (λ v. meaning nodes v.now) result ≡ calls.given_value (option_map (λ v. meaning nodes v.now) value.entry) }
{
    match value {
        Some(Value::Absent) => None,
        Some(value) => Some(value),
        None => None,
    }
}

/// The argument of a parameter that may be left out. `None` is no argument.
pub fn option<'a>(values: &[Option<&'a Value>], place: usize) -> Option<&'a Value>
    ensures { (nodes : List Node) → option_map (λ v. meaning nodes v.now) result ≡ calls.option (map (option_map (λ v. meaning nodes v.now)) values.now) place }
{
    given_value(argument(values, place))
}

/// The argument that a call can't do without.
///
/// # Errors
/// `BadArgument` where it isn't given.
pub fn required(value: Option<&Value>) -> Result<&Value, CallFault>
    ensures { (nodes : List Node) → Answers (λ v. meaning nodes v.now) result (calls.required (option_map (λ v. meaning nodes v.now) value.entry)) }
{
    value.ok_or(CallFault::Refused(Fault::BadArgument))
}
