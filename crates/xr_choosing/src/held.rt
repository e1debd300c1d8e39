//! An argument by its place or its name.
ghost use Rattle.std.specs.Prelude.{◌≡◌, List, option_map, IfOk};
ghost use Rattle.xr_types.specs.Results.{Answers};
ghost use Rattle.xr_arrays.specs.declared.node.Node.{Node};
ghost use Rattle.xr_defs.specs.Building.{required as required_of};
ghost use Rattle.xr_values.specs.Meaning.{meaning, AreArgsIn, IsValueIn};
ghost use Rattle.xr_choosing.specs.Held.{held, keyword_held};

use xr_types::{CallFault, Fault, TextBytes};
use xr_values::{Args, Value};

fn by_keyword<'a>(name: &str, keyed: &'a [(TextBytes, Value)]) -> Option<&'a Value>
    ensures { option_map (λ v. v.now) result ≡ keyword_held name.now keyed.now }
{
    match keyed {
        [] => None,
        [argument, rest @ ..] => {
            if argument.0.as_str() == name {
                Some(&argument.1)
            } else {
                by_keyword(name, rest)
            }
        }
    }
}

/// The argument of a parameter, by its place where it has no name.
pub fn held<'a>(args: &'a Args, place: usize, name: &str) -> Option<&'a Value>
    ensures { option_map (λ v. v.now) result ≡ held place name.now args.now }
{
    match args.plain.as_slice().get(place) {
        Some(value) => Some(value),
        None => by_keyword(name, args.keyed.as_slice()),
    }
}

/// The argument of a parameter that can't be left out.
///
/// # Errors
/// `BadArgument` where it isn't given.
#[tactic(auto, using(crate::proofs::Inside::given_there, crate::proofs::Inside::not_given, crate::proofs::Inside::held_inside))]
pub fn needed<'a>(args: &'a Args, place: usize, name: &str) -> Result<&'a Value, CallFault>
    ensures answers { (nodes : List Node) → Answers (λ v. meaning nodes v.now) result (required_of (option_map (meaning nodes) (held place name.now args.now))) }
    ensures inside { (nodes : List Node) → AreArgsIn nodes args.now → IfOk result (λ v. IsValueIn nodes v.now) }
{
    match held(args, place, name) {
        Some(value) => Ok(value),
        None => Err(CallFault::Refused(Fault::BadArgument)),
    }
}
