//! What an array is given: its dimensions, its name and its kind.
ghost use Rattle.std.specs.Prelude.{◌≡◌, ◌≢◌, ◌&&◌, ◌==◌, List, true, not, option_map, length, All, IfOk, MatchOption, Some, ⊤};
ghost use Rattle.std.specs.List.{list_all};
ghost use Rattle.xr_types.specs.declared.kind.DType.TheVariants as kinds;
ghost use Rattle.xr_arrays.specs.declared.node.Node.{Node};
ghost use Rattle.xr_types.specs.Results.{Answers};
ghost use Rattle.xr_types.specs.Names.{among, are_distinct};
ghost use Rattle.xr_files.specs.Classic.{is_name};
ghost use Rattle.xr_defs.specs.Building as of;
ghost use Rattle.xr_values.specs.Meaning.{meaning};

use std::alloc::Global;
use xr_arguments::{as_text, texts_in};
use xr_formulas::kind_named;
use xr_parts::{is_among, new_name};
use xr_types::{CallFault, DType, DeepCopy, Fault, Items, Name, TextBytes};
use xr_values::Value;

/// Whether a text is a name: it isn't empty.
pub fn is_named(text: &TextBytes) -> bool
    ensures value { result ≡ not (length text.now == 0) }
    ensures name { result ≡ is_name text.now }
{
    !text.as_str().is_empty()
}

fn are_named(names: &[TextBytes]) -> bool
    ensures value { result ≡ list_all (λ n. not (length n == 0)) names.now }
    ensures names { result ≡ list_all is_name names.now }
{
    names.iter().all(|name| is_named(name))
}

fn are_distinct(names: &[TextBytes]) -> bool
    ensures { result ≡ are_distinct names.now }
{
    for at in 0..names.len() {
        let (_, behind) = names.split_at(at + 1);
        if is_among(behind, &names[at]) {
            return false;
        }
    }
    true
}

/// The names of the dimensions.
///
/// # Errors
/// `WrongKind` unless it is a list of texts; `BadArgument` where one is empty or stands twice.
#[tactic(auto, using(xr_arguments::proofs::Variants::is_list, xr_values::proofs::Meaning::meaning_out), unfolding(xr_defs::specs::Building::dims_given, xr_types::specs::Results::unless))]
pub fn dims_given(alloc: Global, value: &Value) -> Result<Items<Name>, CallFault>
    ensures answers { (nodes : List Node) → Answers (λ ds. ds) result (of.dims_given (Some (meaning nodes value.now))) }
    ensures distinct { IfOk result (λ ds. are_distinct ds ≡ true) }
    ensures names { IfOk result (λ ds. list_all is_name ds ≡ true) }
{
    match value {
        Value::List(items) => {
            let names = texts_in(alloc, items.as_slice())?;
            if are_distinct(names.as_slice()) && are_named(names.as_slice()) {
                Ok(names)
            } else {
                Err(CallFault::Refused(Fault::BadArgument))
            }
        }
        _ => Err(CallFault::Refused(Fault::WrongKind)),
    }
}

/// The name, where one is given.
///
/// # Errors
/// `WrongKind` unless it is a text; `BadArgument` where it is empty.
#[tactic(auto, unfolding(xr_defs::specs::Building::name_given))]
pub fn name_given(alloc: Global, value: Option<&Value>) -> Result<Option<Name>, CallFault>
    ensures answers { (nodes : List Node) → Answers (λ t. t) result (of.name_given (option_map (λ v. meaning nodes v.now) value.entry)) }
    ensures name { IfOk result (λ t. MatchOption t ⊤ (λ n. is_name n ≡ true)) }
{
    match value {
        None => Ok(None),
        Some(value) => Ok(Some(new_name(value)?.deep_copy(alloc)?)),
    }
}

/// The kind, where one is given.
///
/// # Errors
/// `WrongKind` unless it is a text; `BadArgument` unless it names a kind of numbers or truth values.
#[tactic(auto, unfolding(xr_defs::specs::Building::kind_given))]
pub fn kind_given(value: Option<&Value>) -> Result<Option<DType>, CallFault>
    ensures answers { (nodes : List Node) → Answers (λ k. k) result (of.kind_given (option_map (λ v. meaning nodes v.now) value.entry)) }
    ensures number { IfOk result (λ o. MatchOption o ⊤ (λ k. k ≢ kinds.Char)) }
{
    match value {
        None => Ok(None),
        Some(value) => match kind_named(as_text(value)?.as_str()) {
            Some(kind) => Ok(Some(kind)),
            None => Err(CallFault::Refused(Fault::BadArgument)),
        },
    }
}
