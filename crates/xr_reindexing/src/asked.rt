//! The arguments of `reindex`.
ghost use Rattle.std.specs.Prelude.{◌≡◌, List, option_map};
ghost use Rattle.xr_arrays.specs.declared.node.Node.{Node};
ghost use Rattle.xr_types.specs.Results.{Answers};
ghost use Rattle.xr_relations.specs.Reindexing as of;
ghost use Rattle.xr_values.specs.Meaning.{given, meaning, with_key};

use xr_selecting::{are_all_labels, option};
use xr_types::{CallFault, Fault, TextBytes};
use xr_values::{Args, Value};

/// Whether a keyword is none of a dimension.
pub fn is_option(name: &TextBytes) -> bool
    ensures { result ≡ of.is_option name.now }
{
    xr_selecting::is_option(name) || name.as_str() == "fill_value"
}

/// The fill that a call is given.
#[tactic(auto, unfolding(xr_values::specs::Meaning::given))]
pub fn fill_given(args: &Args) -> Option<&Value>
    ensures { (nodes : List Node) → option_map (λ v. meaning nodes v.now) result ≡ of.fill_given (given nodes args.now) }
{
    option("fill_value", args.keyed.as_slice())
}

#[tactic(auto, using(xr_arguments::proofs::Variants::is_list, xr_values::proofs::Meaning::meaning_out, xr_selecting::proofs::Lists::all_are))]
fn is_list(value: &Value) -> bool
    ensures { (nodes : List Node) → result ≡ of.is_list (meaning nodes value.now) }
{
    match value {
        Value::List(list) => are_all_labels(list.as_slice()),
        _ => false,
    }
}

/// Refuses an argument that is no list of labels.
#[tactic(auto, unfolding(xr_relations::specs::Reindexing::check_list, xr_types::specs::Results::unless))]
pub fn check_list(argument: &(TextBytes, Value)) -> Result<(), CallFault>
    ensures { (nodes : List Node) → Answers (λ u. u) result (of.check_list (with_key nodes argument.now)) }
{
    if is_list(&argument.1) {
        Ok(())
    } else {
        Err(CallFault::Refused(Fault::WrongKind))
    }
}
