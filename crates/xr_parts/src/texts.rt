//! The texts that values are.
ghost use Rattle.std.specs.Prelude.{◌≡◌};
ghost use Rattle.xr_parts.specs.Common.{Answers, List, Node, among, given, map, meaning};
ghost use Rattle.xr_defs.specs.Parts as of;

use std::alloc::Global;
use xr_arguments::{as_text, texts_in};
use xr_types::{CallFault, DeepCopy, Fault, Items, TextBytes};
use xr_values::{Args, Value};

/// Whether a name is one of these.
pub fn is_among(names: &[TextBytes], name: &TextBytes) -> bool
    ensures { result ≡ among names.now name.now }
{
    names.iter().any(|other| name.is(other))
}

/// The texts of values.
#[tactic(auto, using(crate::proofs::Behind::behind_both), unfolding(xr_defs::specs::Parts::as_texts))]
pub(crate) fn as_texts(alloc: Global, values: &[Value]) -> Result<Items<TextBytes>, CallFault>
    ensures { (nodes : List Node) → Answers (λ ts. ts) result (of.as_texts (map (meaning nodes) values.now)) }
{
    let mut out = Items::new(alloc);
    for value in values {
        out.push(as_text(value)?.deep_copy(alloc)?)?;
    }
    Ok(out)
}

// The names that a text or a list of texts gives.
#[tactic(auto, using(xr_arguments::proofs::Variants::is_text, xr_arguments::proofs::Variants::is_list, xr_values::proofs::Meaning::meaning_out), unfolding(xr_defs::specs::Parts::as_names))]
fn as_names(alloc: Global, value: &Value) -> Result<Items<TextBytes>, CallFault>
    ensures { (nodes : List Node) → Answers (λ ts. ts) result (of.as_names (meaning nodes value.now)) }
{
    match value {
        Value::Text(text) => {
            let mut names = Items::new(alloc);
            names.push(text.deep_copy(alloc)?)?;
            Ok(names)
        }
        Value::List(values) => texts_in(alloc, values.as_slice()),
        _ => Err(CallFault::Refused(Fault::WrongKind)),
    }
}

/// The names of a call whose one argument gives them.
#[tactic(auto, unfolding(xr_defs::specs::Parts::names_given, xr_types::specs::Results::unless, xr_values::specs::Meaning::given))]
pub(crate) fn names_given(alloc: Global, args: &Args) -> Result<Items<TextBytes>, CallFault>
    ensures { (nodes : List Node) → Answers (λ ts. ts) result (of.names_given (given nodes args.now)) }
{
    if args.keyed.len() != 0 {
        return Err(CallFault::Refused(Fault::BadArgument));
    }
    match args.plain.as_slice() {
        [value] => as_names(alloc, value),
        _ => Err(CallFault::Refused(Fault::BadArgument)),
    }
}
