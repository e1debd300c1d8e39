//! The entries of the argument `coords`.
ghost use Rattle.std.specs.Prelude.{◌≡◌, List, Some, map, option_map, IfOk};
ghost use Rattle.xr_arrays.specs.declared.node.Node.{Node};
ghost use Rattle.xr_types.specs.Results.{Answers};
ghost use Rattle.xr_defs.specs.Building as of;
ghost use Rattle.xr_values.specs.Meaning.{meaning, with_key};
ghost use Rattle.xr_building.specs.Written.{coords_held, entries_held, keyword_held, table_entries};

use crate::check::check_entry;
use crate::given::is_named;
use xr_types::{Axis, CallFault, Fault, TextBytes};
use xr_values::{Args, Value};

// The argument by this keyword.
fn by_keyword<'a>(name: &str, keyed: &'a [(TextBytes, Value)]) -> Option<&'a Value>
    ensures { option_map (λ v. v.now) result ≡ keyword_held name.now keyed.now }
{
    for entry in keyed {
        if entry.0.as_str() == name {
            return Some(&entry.1);
        }
    }
    None
}

/// The argument for `coords`, which is the third one where it has no name.
pub fn coords_argument(args: &Args) -> Option<&Value>
    ensures { option_map (λ v. v.now) result ≡ coords_held args.now }
{
    match args.plain.as_slice().get(2) {
        Some(value) => Some(value),
        None => by_keyword("coords", args.keyed.as_slice()),
    }
}

// The entries of a table, each of which can be one and has a name.
#[tactic(auto, unfolding(xr_defs::specs::Building::check_table_entry, xr_types::specs::Results::unless))]
fn checked<'a>(
    axes: &[Axis],
    entries: &'a [(TextBytes, Value)],
) -> Result<&'a [(TextBytes, Value)], CallFault>
    ensures answers { (nodes : List Node) → Answers (λ es. map (with_key nodes) es.now) result (table_entries axes.now (map (with_key nodes) entries.now)) }
    ensures same { IfOk result (λ es. es.now ≡ entries.now) }
{
    for entry in entries {
        check_entry(axes, entry)?;
        if !is_named(&entry.0) {
            return Err(CallFault::Refused(Fault::BadArgument));
        }
    }
    Ok(entries)
}

// The entries of a table; `None` has none.
#[tactic(auto, using(xr_arguments::proofs::Variants::is_absent, xr_arguments::proofs::Variants::is_table, crate::proofs::Tables::table_means, xr_values::proofs::Meaning::meaning_out), unfolding(xr_defs::specs::Building::entries_given))]
fn table_given<'a>(axes: &[Axis], value: &'a Value) -> Result<&'a [(TextBytes, Value)], CallFault>
    ensures answers { (nodes : List Node) → Answers (λ es. map (with_key nodes) es.now) result (of.entries_given axes.now (of.given_value (Some (meaning nodes value.now)))) }
    ensures held { IfOk result (λ es. es.now ≡ entries_held (Some value.now)) }
{
    match value {
        Value::Absent => Ok(&[]),
        Value::Table(table) => checked(axes, table.as_slice()),
        _ => Err(CallFault::Refused(Fault::WrongKind)),
    }
}

/// The entries of a table; none where no argument is given.
///
/// # Errors
/// `WrongKind` for another value; of the first entry that can't be one `WrongKind` for what can't be labels, or no coordinate,
/// `BadArgument` for an array that is masked or doesn't lie along the dimension alone, or has more than one where it is no labels, and
/// then `BadArgument` for no name.
#[tactic(auto, unfolding(xr_defs::specs::Building::entries_given))]
pub fn entries_given<'a>(
    axes: &[Axis],
    coords: Option<&'a Value>,
) -> Result<&'a [(TextBytes, Value)], CallFault>
    ensures answers { (nodes : List Node) → Answers (λ es. map (with_key nodes) es.now) result (of.entries_given axes.now (of.given_value (option_map (λ v. meaning nodes v.now) coords.entry))) }
    ensures held { IfOk result (λ es. es.now ≡ entries_held (option_map (λ v. v.now) coords.entry)) }
{
    match coords {
        None => Ok(&[]),
        Some(value) => table_given(axes, value),
    }
}
