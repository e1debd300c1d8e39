//! `times(units, LIST, calendar="proleptic_gregorian")`: labels that are times.
ghost use Rattle.std.specs.Prelude.{◌≡◌, List, option_map, All, IfOk};
ghost use Rattle.xr_arrays.specs.declared.node.Node.{Node};
ghost use Rattle.xr_times.specs.Times.{IsTime};
ghost use Rattle.xr_types.specs.Results.{Answers};
ghost use Rattle.xr_defs.specs.Meanings as meant;
ghost use Rattle.xr_relations.specs.Times as of;
ghost use Rattle.xr_values.specs.Meaning.{given, meaning, IsValueIn};
ghost use Rattle.xr_indexing.specs.Choices.{behind};

use cf_time::{calendar_named, decode, read_units};
use std::alloc::Global;
use xr_arguments::{argument, as_text, bound, option, required};
use xr_indexing::as_numbers;
use xr_types::{CallFault, DeepCopy, Fault, Items, NoMemory, Shared, TextBytes, TimeCoding, Units};
use xr_values::{Args, Value};

#[tactic(auto, using(xr_arguments::proofs::Variants::is_list, xr_values::proofs::Meaning::meaning_out), unfolding(xr_relations::specs::Times::counts_given))]
fn counts_given(alloc: Global, value: &Value) -> Result<Items<i128>, CallFault>
    ensures { (nodes : List Node) → Answers (λ ns. ns) result (of.counts_given (meaning nodes value.now)) }
{
    match value {
        Value::List(list) => as_numbers(alloc, list.as_slice()),
        _ => Err(CallFault::Refused(Fault::WrongKind)),
    }
}

// ---- the calendar and the units

#[tactic(auto, unfolding(xr_relations::specs::Times::calendar_given, xr_relations::specs::Times::calendar_called))]
fn calendar_given(alloc: Global, value: Option<&Value>) -> Result<TextBytes, CallFault>
    ensures { (nodes : List Node) → Answers (λ t. t) result (of.calendar_given (option_map (λ v. meaning nodes v.now) value.entry)) }
{
    let Some(value) = value else {
        return Ok(TextBytes::from_str(alloc, "proleptic_gregorian")?);
    };
    let name = as_text(value)?;
    match calendar_named(name.as_bytes()) {
        Some(_) => Ok(name.deep_copy(alloc)?),
        None => Err(CallFault::Refused(Fault::BadArgument)),
    }
}

#[tactic(auto, unfolding(xr_relations::specs::Times::units_given))]
fn units_given(text: &TextBytes, calendar: &TextBytes) -> Result<Units, CallFault>
    ensures { Answers (λ u. u) result (of.units_given text.now calendar.now) }
{
    let units = read_units(text.as_bytes(), Some(calendar.as_bytes()));
    units.ok_or(CallFault::Refused(Fault::BadArgument))
}

// ---- the times

#[tactic(auto, unfolding(xr_relations::specs::Times::time_at))]
fn time_at(units: &Units, count: i128) -> Result<i64, CallFault>
    ensures answers { Answers (λ t. t) result (of.time_at units.now count) }
    ensures time { IfOk result (IsTime units.now.calendar) }
{
    decode(units, count).ok_or(CallFault::Refused(Fault::OutOfRange))
}

#[tactic(auto, using(xr_indexing::proofs::Loops::behind_both, xr_indexing::proofs::Loops::behind_nothing), unfolding(xr_relations::specs::Times::times_at))]
fn push_times(times: &mut Items<i64>, units: &Units, counts: &[i128]) -> Result<(), CallFault>
    requires { All (IsTime units.now.calendar) times.old }
    ensures answers { Answers (λ u. times.new) result (behind times.old (of.times_at units.now counts.now)) }
    ensures times { All (IsTime units.now.calendar) times.new }
{
    match counts {
        [] => Ok(()),
        [count, rest @ ..] => {
            let time = time_at(units, *count)?;
            times.push(time)?;
            push_times(times, units, rest)
        }
    }
}

// Times, and how they stand in a file.
#[tactic(auto, using(xr_arguments::proofs::Variants::is_times, xr_arguments::proofs::Inside::times_inside))]
fn coded(
    alloc: Global,
    units: Units,
    text: &TextBytes,
    calendar: TextBytes,
    times: Items<i64>,
) -> Result<Value, NoMemory>
    requires { All (IsTime units.calendar) times }
    ensures means { (nodes : List Node) → IfOk result (λ v. meaning nodes v ≡ meant.Times (of.coded units text.now calendar) times) }
    ensures inside { IfOk result (λ v. (nodes : List Node) → IsValueIn nodes v) }
{
    let coding = TimeCoding {
        units,
        units_text: text.deep_copy(alloc)?,
        calendar_text: Some(calendar),
    };
    let times = Shared::of(alloc, times)?;
    Ok(Value::Times(coding, times))
}

#[tactic(auto, using(xr_indexing::proofs::Loops::behind_none), unfolding(xr_relations::specs::Times::times_by))]
fn times_by(
    alloc: Global,
    units: &Value,
    counts: &Value,
    calendar: Option<&Value>,
) -> Result<Value, CallFault>
    ensures means { (nodes : List Node) → Answers (meaning nodes) result (of.times_by (meaning nodes units.now) (meaning nodes counts.now) (option_map (λ v. meaning nodes v.now) calendar.entry)) }
    ensures inside { IfOk result (λ v. (nodes : List Node) → IsValueIn nodes v) }
{
    let text = as_text(units)?;
    let counts = counts_given(alloc, counts)?;
    let calendar = calendar_given(alloc, calendar)?;
    let units = units_given(text, &calendar)?;
    let mut times = Items::new(alloc);
    push_times(&mut times, &units, counts.as_slice())?;
    let coded = coded(alloc, units, text, calendar, times)?;
    Ok(coded)
}

/// The times that counts of a unit from a reference are, as labels: `units` is a text such as `"days since 2000-01-01"`, then
/// comes the list of counts, and `calendar` is one of `standard`, `gregorian`, `proleptic_gregorian`, `noleap`, `365_day` and
/// `360_day`. The labels keep both texts.
///
/// # Errors
/// `BadArgument` for arguments that fit no parameter, and without `units` or the list; then `WrongKind` for `units` that are no
/// text, for what is no list of whole numbers, and for a calendar that is no text; `BadArgument` for a calendar that isn't one of
/// them, and then for units that don't read in it; then `OutOfRange` for a time outside the years 1 to 9999, or before 1582-10-15
/// where the calendar doesn't read such times.
#[tactic(auto, unfolding(xr_relations::specs::Times::times_given, xr_defs::specs::Building::bound))]
pub fn times(alloc: Global, args: &Args) -> Result<Value, CallFault>
    ensures means { (nodes : List Node) → Answers (meaning nodes) result (of.times_given (given nodes args.now)) }
    ensures inside { IfOk result (λ v. (nodes : List Node) → IsValueIn nodes v) }
{
    let values = bound(alloc, &["units", "list of counts", "calendar"], args)?;
    let values = values.as_slice();
    let units = required(argument(values, 0))?;
    let counts = required(argument(values, 1))?;
    times_by(alloc, units, counts, option(values, 2))
}
