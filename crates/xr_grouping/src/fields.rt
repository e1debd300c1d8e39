//! `groupby("d.field")` and `groupby("c")`: what their text names.
ghost use Rattle.std.specs.Prelude.{◌≡◌, ◌<◌, ◌==◌, if◌then◌else◌, List, length, IfSome, Some, Ok};
ghost use Rattle.xr_arrays.specs.declared.node.Node.{Node};
ghost use Rattle.xr_types.specs.Results.{Answers};
ghost use Rattle.xr_groups.specs.Calls as calls;
ghost use Rattle.xr_groups.specs.Groupings as of;
ghost use Rattle.xr_operations.specs.CellMethods as cells;
ghost use Rattle.xr_values.specs.Meaning.{given, meaning};
ghost use Rattle.xr_grouping.specs.Texts.{split_at};

use std::alloc::Global;
use xr_arguments::as_text;
use xr_defs::Grouping;
use xr_times::Field;
use xr_types::{CallFault, DeepCopy, Fault, TextBytes};
use xr_values::{Args, Value};

/// The one argument, which isn't given by keyword.
#[tactic(auto, unfolding(xr_operations::specs::CellMethods::one_of, xr_values::specs::Meaning::given))]
fn the_one(args: &Args) -> Result<&Value, CallFault>
    ensures { (nodes : List Node) → Answers (λ v. meaning nodes v.now) result (cells.the_one (given nodes args.now)) }
{
    match args.plain.as_slice() {
        [value] => match args.keyed.as_slice() {
            [] => Ok(value),
            [_, ..] => Err(CallFault::Refused(Fault::BadArgument)),
        },
        _ => Err(CallFault::Refused(Fault::BadArgument)),
    }
}

#[tactic(auto, unfolding(xr_groups::specs::Calls::field_called))]
fn field_called(text: &str) -> Result<Field, CallFault>
    ensures { Answers (λ f. f) result (calls.field_called text.now) }
{
    if text == "year" {
        return Ok(Field::Year);
    }
    if text == "month" {
        return Ok(Field::Month);
    }
    if text == "day" {
        return Ok(Field::Day);
    }
    if text == "hour" {
        return Ok(Field::Hour);
    }
    if text == "minute" {
        return Ok(Field::Minute);
    }
    if text == "second" {
        return Ok(Field::Second);
    }
    if text == "dayofyear" {
        return Ok(Field::DayOfYear);
    }
    if text == "dayofweek" {
        return Ok(Field::DayOfWeek);
    }
    Err(CallFault::Refused(Fault::BadArgument))
}

/// The name of a field, which that of its groups is.
pub(crate) fn field_name(field: Field) -> &'static str
    ensures { result.now ≡ of.field_name field }
{
    match field {
        Field::Year => "year",
        Field::Month => "month",
        Field::Day => "day",
        Field::Hour => "hour",
        Field::Minute => "minute",
        Field::Second => "second",
        Field::DayOfYear => "dayofyear",
        Field::DayOfWeek => "dayofweek",
    }
}

// The last point, if this byte is one.
fn last_with(last: Option<usize>, byte: u8, place: usize) -> Option<usize>
    ensures { result ≡ (if byte == 46 then Some place else last) }
{
    if byte == b'.' { Some(place) } else { last }
}

// The place of the last point.
fn last_point(text: &[u8]) -> Option<usize>
    ensures split { calls.split_last text.now ≡ split_at text.now result }
    ensures inside { IfSome result (λ k. k < length text.now) }
{
    let mut last = None;
    let mut place = 0;
    for byte in text {
        last = last_with(last, *byte, place);
        place += 1;
    }
    last
}

fn text_of(alloc: Global, bytes: &[u8]) -> Result<TextBytes, CallFault>
    ensures { Answers (λ t. t) result (Ok bytes.now) }
{
    match std::str::from_utf8(bytes) {
        Ok(text) => Ok(TextBytes::from_str(alloc, text)?),
        Err(_) => Err(CallFault::NoMemory),
    }
}

fn field_in(bytes: &[u8]) -> Result<Field, CallFault>
    ensures { Answers (λ f. f) result (calls.field_called bytes.now) }
{
    match std::str::from_utf8(bytes) {
        Ok(text) => field_called(text),
        Err(_) => Err(CallFault::NoMemory),
    }
}

// A text with a point names a field of the dates of a dimension, another one a coordinate.
#[tactic(auto, unfolding(xr_groups::specs::Calls::groups_called))]
fn groups_called(alloc: Global, text: &TextBytes) -> Result<Grouping, CallFault>
    ensures { Answers (λ g. g) result (calls.groups_called text.now) }
{
    let bytes = text.as_bytes();
    match last_point(bytes) {
        None => Ok(Grouping::Coordinate(text.deep_copy(alloc)?)),
        Some(place) => {
            let field = field_in(&bytes[place + 1..])?;
            let dimension = text_of(alloc, &bytes[..place])?;
            Ok(Grouping::Dates(dimension, field))
        }
    }
}

/// What the argument of `groupby` names.
#[tactic(auto, unfolding(xr_groups::specs::Calls::groupby_given))]
pub fn groupby_given(alloc: Global, args: &Args) -> Result<Grouping, CallFault>
    ensures { (nodes : List Node) → Answers (λ g. g) result (calls.groupby_given (given nodes args.now)) }
{
    let text = as_text(the_one(args)?)?;
    groups_called(alloc, text)
}
