//! Labels that a call is given.
ghost use Rattle.std.specs.Prelude.{List};
ghost use Rattle.xr_arrays.specs.declared.node.Node.{Node};
ghost use Rattle.xr_types.specs.Results.{Answers};
ghost use Rattle.xr_operations.specs.Selection as of;
ghost use Rattle.xr_values.specs.Meaning.{all_values, meaning};

use cf_time::read_date;
use std::alloc::Global;
use xr_defs::Part;
use xr_types::{Calendar, CallFault, DeepCopy, Fault, Items, Label, LabelList, TextBytes};
use xr_values::Value;

// The time of a full date and time.
#[tactic(auto, unfolding(xr_operations::specs::Selection::as_time))]
fn as_time(text: &TextBytes, calendar: Calendar) -> Result<Label, CallFault>
    ensures { Answers (λ l. l) result (of.as_time calendar text.now) }
{
    let text = text.as_bytes();
    match read_date(text, calendar) {
        Some(period) if text.len() == 19 => Ok(Label::Time(period.first)),
        _ => Err(CallFault::Refused(Fault::BadArgument)),
    }
}

/// The label that a value is among these.
///
/// # Errors
/// `WrongKind` unless it is a number or a text; `BadArgument` for a text among times that is no full date and time.
#[tactic(auto, using(xr_arguments::proofs::Variants::is_number, xr_arguments::proofs::Variants::is_text, xr_values::proofs::Meaning::meaning_out), unfolding(xr_operations::specs::Selection::as_label, xr_operations::specs::Selection::as_text_label))]
pub fn as_label(alloc: Global, list: &LabelList, value: &Value) -> Result<Label, CallFault>
    ensures { (nodes : List Node) → Answers (λ l. l) result (of.as_label list.now (meaning nodes value.now)) }
{
    match (value, list) {
        (Value::Number(n), _) => Ok(Label::Int(*n)),
        (Value::Text(text), LabelList::Times(coding, _)) => as_time(text, coding.units.calendar),
        (Value::Text(text), _) => Ok(Label::Text(text.deep_copy(alloc)?)),
        _ => Err(CallFault::Refused(Fault::WrongKind)),
    }
}

/// The labels of a list.
pub fn as_labels(
    alloc: Global,
    list: &LabelList,
    values: &[Value],
) -> Result<Items<Label>, CallFault>
    ensures { (nodes : List Node) → Answers (λ ls. ls) result (of.as_labels list.now (all_values nodes values.now)) }
{
    let mut out = Items::new(alloc);
    for value in values {
        out.push(as_label(alloc, list, value)?)?;
    }
    Ok(out)
}

/// The label of an end of a slice, the last one of those that a date among times names, or the first.
///
/// # Errors
/// `BadArgument` for a text among times that names no period.
#[tactic(auto, unfolding(xr_operations::specs::Selection::as_end, xr_operations::specs::Selection::as_text_end))]
pub fn as_end(
    alloc: Global,
    list: &LabelList,
    last: bool,
    part: &Part,
) -> Result<Option<Label>, CallFault>
    ensures { Answers (λ l. l) result (of.as_end list.now last part.now) }
{
    match (part, list) {
        (Part::Open, _) => Ok(None),
        (Part::At(n), _) => Ok(Some(Label::Int(*n))),
        (Part::Label(text), LabelList::Times(coding, _)) => {
            match read_date(text.as_bytes(), coding.units.calendar) {
                Some(period) => Ok(Some(Label::Time(if last {
                    period.last
                } else {
                    period.first
                }))),
                None => Err(CallFault::Refused(Fault::BadArgument)),
            }
        }
        (Part::Label(text), _) => Ok(Some(Label::Text(text.deep_copy(alloc)?))),
    }
}
