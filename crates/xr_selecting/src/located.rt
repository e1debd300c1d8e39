//! The positions that a dimension is given, as `isel` takes them.
ghost use Rattle.std.specs.Prelude.{◌≡◌, ◌≤◌, ◌<◌, ◌^◌, List, length, IfOk};
ghost use Rattle.std.specs.List.{range_with_len, AllByRecursion};
ghost use Rattle.xr_arrays.specs.declared.node.Node.{Node};
ghost use Rattle.xr_arrays.specs.Labels.{labels_of};
ghost use Rattle.xr_types.specs.Results.{Answers};
ghost use Rattle.xr_defs.specs.Meanings as meant;
ghost use Rattle.xr_defs.specs.Selecting.{axis_called};
ghost use Rattle.xr_defs.specs.WellFormed.{IsDimension};
ghost use Rattle.xr_operations.specs.Selection as of;
ghost use Rattle.xr_values.specs.Meaning.{all_values, meaning};
ghost use Rattle.xr_selecting.specs.Searches.{search_in};

use crate::finding::{check_list, each_found, found};
use crate::labels::{as_end, as_label, as_labels};
use crate::options::Search;
use label_index::Index;
use std::alloc::{AllocError, Global};
use xr_arrays::{Direction, Span};
use xr_defs::Part;
use xr_indexing::{Selector, as_selector, choice_of, position_of};
use xr_types::{Axis, CallFault, Fault, LabelList, TextBytes};
use xr_values::Value;

#[tactic(auto, using(xr_values::proofs::Meaning::no_values, xr_arguments::proofs::Variants::is_number, crate::proofs::Lists::listed_on))]
fn listed(alloc: Global, ps: &[u64]) -> Result<Vec<Value>, AllocError>
    ensures { (nodes : List Node) → IfOk result (λ vs. all_values nodes vs.items ≡ of.listed ps.now meant.NoValue) }
{
    let mut out = Vec::new(alloc);
    for p in ps {
        out.push(Value::Number(i128::from(*p)))?;
    }
    Ok(out)
}

// The positions of a list of labels.
#[tactic(auto, using(xr_arguments::proofs::Variants::is_list), unfolding(xr_operations::specs::Selection::list_located))]
fn of_list(
    alloc: Global,
    by: Search,
    list: &LabelList,
    values: &[Value],
) -> Result<Value, CallFault>
    requires { length (labels_of list.now) ≤ 33554432 }
    ensures { (nodes : List Node) → Answers (meaning nodes) result (of.list_located (search_in by) list.now (all_values nodes values.now)) }
{
    let labels = as_labels(alloc, list, values)?;
    let index = Index::over(alloc, list)?;
    check_list(&index, list, by, labels.as_slice())?;
    let ps = each_found(alloc, &index, by, labels.as_slice())?;
    let positions = listed(alloc, ps.as_slice())?;
    Ok(Value::List(positions))
}

// Positions in a row.
#[tactic(auto, using(xr_arguments::proofs::Variants::is_slice, crate::proofs::Lists::row_is))]
fn in_row(span: Span) -> Value
    requires { span.length ≡ 0 → span.first ≡ 0 }
    ensures { (nodes : List Node) → meaning nodes result ≡ of.in_row (range_with_len span.first span.length) }
{
    let first = i128::from(span.first);
    let behind = first + i128::from(span.length);
    Value::Slice(Part::At(first), Part::At(behind), None)
}

// The positions of a slice of labels, of which both ends are included, in a row. Of the period that an end among times names, the
// slice holds each second.
#[tactic(auto, unfolding(xr_operations::specs::Selection::slice_located, xr_operations::specs::Selection::between_ends, xr_types::specs::Results::unless))]
fn of_slice(
    alloc: Global,
    by: Search,
    list: &LabelList,
    start: &Part,
    stop: &Part,
    step: Option<i128>,
) -> Result<Value, CallFault>
    requires { length (labels_of list.now) ≤ 33554432 }
    ensures { (nodes : List Node) → Answers (meaning nodes) result (of.slice_located (search_in by) list.now start.now stop.now step) }
{
    if step.is_some() || by.method.is_some() {
        return Err(CallFault::Refused(Fault::BadArgument));
    }
    let index = Index::over(alloc, list)?;
    let falls = matches!(index.direction(), Direction::Descending);
    let from = as_end(alloc, list, falls, start)?;
    let to = as_end(alloc, list, !falls, stop)?;
    match index.slice(from.as_ref(), to.as_ref()) {
        Ok(span) => Ok(in_row(span)),
        Err(fault) => Err(CallFault::Refused(fault)),
    }
}

// The position of one label.
#[tactic(auto, using(xr_arguments::proofs::Variants::is_number), unfolding(xr_operations::specs::Selection::label_located))]
fn of_label(alloc: Global, by: Search, list: &LabelList, value: &Value) -> Result<Value, CallFault>
    requires { length (labels_of list.now) ≤ 33554432 }
    ensures { (nodes : List Node) → Answers (meaning nodes) result (of.label_located (search_in by) list.now (meaning nodes value.now)) }
{
    let label = as_label(alloc, list, value)?;
    let index = Index::over(alloc, list)?;
    let p = found(&index, by, &label)?;
    Ok(Value::Number(i128::from(p)))
}

/// The positions of what an axis with labels is given.
///
/// # Errors
/// Those of the label, the list of labels or the slice of labels.
#[tactic(auto, using(xr_arguments::proofs::Variants::is_list, xr_arguments::proofs::Variants::is_slice, xr_values::proofs::Meaning::meaning_out), unfolding(xr_operations::specs::Selection::located))]
fn located(alloc: Global, by: Search, list: &LabelList, value: &Value) -> Result<Value, CallFault>
    requires { length (labels_of list.now) ≤ 33554432 }
    ensures { (nodes : List Node) → Answers (meaning nodes) result (of.located (search_in by) list.now (meaning nodes value.now)) }
{
    match value {
        Value::List(values) => of_list(alloc, by, list, values.as_slice()),
        Value::Slice(start, stop, step) => of_slice(alloc, by, list, start, stop, *step),
        _ => of_label(alloc, by, list, value),
    }
}

// The positions of a bare axis of this size, as they are given. A slice of positions has none that isn't there.
#[tactic(auto, unfolding(xr_operations::specs::Selection::placed, xr_operations::specs::Selection::check_positions, xr_defs::specs::Selecting::choice_of, xr_types::specs::Results::unless))]
fn placed(alloc: Global, by: Search, size: u64, value: &Value) -> Result<Value, CallFault>
    requires { size < 2 ^ 32 }
    ensures { (nodes : List Node) → Answers (meaning nodes) result (of.placed (search_in by) size (meaning nodes value.now)) }
{
    if by.method.is_some() {
        return Err(CallFault::Refused(Fault::BadArgument));
    }
    let selector = as_selector(alloc, value)?;
    if !matches!(selector, Selector::Span(_)) {
        choice_of(alloc, size, &selector)?;
    }
    Ok(value.copy(alloc)?)
}

/// The positions of what the axis of this name is given.
#[tactic(auto, unfolding(xr_operations::specs::Selection::positions_on))]
pub fn positions_along(
    alloc: Global,
    by: Search,
    axes: &[Axis],
    argument: &(TextBytes, Value),
) -> Result<Value, CallFault>
    requires { AllByRecursion IsDimension axes.now }
    ensures { (nodes : List Node) → Answers (meaning nodes) result (of.positions_on (search_in by) (axis_called axes.now argument.now.0) (meaning nodes argument.now.1)) }
{
    match position_of(axes, &argument.0) {
        Some(k) => match &axes[k].labels {
            Some(labels) => located(alloc, by, &labels.list, &argument.1),
            None => placed(alloc, by, axes[k].size, &argument.1),
        },
        None => placed(alloc, by, 0, &argument.1),
    }
}
