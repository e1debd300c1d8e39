//! The kinds of what the dimensions are given.
ghost use Rattle.std.specs.Prelude.{◌≡◌, List, map};
ghost use Rattle.std.specs.List.{list_all};
ghost use Rattle.xr_arrays.specs.declared.node.Node.{Node};
ghost use Rattle.xr_types.specs.Results.{Answers};
ghost use Rattle.xr_operations.specs.Selection as of;
ghost use Rattle.xr_values.specs.Meaning.{meaning, with_key};

use std::alloc::Global;
use xr_indexing::{check_selector, position_of};
use xr_types::{Axis, CallFault, Fault, TextBytes};
use xr_values::Value;

#[tactic(auto, using(xr_arguments::proofs::Variants::is_number, xr_arguments::proofs::Variants::is_text, xr_values::proofs::Meaning::meaning_out))]
fn is_label(value: &Value) -> bool
    ensures { (nodes : List Node) → result ≡ of.is_label (meaning nodes value.now) }
{
    matches!(value, Value::Number(_) | Value::Text(_))
}

/// Whether each value is a number or a text.
pub fn are_all_labels(list: &[Value]) -> bool
    ensures { (nodes : List Node) → result ≡ list_all of.is_label (map (meaning nodes) list.now) }
{
    for value in list {
        if !is_label(value) {
            return false;
        }
    }
    true
}

#[tactic(auto, using(xr_arguments::proofs::Variants::is_number, xr_arguments::proofs::Variants::is_text, xr_arguments::proofs::Variants::is_list, xr_arguments::proofs::Variants::is_slice, xr_values::proofs::Meaning::meaning_out, crate::proofs::Lists::all_are))]
fn are_labels(value: &Value) -> bool
    ensures { (nodes : List Node) → result ≡ of.are_labels (meaning nodes value.now) }
{
    match value {
        Value::List(list) => are_all_labels(list.as_slice()),
        Value::Slice(_, _, _) => true,
        _ => is_label(value),
    }
}

/// Refuses an argument of a dimension that is neither a label nor a list or a slice of labels; of a bare dimension, one that isn't
/// of positions.
#[tactic(auto, unfolding(xr_operations::specs::Selection::check_kind, xr_types::specs::Results::unless))]
pub fn check_kind(
    alloc: Global,
    axes: &[Axis],
    argument: &(TextBytes, Value),
) -> Result<(), CallFault>
    ensures { (nodes : List Node) → Answers (λ u. u) result (of.check_kind axes.now (with_key nodes argument.now)) }
{
    match position_of(axes, &argument.0) {
        Some(k) if axes[k].labels.is_none() => check_selector(alloc, argument),
        _ if are_labels(&argument.1) => Ok(()),
        _ => Err(CallFault::Refused(Fault::WrongKind)),
    }
}
