//! Labels that are given: lists of numbers or of texts, times, and the cells of arrays.
ghost use Rattle.std.specs.Prelude.{◌≡◌, [], true, false, List, Ok, IfOk};
ghost use Rattle.xr_arrays.specs.declared.node.Node.{Node};
ghost use Rattle.xr_arrays.specs.Nodes.{value as value_of};
ghost use Rattle.xr_types.specs.Results.{Answers};
ghost use Rattle.xr_defs.specs.Meanings.{Array, Sequence, Values, With};
ghost use Rattle.xr_defs.specs.Building as of;
ghost use Rattle.xr_defs.specs.Parts as parts;
ghost use Rattle.xr_values.specs.Meaning.{meaning, all_values};
ghost use Rattle.xr_values.specs.Stands.{array_in, IsArrayIn};
ghost use Rattle.xr_building.specs.Entries.{IsPlain};
ghost use Rattle.xr_building.specs.Gathered.{with_number};
ghost use Rattle.xr_building.specs.Puts.{fits_whole, labels_fit, labels_of, texts_put};

use crate::check::{are_numbers, are_texts};
use crate::puts::NewLabels;
use std::alloc::{AllocError, Global};
use stored_cells::as_typed;
use xr_arguments::texts_in;
use xr_arrays::ArrayValue;
use xr_types::{CallFault, DeepCopy, Fault, Items, LabelList, Labels, Shared};
use xr_values::{DataArray, Value, integers_of};

#[tactic(auto, using(xr_arguments::proofs::Variants::is_number, xr_values::proofs::Meaning::meaning_out))]
fn number_in(value: &Value) -> Option<i128>
    ensures { (nodes : List Node) (vs : Values) → of.numbers_in (With vs (meaning nodes value.now)) ≡ with_number (of.numbers_in vs) result }
{
    match value {
        Value::Number(n) => Some(*n),
        _ => None,
    }
}

fn numbers_in(alloc: Global, list: &[Value]) -> Result<Items<i128>, AllocError>
    ensures { (nodes : List Node) → IfOk result (λ ns. ns ≡ of.numbers_in (all_values nodes list.now)) }
{
    let mut numbers = Items::new(alloc);
    for value in list {
        match number_in(value) {
            Some(n) => numbers.push(n)?,
            None => {}
        }
    }
    Ok(numbers)
}

// Labels without attributes.
fn plain(alloc: Global, list: LabelList) -> Labels
    ensures { result ≡ record { list = list; attrs = [] } }
{
    Labels {
        list,
        attrs: Items::new(alloc),
    }
}

fn text_labels(alloc: Global, list: &[Value]) -> Result<NewLabels, CallFault>
    ensures answers { (nodes : List Node) → Answers labels_of result (texts_put (parts.texts_in (all_values nodes list.now))) }
    ensures fits { IfOk result (λ l. labels_fit l ≡ true) }
{
    let texts = texts_in(alloc, list)?;
    let texts = Shared::of(alloc, texts)?;
    Ok(NewLabels::Labels(plain(alloc, LabelList::Texts(texts))))
}

#[tactic(auto, using(crate::proofs::Items::labels_listed, crate::proofs::Items::texts_whole))]
fn list_labels(alloc: Global, list: &[Value]) -> Result<NewLabels, CallFault>
    ensures answers { (nodes : List Node) → Answers labels_of result (of.labels_given (Sequence (all_values nodes list.now))) }
    ensures fits { (nodes : List Node) → IfOk result (λ l. labels_fit l ≡ fits_whole (Sequence (all_values nodes list.now))) }
{
    if are_numbers(list) {
        let numbers = numbers_in(alloc, list)?;
        return Ok(NewLabels::Numbers(numbers));
    }
    if are_texts(list) {
        text_labels(alloc, list)
    } else {
        Err(CallFault::Refused(Fault::WrongKind))
    }
}

/// The labels that a value gives.
///
/// # Errors
/// `WrongKind` for what can't be labels.
#[tactic(auto, using(xr_arguments::proofs::Variants::is_list, xr_arguments::proofs::Variants::is_times, xr_arguments::proofs::Variants::is_array, xr_values::proofs::Meaning::meaning_out))]
pub fn labels_given(alloc: Global, value: &Value) -> Result<NewLabels, CallFault>
    requires { IsPlain value.now }
    ensures answers { (nodes : List Node) → Answers labels_of result (of.labels_given (meaning nodes value.now)) }
    ensures fits { (nodes : List Node) → IfOk result (λ l. labels_fit l ≡ fits_whole (meaning nodes value.now)) }
{
    match value {
        Value::List(items) => list_labels(alloc, items.as_slice()),
        Value::Times(coding, times) => {
            let times = LabelList::Times(coding.deep_copy(alloc)?, times.deep_copy(alloc)?);
            Ok(NewLabels::Labels(plain(alloc, times)))
        }
        _ => Err(CallFault::Refused(Fault::WrongKind)),
    }
}

/// How many labels these are.
pub fn total(labels: &NewLabels) -> usize
    ensures { result ≡ of.label_total (labels_of labels.now).list }
{
    match labels {
        NewLabels::Numbers(numbers) => numbers.as_slice().len(),
        NewLabels::Labels(labels) => match &labels.list {
            LabelList::Numbers(_, numbers) => numbers.len(),
            LabelList::Times(_, times) => times.as_slice().len(),
            LabelList::Texts(texts) => texts.as_slice().len(),
        },
    }
}

/// The labels that an array's cells are.
pub fn array_labels(
    alloc: Global,
    array: &DataArray,
    cells: &ArrayValue,
) -> Result<Labels, AllocError>
    requires { array.now.masked ≡ false }
    ensures { (nodes : List Node) → IsArrayIn nodes array.now → cells.now ≡ value_of nodes array.now.node → IfOk result (λ l. of.labels_given (Array (array_in nodes array.now)) ≡ Ok l) }
{
    let typed = as_typed(alloc, cells)?;
    let (numbers, _) = typed.parts();
    Ok(Labels {
        list: LabelList::Numbers(array.kind, integers_of(alloc, numbers)?),
        attrs: array.attrs.deep_copy(alloc)?,
    })
}
