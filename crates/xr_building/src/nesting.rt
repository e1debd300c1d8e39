//! How lists are nested.
ghost use Rattle.std.specs.Prelude.{◌≡◌, List, option_map, length, IfOk};
ghost use Rattle.xr_arrays.specs.declared.node.Node.{Node};
ghost use Rattle.xr_defs.specs.Building as of;
ghost use Rattle.xr_values.specs.Meaning.{meaning};
ghost use Rattle.xr_building.specs.Gathered.{or_absent};

use std::alloc::{AllocError, Global};
use xr_types::Items;
use xr_values::Value;

/// Whether a value is nested as deep as there are dimensions. An empty list stands in the last of them alone.
#[tactic(auto, using(xr_arguments::proofs::Variants::is_list, xr_values::proofs::Meaning::meaning_out))]
pub fn is_nested(depth: usize, value: &Value) -> bool
    ensures { (nodes : List Node) → result ≡ of.is_nested depth (meaning nodes value.now) }
{
    match value {
        Value::List(items) => {
            if depth == 0 {
                return false;
            }
            if items.is_empty() {
                return depth == 1;
            }
            for item in items {
                if !is_nested(depth - 1, item) {
                    return false;
                }
            }
            true
        }
        _ => depth == 0,
    }
}

/// Whether the lists of each depth are as long as the shape says.
#[tactic(auto, using(xr_arguments::proofs::Variants::is_list, xr_values::proofs::Meaning::meaning_out))]
pub fn is_regular(shape: &[u64], value: &Value) -> bool
    ensures { (nodes : List Node) → result ≡ of.is_regular shape.now (meaning nodes value.now) }
{
    match shape {
        [] => true,
        [size, rest @ ..] => match value {
            Value::List(items) => {
                if items.as_slice().len() as u64 != *size {
                    return false;
                }
                for item in items {
                    if !is_regular(rest, item) {
                        return false;
                    }
                }
                true
            }
            _ => true,
        },
    }
}

#[tactic(auto, using(crate::proofs::Items::item_count_list, xr_arguments::proofs::Variants::is_list, xr_values::proofs::Meaning::meaning_out))]
fn item_count(value: &Value) -> usize
    ensures { (nodes : List Node) → result ≡ of.item_count (meaning nodes value.now) }
{
    match value {
        Value::List(items) => items.as_slice().len(),
        _ => 0,
    }
}

#[tactic(auto, using(crate::proofs::Items::first_item_list, xr_arguments::proofs::Variants::is_list, xr_values::proofs::Meaning::meaning_out))]
fn first_item<'a>(value: &'a Value) -> Option<&'a Value>
    ensures { (nodes : List Node) → or_absent (option_map (λ v. meaning nodes v.now) result) ≡ of.first_item (meaning nodes value.now) }
{
    match value {
        Value::List(items) => match items.as_slice() {
            [] => None,
            [first, ..] => Some(first),
        },
        _ => Some(value),
    }
}

/// The lengths of the first list of each depth.
pub fn nested_shape(alloc: Global, depth: usize, value: &Value) -> Result<Items<u64>, AllocError>
    ensures { (nodes : List Node) → IfOk result (λ s. s ≡ of.nested_shape depth (meaning nodes value.now)) }
{
    let mut shape = Items::new(alloc);
    let mut at = Some(value);
    for _ in 0..depth {
        match at {
            Some(list) => {
                shape.push(item_count(list) as u64)?;
                at = first_item(list);
            }
            None => shape.push(0)?,
        }
    }
    Ok(shape)
}
