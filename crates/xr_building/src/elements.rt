//! The elements of nested lists.
ghost use Rattle.std.specs.Prelude.{◌≡◌, List, OnOk, IfOk};
ghost use Rattle.xr_arrays.specs.declared.node.Node.{Node};
ghost use Rattle.xr_types.specs.Results.{Answers};
ghost use Rattle.xr_defs.specs.Building.{check_elements, elements};
ghost use Rattle.xr_values.specs.Meaning.{meaning, all_values};
ghost use Rattle.xr_building.specs.Gathered.{with_elements, gathered};

use std::alloc::{AllocError, Global};
use xr_types::{CallFault, Fault, Items};
use xr_values::Value;

/// The elements of a nested list in their order.
#[derive(Drop)]
pub struct Elements {
    /// Their cells. Truth values are 0 and 1, and what is no element of an array is none.
    pub cells: Items<Option<i128>>,
    /// Whether all are whole numbers or missing.
    pub whole: bool,
    /// Whether all are truth values or missing.
    pub truths: bool,
    /// Whether one is missing.
    pub missing: bool,
}

#[tactic(auto, using(xr_arguments::proofs::Variants::is_missing, xr_arguments::proofs::Variants::is_truth, xr_arguments::proofs::Variants::is_number, xr_arguments::proofs::Variants::is_list, xr_values::proofs::Meaning::meaning_out), unfolding(xr_defs::specs::Building::elements))]
fn gather(value: &Value, out: &mut Elements) -> Result<(), AllocError>
    ensures { (nodes : List Node) → OnOk result (out.new ≡ with_elements out.old (elements (meaning nodes value.now))) }
{
    match value {
        Value::List(items) => {
            for item in items {
                gather(item, out)?;
            }
            Ok(())
        }
        Value::Missing => {
            out.missing = true;
            out.cells.push(None)
        }
        Value::Truth(b) => {
            out.whole = false;
            out.cells.push(Some(i128::from(*b)))
        }
        Value::Number(n) => {
            out.truths = false;
            out.cells.push(Some(*n))
        }
        _ => {
            out.whole = false;
            out.truths = false;
            out.cells.push(None)
        }
    }
}

/// The elements of a nested list. Another value is its one element.
///
/// # Errors
/// `WrongKind` unless they are whole numbers, or truth values, with missing cells among them.
#[tactic(auto, unfolding(xr_defs::specs::Building::check_elements, xr_types::specs::Results::unless))]
pub fn gathered(alloc: Global, value: &Value) -> Result<Elements, CallFault>
    ensures answers { (nodes : List Node) → Answers (λ e. tt) result (check_elements (elements (meaning nodes value.now))) }
    ensures are { (nodes : List Node) → IfOk result (λ e. e ≡ gathered (elements (meaning nodes value.now))) }
{
    let mut out = Elements {
        cells: Items::new(alloc),
        whole: true,
        truths: true,
        missing: false,
    };
    gather(value, &mut out)?;
    if out.whole || out.truths {
        Ok(out)
    } else {
        Err(CallFault::Refused(Fault::WrongKind))
    }
}
