//! Values as shared datasets, and these as values.
ghost use Rattle.std.specs.Prelude.{◌≡◌, ◌++◌, List, map, IfOk, OnOk};
ghost use Rattle.std.specs.List.{AllByRecursion};
ghost use Rattle.xr_arrays.specs.declared.node.Node.{Node};
ghost use Rattle.xr_types.specs.Results.{Answers};
ghost use Rattle.xr_combination.specs.Arguments as calls;
ghost use Rattle.xr_combination.specs.Pieces.{as_dataset};
ghost use Rattle.xr_defs.specs.Meanings as of;
ghost use Rattle.xr_values.specs.Meaning.{meaning, IsValueIn};
ghost use Rattle.xr_values.specs.Stands.{dataset_in, IsDatasetIn};
ghost use Rattle.xr_combine.specs.Sets.{held, sets_in, AreSetsIn};

use std::alloc::{AllocError, Global};
use std::rc::Rc;
use xr_types::{CallFault, Items, NoMemory};
use xr_values::{Dataset, Value};

// ---- the argument

/// Datasets, of which there are some.
///
/// # Errors
/// `WrongKind` for what is no list of them; then `BadArgument` for an empty list.
#[tactic(auto, using(xr_arguments::proofs::Variants::is_list, xr_values::proofs::Meaning::meaning_out, crate::proofs::Given::sets_listed, xr_merge::proofs::Given::list_inside))]
pub(crate) fn sets_given(value: &Value) -> Result<&[Value], CallFault>
    ensures inside { (nodes : List Node) → IsValueIn nodes value.now → IfOk result (λ vs. AllByRecursion (IsValueIn nodes) vs.now) }
    ensures answers { (nodes : List Node) → Answers (λ vs. map (meaning nodes) vs.now) result (calls.sets_given (meaning nodes value.now)) }
{
    xr_combining::sets_given(value)?;
    match value {
        Value::List(list) => Ok(list.as_slice()),
        // what is no list was refused
        _ => Err(CallFault::NoMemory),
    }
}

// ---- values as datasets

// Another value, of which there is none in the list, wants memory.
#[tactic(auto, using(xr_arguments::proofs::Variants::is_set, xr_arguments::proofs::Inside::inside_set, xr_values::proofs::Meaning::meaning_out))]
fn shared(value: &Value) -> Result<Rc<Dataset>, NoMemory>
    ensures is { (nodes : List Node) → IfOk result (λ s. dataset_in nodes s.value ≡ as_dataset (meaning nodes value.now)) }
    ensures inside { (nodes : List Node) → IsValueIn nodes value.now → IfOk result (λ s. IsDatasetIn nodes s.value) }
{
    match value {
        Value::Set(set) => Ok(set.clone()?),
        _ => Err(NoMemory),
    }
}

fn push_shared(out: &mut Items<Rc<Dataset>>, values: &[Value]) -> Result<(), NoMemory>
    ensures are { (nodes : List Node) → OnOk result (sets_in nodes out.new ≡ sets_in nodes out.old ++ map as_dataset (map (meaning nodes) values.now)) }
    ensures inside { (nodes : List Node) → AllByRecursion (IsValueIn nodes) values.now → AreSetsIn nodes out.old → OnOk result (AreSetsIn nodes out.new) }
{
    match values {
        [] => Ok(()),
        [value, rest @ ..] => {
            let set = shared(value)?;
            out.push(set)?;
            push_shared(out, rest)
        }
    }
}

/// The datasets among values, of which all are.
pub(crate) fn all_shared(alloc: Global, values: &[Value]) -> Result<Items<Rc<Dataset>>, NoMemory>
    ensures are { (nodes : List Node) → IfOk result (λ ss. sets_in nodes ss ≡ map as_dataset (map (meaning nodes) values.now)) }
    ensures inside { (nodes : List Node) → AllByRecursion (IsValueIn nodes) values.now → IfOk result (AreSetsIn nodes) }
{
    let mut out = Items::new(alloc);
    push_shared(&mut out, values)?;
    Ok(out)
}

// ---- datasets as values

#[tactic(auto, using(xr_arguments::proofs::Variants::is_set, xr_arguments::proofs::Inside::set_inside))]
fn as_value(set: &Rc<Dataset>) -> Result<Value, AllocError>
    ensures means { (nodes : List Node) → IfOk result (λ v. meaning nodes v ≡ of.Set (dataset_in nodes set.now.value)) }
    ensures inside { (nodes : List Node) → IsDatasetIn nodes set.now.value → IfOk result (IsValueIn nodes) }
{
    let set = set.clone()?;
    Ok(Value::Set(set))
}

fn push_values(out: &mut Items<Value>, sets: &[Rc<Dataset>]) -> Result<(), AllocError>
    ensures mean { (nodes : List Node) → OnOk result (map (meaning nodes) out.new ≡ map (meaning nodes) out.old ++ map of.Set (sets_in nodes sets.now)) }
    ensures inside { (nodes : List Node) → AreSetsIn nodes sets.now → AllByRecursion (IsValueIn nodes) out.old → OnOk result (AllByRecursion (IsValueIn nodes) out.new) }
{
    match sets {
        [] => Ok(()),
        [set, rest @ ..] => {
            let value = as_value(set)?;
            out.push(value)?;
            push_values(out, rest)
        }
    }
}

/// Datasets as values.
pub(crate) fn as_values(alloc: Global, sets: &[Rc<Dataset>]) -> Result<Items<Value>, AllocError>
    ensures mean { (nodes : List Node) → IfOk result (λ vs. map (meaning nodes) vs ≡ map of.Set (sets_in nodes sets.now)) }
    ensures inside { (nodes : List Node) → AreSetsIn nodes sets.now → IfOk result (AllByRecursion (IsValueIn nodes)) }
{
    let mut out = Items::new(alloc);
    push_values(&mut out, sets)?;
    Ok(out)
}

// ---- as they are looked at

/// The datasets that are shared.
pub(crate) fn borrowed(alloc: Global, sets: &[Rc<Dataset>]) -> Result<Items<&Dataset>, AllocError>
    ensures { IfOk result (λ ss. map (λ s. s.now) ss ≡ held sets.now) }
{
    let mut out = Items::new(alloc);
    for set in sets {
        let set: &Dataset = set;
        out.push(set)?;
    }
    Ok(out)
}
