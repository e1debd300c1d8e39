//! Values as datasets: an array has one variable, whose name is its own.
ghost use Rattle.std.specs.Prelude.{◌≡◌, ◌++◌, true, List, map, IfOk, OnOk};
ghost use Rattle.std.specs.List.{list_all, AllByRecursion};
ghost use Rattle.xr_arrays.specs.declared.node.Node.{Node};
ghost use Rattle.xr_combination.specs.Pieces as pieces;
ghost use Rattle.xr_combining.specs.Held.{holds_named};
ghost use Rattle.xr_values.specs.Meaning.{meaning, IsValueIn};
ghost use Rattle.xr_values.specs.Stands.{dataset_in};
ghost use Rattle.xr_joint.specs.Fitting.{HasFrame, IsOpenIn};
ghost use Rattle.xr_merge.specs.Sets.{named_set, named_variable};

use std::alloc::{AllocError, Global};
use xr_chaining::names_of;
use xr_types::{DeepCopy, Items, Name};
use xr_values::{DataArray, Dataset, Value, Variable, Variables, copy_coords};

fn own_name(alloc: Global, array: &DataArray) -> Result<Name, AllocError>
    ensures { IfOk result (λ n. n ≡ pieces.name_or_none array.now.name) }
{
    match &array.name {
        Some(name) => name.deep_copy(alloc),
        None => Name::from_str(alloc, ""),
    }
}

fn named_variable(alloc: Global, array: &DataArray) -> Result<Variable, AllocError>
    ensures { IfOk result (λ v. v ≡ named_variable array.now) }
{
    Ok(Variable {
        name: own_name(alloc, array)?,
        dims: names_of(alloc, array.axes.as_slice())?,
        kind: array.kind,
        masked: array.masked,
        attrs: array.attrs.deep_copy(alloc)?,
        node: array.node,
    })
}

fn named_set(alloc: Global, array: &DataArray) -> Result<Dataset, AllocError>
    ensures { IfOk result (λ s. s ≡ named_set array.now) }
{
    let mut vars = Variables::new(alloc);
    vars.put(alloc, named_variable(alloc, array)?)?;
    Ok(Dataset {
        axes: array.axes.deep_copy(alloc)?,
        coords: copy_coords(alloc, array.coords.as_slice())?,
        vars,
        attrs: Items::new(alloc),
        skipped: Items::new(alloc),
    })
}

#[tactic(auto, using(crate::proofs::Opened::none_open, crate::proofs::Opened::none_framed))]
fn no_set(alloc: Global) -> Dataset
    ensures is { (nodes : List Node) → dataset_in nodes result ≡ pieces.no_set }
    ensures opened { (nodes : List Node) → IsOpenIn nodes result }
    ensures frame { HasFrame result }
{
    Dataset {
        axes: Items::new(alloc),
        coords: Items::new(alloc),
        vars: Variables::new(alloc),
        attrs: Items::new(alloc),
        skipped: Items::new(alloc),
    }
}

/// A value as a dataset. An array is one of one variable, which has its name.
#[tactic(auto, using(xr_arguments::proofs::Variants::is_array, xr_arguments::proofs::Variants::is_set, xr_values::proofs::Meaning::meaning_out, crate::proofs::Opened::array_held, crate::proofs::Opened::set_held, crate::proofs::Opened::array_framed, crate::proofs::Opened::set_framed))]
pub(crate) fn as_dataset(alloc: Global, value: &Value) -> Result<Dataset, AllocError>
    ensures is { (nodes : List Node) → IfOk result (λ s. dataset_in nodes s ≡ pieces.as_dataset (meaning nodes value.now)) }
    ensures opened { (nodes : List Node) → IsValueIn nodes value.now → holds_named value.now ≡ true → IfOk result (IsOpenIn nodes) }
    ensures frame { (nodes : List Node) → IsValueIn nodes value.now → IfOk result HasFrame }
{
    match value {
        Value::Array(array) => named_set(alloc, array),
        Value::Set(set) => set.deep_copy(alloc),
        _ => Ok(no_set(alloc)),
    }
}

fn push_datasets(
    alloc: Global,
    out: &mut Items<Dataset>,
    values: &[Value],
) -> Result<(), AllocError>
    ensures are { (nodes : List Node) → OnOk result (map (dataset_in nodes) out.new ≡ map (dataset_in nodes) out.old ++ map pieces.as_dataset (map (meaning nodes) values.now)) }
    ensures opened { (nodes : List Node) → AllByRecursion (IsValueIn nodes) values.now → list_all holds_named values.now ≡ true → AllByRecursion (IsOpenIn nodes) out.old → OnOk result (AllByRecursion (IsOpenIn nodes) out.new) }
    ensures frames { (nodes : List Node) → AllByRecursion (IsValueIn nodes) values.now → AllByRecursion HasFrame out.old → OnOk result (AllByRecursion HasFrame out.new) }
{
    match values {
        [] => Ok(()),
        [value, rest @ ..] => {
            let set = as_dataset(alloc, value)?;
            out.push(set)?;
            push_datasets(alloc, out, rest)
        }
    }
}

/// Values as datasets.
pub(crate) fn as_datasets(alloc: Global, values: &[Value]) -> Result<Items<Dataset>, AllocError>
    ensures are { (nodes : List Node) → IfOk result (λ ss. map (dataset_in nodes) ss ≡ map pieces.as_dataset (map (meaning nodes) values.now)) }
    ensures opened { (nodes : List Node) → AllByRecursion (IsValueIn nodes) values.now → list_all holds_named values.now ≡ true → IfOk result (AllByRecursion (IsOpenIn nodes)) }
    ensures frames { (nodes : List Node) → AllByRecursion (IsValueIn nodes) values.now → IfOk result (AllByRecursion HasFrame) }
{
    let mut out = Items::new(alloc);
    push_datasets(alloc, &mut out, values)?;
    Ok(out)
}
