//! Values as datasets: an array has one variable, whatever its name.
ghost use Rattle.std.specs.Prelude.{◌≡◌, ◌++◌, true, List, [], map, IfOk, OnOk};
ghost use Rattle.std.specs.List.{list_all, AllByRecursion};
ghost use Rattle.xr_arrays.specs.declared.node.Node.{Node};
ghost use Rattle.xr_types.specs.Names.{axis_names};
ghost use Rattle.xr_combination.specs.Concat as calls;
ghost use Rattle.xr_combination.specs.Pieces.{is_set, no_set};
ghost use Rattle.xr_values.specs.Meaning.{meaning, IsValueIn};
ghost use Rattle.xr_values.specs.Stands.{dataset_in, IsDatasetIn};
ghost use Rattle.xr_parts.specs.Single.{set_of, variable_of};
ghost use Rattle.xr_chaining.specs.Sets.{IsUnnamedIn};

use std::alloc::{AllocError, Global};
use xr_types::{Axis, DeepCopy, Items, Name};
use xr_values::{DataArray, Dataset, Value, Variable, Variables, copy_coords};

/// The names of axes, in order.
pub fn names_of(alloc: Global, axes: &[Axis]) -> Result<Items<Name>, AllocError>
    ensures { IfOk result (λ names. names ≡ axis_names axes.now) }
{
    let mut names = Items::new(alloc);
    for axis in axes {
        names.push(axis.name.deep_copy(alloc)?)?;
    }
    Ok(names)
}

fn unnamed_variable(alloc: Global, array: &DataArray) -> Result<Variable, AllocError>
    ensures { IfOk result (λ v. v ≡ variable_of [] array.now) }
{
    Ok(Variable {
        name: Name::from_str(alloc, "")?,
        dims: names_of(alloc, array.axes.as_slice())?,
        kind: array.kind,
        masked: array.masked,
        attrs: array.attrs.deep_copy(alloc)?,
        node: array.node,
    })
}

fn unnamed_set(alloc: Global, array: &DataArray) -> Result<Dataset, AllocError>
    ensures { IfOk result (λ s. s ≡ set_of [] array.now) }
{
    let mut vars = Variables::new(alloc);
    vars.put(alloc, unnamed_variable(alloc, array)?)?;
    Ok(Dataset {
        axes: array.axes.deep_copy(alloc)?,
        coords: copy_coords(alloc, array.coords.as_slice())?,
        vars,
        attrs: Items::new(alloc),
        skipped: Items::new(alloc),
    })
}

fn set_again(alloc: Global, set: &Dataset) -> Result<Dataset, AllocError>
    ensures { IfOk result (λ s. s ≡ set.now) }
{
    set.deep_copy(alloc)
}

#[tactic(auto, using(crate::proofs::Formed::none_unnamed))]
fn no_set(alloc: Global) -> Dataset
    ensures is { (nodes : List Node) → dataset_in nodes result ≡ no_set }
    ensures inside { (nodes : List Node) → IsUnnamedIn nodes result }
{
    Dataset {
        axes: Items::new(alloc),
        coords: Items::new(alloc),
        vars: Variables::new(alloc),
        attrs: Items::new(alloc),
        skipped: Items::new(alloc),
    }
}

/// A value as a dataset. An array is one of one variable, whose name is empty.
pub fn unnamed(alloc: Global, value: &Value) -> Result<Dataset, AllocError>
    ensures is { (nodes : List Node) → IfOk result (λ s. dataset_in nodes s ≡ calls.unnamed (meaning nodes value.now)) }
    ensures inside { (nodes : List Node) → IsValueIn nodes value.now → IfOk result (IsUnnamedIn nodes) }
    ensures set { (nodes : List Node) → IsValueIn nodes value.now → is_set (meaning nodes value.now) ≡ true → IfOk result (IsDatasetIn nodes) }
{
    match value {
        Value::Array(array) => unnamed_set(alloc, array),
        Value::Set(set) => set_again(alloc, set),
        _ => Ok(no_set(alloc)),
    }
}

fn push_unnamed(alloc: Global, out: &mut Items<Dataset>, values: &[Value]) -> Result<(), AllocError>
    ensures are { (nodes : List Node) → OnOk result (map (dataset_in nodes) out.new ≡ map (dataset_in nodes) out.old ++ map calls.unnamed (map (meaning nodes) values.now)) }
    ensures inside { (nodes : List Node) → OnOk result (AllByRecursion (IsValueIn nodes) values.now → AllByRecursion (IsUnnamedIn nodes) out.old → AllByRecursion (IsUnnamedIn nodes) out.new) }
    ensures sets { (nodes : List Node) → OnOk result (AllByRecursion (IsValueIn nodes) values.now → list_all is_set (map (meaning nodes) values.now) ≡ true → AllByRecursion (IsDatasetIn nodes) out.old → AllByRecursion (IsDatasetIn nodes) out.new) }
{
    match values {
        [] => Ok(()),
        [value, rest @ ..] => {
            let set = unnamed(alloc, value)?;
            out.push(set)?;
            push_unnamed(alloc, out, rest)
        }
    }
}

/// Values as datasets.
pub fn all_unnamed(alloc: Global, values: &[Value]) -> Result<Items<Dataset>, AllocError>
    ensures are { (nodes : List Node) → IfOk result (λ ss. map (dataset_in nodes) ss ≡ map calls.unnamed (map (meaning nodes) values.now)) }
    ensures inside { (nodes : List Node) → AllByRecursion (IsValueIn nodes) values.now → IfOk result (AllByRecursion (IsUnnamedIn nodes)) }
    ensures sets { (nodes : List Node) → AllByRecursion (IsValueIn nodes) values.now → list_all is_set (map (meaning nodes) values.now) ≡ true → IfOk result (AllByRecursion (IsDatasetIn nodes)) }
{
    let mut out = Items::new(alloc);
    push_unnamed(alloc, &mut out, values)?;
    Ok(out)
}
