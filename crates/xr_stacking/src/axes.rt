//! The axes over which datasets are put together.
ghost use Rattle.std.specs.Prelude.{◌≡◌, ◌++◌, ◌∷◌, List, filter, map, not, All, IfOk, OnOk};
ghost use Rattle.std.specs.Str.{bytes_eq};
ghost use Rattle.xr_types.specs.Results.{Answers};
ghost use Rattle.xr_types.specs.declared.axis.Axis.{Axis as AnAxis};
ghost use Rattle.xr_arrays.specs.declared.node.Node.{Node};
ghost use Rattle.align_join.specs.Joined.{HasFew};
ghost use Rattle.xr_operations.specs.Alignment as alignment;
ghost use Rattle.xr_combination.specs.Concat as calls;
ghost use Rattle.xr_values.specs.Meaning.{meaning};
ghost use Rattle.xr_values.specs.Stands.{dataset_in};
ghost use Rattle.xr_stacking.specs.Axes.{axes_of};

use align_join::aligned;
use std::alloc::{AllocError, Global};
use xr_chaining::{check_dimension, check_variables, joining_axis};
use xr_joining::have_few;
use xr_types::{Axis, CallFault, DeepCopy, How, Items, Name, NoMemory};
use xr_values::{Dataset, Value};

// ---- the other axes

fn push_others(
    alloc: Global,
    out: &mut Items<Axis>,
    dim: &Name,
    axes: &[Axis],
) -> Result<(), AllocError>
    ensures { OnOk result (out.new ≡ out.old ++ filter (λ (x : AnAxis). not (bytes_eq x.name dim.now)) axes.now) }
{
    match axes {
        [] => Ok(()),
        [axis, rest @ ..] => {
            if !axis.name.is(dim) {
                out.push(axis.deep_copy(alloc)?)?;
            }
            push_others(alloc, out, dim, rest)
        }
    }
}

fn other_axes(alloc: Global, dim: &Name, set: &Dataset) -> Result<Items<Axis>, AllocError>
    ensures { (nodes : List Node) → IfOk result (λ xs. xs ≡ calls.other_axes dim.now (dataset_in nodes set.now)) }
{
    let mut out = Items::new(alloc);
    push_others(alloc, &mut out, dim, set.axes.as_slice())?;
    Ok(out)
}

fn push_all_others(
    alloc: Global,
    out: &mut Items<Items<Axis>>,
    dim: &Name,
    sets: &[Dataset],
) -> Result<(), AllocError>
    ensures { (nodes : List Node) → OnOk result (out.new ≡ out.old ++ map (calls.other_axes dim.now) (map (dataset_in nodes) sets.now)) }
{
    for set in sets {
        let axes = other_axes(alloc, dim, set)?;
        out.push(axes)?;
    }
    Ok(())
}

// Labels past those that can be looked up want memory.
fn push_slices<'a>(out: &mut Items<&'a [Axis]>, lists: &'a [Items<Axis>]) -> Result<(), NoMemory>
    requires { All (λ v. All HasFew v.now) out.old }
    ensures axes { OnOk result (map (λ v. v.now) out.new ≡ map (λ v. v.now) out.old ++ lists.now) }
    ensures few { OnOk result (All (λ v. All HasFew v.now) out.new) }
{
    match lists {
        [] => Ok(()),
        [list, rest @ ..] => {
            let axes = list.as_slice();
            if !have_few(axes) {
                return Err(NoMemory);
            }
            out.push(axes)?;
            push_slices(out, rest)
        }
    }
}

fn joined(
    alloc: Global,
    lists: &[Items<Axis>],
    how: How,
    filled: bool,
) -> Result<Items<Axis>, CallFault>
    ensures { Answers (λ (xs : List AnAxis). xs) result (alignment.aligned how filled lists.now) }
{
    let mut slices = Items::new(alloc);
    push_slices(&mut slices, lists)?;
    let axes = aligned(alloc, slices.as_slice(), how, filled)?;
    Ok(axes)
}

// The axes but that of the dimension, those of one name joined.
fn joined_others(
    alloc: Global,
    dim: &Name,
    how: How,
    filled: bool,
    sets: &[Dataset],
) -> Result<Items<Axis>, CallFault>
    ensures { (nodes : List Node) → Answers (λ (xs : List AnAxis). xs) result (alignment.aligned how filled (map (calls.other_axes dim.now) (map (dataset_in nodes) sets.now))) }
{
    let mut lists = Items::new(alloc);
    push_all_others(alloc, &mut lists, dim, sets)?;
    let axes = joined(alloc, lists.as_slice(), how, filled)?;
    Ok(axes)
}

// ---- all axes

fn push_axes(alloc: Global, out: &mut Items<Axis>, axes: &[Axis]) -> Result<(), AllocError>
    ensures { OnOk result (out.new ≡ out.old ++ axes.now) }
{
    match axes {
        [] => Ok(()),
        [axis, rest @ ..] => {
            out.push(axis.deep_copy(alloc)?)?;
            push_axes(alloc, out, rest)
        }
    }
}

fn with_first(alloc: Global, first: Axis, axes: &[Axis]) -> Result<Items<Axis>, AllocError>
    ensures { IfOk result (λ xs. xs ≡ first ∷ axes.now) }
{
    let mut all = Items::new(alloc);
    all.push(first)?;
    push_axes(alloc, &mut all, axes)?;
    Ok(all)
}

/// The axis along which datasets are put together, then the joined others, once all have the same data variables, and all or none the
/// dimension.
///
/// # Errors
/// `NoVariable`, `NoDimension`, `DuplicateName`; then those of the first other dimension that can't be joined; then `LabelKind` and
/// `WouldPromote` for the labels along the dimension.
#[tactic(auto, unfolding(crate::specs::Axes::axes_of))]
pub fn axes_of(
    alloc: Global,
    dim: &Name,
    how: How,
    filled: bool,
    values: &[Value],
    sets: &[Dataset],
) -> Result<Items<Axis>, CallFault>
    ensures { (nodes : List Node) → Answers (λ (xs : List AnAxis). xs) result (axes_of dim.now how filled (map (meaning nodes) values.now) (map (dataset_in nodes) sets.now)) }
{
    check_variables(alloc, sets)?;
    check_dimension(alloc, dim, values, sets)?;
    let joined = joined_others(alloc, dim, how, filled, sets)?;
    let axis = joining_axis(alloc, dim, sets)?;
    let axes = with_first(alloc, axis, joined.as_slice())?;
    Ok(axes)
}
