//! The arrays of a choice, in their order.
ghost use Rattle.std.specs.Prelude.{◌≡◌, ◌++◌, List, map, true, false, IfOk, OnOk, All};
ghost use Rattle.std.specs.List.{AllByRecursion};
ghost use Rattle.xr_types.specs.Results.{Answers};
ghost use Rattle.xr_types.specs.declared.axis.Axis.{Axis as AnAxis};
ghost use Rattle.xr_types.specs.declared.operation.How.TheVariants as hows;
ghost use Rattle.xr_arrays.specs.declared.node.Node.{Node};
ghost use Rattle.xr_defs.specs.Carrying.{carried};
ghost use Rattle.xr_operations.specs.Alignment as alignment;
ghost use Rattle.align_join.specs.Joined.{HasFew};
ghost use Rattle.xr_values.specs.declared.data_array.DataArray.{DataArray as AnArray};
ghost use Rattle.xr_values.specs.Stands.{array_in};
ghost use Rattle.xr_joining.specs.Coords as coords;
ghost use Rattle.xr_choosing.specs.Branches.{arrays_of, carry_of, operands_of};

use crate::branches::Branch;
use align_join::aligned;
use std::alloc::{AllocError, Global};
use xr_defs::{Carry, Parts};
use xr_joining::{carrier, have_few};
use xr_types::{Axis, CallFault, How, Items, NoMemory};
use xr_values::{DataArray, carry};

fn push_array<'a>(arrays: &mut Items<&'a DataArray>, branch: Branch<'a>) -> Result<(), AllocError>
    ensures { OnOk result (map (λ a. a.now) arrays.new ≡ map (λ a. a.now) arrays.old ++ arrays_of branch.entry) }
{
    match branch {
        Branch::Array(array) => arrays.push(array),
        Branch::Number(_) | Branch::Truth(_) | Branch::Missing => Ok(()),
    }
}

/// The operands of the method, of which the receiver comes first, or those of the function, of which the condition does.
pub fn operands_of<'a>(
    alloc: Global,
    method: bool,
    cond: &'a DataArray,
    x: Branch<'a>,
    y: Branch<'a>,
) -> Result<Items<&'a DataArray>, AllocError>
    ensures { IfOk result (λ arrays. map (λ a. a.now) arrays ≡ operands_of method cond.now x.entry y.entry) }
{
    let mut arrays = Items::new(alloc);
    if method {
        push_array(&mut arrays, x)?;
        arrays.push(cond)?;
    } else {
        arrays.push(cond)?;
        push_array(&mut arrays, x)?;
    }
    push_array(&mut arrays, y)?;
    Ok(arrays)
}

// ---- axes

fn all_have_few(operands: &[&DataArray]) -> bool
    ensures { result ≡ true → AllByRecursion (λ (a : AnArray). All HasFew a.axes) (map (λ a. a.now) operands.now) }
{
    match operands {
        [] => true,
        [on, rest @ ..] => have_few(on.axes.as_slice()) && all_have_few(rest),
    }
}

fn push_axes<'a>(
    lists: &mut Items<&'a [Axis]>,
    operands: &[&'a DataArray],
) -> Result<(), AllocError>
    ensures { OnOk result (map (λ v. v.now) lists.new ≡ map (λ v. v.now) lists.old ++ map (λ (a : AnArray). a.axes) (map (λ a. a.now) operands.now)) }
{
    match operands {
        [] => Ok(()),
        [on, rest @ ..] => {
            lists.push(on.axes.as_slice())?;
            push_axes(lists, rest)
        }
    }
}

/// The axes of all operands, which have equal labels.
///
/// # Errors
/// Those of a join by `exact`.
#[tactic(auto, using(crate::proofs::Few::few_lists))]
pub fn aligned_all(alloc: Global, operands: &[&DataArray]) -> Result<Items<Axis>, CallFault>
    ensures { Answers (λ (xs : List AnAxis). xs) result (alignment.aligned hows.Exact false (map (λ (a : AnArray). a.axes) (map (λ a. a.now) operands.now))) }
{
    if !all_have_few(operands) {
        return Err(CallFault::NoMemory);
    }
    let mut lists = Items::new(alloc);
    push_axes(&mut lists, operands)?;
    aligned(alloc, lists.as_slice(), How::Exact, false)
}

// ---- the name, attributes and coordinates

fn push_carriers(
    alloc: Global,
    carriers: &mut Items<DataArray>,
    axes: &[Axis],
    operands: &[&DataArray],
) -> Result<(), NoMemory>
    ensures { OnOk result (carriers.new ≡ carriers.old ++ map (coords.carrier axes.now) (map (λ a. a.now) operands.now)) }
{
    match operands {
        [] => Ok(()),
        [on, rest @ ..] => {
            let one = carrier(alloc, axes, on)?;
            carriers.push(one)?;
            push_carriers(alloc, carriers, axes, rest)
        }
    }
}

fn carry_of(method: bool) -> Carry
    ensures { result ≡ carry_of method }
{
    if method { Carry::Where } else { Carry::Binary }
}

/// The name, attributes and coordinates of a choice over joined axes.
pub fn carried_all(
    alloc: Global,
    method: bool,
    axes: &[Axis],
    operands: &[&DataArray],
) -> Result<Parts, NoMemory>
    ensures { (nodes : List Node) → IfOk result (λ p. p ≡ carried (carry_of method) (map (array_in nodes) (map (coords.carrier axes.now) (map (λ a. a.now) operands.now))) axes.now) }
{
    let mut carriers = Items::new(alloc);
    push_carriers(alloc, &mut carriers, axes, operands)?;
    let parts = carry(alloc, carriers.as_slice(), axes, carry_of(method))?;
    Ok(parts)
}
