//! What a choice makes of its operands.
ghost use Rattle.std.specs.Prelude.{◌≡◌, ◌≤◌, ◌||◌, List, length, map, IfOk};
ghost use Rattle.xr_arrays.specs.declared.node.Node.{Node};
ghost use Rattle.xr_operations.specs.CellMethods as calls;
ghost use Rattle.xr_values.specs.Stands.{array_in, IsArrayIn};
ghost use Rattle.xr_formulas.specs.Mades.{AnswersMade};
ghost use Rattle.xr_choosing.specs.Branches.{branch_in, carry_of, operands_of, IsBranchIn};
ghost use Rattle.xr_choosing.specs.Choices.{AreFitted, IsChoice};

use crate::branches::Branch;
use crate::cells::formula;
use crate::kinds::{both_missing, check_branch, chosen_kind, may_miss};
use crate::operands::{aligned_all, carried_all, operands_of};
use std::alloc::Global;
use xr_formulas::Made;
use xr_joining::{has_cells, is_within};
use xr_types::{Axis, CallFault, DType, Fault, Items, NoMemory};
use xr_values::DataArray;

fn any(a: bool, b: bool, c: bool) -> bool
    ensures { result ≡ (a || (b || c)) }
{
    a || b || c
}

// The choice over joined axes, in a kind.
fn choice(
    alloc: Global,
    method: bool,
    kind: DType,
    axes: Items<Axis>,
    operands: &[&DataArray],
    cond: &DataArray,
    x: Branch<'_>,
    y: Branch<'_>,
) -> Result<Made, NoMemory>
    requires { length axes ≤ 16 }
    ensures { (nodes : List Node) → map (λ a. a.now) operands.now ≡ operands_of method cond.now x.entry y.entry → AreFitted nodes axes (map (λ a. a.now) operands.now) → IfOk result (IsChoice nodes method kind axes cond.now x.entry y.entry) }
{
    let some = has_cells(axes.as_slice());
    let cells = formula(alloc, !some, kind, axes.as_slice(), cond, x, y)?;
    let parts = carried_all(alloc, method, axes.as_slice(), operands)?;
    let masked = any(cond.masked, may_miss(x), may_miss(y));
    Ok(Made {
        name: parts.name,
        axes,
        kind,
        masked,
        attrs: parts.attrs,
        coords: parts.coords,
        cells,
    })
}

/// What a choice makes: over the dimensions of all operands, which have equal labels, the cells of one branch where the condition
/// holds, those of the other where it doesn't, and missing ones where the condition is missing.
///
/// # Errors
/// The first of: `WrongKind` for two missing branches; those of the kind; those of a join by `exact`; `DoesNotFit` for a number that
/// the kind doesn't have; `TooLarge`.
pub fn chosen(
    alloc: Global,
    method: bool,
    cond: &DataArray,
    x: Branch<'_>,
    y: Branch<'_>,
) -> Result<Made, CallFault>
    ensures { (nodes : List Node) → IsArrayIn nodes cond.now → IsBranchIn nodes x.entry → IsBranchIn nodes y.entry → AnswersMade nodes result (calls.where_over (carry_of method) (map (array_in nodes) (operands_of method cond.now x.entry y.entry)) (array_in nodes cond.now) (branch_in nodes x.entry) (branch_in nodes y.entry)) }
{
    if both_missing(x, y) {
        return Err(CallFault::Refused(Fault::WrongKind));
    }
    let kind = chosen_kind(x, y)?;
    let operands = operands_of(alloc, method, cond, x, y)?;
    let axes = aligned_all(alloc, operands.as_slice())?;
    check_branch(kind, x)?;
    check_branch(kind, y)?;
    if !is_within(axes.as_slice()) {
        return Err(CallFault::Refused(Fault::TooLarge));
    }
    let made = choice(alloc, method, kind, axes, operands.as_slice(), cond, x, y)?;
    Ok(made)
}
