//! Operators between two arrays, which are aligned and broadcast.
ghost use Rattle.std.specs.Prelude.{◌≡◌, ◌≤◌, ◌||◌, List, [], ◌∷◌, length, false, IfOk};
ghost use Rattle.xr_types.specs.Results.{Answers};
ghost use Rattle.xr_types.specs.declared.axis.Axis.{Axis as AnAxis};
ghost use Rattle.xr_types.specs.declared.operation.How.TheVariants as hows;
ghost use Rattle.xr_arrays.specs.declared.node.Node.{Node};
ghost use Rattle.xr_defs.specs.Room.{of_array};
ghost use Rattle.xr_operations.specs.Alignment as alignment;
ghost use Rattle.xr_operations.specs.Arithmetic as arithmetic;
ghost use Rattle.xr_values.specs.Stands.{array_in, IsArrayIn};
ghost use Rattle.xr_joining.specs.Fitted.{AreJoined};
ghost use Rattle.xr_joining.specs.TwoArrays.{AnswersMadeOf, IsPair};

use crate::kinds::common_kind;
use crate::limits::{has_cells, have_few, is_within};
use crate::operands::{carried_both, formula, result_kind};
use align_join::aligned;
use std::alloc::Global;
use xr_formulas::Made;
use xr_types::{Axis, CallFault, DType, Fault, How, Items, NoMemory, OpKind};
use xr_values::DataArray;

// The axes of both, joined by the labels that both have.
fn aligned_both(alloc: Global, a: &DataArray, b: &DataArray) -> Result<Items<Axis>, CallFault>
    ensures { Answers (λ (xs : List AnAxis). xs) result (alignment.aligned hows.Inner false (a.now.axes ∷ b.now.axes ∷ [])) }
{
    let one = a.axes.as_slice();
    let other = b.axes.as_slice();
    if !have_few(one) || !have_few(other) {
        return Err(CallFault::NoMemory);
    }
    aligned(alloc, &[one, other], How::Inner, false)
}

fn either(a: bool, b: bool) -> bool
    ensures { result ≡ (a || b) }
{
    a || b
}

// What the operator makes of both over joined axes, in a kind that both become.
fn pair(
    alloc: Global,
    op: OpKind,
    kind: DType,
    axes: Items<Axis>,
    a: &DataArray,
    b: &DataArray,
) -> Result<Made, NoMemory>
    requires { length axes ≤ 16 }
    ensures { (nodes : List Node) → IsArrayIn nodes a.now → IsArrayIn nodes b.now → AreJoined a.now.axes b.now.axes axes → IfOk result (IsPair nodes op kind axes a.now b.now) }
{
    let some = has_cells(axes.as_slice());
    let cells = formula(alloc, !some, op, kind, axes.as_slice(), a, b)?;
    let parts = carried_both(alloc, axes.as_slice(), a, b)?;
    Ok(Made {
        name: parts.name,
        axes,
        kind: result_kind(op, kind),
        masked: either(a.masked, b.masked),
        attrs: parts.attrs,
        coords: parts.coords,
        cells,
    })
}

/// What an operator makes of two arrays: cell by cell in the kind that both become, over the dimensions of both, of which those
/// that both have are joined by the labels that both have.
///
/// # Errors
/// `WrongKind` and `WouldPromote` for kinds that the operator doesn't take; then, of the dimensions in the left operand's order,
/// the first that can't be joined; then `TooLarge`.
#[tactic(auto, using(crate::proofs::TwoAnswers::kind_fails, crate::proofs::TwoAnswers::axes_fail, crate::proofs::TwoAnswers::too_large, crate::proofs::TwoAnswers::answered))]
pub fn of_two_arrays(
    alloc: Global,
    op: OpKind,
    a: &DataArray,
    b: &DataArray,
) -> Result<Made, CallFault>
    ensures { (nodes : List Node) → IsArrayIn nodes a.now → IsArrayIn nodes b.now → AnswersMadeOf (of_array (array_in nodes a.now) ∷ of_array (array_in nodes b.now) ∷ []) nodes result (arithmetic.of_two_arrays op (array_in nodes a.now) (array_in nodes b.now)) }
{
    let kind = common_kind(op, a.kind, b.kind)?;
    let axes = aligned_both(alloc, a, b)?;
    if !is_within(axes.as_slice()) {
        return Err(CallFault::Refused(Fault::TooLarge));
    }
    let made = pair(alloc, op, kind, axes, a, b)?;
    Ok(made)
}
