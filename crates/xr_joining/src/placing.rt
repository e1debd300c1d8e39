//! Operators between two arrays of a plan.
ghost use Rattle.std.specs.Prelude.{◌≡◌, List, [], ◌∷◌, IfOk};
ghost use Rattle.xr_arrays.specs.Added.{AddsAtMost};
ghost use Rattle.xr_defs.specs.Room.{of_array, room, Portion};
ghost use Rattle.plan_core.specs.Plans.{Grows};
ghost use Rattle.xr_operations.specs.Arithmetic as arithmetic;
ghost use Rattle.xr_values.specs.Answers.{AnswersArray};
ghost use Rattle.xr_values.specs.Stands.{array_in, IsArrayIn};
ghost use Rattle.xr_formulas.specs.Mades.{FormulaFits};
ghost use Rattle.xr_joining.specs.TwoArrays.{IsMadeOf, IsPlaced};

use crate::two_arrays::of_two_arrays;
use plan_core::Plan;
use std::alloc::Global;
use xr_formulas::{Made, push_formula};
use xr_types::{CallFault, NoMemory, OpKind};
use xr_values::DataArray;

/// The array of the plan that is made of operands, which may be larger than it. Its cells are those of nodes that are added.
pub fn placed(alloc: Global, plan: &mut Plan, made: Made) -> Result<DataArray, NoMemory>
    requires { FormulaFits plan.old made.cells }
    ensures placed { (operands : List Portion) → IsMadeOf operands plan.old made → IfOk result (IsPlaced operands plan.old plan.new made) }
    ensures grows { Grows plan.old plan.new }
{
    let node = push_formula(alloc, plan, &made.cells)?;
    Ok(DataArray {
        name: made.name,
        axes: made.axes,
        kind: made.kind,
        masked: made.masked,
        attrs: made.attrs,
        coords: made.coords,
        node,
    })
}

/// The array of the plan that an operator makes of two of its arrays, as [`of_two_arrays`]. Its cells are those of nodes that are
/// added.
pub fn two_arrays_in(
    alloc: Global,
    plan: &mut Plan,
    op: OpKind,
    a: &DataArray,
    b: &DataArray,
) -> Result<DataArray, CallFault>
    requires one { IsArrayIn plan.old a.now }
    requires other { IsArrayIn plan.old b.now }
    ensures answers { AnswersArray plan.new result (arithmetic.of_two_arrays op (array_in plan.old a.now) (array_in plan.old b.now)) }
    ensures grows { Grows plan.old plan.new }
    ensures room { IfOk result (λ c. AddsAtMost plan.old plan.new (room (of_array (array_in plan.old a.now) ∷ of_array (array_in plan.old b.now) ∷ of_array (array_in plan.new c) ∷ []))) }
{
    let made = of_two_arrays(alloc, op, a, b)?;
    let array = placed(alloc, plan, made)?;
    Ok(array)
}
