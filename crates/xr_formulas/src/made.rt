//! What a call makes, before its cells stand in a plan.
ghost use Rattle.std.specs.Prelude.{◌≡◌, IfOk};
ghost use Rattle.xr_arrays.specs.Added.{AddsAtMost};
ghost use Rattle.xr_defs.specs.Room.{AddsForAny};
ghost use Rattle.plan_core.specs.Plans.{Grows};
ghost use Rattle.xr_values.specs.Stands.{array_in};
ghost use Rattle.xr_formulas.specs.Chains.{IsValueOf};
ghost use Rattle.xr_formulas.specs.Mades.{formula_cells, formula_value, like, made_in, FormulaFits, IsArrayOf, IsMade};

use crate::chain::{Chain, push_chain};
use plan_core::Plan;
use std::alloc::{AllocError, Global};
use xr_arrays::Node;
use xr_defs::Coord;
use xr_types::{Attr, Axis, DType, DeepCopy, Items, Name, NoMemory, NodeId, OpKind};
use xr_values::{DataArray, copy_coords};

/// How cells come from nodes of a plan.
#[derive(Drop)]
pub enum Formula {
    One(Chain),
    /// An operation on the cells of two chains.
    Two(OpKind, Chain, Chain),
    /// The cells of the second where the truth value of the first is 1, and those of the third where it is 0.
    Three(Chain, Chain, Chain),
}

/// An array with a formula in place of its cells.
#[derive(Drop)]
pub struct Made {
    pub name: Option<Name>,
    pub axes: Items<Axis>,
    pub kind: DType,
    /// Whether missing cells may stand in the array.
    pub masked: bool,
    pub attrs: Items<Attr>,
    /// The coordinates that are no index.
    pub coords: Items<Coord>,
    pub cells: Formula,
}

/// What a call makes of an array that keeps its name, axes and coordinates.
pub fn like(
    alloc: Global,
    on: &DataArray,
    kind: DType,
    masked: bool,
    attrs: Items<Attr>,
    cells: Formula,
) -> Result<Made, AllocError>
    ensures { IfOk result (λ m. m ≡ like on.now kind masked attrs cells) }
{
    Ok(Made {
        name: on.name.deep_copy(alloc)?,
        axes: on.axes.deep_copy(alloc)?,
        kind,
        masked,
        attrs,
        coords: copy_coords(alloc, on.coords.as_slice())?,
        cells,
    })
}

/// The node of a formula. Its nodes are added to the plan.
pub fn push_formula(alloc: Global, plan: &mut Plan, formula: &Formula) -> Result<NodeId, NoMemory>
    requires { FormulaFits plan.old formula.now }
    ensures value { IfOk result (IsValueOf plan.new (formula_value plan.old formula.now)) }
    ensures grows { Grows plan.old plan.new }
    ensures cells { IfOk result (λ n. AddsAtMost plan.old plan.new (formula_cells plan.old formula.now)) }
{
    match formula {
        Formula::One(chain) => push_chain(alloc, plan, chain),
        Formula::Two(op, one, other) => {
            let a = push_chain(alloc, plan, one)?;
            let b = push_chain(alloc, plan, other)?;
            let node = plan.push(Node::Binary { op: *op, a, b })?;
            Ok(node)
        }
        Formula::Three(test, one, other) => {
            let cond = push_chain(alloc, plan, test)?;
            let a = push_chain(alloc, plan, one)?;
            let b = push_chain(alloc, plan, other)?;
            let node = plan.push(Node::Choose { cond, a, b })?;
            Ok(node)
        }
    }
}

/// The array of the plan that a call makes. Its cells are those of nodes that are added.
pub fn realize(alloc: Global, plan: &mut Plan, made: Made) -> Result<DataArray, NoMemory>
    requires { IsMade plan.old made }
    ensures made { IfOk result (IsArrayOf plan.new (made_in plan.old made)) }
    ensures grows { Grows plan.old plan.new }
    ensures room { IfOk result (λ b. AddsForAny plan.old plan.new (array_in plan.new b)) }
{
    let node = push_formula(alloc, plan, &made.cells)?;
    Ok(DataArray {
        name: made.name,
        axes: made.axes,
        kind: made.kind,
        masked: made.masked,
        attrs: made.attrs,
        coords: made.coords,
        node,
    })
}
