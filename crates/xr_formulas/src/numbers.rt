//! Operations of the cells of an array and a number.
ghost use Rattle.std.specs.Prelude.{◌≡◌, ◌&&◌, not, true, false, ℤ, List, Option, IfOk};
ghost use Rattle.xr_types.specs.Kinds.{in_range, InRange};
ghost use Rattle.xr_arrays.specs.declared.node.Node.{Node};
ghost use Rattle.xr_arrays.specs.Elements.{is_comparison as compares, result_kind as kind_of_result, takes_two, Suits};
ghost use Rattle.xr_defs.specs.WellFormed.{AreAttributes};
ghost use Rattle.xr_operations.specs.Arithmetic.{is_truths as of_truths, with_literal};
ghost use Rattle.xr_operations.specs.CellMethods.{filled_with};
ghost use Rattle.xr_values.specs.Stands.{array_in, IsArrayIn};
ghost use Rattle.xr_formulas.specs.Beside.{formula_beside, holds, operand, placed_on, within_kind, Fills, IsOver, IsPlaced};
ghost use Rattle.xr_formulas.specs.Mades.{Makes};

use crate::chain::{Chain, Step, cells_of, one_step};
use crate::kinds::{fits, is_truths, least};
use crate::literals::literal;
use crate::made::{Formula, Made, like};
use std::alloc::{AllocError, Global};
use xr_operations::Side;
use xr_types::{Attr, DType, DeepCopy, Items, OpKind};
use xr_values::{DataArray, without_fills};

/// An operation of cells and a number on one side of them.
#[derive(Clone, Copy)]
pub struct Placed {
    pub side: Side,
    pub op: OpKind,
    pub number: i128,
}

pub(crate) fn is_comparison(op: OpKind) -> bool
    ensures { result ≡ compares op }
{
    match op {
        OpKind::Equal | OpKind::NotEqual => true,
        OpKind::Less | OpKind::LessEqual | OpKind::Greater | OpKind::GreaterEqual => true,
        _ => false,
    }
}

/// The kind of the result of an operation of two operands of a kind.
pub fn result_kind(op: OpKind, kind: DType) -> DType
    ensures { result ≡ kind_of_result op kind }
{
    if is_comparison(op) { DType::Bool } else { kind }
}

// Whether a comparison holds of a number and one above it, or of a number and one below it.
fn holds(op: OpKind, ascending: bool) -> bool
    ensures { result ≡ holds op ascending }
{
    match op {
        OpKind::Less | OpKind::LessEqual => ascending,
        OpKind::Greater | OpKind::GreaterEqual => !ascending,
        OpKind::NotEqual => true,
        _ => false,
    }
}

// A comparison with a number that the kind doesn't have, as one with a number that it has.
fn within_kind(kind: DType, placed: Placed) -> Placed
    ensures { result ≡ within_kind kind placed }
{
    if fits(kind, placed.number) {
        placed
    } else {
        let below = placed.number < least(kind);
        let up = match placed.side {
            Side::Left => below,
            Side::Right => !below,
        };
        let op = if holds(placed.op, up) {
            OpKind::GreaterEqual
        } else {
            OpKind::Less
        };
        Placed {
            side: Side::Right,
            op,
            number: least(kind),
        }
    }
}

fn operand(alloc: Global, on: &DataArray, kind: DType) -> Result<Chain, AllocError>
    ensures { IfOk result (λ c. c ≡ operand on.now kind) }
{
    if is_truths(on.kind) && !is_truths(kind) {
        one_step(alloc, on.node, Step::Unary(OpKind::Cast, kind))
    } else {
        Ok(cells_of(alloc, on.node))
    }
}

fn formula_beside(side: Side, op: OpKind, cells: Chain, number: Chain) -> Formula
    ensures { result ≡ formula_beside side op cells number }
{
    match side {
        Side::Left => Formula::Two(op, number, cells),
        Side::Right => Formula::Two(op, cells, number),
    }
}

/// An array with the operation on each of these cells of a kind, and with these attributes.
pub fn beside(
    alloc: Global,
    on: &DataArray,
    cells: Chain,
    kind: DType,
    placed: Placed,
    masked: bool,
    attrs: Items<Attr>,
) -> Result<Made, AllocError>
    requires two { takes_two placed.op ≡ true }
    requires suits { Suits placed.op kind }
    requires range { InRange kind placed.number }
    requires fills { Fills kind placed masked on.now.masked }
    ensures { (nodes : List Node) (own : List (Option ℤ)) → IsArrayIn nodes on.now → IsOver nodes (array_in nodes on.now) kind own cells → AreAttributes attrs → IfOk result (Makes nodes (placed_on kind placed masked attrs own (array_in nodes on.now))) }
{
    let number = literal(alloc, on.axes.as_slice(), kind, placed.number)?;
    let formula = formula_beside(placed.side, placed.op, cells, number);
    let result = result_kind(placed.op, kind);
    let made = like(alloc, on, result, masked, attrs, formula)?;
    Ok(made)
}

/// An array with an operation of its cells and a number, where they are of a kind, or become it. The number is one of the kind, or
/// is compared.
pub fn with_literal(
    alloc: Global,
    on: &DataArray,
    kind: DType,
    placed: Placed,
) -> Result<Made, AllocError>
    requires placed { IsPlaced kind placed }
    requires kind { (of_truths on.now.kind && not (of_truths kind)) ≡ false → kind ≡ on.now.kind }
    ensures { (nodes : List Node) → IsArrayIn nodes on.now → IfOk result (Makes nodes (with_literal placed.side placed.op kind placed.number (array_in nodes on.now))) }
{
    let within = within_kind(kind, placed);
    let cells = operand(alloc, on, kind)?;
    let attrs = without_fills(alloc, on.attrs.as_slice())?;
    let made = beside(alloc, on, cells, kind, within, on.masked, attrs)?;
    Ok(made)
}

/// An array with this number in place of its missing cells.
pub fn filled(alloc: Global, on: &DataArray, n: i128) -> Result<Made, AllocError>
    requires { in_range on.now.kind n ≡ true }
    ensures { (nodes : List Node) → IsArrayIn nodes on.now → IfOk result (Makes nodes (filled_with n (array_in nodes on.now))) }
{
    let attrs = on.attrs.deep_copy(alloc)?;
    let cells = cells_of(alloc, on.node);
    let placed = Placed {
        side: Side::Right,
        op: OpKind::FillNa,
        number: n,
    };
    let made = beside(alloc, on, cells, on.kind, placed, false, attrs)?;
    Ok(made)
}
