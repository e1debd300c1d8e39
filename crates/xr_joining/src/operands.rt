//! What an operand gives to a result over joined axes.
ghost use Rattle.std.specs.Prelude.{◌≡◌, ◌≤◌, ◌+◌, ◌++◌, List, [], ◌∷◌, length, IfOk};
ghost use Rattle.xr_types.specs.Names.{shape_over};
ghost use Rattle.xr_arrays.specs.declared.node.Node.{Node};
ghost use Rattle.xr_arrays.specs.Elements as elements;
ghost use Rattle.xr_defs.specs.Carrying.{carried};
ghost use Rattle.xr_defs.specs.declared.carrying.Carry.TheVariants as carries;
ghost use Rattle.xr_values.specs.Stands.{array_in};
ghost use Rattle.xr_joining.specs.Coords as made;
ghost use Rattle.xr_joining.specs.Operands as chains;
ghost use Rattle.xr_joining.specs.TwoArrays.{pair_formula};

use crate::fitting::{coords_after, push_takes};
use crate::limits::have_few;
use crate::spread::spreading;
use std::alloc::Global;
use xr_defs::{Carry, Parts};
use xr_formulas::{Chain, Formula, Start, Step};
use xr_types::{Axis, DType, DeepCopy, Items, NoMemory, OpKind, Shape};
use xr_values::{DataArray, carry};

// ---- cells

/// The cells of an operand over these axes and in this kind.
pub fn over(alloc: Global, kind: DType, axes: &[Axis], on: &DataArray) -> Result<Chain, NoMemory>
    requires { length axes.now ≤ 16 }
    ensures { IfOk result (λ c. c ≡ chains.over kind axes.now on.now) }
{
    let own = on.axes.as_slice();
    if !have_few(own) {
        return Err(NoMemory);
    }
    let mut steps = Items::new(alloc);
    push_takes(alloc, &mut steps, axes, 0, own)?;
    steps.push(Step::Unary(OpKind::Cast, kind))?;
    let steps = spreading(alloc, steps, axes, own)?;
    let start = Start::Node(on.node);
    Ok(Chain { start, steps })
}

fn is_comparison(op: OpKind) -> bool
    ensures { result ≡ elements.is_comparison op }
{
    match op {
        OpKind::Equal | OpKind::NotEqual => true,
        OpKind::Less | OpKind::LessEqual | OpKind::Greater | OpKind::GreaterEqual => true,
        OpKind::Add | OpKind::Subtract | OpKind::Multiply => false,
        OpKind::FloorDivide | OpKind::Remainder => false,
        OpKind::And | OpKind::Or | OpKind::Xor => false,
        OpKind::Divide | OpKind::Negate | OpKind::Invert => false,
        OpKind::IsNull | OpKind::NotNull | OpKind::FillNa | OpKind::Cast => false,
    }
}

/// The kind of an operator's result.
pub fn result_kind(op: OpKind, kind: DType) -> DType
    ensures { result ≡ elements.result_kind op kind }
{
    if is_comparison(op) { DType::Bool } else { kind }
}

fn push_sizes(shape: &mut Shape, axes: &[Axis])
    requires { length shape.old + length axes.now ≤ 16 }
    ensures { shape.new ≡ shape.old ++ shape_over axes.now }
{
    match axes {
        [] => {}
        [axis, rest @ ..] => {
            shape.push(axis.size);
            push_sizes(shape, rest);
        }
    }
}

fn shape_over(axes: &[Axis]) -> Shape
    requires { length axes.now ≤ 16 }
    ensures { result ≡ shape_over axes.now }
{
    let mut shape = Shape::new();
    push_sizes(&mut shape, axes);
    shape
}

/// An array over these axes that has no cells.
pub fn nothing(alloc: Global, kind: DType, axes: &[Axis]) -> Chain
    requires { length axes.now ≤ 16 }
    ensures { result ≡ chains.nothing kind (shape_over axes.now) }
{
    let start = Start::Empty(kind, shape_over(axes));
    let steps = Items::new(alloc);
    Chain { start, steps }
}

/// The cells of an operator's result.
pub fn formula(
    alloc: Global,
    none: bool,
    op: OpKind,
    kind: DType,
    axes: &[Axis],
    a: &DataArray,
    b: &DataArray,
) -> Result<Formula, NoMemory>
    requires { length axes.now ≤ 16 }
    ensures { IfOk result (λ f. f ≡ pair_formula none op kind axes.now a.now b.now) }
{
    if none {
        let chain = nothing(alloc, result_kind(op, kind), axes);
        return Ok(Formula::One(chain));
    }
    let one = over(alloc, kind, axes, a)?;
    let other = over(alloc, kind, axes, b)?;
    Ok(Formula::Two(op, one, other))
}

// ---- the name, attributes and coordinates

/// The name, attributes and coordinates of an operand over joined axes.
pub fn carrier(alloc: Global, joined: &[Axis], on: &DataArray) -> Result<DataArray, NoMemory>
    ensures { IfOk result (λ r. r ≡ made.carrier joined.now on.now) }
{
    let name = on.name.deep_copy(alloc)?;
    let attrs = on.attrs.deep_copy(alloc)?;
    let coords = coords_after(alloc, joined, on.coords.as_slice())?;
    let axes = Items::new(alloc);
    Ok(DataArray {
        name,
        axes,
        kind: on.kind,
        masked: on.masked,
        attrs,
        coords,
        node: on.node,
    })
}

/// The name, attributes and coordinates of a result of both over joined axes.
pub fn carried_both(
    alloc: Global,
    axes: &[Axis],
    a: &DataArray,
    b: &DataArray,
) -> Result<Parts, NoMemory>
    ensures { (nodes : List Node) → IfOk result (λ p. p ≡ carried carries.Binary (array_in nodes (made.carrier axes.now a.now) ∷ array_in nodes (made.carrier axes.now b.now) ∷ []) axes.now) }
{
    let operands = [carrier(alloc, axes, a)?, carrier(alloc, axes, b)?];
    let parts = carry(alloc, &operands, axes, Carry::Binary)?;
    Ok(parts)
}
