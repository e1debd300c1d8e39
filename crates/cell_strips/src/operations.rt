//! An operation on each cell of an array, computed strip by strip: of an operand that stands as a file has it, no more than a
//! strip is decoded at a time.
ghost use Rattle.std.specs.Prelude.{◌≡◌, ◌≤◌, true, IfOk};
ghost use Rattle.xr_types.specs.Points.{size};
ghost use Rattle.xr_arrays.specs.Elements.{unary_of, takes_one, Gives, Suits};
ghost use Rattle.xr_arrays.specs.Arrays.{IsArray};
ghost use Rattle.xr_arrays.specs.Nodes.{most_node_cells};
ghost use Rattle.cell_strips.specs.Strips.{IsOperand};

use crate::arrays::operate_one;
use crate::collect::{Strips, collect_strips};
use crate::strip::strip_of;
use arrangement::points;
use std::alloc::{AllocError, Global};
use xr_arrays::ArrayValue;
use xr_types::{DType, OpKind};

// An operation on one array.
#[derive(Clone, Copy)]
struct One<'a> {
    op: OpKind,
    kind: DType,
    a: &'a ArrayValue,
}

impl<'a> Strips for One<'a> {
    ghost whole = { λ s. unary_of s.op s.kind s.a.now };

    ghost Ready = { λ s. IsOperand s.op s.kind s.a.now };

    fn strip(&self, alloc: Global, from: usize, n: usize) -> Result<ArrayValue, AllocError> {
        let a = strip_of(alloc, self.a, from, n)?;
        operate_one(alloc, self.op, self.kind, &a)
    }
}

/// An operation of one operand on each cell.
pub fn unary(
    alloc: Global,
    op: OpKind,
    kind: DType,
    a: &ArrayValue,
) -> Result<ArrayValue, AllocError>
    requires array { IsArray a.now }
    requires one { takes_one op ≡ true }
    requires gives { Gives op kind a.now.kind }
    requires suits { Suits op a.now.kind }
    requires few { size a.now.shape ≤ most_node_cells }
    ensures { IfOk result (λ b. b ≡ unary_of op kind a.now) }
{
    let total = points(a.shape()) as usize;
    collect_strips(alloc, &One { op, kind, a }, a.shape(), total)
}
