//! One operation on each cell.
ghost use Rattle.std.specs.Prelude.{◌≡◌, List, IfOk};
ghost use Rattle.xr_arrays.specs.declared.node.Node.{Node};
ghost use Rattle.xr_defs.specs.Values.{without_fills};
ghost use Rattle.xr_defs.specs.WellFormed.{AreAttributes};
ghost use Rattle.xr_values.specs.Stands.{array_in, IsArrayIn};
ghost use Rattle.xr_formulas.specs.Cellwise.{changed, masked_after, Changes};
ghost use Rattle.xr_formulas.specs.Mades.{Makes};

use crate::chain::{Step, one_step};
use crate::made::{Formula, Made, like};
use std::alloc::{AllocError, Global};
use xr_types::{Attr, DType, Items, OpKind};
use xr_values::{DataArray, without_fills};

fn masked_after(op: OpKind, masked: bool) -> bool
    ensures { result ≡ masked_after op masked }
{
    !matches!(op, OpKind::IsNull | OpKind::NotNull) && masked
}

/// An array with this operation on each of its cells, and with these attributes.
pub fn changed(
    alloc: Global,
    on: &DataArray,
    op: OpKind,
    kind: DType,
    attrs: Items<Attr>,
) -> Result<Made, AllocError>
    requires { Changes op kind on.now.kind }
    ensures { (nodes : List Node) → IsArrayIn nodes on.now → AreAttributes attrs → IfOk result (Makes nodes (changed op kind attrs (array_in nodes on.now))) }
{
    let chain = one_step(alloc, on.node, Step::Unary(op, kind))?;
    let masked = masked_after(op, on.masked);
    let made = like(alloc, on, kind, masked, attrs, Formula::One(chain))?;
    Ok(made)
}

/// An array with this operation on each of its cells, without the attributes that name fill numbers.
pub fn of_method(alloc: Global, on: &DataArray, op: OpKind, kind: DType) -> Result<Made, AllocError>
    requires { Changes op kind on.now.kind }
    ensures { (nodes : List Node) → IsArrayIn nodes on.now → IfOk result (Makes nodes (changed op kind (without_fills on.now.attrs) (array_in nodes on.now))) }
{
    let attrs = without_fills(alloc, on.attrs.as_slice())?;
    let made = changed(alloc, on, op, kind, attrs)?;
    Ok(made)
}
