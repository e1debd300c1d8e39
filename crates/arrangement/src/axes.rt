//! Arrays with their axes in another order, or with one more.
ghost use Rattle.std.specs.Prelude.{◌≡◌, ◌≤◌, length, IfOk};
ghost use Rattle.xr_types.specs.Points.{size};
ghost use Rattle.xr_arrays.specs.Nodes.{IsOrder, reordered, widened, most_node_cells};
ghost use Rattle.plan_core.specs.Widens.{IsWidening};

use crate::arrange::rearrange;
use crate::moving::Moving;
use crate::widening::Widening;
use std::alloc::{AllocError, Global};
use xr_arrays::ArrayValue;

/// The axes in another order: for each axis of the result the array's, each once.
pub fn reorder(alloc: Global, a: &ArrayValue, order: &[u64]) -> Result<ArrayValue, AllocError>
    requires each { IsOrder (length a.now.shape) order.now }
    requires axes { length order.now ≤ 16 }
    requires few { size a.now.shape ≤ most_node_cells }
    requires small { size (reordered a.now order.now).shape ≤ most_node_cells }
    ensures { IfOk result (λ b. b ≡ reordered a.now order.now) }
{
    let moving = Moving {
        shape: a.shape(),
        order,
    };
    rearrange(alloc, a, &moving, None)
}

/// One more axis before `axis`, along which all positions show the same cell.
pub fn widen(
    alloc: Global,
    a: &ArrayValue,
    axis: usize,
    positions: u64,
) -> Result<ArrayValue, AllocError>
    requires { IsWidening a.now.shape axis positions }
    ensures { IfOk result (λ b. b ≡ widened a.now axis positions) }
{
    let widening = Widening {
        shape: a.shape(),
        axis,
        size: positions,
    };
    rearrange(alloc, a, &widening, None)
}
