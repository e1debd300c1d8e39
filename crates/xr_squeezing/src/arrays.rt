//! Arrays without dimensions of one position.
ghost use Rattle.std.specs.Prelude.{◌≡◌, ◌*◌, IfOk};
ghost use Rattle.xr_arrays.specs.Added.{AddsAtMost};
ghost use Rattle.plan_core.specs.Plans.{Grows};
ghost use Rattle.xr_defs.specs.Room.{span};
ghost use Rattle.xr_formulas.specs.Mades.{IsArrayOf};
ghost use Rattle.xr_operations.specs.Indexing as of;
ghost use Rattle.xr_values.specs.Stands.{array_in, IsArrayIn};
ghost use Rattle.xr_squeezing.specs.Alone.{AreAlone};

use crate::coords::squeezed_coords;
use crate::dims::{check_alone, steps_without};
use plan_core::Plan;
use std::alloc::Global;
use xr_formulas::{Chain, Start, push_chain};
use xr_reducing::{axes_left, names_of};
use xr_types::{Name, NoMemory};
use xr_values::DataArray;

/// The array without these dimensions, of one position each, which leave their labels as coordinates. Its cells are those of
/// nodes that are added to the plan; where no dimension goes, none are. A name that stands twice, or that is no dimension of one
/// position, of which a caller has none, wants memory.
#[tactic(auto, using(crate::proofs::Squeezed::chain_fits, crate::proofs::Squeezed::adds))]
pub fn squeezed_array(
    alloc: Global,
    plan: &mut Plan,
    gone: &[Name],
    on: DataArray,
) -> Result<DataArray, NoMemory>
    requires { IsArrayIn plan.old on }
    ensures is { IfOk result (IsArrayOf plan.new (of.squeezed_array gone.now (array_in plan.old on))) }
    ensures alone { IfOk result (λ b. AreAlone on.axes gone.now) }
    ensures grows { Grows plan.old plan.new }
    ensures space { IfOk result (λ b. AddsAtMost plan.old plan.new (16 * span b.axes)) }
{
    let own = on.axes.as_slice();
    check_alone(own, gone)?;
    let dims = names_of(alloc, own)?;
    let start = Start::Node(on.node);
    let steps = steps_without(alloc, gone, dims.as_slice())?;
    let axes = axes_left(alloc, gone, own)?;
    let coords = squeezed_coords(alloc, gone, own, on.coords.as_slice())?;
    let node = push_chain(alloc, plan, &Chain { start, steps })?;
    Ok(DataArray {
        axes,
        coords,
        node,
        ..on
    })
}
