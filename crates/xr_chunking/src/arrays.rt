//! `chunk(DIM)` of an array.
ghost use Rattle.std.specs.Prelude.{[], ◌∷◌, List, IfOk};
ghost use Rattle.xr_arrays.specs.declared.node.Node.{Node};
ghost use Rattle.xr_arrays.specs.Added.{AddsAtMost};
ghost use Rattle.xr_defs.specs.Room.{of_array, room};
ghost use Rattle.plan_core.specs.Plans.{Grows};
ghost use Rattle.xr_chunks.specs.Chunks as of;
ghost use Rattle.xr_values.specs.Answers.{AnswersArray};
ghost use Rattle.xr_values.specs.Meaning.{given};
ghost use Rattle.xr_values.specs.Stands.{array_in, IsArrayIn};
ghost use Rattle.xr_chunking.specs.Grids.{HasGrid};

use crate::grids::cut;
use crate::pieces::array_pieces;
use crate::sizes::grid_given;
use plan_core::Plan;
use std::alloc::Global;
use xr_types::{CallFault, DeepCopy};
use xr_values::{Args, DataArray};

/// The array as it is, with cells that are computed in pieces of the sizes that the arguments give: a node that follows its own.
/// Where no dimension is named, its node is the same.
///
/// # Errors
/// `BadArgument` for a plain argument; then, argument by argument, `WrongKind` for what is no whole number and `BadArgument` for
/// one below 1; then `NoDimension` for the first name that is no dimension.
#[tactic(auto, unfolding(xr_chunks::specs::Chunks::chunk_array))]
pub fn chunked(
    alloc: Global,
    plan: &mut Plan,
    on: &DataArray,
    args: &Args,
) -> Result<DataArray, CallFault>
    requires { IsArrayIn plan.old on.now }
    ensures answers { (nodes : List Node) → AnswersArray plan.new result (of.chunk_array (array_in plan.old on.now) (given nodes args.now)) }
    ensures grid { (nodes : List Node) → IfOk result (HasGrid plan.new (of.grid_given on.now.axes (given nodes args.now)) on.now) }
    ensures grows { Grows plan.old plan.new }
    ensures room { IfOk result (λ b. AddsAtMost plan.old plan.new (room (of_array (array_in plan.old on.now) ∷ of_array (array_in plan.new b) ∷ []))) }
{
    let axes = on.axes.as_slice();
    let sizes = grid_given(alloc, axes, args)?;
    let pieces = array_pieces(alloc, sizes.as_slice(), axes)?;
    let mut array = on.deep_copy(alloc)?;
    array.node = cut(plan, on.node, pieces)?;
    Ok(array)
}
