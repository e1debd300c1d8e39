//! Arrays whose cells are written out.
ghost use Rattle.std.specs.Prelude.{◌≡◌, All, IfOk};
ghost use Rattle.xr_arrays.specs.Arrays.{IsCell};
ghost use Rattle.xr_defs.specs.Room.{AddsForAny};
ghost use Rattle.xr_types.specs.Names.{shape_over};
ghost use Rattle.plan_core.specs.Plans.{Grows};
ghost use Rattle.xr_values.specs.Answers.{AnswersArray};
ghost use Rattle.xr_values.specs.Stands.{array_in};
ghost use Rattle.xr_building.specs.Puts.{frame_of};
ghost use Rattle.xr_building.specs.Written.{limited, with_written, IsFilled};

use crate::cells::array_value;
use crate::draft::Draft;
use crate::header::Header;
use crate::limits::is_frame_within;
use plan_core::Plan;
use std::alloc::{AllocError, Global};
use xr_arrays::Node;
use xr_types::{Axis, CallFault, Fault, Items};
use xr_values::DataArray;

fn shape_of(alloc: Global, axes: &[Axis]) -> Result<Items<u64>, AllocError>
    ensures { IfOk result (λ s. s ≡ shape_over axes.now) }
{
    let mut shape = Items::new(alloc);
    for axis in axes {
        shape.push(axis.size)?;
    }
    Ok(shape)
}

/// The array of these cells, which are those of a node that is added to the plan.
///
/// # Errors
/// `TooLarge` for more positions or cells than an array may have.
#[tactic(auto, unfolding(xr_defs::specs::Selecting::check_array, xr_types::specs::Results::unless))]
pub fn place(
    alloc: Global,
    plan: &mut Plan,
    header: Header,
    draft: Draft,
    cells: &[Option<i128>],
) -> Result<DataArray, CallFault>
    requires filled { IsFilled (with_written header (frame_of draft) cells.now) }
    requires range { All (IsCell header.kind) cells.now }
    ensures answers { AnswersArray plan.new result (limited (with_written header (frame_of draft) cells.now)) }
    ensures grows { Grows plan.old plan.new }
    ensures room { IfOk result (λ b. AddsForAny plan.old plan.new (array_in plan.new b)) }
{
    let axes = draft.axes.as_slice();
    if !is_frame_within(axes, draft.coords.as_slice()) {
        return Err(CallFault::Refused(Fault::TooLarge));
    }
    let shape = shape_of(alloc, axes)?;
    let cells = array_value(alloc, header.kind, shape, header.masked, cells)?;
    let node = plan.push(Node::Source { cells })?;
    Ok(DataArray {
        name: header.name,
        axes: draft.axes,
        kind: header.kind,
        masked: header.masked,
        attrs: Items::new(alloc),
        coords: draft.coords,
        node,
    })
}
