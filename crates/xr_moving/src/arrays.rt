//! `shift(DIM, fill_value)` and `roll(DIM)` of an array.
ghost use Rattle.std.specs.Prelude.{List, IfOk};
ghost use Rattle.xr_arrays.specs.declared.node.Node.{Node};
ghost use Rattle.xr_arrays.specs.Arrays.{IsCell};
ghost use Rattle.xr_operations.specs.Moves as of;
ghost use Rattle.xr_values.specs.Meaning.{given};
ghost use Rattle.xr_values.specs.Stands.{array_in, IsArrayIn};
ghost use Rattle.xr_formulas.specs.Mades.{AnswersMade, Makes};
ghost use Rattle.xr_moving.specs.Steps.{moved_by};

use crate::fills::{check_fill, fill_called, fill_given, needed};
use crate::moves::{Move, Moves, masked_after, moved_cells};
use crate::names::{check_dimensions, distances};
use std::alloc::{AllocError, Global};
use xr_changing::names_of;
use xr_formulas::{Made, like};
use xr_types::{CallFault, DeepCopy, Fault};
use xr_values::{Args, DataArray};

// An array with its cells moved.
fn array_moved(alloc: Global, moves: &Moves, on: &DataArray) -> Result<Made, AllocError>
    ensures { (nodes : List Node) → IsArrayIn nodes on.now → IsCell on.now.kind moves.now.fill → IfOk result (Makes nodes (moved_by moves.now (array_in nodes on.now))) }
{
    let axes = on.axes.as_slice();
    let names = names_of(alloc, axes)?;
    let dims = names.as_slice();
    let cells = moved_cells(alloc, moves, axes, on.node, dims)?;
    let masked = masked_after(moves, on.masked, dims);
    let attrs = on.attrs.deep_copy(alloc)?;
    let made = like(alloc, on, on.kind, masked, attrs, cells)?;
    Ok(made)
}

/// An array with its cells moved along each dimension that an argument names, and `fill_value` where none moves in.
///
/// # Errors
/// `BadArgument` for a plain argument; then `WrongKind` for a fill that is neither `NA` nor a literal of the kind, and for an
/// argument that is no whole number; then `NoDimension` for the first name that is no dimension; then `WouldPromote` where no
/// fill is given; then `DoesNotFit`.
#[tactic(auto, using(crate::proofs::Answered::shift_answered), unfolding(xr_operations::specs::Moves::shift_array, xr_types::specs::Results::unless, xr_values::specs::Meaning::given))]
pub fn shifted(alloc: Global, on: &DataArray, args: &Args) -> Result<Made, CallFault>
    ensures { (nodes : List Node) → IsArrayIn nodes on.now → AnswersMade nodes result (of.shift_array (array_in nodes on.now) (given nodes args.now)) }
{
    if args.plain.len() != 0 {
        return Err(CallFault::Refused(Fault::BadArgument));
    }
    let given = fill_called(on.kind, fill_given(args))?;
    let by = distances(alloc, true, args.keyed.as_slice())?;
    check_dimensions(alloc, on.axes.as_slice(), true, args.keyed.as_slice())?;
    let fill = needed(given)?;
    check_fill(on.kind, fill)?;
    let how = Move::Shift;
    let moves = Moves { how, fill, by };
    let made = array_moved(alloc, &moves, on)?;
    Ok(made)
}

/// An array with its cells moved round along each dimension that an argument names.
///
/// # Errors
/// `BadArgument` for a plain argument; then `WrongKind` for an argument that is no whole number; then `NoDimension` for the
/// first name that is no dimension.
#[tactic(auto, using(crate::proofs::Answered::roll_answered), unfolding(xr_operations::specs::Moves::roll_array, xr_types::specs::Results::unless, xr_values::specs::Meaning::given))]
pub fn rolled(alloc: Global, on: &DataArray, args: &Args) -> Result<Made, CallFault>
    ensures { (nodes : List Node) → IsArrayIn nodes on.now → AnswersMade nodes result (of.roll_array (array_in nodes on.now) (given nodes args.now)) }
{
    if args.plain.len() != 0 {
        return Err(CallFault::Refused(Fault::BadArgument));
    }
    let by = distances(alloc, false, args.keyed.as_slice())?;
    check_dimensions(alloc, on.axes.as_slice(), false, args.keyed.as_slice())?;
    let how = Move::Roll;
    let fill = None;
    let moves = Moves { how, fill, by };
    let made = array_moved(alloc, &moves, on)?;
    Ok(made)
}
