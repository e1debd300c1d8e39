//! `assign_coords(name=value)`: arrays with labels and coordinates of these names.
ghost use Rattle.std.specs.Prelude.{◌≡◌, false, ℕ, List, IfOk};
ghost use denote.Param.Send.{IsSync};
ghost use Rattle.xr_arrays.specs.declared.node.Node.{Node};
ghost use Rattle.xr_defs.specs.Building.{assigned_to_array};
ghost use Rattle.xr_values.specs.Answers.{AnswersArray};
ghost use Rattle.xr_values.specs.Meaning.{given, AreArgsIn};
ghost use Rattle.xr_values.specs.Stands.{array_in, IsArrayIn};
ghost use Rattle.xr_values.specs.Variables.{names_of};
ghost use Rattle.xr_building.specs.Entries.{array_assigned, frame_in, Follows, FollowsArray};
ghost use Rattle.xr_building.specs.Frames.{IsFrame, Stays};
ghost use Rattle.xr_building.specs.Puts.{frame_of, over};

use crate::check::{check_entries, check_places};
use crate::draft::{Draft, with_puts};
use crate::put::put_entries;
use plan_core::Compute;
use std::alloc::Global;
use std::thread::Threads;
use xr_defs::Coord;
use xr_types::{Axis, CallFault, DeepCopy, Fault, Items};
use xr_values::{Args, Cx, DataArray, Variable, copy_coords};

/// Axes and coordinates with the entries of a call, none of which has the name of one of these variables. Numbers past 64 bits come
/// last.
///
/// # Errors
/// Those of an array, and `DuplicateName` in its turn for the name of a variable.
#[tactic(auto, unfolding(crate::specs::Entries::frame_in, xr_types::specs::Results::unless))]
pub(crate) fn assigned<R: Threads + Sync, C: Compute>(
    rt: &R,
    alloc: Global,
    cx: &mut Cx<C>,
    variables: &[Variable],
    axes: &Items<Axis>,
    coords: &[Coord],
    args: &Args,
) -> Result<Draft, CallFault>
    requires sync { IsSync R.row }
    requires given { AreArgsIn cx.old.plan args.now }
    ensures told { Follows frame_of result (frame_in (C.declines cx.old.compute cx.old.plan) cx.old.plan (names_of variables.now) (over axes.now coords.now) args.now) }
    ensures stays { IsFrame axes.now coords.now → IfOk result (λ d. Stays (names_of variables.now) (over axes.now coords.now) (frame_of d)) }
    ensures plan { cx.new.plan ≡ cx.old.plan }
    ensures keeps { (nodes : List Node) (n : ℕ) → C.declines cx.new.compute nodes n ≡ C.declines cx.old.compute nodes n }
{
    if args.plain.len() != 0 {
        return Err(CallFault::Refused(Fault::BadArgument));
    }
    let entries = args.keyed.as_slice();
    check_entries(axes.as_slice(), entries)?;
    check_places(alloc, axes.as_slice(), entries)?;
    let puts = put_entries(rt, alloc, cx, variables, axes.as_slice(), entries)?;
    let draft = Draft {
        axes: axes.deep_copy(alloc)?,
        coords: copy_coords(alloc, coords)?,
    };
    let draft = with_puts(alloc, draft, puts.as_slice())?;
    Ok(draft)
}

/// An array with these labels and coordinates. The cells of an array that becomes one are computed in its turn, and where
/// its node is declined that is the answer. The plan stays as it is.
///
/// # Errors
/// The first of: `BadArgument` for a plain argument; `WrongKind` and `BadArgument` for an entry that can't be what it has to
/// be; `NoDimension` for a list of a name that is no dimension, or an array with a dimension that isn't there;
/// `SizeConflict` and `NotAligned` for an entry that doesn't fit its place; `DoesNotFit` for a number that 64 bits don't hold.
#[tactic(auto, unfolding(crate::specs::Entries::array_assigned))]
pub fn assign_to_array<R: Threads + Sync, C: Compute>(
    rt: &R,
    alloc: Global,
    cx: &mut Cx<C>,
    on: &DataArray,
    args: &Args,
) -> Result<DataArray, CallFault>
    requires sync { IsSync R.row }
    requires inside { IsArrayIn cx.old.plan on.now }
    requires given { AreArgsIn cx.old.plan args.now }
    ensures told { FollowsArray cx.old.plan result (array_assigned (C.declines cx.old.compute cx.old.plan) cx.old.plan on.now args.now) }
    ensures undeclined { ((n : ℕ) → C.declines cx.old.compute cx.old.plan n ≡ false) → AnswersArray cx.old.plan result (assigned_to_array (array_in cx.old.plan on.now) (given cx.old.plan args.now)) }
    ensures plan { cx.new.plan ≡ cx.old.plan }
    ensures keeps { (nodes : List Node) (n : ℕ) → C.declines cx.new.compute nodes n ≡ C.declines cx.old.compute nodes n }
{
    let draft = assigned(rt, alloc, cx, &[], &on.axes, on.coords.as_slice(), args)?;
    let mut array = on.deep_copy(alloc)?;
    array.axes = draft.axes;
    array.coords = draft.coords;
    Ok(array)
}
