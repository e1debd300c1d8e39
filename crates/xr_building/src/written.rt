//! `DataArray`: arrays that are written out, with their coordinates.
ghost use Rattle.std.specs.Prelude.{◌≡◌, false, ℕ, List, IfOk};
ghost use denote.Param.Send.{IsSync};
ghost use Rattle.xr_arrays.specs.declared.node.Node.{Node};
ghost use Rattle.xr_defs.specs.Room.{AddsForAny};
ghost use Rattle.xr_defs.specs.Building.{data_array};
ghost use Rattle.plan_core.specs.Plans.{Grows};
ghost use Rattle.xr_values.specs.Answers.{AnswersArray};
ghost use Rattle.xr_values.specs.Meaning.{given, AreArgsIn};
ghost use Rattle.xr_values.specs.Stands.{array_in};
ghost use Rattle.xr_building.specs.Entries.{FollowsArray};
ghost use Rattle.xr_building.specs.Written.{array_written};

use crate::cells::all_fit;
use crate::draft::{Draft, with_puts};
use crate::placed::place;
use crate::plain::written_given;
use crate::put::put_entries;
use plan_core::Compute;
use std::alloc::Global;
use std::thread::Threads;
use xr_types::{CallFault, Fault, Items};
use xr_values::{Args, Cx, DataArray};

#[tactic(auto, unfolding(crate::specs::Written::array_written, crate::specs::Written::check_fit, xr_types::specs::Results::unless))]
fn written_out<R: Threads + Sync, C: Compute>(
    rt: &R,
    alloc: Global,
    cx: &mut Cx<C>,
    args: &Args,
) -> Result<DataArray, CallFault>
    requires sync { IsSync R.row }
    requires given { AreArgsIn cx.old.plan args.now }
    ensures told { FollowsArray cx.new.plan result (array_written (C.declines cx.old.compute cx.old.plan) cx.old.plan args.now) }
    ensures grows { Grows cx.old.plan cx.new.plan }
    ensures room { IfOk result (λ b. AddsForAny cx.old.plan cx.new.plan (array_in cx.new.plan b)) }
    ensures keeps { (nodes : List Node) (n : ℕ) → C.declines cx.new.compute nodes n ≡ C.declines cx.old.compute nodes n }
{
    let written = written_given(alloc, args)?;
    let puts = put_entries(rt, alloc, cx, &[], written.axes.as_slice(), written.entries)?;
    if !all_fit(written.header.kind, written.cells.as_slice()) {
        return Err(CallFault::Refused(Fault::DoesNotFit));
    }
    let draft = Draft {
        axes: written.axes,
        coords: Items::new(alloc),
    };
    let draft = with_puts(alloc, draft, puts.as_slice())?;
    place(
        alloc,
        &mut cx.plan,
        written.header,
        draft,
        written.cells.as_slice(),
    )
}

/// `DataArray(data, dims, coords, name, dtype)`: the array of a nested list, as deep as there are dimensions, with the labels and
/// coordinates of a table. The cells of an array that becomes one are computed in its turn, and where its node is declined that is
/// the answer.
///
/// # Errors
/// The first of: `BadArgument` for arguments that don't fit the parameters, or without `data` or `dims`; `WrongKind` for an element that
/// is no number or truth value, or both kinds together; `WrongKind` and `BadArgument` of the dimensions; `BadArgument` for lists that
/// are nested too deep or not deep enough; those of the entries, of the name and of the kind; `WrongKind` for elements of another
/// kind; `NoDimension` for an entry whose dimension isn't there; `SizeConflict` for lists of one depth that aren't as long;
/// `SizeConflict` and `NotAligned` for an entry that doesn't fit its place; `DoesNotFit` for an element that is none of the kind, and
/// then for an entry's number that 64 bits don't hold; then `TooLarge`.
#[tactic(auto, using(crate::proofs::Undeclined::written_answers))]
pub fn array_written_out<R: Threads + Sync, C: Compute>(
    rt: &R,
    alloc: Global,
    cx: &mut Cx<C>,
    args: &Args,
) -> Result<DataArray, CallFault>
    requires sync { IsSync R.row }
    requires given { AreArgsIn cx.old.plan args.now }
    ensures told { FollowsArray cx.new.plan result (array_written (C.declines cx.old.compute cx.old.plan) cx.old.plan args.now) }
    ensures undeclined { ((n : ℕ) → C.declines cx.old.compute cx.old.plan n ≡ false) → AnswersArray cx.new.plan result (data_array (given cx.old.plan args.now)) }
    ensures grows { Grows cx.old.plan cx.new.plan }
    ensures room { IfOk result (λ b. AddsForAny cx.old.plan cx.new.plan (array_in cx.new.plan b)) }
    ensures keeps { (nodes : List Node) (n : ℕ) → C.declines cx.new.compute nodes n ≡ C.declines cx.old.compute nodes n }
{
    written_out(rt, alloc, cx, args)
}
