//! `assign_coords(name=value)` of datasets.
ghost use Rattle.std.specs.Prelude.{◌≡◌, ◌+◌, false, ℕ, List, filter, length, nat_le, IfOk};
ghost use denote.Param.Send.{IsSync};
ghost use Rattle.xr_types.specs.declared.fault.Fault.TheVariants.{TooLarge};
ghost use Rattle.xr_arrays.specs.declared.node.Node.{Node};
ghost use Rattle.xr_defs.specs.Building.{assigned_to_set};
ghost use Rattle.xr_defs.specs.Limits.{most_variables};
ghost use Rattle.xr_types.specs.Results.{unless, Answers};
ghost use Rattle.xr_values.specs.Answers.{AnswersSet};
ghost use Rattle.xr_values.specs.Meaning.{given, AreArgsIn};
ghost use Rattle.xr_values.specs.Stands.{dataset_in, IsDatasetIn};
ghost use Rattle.xr_parts.specs.Kept.{is_held};
ghost use Rattle.xr_building.specs.Entries.{set_assigned, FollowsSet};

use crate::assigned::assigned;
use crate::draft::Draft;
use plan_core::Compute;
use std::alloc::Global;
use std::thread::Threads;
use xr_parts::axes_kept;
use xr_types::{Axis, CallFault, DeepCopy, Fault, Items, MOST_VARIABLES};
use xr_values::{Args, Cx, Dataset};

// The axes without the bare ones that no coordinate has, and no variable of the dataset, which may not have more coordinates and variables
// together than there may be.
#[tactic(auto, unfolding(xr_types::specs::Results::unless))]
fn busy_axes(alloc: Global, draft: &Draft, set: &Dataset) -> Result<Items<Axis>, CallFault>
    ensures few { Answers (λ xs. tt) result (unless (nat_le (length draft.now.coords + length set.now.vars) most_variables) TooLarge) }
    ensures axes { IfOk result (λ xs. xs ≡ filter (is_held draft.now.coords set.now.vars) draft.now.axes) }
{
    let coords = draft.coords.as_slice();
    let variables = set.vars.as_slice();
    if coords.len().saturating_add(variables.len()) > MOST_VARIABLES {
        return Err(CallFault::Refused(Fault::TooLarge));
    }
    let axes = axes_kept(alloc, coords, variables, draft.axes.as_slice())?;
    Ok(axes)
}

/// A dataset with these labels and coordinates, as an array has them. A coordinate that is replaced may have been the last along a bare
/// axis, which is gone then.
///
/// # Errors
/// Those of an array; `DuplicateName` in its turn for the name of a data variable; `TooLarge` at last for more coordinates
/// and data variables together than a dataset may have.
pub fn assign_to_set<R: Threads + Sync, C: Compute>(
    rt: &R,
    alloc: Global,
    cx: &mut Cx<C>,
    on: &Dataset,
    args: &Args,
) -> Result<Dataset, CallFault>
    requires sync { IsSync R.row }
    requires inside { IsDatasetIn cx.old.plan on.now }
    requires given { AreArgsIn cx.old.plan args.now }
    ensures told { FollowsSet cx.old.plan result (set_assigned (C.declines cx.old.compute cx.old.plan) cx.old.plan on.now args.now) }
    ensures undeclined { ((n : ℕ) → C.declines cx.old.compute cx.old.plan n ≡ false) → AnswersSet cx.old.plan result (assigned_to_set (dataset_in cx.old.plan on.now) (given cx.old.plan args.now)) }
    ensures plan { cx.new.plan ≡ cx.old.plan }
    ensures keeps { (nodes : List Node) (n : ℕ) → C.declines cx.new.compute nodes n ≡ C.declines cx.old.compute nodes n }
{
    let draft = assigned(
        rt,
        alloc,
        cx,
        on.vars.as_slice(),
        &on.axes,
        on.coords.as_slice(),
        args,
    )?;
    let axes = busy_axes(alloc, &draft, on)?;
    let mut set = on.deep_copy(alloc)?;
    set.axes = axes;
    set.coords = draft.coords;
    Ok(set)
}
