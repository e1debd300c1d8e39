//! Methods of datasets in groups, bins, windows or blocks.
ghost use Rattle.std.specs.Prelude.{◌≡◌, ◌∷◌, [], List, IfOk};
ghost use Rattle.xr_arrays.specs.declared.node.Node.{Node};
ghost use Rattle.xr_arrays.specs.Added.{AddsAtMost};
ghost use Rattle.xr_defs.specs.Room.{of_set, room};
ghost use Rattle.plan_core.specs.Plans.{Grows};
ghost use Rattle.xr_groups.specs.Methods as calls;
ghost use Rattle.xr_values.specs.Answers.{AnswersSet};
ghost use Rattle.xr_values.specs.Meaning.{given};
ghost use Rattle.xr_values.specs.Stands.{dataset_in, IsDatasetIn};
ghost use Rattle.xr_reducing.specs.Reduced.{framed_in, IsFrameIn};
ghost use Rattle.xr_reducing.specs.Sets.{AddsForAnySet, IsSetOf};
ghost use Rattle.xr_group_sets.specs.Asked.{filled_of, IsFrameGrouped};
ghost use Rattle.xr_group_sets.specs.Listing.{set_filled, IsSetListing};

use crate::asked::{cell_given, check_kinds, check_literal, check_points, check_ranges, names_of};
use crate::busy::{busy_axes, by_name};
use crate::groupings::{check_filled, check_method, coords_by, fill_given, keeps_coords, least_of};
use crate::variables::variables_listed;
use plan_core::Plan;
use std::alloc::Global;
use xr_defs::Grouping;
use xr_grouping::{axes_by, grouped_changes};
use xr_groups::{Change, Least};
use xr_reducing::{Frame, without_chars};
use xr_types::{CallFault, DeepCopy, FoldKind, NoMemory};
use xr_values::{Args, Dataset, without_fills};

// The dataset of the plan whose checks have passed.
fn placed(
    alloc: Global,
    plan: &mut Plan,
    fold: FoldKind,
    least: Least,
    keeps: bool,
    changes: &[Change],
    fill: Option<Option<i128>>,
    on: &Dataset,
    frame: &Frame,
) -> Result<Dataset, NoMemory>
    requires { IsSetListing plan.old fold least keeps changes.now fill on.now frame.now }
    ensures set { IfOk result (IsSetOf plan.new (set_filled fold least keeps changes.now fill (framed_in plan.old on.now frame.now))) }
    ensures grows { Grows plan.old plan.new }
    ensures room { IfOk result (λ t. AddsForAnySet plan.old plan.new (dataset_in plan.new t)) }
{
    let own = frame.axes.as_slice();
    let all = axes_by(alloc, changes, own)?;
    let coords = coords_by(alloc, keeps, changes, on.coords.as_slice())?;
    let attrs = without_fills(alloc, on.attrs.as_slice())?;
    let skipped = on.skipped.deep_copy(alloc)?;
    let old = frame.vars.as_slice();
    let listed = variables_listed(alloc, plan, fold, least, changes, fill, own, old)?;
    let listed = listed.as_slice();
    let axes = busy_axes(alloc, coords.as_slice(), listed, all.as_slice())?;
    let vars = by_name(alloc, listed)?;
    Ok(Dataset {
        axes,
        coords,
        vars,
        attrs,
        skipped,
    })
}

// What is made once the fill is one of the kind of each variable that is grouped.
#[tactic(auto, unfolding(crate::specs::Asked::filled_of))]
fn filled(
    alloc: Global,
    plan: &mut Plan,
    fold: FoldKind,
    grouping: &Grouping,
    changes: &[Change],
    fill: Option<Option<i128>>,
    on: &Dataset,
    frame: &Frame,
) -> Result<Dataset, CallFault>
    requires { IsFrameGrouped plan.old fold grouping.now changes.now on.now frame.now }
    ensures answers { AnswersSet plan.new result (filled_of fold grouping.now changes.now fill (framed_in plan.old on.now frame.now)) }
    ensures grows { Grows plan.old plan.new }
    ensures room { IfOk result (λ t. AddsForAnySet plan.old plan.new (dataset_in plan.new t)) }
{
    let least = least_of(grouping);
    let own = frame.axes.as_slice();
    let vars = frame.vars.as_slice();
    check_filled(least, changes, fill.is_some())?;
    check_ranges(fold, changes, fill, vars)?;
    let axes = axes_by(alloc, changes, own)?;
    check_points(changes, own, axes.as_slice(), vars)?;
    let keeps = keeps_coords(grouping);
    let set = placed(alloc, plan, fold, least, keeps, changes, fill, on, frame)?;
    Ok(set)
}

// What is made of the variables of other kinds than chars.
#[tactic(auto, using(crate::proofs::Told::names_in), unfolding(xr_groups::specs::Methods::grouped_of))]
fn frame_grouped(
    alloc: Global,
    plan: &mut Plan,
    fold: FoldKind,
    grouping: &Grouping,
    on: &Dataset,
    frame: &Frame,
    args: &Args,
) -> Result<Dataset, CallFault>
    requires frame { IsFrameIn plan.old on.now frame.now }
    ensures answers { (nodes : List Node) → AnswersSet plan.new result (calls.grouped_of fold grouping.now (framed_in plan.old on.now frame.now) (given nodes args.now)) }
    ensures grows { Grows plan.old plan.new }
    ensures room { IfOk result (λ t. AddsForAnySet plan.old plan.new (dataset_in plan.new t)) }
{
    check_method(grouping, fold)?;
    let fill = fill_given(alloc, least_of(grouping), args)?;
    check_literal(fill)?;
    let own = frame.axes.as_slice();
    let coords = on.coords.as_slice();
    let vars = frame.vars.as_slice();
    let names = names_of(alloc, vars)?;
    let others = names.as_slice();
    let changes = grouped_changes(alloc, grouping, own, coords, others)?;
    let changes = changes.as_slice();
    check_kinds(fold, changes, fill, vars)?;
    let cell = cell_given(fill);
    filled(alloc, plan, fold, grouping, changes, cell, on, frame)
}

/// A method of a dataset in groups, bins, windows or blocks, without its variables of chars: each other one gives for each list of
/// positions of the dimensions that it has the fold of the present cells there. A variable that has none of the dimensions stays as it
/// is. The grouped dimensions become those of the groups, bins, windows or blocks, in their places, coordinates along them are dropped
/// unless they are windows, and so are attributes of what is grouped that name fill numbers.
///
/// # Errors
/// `BadArgument` for a method that the grouping doesn't have, and for arguments that don't fit; `WrongKind` for a fill that is no
/// literal; what refuses the grouping; `WrongKind` for a fill that isn't one of the kind of a variable's result; `WouldPromote` where
/// a fill is needed and none is given; `DoesNotFit`; `TooLarge` past the limit of cells.
pub fn grouped_set(
    alloc: Global,
    plan: &mut Plan,
    fold: FoldKind,
    grouping: &Grouping,
    on: &Dataset,
    args: &Args,
) -> Result<Dataset, CallFault>
    requires is { IsDatasetIn plan.old on.now }
    ensures answers { (nodes : List Node) → AnswersSet plan.new result (calls.grouped_set fold grouping.now (dataset_in plan.old on.now) (given nodes args.now)) }
    ensures grows { Grows plan.old plan.new }
    ensures room { IfOk result (λ t. AddsAtMost plan.old plan.new (room (of_set (dataset_in plan.old on.now) ∷ of_set (dataset_in plan.new t) ∷ []))) }
{
    let frame = without_chars(alloc, on)?;
    frame_grouped(alloc, plan, fold, grouping, on, &frame, args)
}
