//! Groups of datasets that have the same variables, each put together.
ghost use Rattle.std.specs.Prelude.{option_map};
ghost use denote.Param.Send.{IsSync};
ghost use Rattle.plan_core.specs.Plans.{Grows};
ghost use Rattle.xr_combination.specs.Combine as calls;
ghost use Rattle.xr_combination.specs.Pieces.{each_of};
ghost use Rattle.xr_merging.specs.Each.{behind};
ghost use Rattle.xr_values.specs.Meaning.{meaning};
ghost use Rattle.xr_combine.specs.Sets.{sets_in, AnswersBehind, AnswersSeveral, AnswersShared, AreSetsIn, IsFixed};
ghost use Rattle.xr_combine.specs.Steps as steps;

use crate::lines::grid_concatenated;
use crate::picked::picked;
use crate::sets::borrowed;
use plan_core::Plan;
use std::alloc::Global;
use std::rc::Rc;
use std::thread::Threads;
use xr_combination::Grid;
use xr_tiling::{check_directions, grid_of};
use xr_types::{CallFault, How, Items};
use xr_values::{Dataset, Value};

// ---- one group

fn grid_combined<R: Threads + Sync>(
    rt: &R,
    alloc: Global,
    plan: &mut Plan,
    how: How,
    fill: Option<&Value>,
    sets: &[Rc<Dataset>],
    grid: &Grid,
) -> Result<Rc<Dataset>, CallFault>
    requires sync { IsSync R.row }
    requires fixed { IsFixed fill }
    requires inside { AreSetsIn plan.old sets.now }
    ensures answers { AnswersShared plan.new result (steps.grid_combined how (option_map (λ v. meaning plan.old v.now) fill.entry) (sets_in plan.old sets.now) grid.now) }
    ensures grows { Grows plan.old plan.new }
{
    let tiles = picked(alloc, sets, grid.order.as_slice())?;
    let set = grid_concatenated(
        rt,
        alloc,
        plan,
        how,
        fill,
        grid.dims.as_slice(),
        grid.shape.as_slice(),
        tiles.as_slice(),
    )?;
    check_directions(&set, grid)?;
    Ok(set)
}

fn several_combined<R: Threads + Sync>(
    rt: &R,
    alloc: Global,
    plan: &mut Plan,
    how: How,
    fill: Option<&Value>,
    sets: &[Rc<Dataset>],
) -> Result<Rc<Dataset>, CallFault>
    requires sync { IsSync R.row }
    requires fixed { IsFixed fill }
    requires inside { AreSetsIn plan.old sets.now }
    ensures answers { AnswersShared plan.new result (steps.several_combined how (option_map (λ v. meaning plan.old v.now) fill.entry) (sets_in plan.old sets.now)) }
    ensures grows { Grows plan.old plan.new }
{
    let tiles = borrowed(alloc, sets)?;
    let grid = grid_of(alloc, tiles.as_slice())?;
    grid_combined(rt, alloc, plan, how, fill, sets, &grid)
}

// One alone stays as it is.
fn group_combined<R: Threads + Sync>(
    rt: &R,
    alloc: Global,
    plan: &mut Plan,
    how: How,
    fill: Option<&Value>,
    sets: &[Rc<Dataset>],
) -> Result<Rc<Dataset>, CallFault>
    requires sync { IsSync R.row }
    requires fixed { IsFixed fill }
    requires inside { AreSetsIn plan.old sets.now }
    ensures answers { AnswersShared plan.new result (calls.group_combined how (option_map (λ v. meaning plan.old v.now) fill.entry) (sets_in plan.old sets.now)) }
    ensures grows { Grows plan.old plan.new }
{
    match sets {
        // (a group has a member)
        [] => Err(CallFault::NoMemory),
        [set] => Ok(set.clone()?),
        [_, _, ..] => several_combined(rt, alloc, plan, how, fill, sets),
    }
}

// ---- all groups

fn members_combined<R: Threads + Sync>(
    rt: &R,
    alloc: Global,
    plan: &mut Plan,
    how: How,
    fill: Option<&Value>,
    sets: &[Rc<Dataset>],
    positions: &[u64],
) -> Result<Rc<Dataset>, CallFault>
    requires sync { IsSync R.row }
    requires fixed { IsFixed fill }
    requires inside { AreSetsIn plan.old sets.now }
    ensures answers { AnswersShared plan.new result (steps.members_combined how (option_map (λ v. meaning plan.old v.now) fill.entry) (sets_in plan.old sets.now) positions.now) }
    ensures grows { Grows plan.old plan.new }
{
    let members = picked(alloc, sets, positions)?;
    group_combined(rt, alloc, plan, how, fill, members.as_slice())
}

fn push_groups<R: Threads + Sync>(
    rt: &R,
    alloc: Global,
    plan: &mut Plan,
    out: &mut Items<Rc<Dataset>>,
    how: How,
    fill: Option<&Value>,
    sets: &[Rc<Dataset>],
    groups: &[Items<u64>],
) -> Result<(), CallFault>
    requires sync { IsSync R.row }
    requires fixed { IsFixed fill }
    requires inside { AreSetsIn plan.old sets.now }
    requires before { AreSetsIn plan.old out.old }
    ensures answers { AnswersBehind plan.new result out.new (behind (sets_in plan.old out.old) (each_of (steps.members_combined how (option_map (λ v. meaning plan.old v.now) fill.entry) (sets_in plan.old sets.now)) groups.now)) }
    ensures grows { Grows plan.old plan.new }
{
    match groups {
        [] => Ok(()),
        [group, rest @ ..] => {
            let set = members_combined(rt, alloc, plan, how, fill, sets, group.as_slice())?;
            out.push(set)?;
            push_groups(rt, alloc, plan, out, how, fill, sets, rest)
        }
    }
}

/// The groups of these members, each put together.
pub(crate) fn groups_combined<R: Threads + Sync>(
    rt: &R,
    alloc: Global,
    plan: &mut Plan,
    how: How,
    fill: Option<&Value>,
    sets: &[Rc<Dataset>],
    groups: &[Items<u64>],
) -> Result<Items<Rc<Dataset>>, CallFault>
    requires sync { IsSync R.row }
    requires fixed { IsFixed fill }
    requires inside { AreSetsIn plan.old sets.now }
    ensures answers { AnswersSeveral plan.new result (each_of (steps.members_combined how (option_map (λ v. meaning plan.old v.now) fill.entry) (sets_in plan.old sets.now)) groups.now) }
    ensures grows { Grows plan.old plan.new }
{
    let mut out = Items::new(alloc);
    push_groups(rt, alloc, plan, &mut out, how, fill, sets, groups)?;
    Ok(out)
}
