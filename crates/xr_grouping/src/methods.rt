//! Methods of arrays in groups, bins, windows and blocks.
ghost use Rattle.std.specs.Prelude.{◌≡◌, List, IfOk};
ghost use Rattle.xr_arrays.specs.declared.node.Node.{Node};
ghost use Rattle.xr_defs.specs.Room.{AddsForAny};
ghost use Rattle.xr_defs.specs.declared.grouping.Grouping.TheVariants.{Bins};
ghost use Rattle.plan_core.specs.Plans.{Grows};
ghost use Rattle.xr_groups.specs.Methods as calls;
ghost use Rattle.xr_groups.specs.declared.change.Least.TheVariants.{Never};
ghost use Rattle.xr_values.specs.Answers.{AnswersArray};
ghost use Rattle.xr_values.specs.Meaning.{given};
ghost use Rattle.xr_values.specs.Stands.{array_in, IsArrayIn};

use crate::arrays::plain_made;
use crate::bins::binned_made;
use crate::windows::windowed_array;
use plan_core::Plan;
use std::alloc::Global;
use xr_defs::Grouping;
use xr_formulas::realize;
use xr_times::Freq;
use xr_types::{CallFault, FoldKind, TextBytes};
use xr_values::{Args, DataArray};

/// A method of an array in groups or blocks: each gives the fold of its present cells. The array keeps its name and its attributes but
/// for those that name fill numbers. The dimensions become those of the groups or blocks, and coordinates along them are dropped.
#[tactic(auto, using(crate::proofs::Grouped::plain_is, crate::proofs::Grouped::framed))]
fn plain_array(
    alloc: Global,
    plan: &mut Plan,
    fold: FoldKind,
    grouping: &Grouping,
    on: &DataArray,
    args: &Args,
) -> Result<DataArray, CallFault>
    requires plain { calls.least_of grouping.now ≡ Never }
    requires is { IsArrayIn plan.old on.now }
    ensures answers { (nodes : List Node) → AnswersArray plan.new result (calls.grouped_array fold grouping.now (array_in plan.old on.now) (given nodes args.now)) }
    ensures grows { Grows plan.old plan.new }
    ensures room { IfOk result (λ b. AddsForAny plan.old plan.new (array_in plan.new b)) }
{
    let made = plain_made(alloc, fold, grouping, on, args)?;
    Ok(realize(alloc, plan, made)?)
}

/// A method of an array in bins of the times of a dimension: each bin gives the fold of its present cells, and an empty one the
/// `fill_value`. The array keeps its name and its attributes but for those that name fill numbers. The labels of the dimension become
/// the starts of the bins, and coordinates along it are dropped.
#[tactic(auto, using(crate::proofs::Grouped::binned_is))]
fn binned_array(
    alloc: Global,
    plan: &mut Plan,
    fold: FoldKind,
    dimension: &TextBytes,
    freq: Freq,
    on: &DataArray,
    args: &Args,
) -> Result<DataArray, CallFault>
    requires { IsArrayIn plan.old on.now }
    ensures answers { (nodes : List Node) → AnswersArray plan.new result (calls.grouped_array fold (Bins dimension.now freq) (array_in plan.old on.now) (given nodes args.now)) }
    ensures grows { Grows plan.old plan.new }
    ensures room { IfOk result (λ b. AddsForAny plan.old plan.new (array_in plan.new b)) }
{
    let made = binned_made(alloc, fold, dimension, freq, on, args)?;
    Ok(realize(alloc, plan, made)?)
}

/// A method of a grouped array.
///
/// # Errors
/// `BadArgument` for a method that the grouping doesn't have, and for arguments that don't fit; `WrongKind` for a fill that is neither
/// `NA` nor a literal of the result's kind; what refuses the grouping; `WouldPromote` where a fill is needed and none is given;
/// `DoesNotFit`; `TooLarge`.
pub fn grouped_array(
    alloc: Global,
    plan: &mut Plan,
    fold: FoldKind,
    grouping: &Grouping,
    on: &DataArray,
    args: &Args,
) -> Result<DataArray, CallFault>
    requires { IsArrayIn plan.old on.now }
    ensures answers { (nodes : List Node) → AnswersArray plan.new result (calls.grouped_array fold grouping.now (array_in plan.old on.now) (given nodes args.now)) }
    ensures grows { Grows plan.old plan.new }
    ensures room { IfOk result (λ b. AddsForAny plan.old plan.new (array_in plan.new b)) }
{
    match grouping {
        Grouping::Dates(_, _) | Grouping::Coordinate(_) | Grouping::Blocks { .. } => {
            plain_array(alloc, plan, fold, grouping, on, args)
        }
        Grouping::Bins(dimension, freq) => {
            binned_array(alloc, plan, fold, dimension, *freq, on, args)
        }
        Grouping::Windows {
            dimension,
            width,
            center,
            least,
        } => windowed_array(
            alloc, plan, fold, dimension, *width, *center, *least, on, args,
        ),
    }
}
