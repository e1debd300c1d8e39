//! Methods of arrays in bins of times.
ghost use Rattle.std.specs.Prelude.{◌≡◌, ◌∷◌, List, IfOk};
ghost use Rattle.std.specs.List.{AllByRecursion};
ghost use Rattle.xr_arrays.specs.declared.node.Node.{Node};
ghost use Rattle.xr_defs.specs.WellFormed.{IsDimension};
ghost use Rattle.xr_formulas.specs.Mades.{AnswersMade};
ghost use Rattle.xr_formulas.specs.declared.chain.Start.TheVariants as starts;
ghost use Rattle.xr_formulas.specs.declared.chain.Step.TheVariants as step;
ghost use Rattle.xr_groups.specs.Listed as lists;
ghost use Rattle.xr_groups.specs.Methods as methods;
ghost use Rattle.xr_groups.specs.declared.change.Least.TheVariants.{Empty};
ghost use Rattle.xr_types.specs.Names.{axis_names};
ghost use Rattle.xr_values.specs.Meaning.{given};
ghost use Rattle.xr_values.specs.Stands.{array_in, IsArrayIn};
ghost use Rattle.xr_grouping.specs.Fills.{filling};
ghost use Rattle.xr_grouping.specs.Mades.{binned_of, lists_chain};

use crate::arrays::{check_axes, folded_with, masked_after};
use crate::asked::{check_method, folded_kind};
use crate::checked::binned_changes;
use crate::fills::{check_filled, check_given, fill_given, push_fills};
use crate::listed::{axes_by, feeds_by};
use std::alloc::{AllocError, Global};
use xr_formulas::{Chain, Made, Start, Step, one_step};
use xr_groups::Change;
use xr_times::Freq;
use xr_types::{CallFault, FoldKind, Items, TextBytes};
use xr_values::{Args, DataArray};

// The folds of lists, and a fill where one is empty.
fn filled_chain(
    alloc: Global,
    fold: FoldKind,
    changes: &[Change],
    on: &DataArray,
    fill: Option<i128>,
) -> Result<Chain, AllocError>
    ensures { IfOk result (λ c. c ≡ record { start = starts.Node on.now.node; steps = step.Fold fold (lists.feeds_by changes.now (axis_names on.now.axes)) ∷ filling changes.now (axis_names on.now.axes) fill }) }
{
    let own = on.axes.as_slice();
    let mut steps = Items::new(alloc);
    steps.push(Step::Fold(fold, feeds_by(alloc, changes, own)?))?;
    push_fills(alloc, &mut steps, changes, own, fill)?;
    Ok(Chain {
        start: Start::Node(on.node),
        steps,
    })
}

pub fn folded_chain(
    alloc: Global,
    fold: FoldKind,
    changes: &[Change],
    on: &DataArray,
    fill: Option<Option<i128>>,
) -> Result<Chain, AllocError>
    ensures { IfOk result (λ c. c ≡ lists_chain fold changes.now fill on.now) }
{
    match fill {
        None => {
            let feeds = feeds_by(alloc, changes, on.axes.as_slice())?;
            one_step(alloc, on.node, Step::Fold(fold, feeds))
        }
        Some(fill) => filled_chain(alloc, fold, changes, on, fill),
    }
}

// Whether bins may miss cells.
pub fn masked_by(fold: FoldKind, masked: bool, fill: Option<Option<i128>>) -> bool
    ensures { result ≡ methods.masked_by fold Empty masked fill }
{
    masked_after(fold, masked) || is_hidden(fill)
}

fn is_hidden(fill: Option<Option<i128>>) -> bool
    ensures { result ≡ methods.is_hidden fill }
{
    match fill {
        None => false,
        Some(None) => true,
        Some(Some(_)) => false,
    }
}

/// What a method makes of an array in bins.
#[tactic(auto, unfolding(crate::specs::Mades::binned_of))]
pub(crate) fn binned_made(
    alloc: Global,
    fold: FoldKind,
    dimension: &TextBytes,
    freq: Freq,
    on: &DataArray,
    args: &Args,
) -> Result<Made, CallFault>
    requires { AllByRecursion IsDimension on.now.axes }
    ensures { (nodes others : List Node) → IsArrayIn nodes on.now → AnswersMade nodes result (binned_of fold dimension.now freq (array_in nodes on.now) (given others args.now)) }
{
    check_method(fold)?;
    let kind = folded_kind(fold, on.kind);
    let fill = fill_given(alloc, kind, args)?;
    let own = on.axes.as_slice();
    let changes = binned_changes(alloc, dimension, freq, own)?;
    let changes = changes.as_slice();
    check_filled(changes, fill.is_some())?;
    check_given(kind, fill)?;
    let axes = axes_by(alloc, changes, own)?;
    check_axes(axes.as_slice())?;
    let chain = folded_chain(alloc, fold, changes, on, fill)?;
    let made = folded_with(
        alloc,
        fold,
        masked_by(fold, on.masked, fill),
        changes,
        on,
        axes,
        chain,
    )?;
    Ok(made)
}
