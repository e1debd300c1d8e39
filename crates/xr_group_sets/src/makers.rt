//! `groupby`, `resample`, `rolling` and `coarsen` of datasets: how their positions are grouped.
ghost use Rattle.std.specs.Prelude.{List};
ghost use Rattle.xr_arrays.specs.declared.node.Node.{Node};
ghost use Rattle.xr_groups.specs.Calls as calls;
ghost use Rattle.xr_parts.specs.Frames.{IsFrame};
ghost use Rattle.xr_types.specs.Results.{Answers};
ghost use Rattle.xr_values.specs.Meaning.{given};
ghost use Rattle.xr_values.specs.Stands.{dataset_in, IsDatasetIn};
ghost use Rattle.xr_values.specs.Variables as named;

use crate::asked::names_of;
use std::alloc::Global;
use xr_defs::Grouping;
use xr_grouping::{grouped_changes, grouping_given};
use xr_groups::Maker;
use xr_reducing::{Frame, without_chars};
use xr_types::CallFault;
use xr_values::{Args, Dataset};

// How the variables of other kinds than chars are grouped.
#[tactic(auto, unfolding(xr_groups::specs::Calls::grouping_over))]
fn frame_grouping(
    alloc: Global,
    maker: Maker,
    on: &Dataset,
    frame: &Frame,
    args: &Args,
) -> Result<Grouping, CallFault>
    requires { IsFrame frame.now.axes on.now.coords }
    ensures { (nodes : List Node) → Answers (λ g. g) result (calls.grouping_over maker frame.now.axes on.now.coords (named.names_of frame.now.vars) (given nodes args.now)) }
{
    let grouping = grouping_given(alloc, maker, args)?;
    let names = names_of(alloc, frame.vars.as_slice())?;
    let own = frame.axes.as_slice();
    let coords = on.coords.as_slice();
    let _changes = grouped_changes(alloc, &grouping, own, coords, names.as_slice())?;
    Ok(grouping)
}

/// How a call groups the positions of a dataset, without its variables of chars.
///
/// # Errors
/// Those of the call of an array, but for chars; and `DuplicateName` where a data variable has the name of the groups.
pub fn set_grouping(
    alloc: Global,
    maker: Maker,
    on: &Dataset,
    args: &Args,
) -> Result<Grouping, CallFault>
    requires { (nodes : List Node) × IsDatasetIn nodes on.now }
    ensures { (nodes others : List Node) → IsDatasetIn nodes on.now → Answers (λ g. g) result (calls.set_grouping maker (dataset_in nodes on.now) (given others args.now)) }
{
    let frame = without_chars(alloc, on)?;
    frame_grouping(alloc, maker, on, &frame, args)
}
