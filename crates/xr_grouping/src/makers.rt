//! `groupby`, `resample`, `rolling` and `coarsen` of arrays: how their positions are grouped.
ghost use Rattle.std.specs.Prelude.{List, not};
ghost use Rattle.xr_arrays.specs.declared.node.Node.{Node};
ghost use Rattle.xr_groups.specs.Calls as calls;
ghost use Rattle.xr_parts.specs.Frames.{IsFrame};
ghost use Rattle.xr_defs.specs.Building.{is_chars};
ghost use Rattle.xr_types.specs.Results.{Answers, unless};
ghost use Rattle.xr_types.specs.declared.fault.Fault.TheVariants.{WrongKind};
ghost use Rattle.xr_values.specs.Meaning.{given};
ghost use Rattle.xr_values.specs.Stands.{array_in};

use crate::checked::grouped_changes;
use crate::coarsens::coarsen_given;
use crate::fields::groupby_given;
use crate::freqs::resample_given;
use crate::rolls::rolling_given;
use std::alloc::Global;
use xr_defs::Grouping;
use xr_formulas::is_chars;
use xr_groups::Maker;
use xr_types::{CallFault, Fault};
use xr_values::{Args, DataArray};

// Refuses an array of chars.
#[tactic(auto, unfolding(xr_types::specs::Results::unless))]
fn check_kind(on: &DataArray) -> Result<(), CallFault>
    ensures { Answers (λ u. u) result (unless (not (is_chars on.now.kind)) WrongKind) }
{
    if is_chars(on.kind) {
        Err(CallFault::Refused(Fault::WrongKind))
    } else {
        Ok(())
    }
}

/// How a call that groups does so, by its arguments alone: what it groups may yet refuse that.
///
/// # Errors
/// `BadArgument` for arguments that don't fit, and `WrongKind` for one of another kind.
#[tactic(auto, unfolding(xr_groups::specs::Calls::grouping_given))]
pub fn grouping_given(alloc: Global, maker: Maker, args: &Args) -> Result<Grouping, CallFault>
    ensures { (nodes : List Node) → Answers (λ g. g) result (calls.grouping_given maker (given nodes args.now)) }
{
    match maker {
        Maker::GroupBy => groupby_given(alloc, args),
        Maker::Resample => {
            let (dimension, freq) = resample_given(alloc, args)?;
            Ok(Grouping::Bins(dimension, freq))
        }
        Maker::Rolling => {
            let asked = rolling_given(alloc, args)?;
            Ok(Grouping::Windows {
                dimension: asked.dimension,
                width: asked.width,
                center: asked.center,
                least: asked.least,
            })
        }
        Maker::Coarsen => {
            let asked = coarsen_given(alloc, args)?;
            Ok(Grouping::Blocks {
                sizes: asked.sizes,
                trim: asked.trim,
                labels: asked.labels,
            })
        }
    }
}

/// How a call groups the positions of an array.
///
/// # Errors
/// `WrongKind` for an array of chars. Then `BadArgument` for arguments that don't fit, and `WrongKind` for one of another kind. Then
/// what refuses the grouping: `NoDimension`, `NoVariable`, `NotTime`, `BadArgument`, `WrongKind`, `NotMonotonic`, `TooLarge`,
/// `NotMultiple`, `WouldPromote`, `LabelKind`, `DuplicateName`.
#[tactic(auto, unfolding(xr_groups::specs::Calls::array_grouping, xr_groups::specs::Calls::grouping_over))]
pub fn array_grouping(
    alloc: Global,
    maker: Maker,
    on: &DataArray,
    args: &Args,
) -> Result<Grouping, CallFault>
    requires { IsFrame on.now.axes on.now.coords }
    ensures { (nodes others : List Node) → Answers (λ g. g) result (calls.array_grouping maker (array_in nodes on.now) (given others args.now)) }
{
    check_kind(on)?;
    let grouping = grouping_given(alloc, maker, args)?;
    let axes = on.axes.as_slice();
    grouped_changes(alloc, &grouping, axes, on.coords.as_slice(), &[])?;
    Ok(grouping)
}
