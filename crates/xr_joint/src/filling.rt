//! Whether a fill is one for the cells of several datasets that need it.
ghost use Rattle.std.specs.Prelude.{List, map, option_map};
ghost use Rattle.std.specs.List.{AllByRecursion};
ghost use Rattle.xr_types.specs.Results.{Answers, all_of};
ghost use Rattle.xr_arrays.specs.declared.node.Node.{Node};
ghost use Rattle.xr_combination.specs.Pieces as pieces;
ghost use Rattle.xr_values.specs.Meaning.{meaning};
ghost use Rattle.xr_values.specs.Stands.{dataset_in};
ghost use Rattle.xr_joint.specs.Fitting.{HasFrame};

use std::alloc::Global;
use xr_aligning::{Change, check_set, fits_of};
use xr_types::{Axis, CallFault};
use xr_values::{Dataset, Value};

#[tactic(auto, using(crate::proofs::Filled::is_change), unfolding(xr_combination::specs::Pieces::check_fill))]
fn check_fill(
    alloc: Global,
    axes: &[Axis],
    fill: Option<&Value>,
    set: &Dataset,
) -> Result<(), CallFault>
    requires { HasFrame set.now }
    ensures { (nodes others : List Node) → Answers (λ u. u) result (pieces.check_fill axes.now (option_map (λ v. meaning nodes v.now) fill.entry) (dataset_in others set.now)) }
{
    let own = set.axes.as_slice();
    let fits = fits_of(alloc, axes, own)?;
    let change = Change {
        joined: axes,
        own,
        fits: fits.as_slice(),
        fill: None,
    };
    check_set(alloc, &change, fill, set)
}

/// Refuses a fill that isn't one for the cells that have a position without a source, dataset by dataset.
///
/// # Errors
/// `WrongKind`, then `DoesNotFit`.
pub fn check_fills(
    alloc: Global,
    axes: &[Axis],
    fill: Option<&Value>,
    sets: &[Dataset],
) -> Result<(), CallFault>
    requires { AllByRecursion HasFrame sets.now }
    ensures { (nodes others : List Node) → Answers (λ u. u) result (all_of (pieces.check_fill axes.now (option_map (λ v. meaning nodes v.now) fill.entry)) (map (dataset_in others) sets.now)) }
{
    for set in sets {
        check_fill(alloc, axes, fill, set)?;
    }
    Ok(())
}
