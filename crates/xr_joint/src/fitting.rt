//! Datasets over the joined axes of all.
ghost use Rattle.std.specs.Prelude.{◌≡◌, map, IfOk, OnOk};
ghost use Rattle.std.specs.List.{AllByRecursion};
ghost use Rattle.plan_core.specs.Plans.{Grows};
ghost use Rattle.xr_relations.specs.Aligning.{fitted_set};
ghost use Rattle.xr_values.specs.Stands.{dataset_in};
ghost use Rattle.xr_joint.specs.Fitting.{AreFittedSets, IsFittedSet, IsOpenIn};

use plan_core::Plan;
use std::alloc::Global;
use xr_aligning::{Change, axes_after, coords_after, fits_of, put_vars};
use xr_types::{Axis, DeepCopy, Items, NoMemory};
use xr_values::{Dataset, Variables};

// A dataset over joined axes, with a fill where a position has no source: a bare axis takes the labels of the joined one. Its cells
// are those of nodes that are added. Limits that it passes want memory.
#[tactic(auto, using(crate::proofs::SetsFitted::set_fitted_from))]
fn fitted(
    alloc: Global,
    plan: &mut Plan,
    joined: &[Axis],
    fill: Option<i128>,
    set: &Dataset,
) -> Result<Dataset, NoMemory>
    requires { IsOpenIn plan.old set.now }
    ensures fitted { IfOk result (IsFittedSet plan.old plan.new joined.now fill set.now) }
    ensures grows { Grows plan.old plan.new }
{
    let own = set.axes.as_slice();
    let fits = fits_of(alloc, joined, own)?;
    let change = Change {
        joined,
        own,
        fits: fits.as_slice(),
        fill,
    };
    let axes = axes_after(alloc, joined, own)?;
    let coords = coords_after(alloc, &change, set.coords.as_slice())?;
    let attrs = set.attrs.deep_copy(alloc)?;
    let skipped = set.skipped.deep_copy(alloc)?;
    let mut vars = Variables::new(alloc);
    put_vars(alloc, plan, &mut vars, &change, set.vars.as_slice())?;
    Ok(Dataset {
        axes,
        coords,
        vars,
        attrs,
        skipped,
    })
}

#[tactic(auto, using(plan_core::proofs::Plans::grows_by_none, plan_core::proofs::Plans::grows_on))]
fn push_fitted(
    alloc: Global,
    plan: &mut Plan,
    out: &mut Items<Dataset>,
    joined: &[Axis],
    fill: Option<i128>,
    sets: &[Dataset],
) -> Result<(), NoMemory>
    requires { AllByRecursion (IsOpenIn plan.old) sets.now }
    ensures fitted { OnOk result (AreFittedSets plan.old plan.new joined.now fill sets.now out.old out.new) }
    ensures grows { Grows plan.old plan.new }
{
    for set in sets {
        let one = fitted(alloc, plan, joined, fill, set)?;
        out.push(one)?;
    }
    Ok(())
}

/// Datasets over their joined axes.
#[tactic(auto, using(crate::proofs::Kept::fitted_means, crate::proofs::Kept::fitted_inside))]
pub fn all_fitted(
    alloc: Global,
    plan: &mut Plan,
    joined: &[Axis],
    fill: Option<i128>,
    sets: &[Dataset],
) -> Result<Items<Dataset>, NoMemory>
    requires { AllByRecursion (IsOpenIn plan.old) sets.now }
    ensures means { IfOk result (λ ts. map (dataset_in plan.new) ts ≡ map (fitted_set joined.now fill) (map (dataset_in plan.old) sets.now)) }
    ensures inside { IfOk result (AllByRecursion (IsOpenIn plan.new)) }
    ensures grows { Grows plan.old plan.new }
{
    let mut out = Items::new(alloc);
    push_fitted(alloc, plan, &mut out, joined, fill, sets)?;
    Ok(out)
}
