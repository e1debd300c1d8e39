//! The dataset of a file.
ghost use Rattle.std.specs.Prelude.{◌≡◌, ◌≤◌, ◌∷◌, [], length, IfOk};
ghost use Rattle.xr_defs.specs.Limits.{most_variables};
ghost use Rattle.xr_defs.specs.Decoding.{coordinate_names, others_in, set_of};
ghost use Rattle.xr_defs.specs.Decoding as decoding;
ghost use Rattle.xr_arrays.specs.Added.{AddsAtMost};
ghost use Rattle.xr_defs.specs.Room.{of_set, room};
ghost use Rattle.plan_core.specs.Plans.{Grows};
ghost use Rattle.xr_values.specs.Answers.{AnswersSet};
ghost use Rattle.xr_values.specs.Stands.{dataset_in, IsDatasetIn};
ghost use Rattle.xr_decode.specs.Listed.{Lists};

use crate::attributes::copy_without;
use crate::axes::axes_of;
use crate::kept::kept_axes;
use crate::listed::Listed;
use crate::parts::{coordinates_in, count_of, variables_in};
use crate::role::coordinate_names;
use crate::skip::skipped_in;
use crate::stored::Source;
use plan_core::Plan;
use std::alloc::Global;
use xr_types::{CallFault, Fault, MOST_VARIABLES, NoMemory};
use xr_values::Dataset;

// The dataset of a file that has no more coordinates and data variables than it may have.
fn whole_set(
    alloc: Global,
    plan: &mut Plan,
    source: &Source<'_>,
    listed: &Listed<'_>,
    mask: bool,
) -> Result<Dataset, NoMemory>
    requires listed { Lists listed.now (coordinate_names source.now) }
    requires few { length (others_in source.now source.now.vars) ≤ most_variables }
    ensures grows { Grows plan.old plan.new }
    ensures set { IfOk result (λ s. dataset_in plan.new s ≡ decoding.dataset_in source.now mask) }
    ensures formed { IfOk result (λ s. IsDatasetIn plan.new s) }
    ensures room { IfOk result (λ s. AddsAtMost plan.old plan.new (room (of_set (dataset_in plan.new s) ∷ []))) }
{
    let vars = source.vars();
    let axes = axes_of(alloc, source)?;
    let coords = coordinates_in(alloc, source, axes.as_slice(), listed, vars, mask)?;
    let attrs = copy_without(alloc, "coordinates", source.attrs())?;
    let skipped = skipped_in(alloc, source, vars)?;
    let kept = variables_in(alloc, plan, source, listed, vars, mask)?;
    Ok(Dataset {
        axes: kept_axes(axes, coords.as_slice(), kept.as_slice()),
        coords,
        vars: kept,
        attrs,
        skipped,
    })
}

/// The dataset of a file, with missing cells where they are asked for. The cells of its data variables become nodes of the plan.
pub(crate) fn set_of(
    alloc: Global,
    plan: &mut Plan,
    source: &Source<'_>,
    mask: bool,
) -> Result<Dataset, CallFault>
    ensures answers { AnswersSet plan.new result (set_of source.now mask) }
    ensures grows { Grows plan.old plan.new }
    ensures room { IfOk result (λ s. AddsAtMost plan.old plan.new (room (of_set (dataset_in plan.new s) ∷ []))) }
{
    let listed = coordinate_names(alloc, source)?;
    if count_of(alloc, source, &listed, source.vars())? > MOST_VARIABLES {
        return Err(CallFault::Refused(Fault::TooLarge));
    }
    Ok(whole_set(alloc, plan, source, &listed, mask)?)
}
