//! A dataset as a whole.
ghost use Rattle.std.specs.Prelude.{◌≡◌, true};
ghost use Rattle.xr_values.specs.Stands.{IsDatasetIn};
ghost use Rattle.xr_forming.specs.Held.{Holds};

use crate::attributes::are_attributes;
use crate::axes::are_dimensions;
use crate::coords::{are_coordinates, are_new};
use crate::variables::{are_held, are_variables};
use plan_core::Plan;
use xr_aligning::{are_apart, is_set_within};
use xr_values::Dataset;

/// Whether a dataset, of which the cells of variables and coordinates are as they have to be, is as a whole as it has to be:
/// names that differ and aren't empty, as many labels as positions, each in the range of its kind, axes that are those of the
/// dataset, attributes with whole values, and no more of all than there may be (xarray user guide, "Data Structures").
#[tactic(auto, using(crate::proofs::Formed::set_formed))]
pub fn is_formed(plan: &Plan, set: &Dataset) -> bool
    ensures { result ≡ true → Holds plan.now set.now → IsDatasetIn plan.now set.now }
{
    // its nodes fit one another
    let _ = plan.nodes();
    let axes = set.axes.as_slice();
    let coords = set.coords.as_slice();
    let vars = set.vars.as_slice();
    are_dimensions(axes)
        && are_coordinates(axes, coords)
        && are_new(axes, coords)
        && are_variables(axes, vars)
        && are_apart(axes, coords, vars)
        && are_held(coords, vars, axes)
        && are_attributes(set.attrs.as_slice())
        && is_set_within(set)
}
