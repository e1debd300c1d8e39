//! An array as a whole.
ghost use Rattle.std.specs.Prelude.{◌≡◌, true, MatchOption, ⊤};
ghost use Rattle.xr_files.specs.Classic.{is_name};
ghost use Rattle.xr_values.specs.Stands.{IsArrayIn};
ghost use Rattle.xr_forming.specs.Held.{HoldsArray};

use crate::attributes::are_attributes;
use crate::axes::are_dimensions;
use crate::coords::{are_coordinates, are_new};
use crate::names::is_named;
use plan_core::Plan;
use xr_joining::is_within;
use xr_types::Name;
use xr_values::DataArray;

fn is_named_or_none(name: &Option<Name>) -> bool
    ensures { result ≡ true → MatchOption name.now ⊤ (λ n. is_name n ≡ true) }
{
    match name {
        None => true,
        Some(name) => is_named(name),
    }
}

/// Whether an array, of which the cells and those of its coordinates are as they have to be, is as a whole as it has to be: as a
/// dataset is, which `is_formed` tells (xarray user guide, "Data Structures").
#[tactic(auto, using(crate::proofs::FormedArray::array_formed))]
pub fn is_array_formed(plan: &Plan, array: &DataArray) -> bool
    ensures { result ≡ true → HoldsArray plan.now array.now → IsArrayIn plan.now array.now }
{
    // its nodes fit one another
    let _ = plan.nodes();
    let axes = array.axes.as_slice();
    let coords = array.coords.as_slice();
    is_named_or_none(&array.name)
        && are_dimensions(axes)
        && are_coordinates(axes, coords)
        && are_new(axes, coords)
        && are_attributes(array.attrs.as_slice())
        && is_within(axes)
}
