//! Dimensions that are given other positions: arrays and datasets of a plan, their axes, coordinates and variables.
#![tactic(auto)]

mod axes;
mod coords;
mod limits;
mod placing;
mod steps;

pub use axes::new_axes;
pub use coords::changed_coords;
pub use limits::{check_array, check_set};
pub use placing::{placed, set_placed};
pub use steps::{change_called, has_hole, taken};
pub use xr_reducing::names_of;
