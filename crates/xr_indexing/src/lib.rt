//! Selection by position: `isel` over arrays and datasets.
#![tactic(auto)]

mod arguments;
mod axes;
mod choice;
mod isel;
mod selection;
mod selectors;
mod slices;

pub use arguments::{as_number, as_numbers};
pub use axes::position_of;
pub use choice::{Choice, Positions, Selector, choice_of};
pub use isel::{isel_array, isel_set};
pub use selectors::{as_selector, check_dimension, check_selector};
