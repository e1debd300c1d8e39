//! Datasets merged: the variables and coordinates of several values in one dataset.
#![tactic(auto)]

mod cells;
mod contents;
mod coords;
mod dims;
mod held;
mod members;
mod names;
mod order;
mod shared;

pub use cells::all_same;
pub use contents::{joined_attrs, with_attrs};
pub use coords::coords_merged;
pub use dims::check_dims;
pub use held::{Held, Merged, all_attrs, in_first_order, kind_of_all, merged_or_own};
pub use members::{coords_called, variables_called};
pub use names::{all_coords, all_skipped, all_variables, have_crossing};
