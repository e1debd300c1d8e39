//! Datasets as tiles of a grid: the groups that have the same variables, and the place of each member by its labels.
#![tactic(auto)]

mod along;
mod directions;
mod grid;
mod groups;
mod lookup;
mod places;
mod ranks;

pub use directions::check_directions;
pub use grid::grid_of;
pub use groups::grouped;
pub use places::size_of;
