//! Values one after the other: as datasets, their names and dimensions, and the labels of the dimension along which they stand.
#![tactic(auto)]

mod dimension;
mod joining;
mod labels;
mod sets;

pub use dimension::{check_dimension, check_variables, has_axis};
pub use joining::{all_called, axis_called, is_new, joining_axis};
pub use labels::{index_along, index_of_scalars};
pub use sets::{all_unnamed, names_of, unnamed};
