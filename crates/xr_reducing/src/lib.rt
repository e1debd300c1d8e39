//! Reductions of dimensions of arrays and datasets.
#![tactic(auto)]

mod arrays;
mod chars;
mod checks;
mod dims;
mod folds;
mod left;
mod realized;
mod running;
mod sets;

pub use arrays::reduced_array;
pub use chars::{Frame, without_chars};
pub use dims::names_of;
pub use folds::reduction_named;
pub use left::{axes_left, names_left};
pub use realized::{SetMade, VarMade, by_name, realize_set};
pub use running::{cumsum_array, cumsum_set};
pub use sets::reduced_set;
