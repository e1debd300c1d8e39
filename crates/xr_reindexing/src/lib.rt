//! New labels for the dimensions of arrays and datasets, `reindex`, and times as labels, `times`.
#![tactic(auto)]

mod arrays;
mod asked;
mod changes;
mod fills;
mod sets;
mod time_labels;

pub use arrays::reindex_array;
pub use sets::reindex_set;
pub use time_labels::times;
