//! Methods of grouped datasets, and how a dataset is grouped.
#![tactic(auto)]

mod asked;
mod busy;
mod fills;
mod folds;
mod groupings;
mod listed;
mod makers;
mod own;
mod sets;
mod variables;
mod windows;

pub use makers::set_grouping;
pub use sets::grouped_set;
