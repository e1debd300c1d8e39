//! Whether an array or dataset that was made of several is as it has to be, as far as its names, axes and attributes show.
#![tactic(auto)]

mod array;
mod attributes;
mod axes;
mod coords;
mod dataset;
mod labels;
mod names;
mod same;
mod variables;

pub use array::is_array_formed;
pub use dataset::is_formed;
pub use same::same_axis;
