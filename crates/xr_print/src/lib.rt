//! The printed forms of arrays and datasets.
#![tactic(auto)]

mod array;
mod attribute;
mod by_name;
mod cells;
mod chars;
mod coordinate;
mod dataset;
mod dimensions;
mod grid;
mod index;
mod masked_rows;
mod names;
mod rows;
mod times;

pub use array::array_text;
pub use dataset::set_text;
