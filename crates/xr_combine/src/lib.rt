//! Datasets that are tiles of a grid, put together by the labels of their dimensions: `combine_by_coords`.
#![tactic(auto)]

mod call;
mod groups;
mod lines;
mod picked;
mod sets;

pub use call::combine_by_coords;
