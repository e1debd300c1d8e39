//! The method `chunk` of arrays and datasets: nodes whose cells are computed in pieces of given sizes.
#![tactic(auto)]

mod arrays;
mod grids;
mod pieces;
mod sets;
mod sizes;

pub use arrays::chunked;
pub use sets::set_chunked;
