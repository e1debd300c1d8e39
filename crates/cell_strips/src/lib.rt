//! Operations on each cell of arrays, on rows of cells at the width of their kind.
#![tactic(auto)]

mod arrays;
mod cells;
mod collect;
mod masks;
mod numbers;
mod operations;
mod rows;
mod signs;
mod spreads;
mod strip;

pub use arrays::{choose_cells, operate_one, operate_two};
pub use collect::{Strips, collect_strips, strip_length};
pub use operations::unary;
pub use spreads::spread;
pub use strip::strip_of;
