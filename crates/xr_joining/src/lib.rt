//! Operators between two labelled arrays: their axes joined, their cells spread over all of them.
#![tactic(auto)]

mod fitting;
mod kinds;
mod limits;
mod operands;
mod placing;
mod spread;
mod two_arrays;

pub use limits::{has_cells, have_few, is_within};
pub use operands::{carrier, nothing, over};
pub use placing::{placed, two_arrays_in};
pub use two_arrays::of_two_arrays;
