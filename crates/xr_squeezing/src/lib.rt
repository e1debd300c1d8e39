//! Dimensions of one position that go, and leave their labels as coordinates without dimensions.
#![tactic(auto)]

mod arrays;
mod coords;
mod dims;
mod sets;

pub use arrays::squeezed_array;
pub use sets::{are_few, squeezed_set};
