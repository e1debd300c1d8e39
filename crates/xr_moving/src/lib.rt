//! Cells moved along dimensions: `shift`, `roll`, and the differences of neighbours, `diff`.
#![tactic(auto)]

mod arrays;
mod diffs;
mod fills;
mod moves;
mod names;
mod set_diffs;
mod set_moves;
mod set_shifts;
mod sets;

pub use arrays::{rolled, shifted};
pub use diffs::differed;
pub use set_diffs::set_differed;
pub use set_moves::set_rolled;
pub use set_shifts::set_shifted;
pub use sets::{SetMade, VarMade, realize_set};
