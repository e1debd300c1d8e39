//! The choice between two arrays by a third one: the function and the method `where`.
#![tactic(auto)]

mod branches;
mod called;
mod cells;
mod choices;
mod held;
mod kinds;
mod operands;

pub use branches::{Branch, as_branch, as_condition};
pub use called::{where_called, where_method};
