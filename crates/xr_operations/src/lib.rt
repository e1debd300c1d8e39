//! The definitions of calls that compute over arrays: selection, alignment by labels, arithmetic, and methods on cells. Each says
//! in `specs/` what a call has to give, one cell at a time by its labels.
#![tactic(auto)]

mod change;
mod side;

pub use change::{Change, Selection};
pub use side::Side;
