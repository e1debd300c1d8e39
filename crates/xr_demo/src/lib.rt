//! The function `demo`: a dataset of any length to try calls on.
#![tactic(auto)]

mod called;
mod cells;
mod frame;
mod times;

pub use called::demo;
