//! The call `merge`: the variables and coordinates of several values in one dataset.
#![tactic(auto)]

mod attributes;
mod call;
mod joined;
mod joint;
mod named;
mod sets;
mod variables;

pub use call::{merge, merge_of};
