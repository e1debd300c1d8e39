//! The definitions of grouped values: how `groupby`, `resample`, `rolling` and `coarsen` group the positions of a dimension, and what
//! the methods of grouped values give. Each says in `specs/` what a call has to give.
#![tactic(auto)]

mod change;
mod maker;

pub use change::{Change, Least};
pub use maker::Maker;
