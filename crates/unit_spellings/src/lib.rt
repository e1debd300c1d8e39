//! Which texts are units of times, and which are dates of a script, spelled from parts; and the laws that the definitions by
//! which both are read take exactly these.
#![tactic(auto)]

mod laws;

pub use laws::{dates_are_spelled, units_are_spelled};
