//! Folds and running sums of arrays: rows of cells absorbed into rows of accumulators, each at its own width.
#![tactic(auto)]

mod absorb;
mod accumulator;
mod celled;
mod finish;
mod folded;
mod folds;
mod kinds;
mod leaf;
mod lists;
mod outcome;
mod positions;
mod room;
mod rows;
mod running;
mod scans;
mod sizes;
mod source;
mod strip;
mod windows;

pub use folds::fold;
pub use scans::scan;
