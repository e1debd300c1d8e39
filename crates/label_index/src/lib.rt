//! Labels of an axis as positions: an index finds a label, the one near it, or those between two ends.
#![tactic(auto)]

mod between;
mod guess;
mod hash;
mod index;
mod label;
mod near;
mod place;
mod rank;
mod scan;
mod search;

pub use index::Index;
pub use scan::is_chain;
