//! Groups, bins, windows and blocks as positions: for each position of a result those of an axis that it comes from.
#![tactic(auto)]

mod bins;
mod groups;
mod windows;

pub use bins::bin_lists;
pub use groups::{NumberGroups, TextGroups, number_groups, text_groups};
pub use windows::{coarsen, rolling};
