//! Joins of axes by their labels: the joined axis, and for each axis the positions that its own take there.
#![tactic(auto)]

mod alignment;
mod axes;
mod key;
mod kind;
mod label;
mod lists;
mod ordered;
mod relist;
mod source;
mod values;

pub use alignment::{Joined, join, joined_axis};
pub use key::Key;
pub use kind::all_kin;
pub use label::{count, equal_labels, label_at};
pub use source::{sources, stays};
pub use values::aligned;
