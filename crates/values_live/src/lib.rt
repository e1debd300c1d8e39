//! The nodes that values of the script language have, so that a plan can forget the others.
#![tactic(auto)]

mod mark;
mod unnamed;

pub use mark::mark_value;
pub use unnamed::forget_unnamed;
