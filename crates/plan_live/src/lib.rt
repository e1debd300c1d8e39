//! A plan that gives up the cells of nodes that nothing needs any more.
#![tactic(auto)]

mod anew;
mod forgetting;
mod mark;

pub use anew::kept;
pub use forgetting::{Gains, forget};
pub use mark::mark_inputs;
