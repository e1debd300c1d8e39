//! Which nodes of a plan a node needs, which of them are computed as whole arrays, and how long each is kept.
#![tactic(auto)]

mod chosen;
mod held;
mod mark;
mod release;
mod sorts;
mod spread;

pub use chosen::whole_nodes;
pub use held::{input, inputs, inputs_of, is_source, source};
pub use mark::mark_needed;
pub use release::release_inputs;
pub use sorts::{comes_in_strips, takes_in_strips};
pub use spread::{is_spread, spread_cell};
