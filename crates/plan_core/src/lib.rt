//! Plans of nodes, what computes the cells of a node, and the laws of the values of nodes.
#![tactic(auto)]

mod compute;
mod plan;

pub use compute::Compute;
pub use plan::Plan;
