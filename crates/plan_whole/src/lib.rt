//! What computes the nodes of a plan: those that serve one other node cell by cell come strip by strip, the others each as a
//! whole array.
#![tactic(auto)]

mod eval;
mod fold;
mod numbers;
mod standing;
mod strips;
mod total;
mod whole;

pub use whole::Whole;
