//! The definitions of calls that make one value of several: `concat`, `merge` and `combine_by_coords`. Each says in `specs/` what a call
//! has to give.
#![tactic(auto)]

mod compat;
mod grid;

pub use compat::Compat;
pub use grid::Grid;
