//! `concat`: arrays or datasets one after the other along a dimension.
#![tactic(auto)]

mod answer;
mod asked;
mod call;
mod constants;
mod limits;
mod sets;
mod variables;

pub use call::{concat, concat_of};
