//! The cells of arrays in other places: taken, put in another order, repeated, one after the other.
#![tactic(auto)]

mod arrange;
mod axes;
mod axis_take;
mod concatenate;
mod join;
mod moving;
mod shapes;
mod stride;
mod taking;
mod typed;
mod widening;

pub use axes::{reorder, widen};
pub use axis_take::{take, taken};
pub use concatenate::concat;
pub use shapes::points;
