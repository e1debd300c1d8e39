//! The element operations on whole views: each cell of a window is the operation on the cells at its point. None of the calls takes memory.
#![tactic(auto)]

mod arithmetic;
mod bits;
mod calls;
mod casts;
mod cell;
mod comparisons;
mod division;
mod divisors;
mod masks;
mod nulls;
mod number;
mod numbers;
mod pairs;
mod picks;
mod reciprocals;
mod signs;
mod truths;
mod typed;

pub use bits::Bits;
pub use calls::{binary, cast, choose, compare, fill, unary};
pub use casts::{cast_cell, test_cell};
pub use cell::one_cell;
pub use divisors::Divisor;
pub use number::{
    at_most, difference, differs, equal, inversion, less, negation, product, quotient, remainder,
    sum,
};
pub use picks::first_or_second;
