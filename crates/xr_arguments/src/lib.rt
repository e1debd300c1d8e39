//! The arguments of calls.
#![tactic(auto)]

mod arguments;
mod parameters;

pub use arguments::{as_text, nothing_given, only, texts_in};
pub use parameters::{argument, bound, option, required};
