//! Syntax trees, built part by part, and the lists of calls and tables as they are read.
#![tactic(auto)]

mod arguments;
mod build;
mod entries;
mod names;

pub use arguments::Arguments;
pub use build::{
    binary, boxed, call, constant, index, list, method, push_item, table, text, unary, variable,
    whole,
};
pub use entries::TableEntries;
