//! The tokens of a script's text.
#![tactic(auto)]

mod fronts;
mod laws;
mod mark;
mod name;
mod number;
mod quotes;
mod run;
mod scanner;
mod text;

pub use laws::{front_is_the_longest, lines_are_counted, tokens_are_the_only_ones};
pub use scanner::scan;
pub use text::text_of;
