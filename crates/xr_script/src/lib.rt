//! Scripts, read from their text.
#![tactic(auto)]

mod after;
mod around;
mod call;
mod close;
mod fault;
mod operand;
mod place;
mod progress;
mod script;
mod state;
mod statement;
mod step;
mod tally;
mod terminal;
mod wait;
mod walk;

pub use fault::ParseFault;
pub use script::parse;
pub use walk::parse_tokens;
