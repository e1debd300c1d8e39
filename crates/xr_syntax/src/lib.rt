//! The script language: tokens, grammar and syntax trees.
#![tactic(auto)]

mod scan;
mod syntax;
mod tally;
mod token;

pub use scan::{Front, Scan, ScanEnd};
pub use syntax::{Argument, Constant, Expr, Script, Statement};
pub use tally::Tally;
pub use token::{Mark, Placed, Reserved, Token};
