//! Folds of cells to one.
#![tactic(auto)]

mod find;
mod found;
mod gather;
mod line;
mod partial;
mod row;
mod run;
mod running;
mod zeros;

pub use line::scan;
pub use partial::Partial;
pub use running::{scan_masked, scan_run};
