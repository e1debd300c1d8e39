//! Computes the nodes of a plan for the program.
#![tactic(auto)]

mod gate;
mod pool;
mod settings;

pub use gate::{Gate, NoGate};
pub use pool::{Pool, execute};
pub use settings::Settings;
