//! The machine that follows the grammar of scripts, and that it takes exactly what the grammar takes.
#![tactic(auto)]

mod laws;

pub use laws::one_answer_fits;
