//! How far a script was read.
use crate::state::State;
use xr_syntax::{Statement, Tally};
/// Between statements, or in one.
#[derive(Drop)]
pub enum Point {
    Between,
    Within(State),
}

/// The statements so far, and where the parser is behind them.
#[derive(Drop)]
pub struct Progress {
    pub statements: Vec<Statement>,
    pub point: Point,
}

/// How far a script was read, and what its limits have counted.
#[derive(Drop)]
pub struct Walk {
    pub progress: Progress,
    pub tally: Tally,
}
