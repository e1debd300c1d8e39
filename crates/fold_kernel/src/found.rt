//! A cell that a fold has chosen.

/// A present cell with its position.
#[derive(Clone, Copy)]
pub struct Found {
    pub position: u64,
    pub number: i128,
}
