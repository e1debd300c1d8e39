//! What a search among the labels of an axis gives.

/// The order of an axis's labels. An axis that is both ascending and descending counts as ascending.
#[derive(Clone, Copy, PartialEq, Eq)]
pub enum Direction {
    /// Each label is at most the next.
    Ascending,
    /// Each label is at least the next.
    Descending,
    Neither,
}

/// Positions in a row: the first and how many. No positions begin at 0.
#[derive(Clone, Copy, PartialEq, Eq)]
pub struct Span {
    pub first: u64,
    pub length: u64,
}
