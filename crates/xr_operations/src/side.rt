//! The side of an operator.

/// Where a literal stands beside an array.
#[derive(Clone, Copy, PartialEq, Eq)]
pub enum Side {
    Left,
    Right,
}
