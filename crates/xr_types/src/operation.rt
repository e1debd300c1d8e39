//! Operations on cells, folds of cells, and ways to find labels and to join axes.

/// An operation on cells. `Negate` and `Invert` are unary minus and `~`.
#[derive(Clone, Copy, PartialEq, Eq)]
pub enum OpKind {
    Add,
    Subtract,
    Multiply,
    FloorDivide,
    Remainder,
    /// `/`, which whole numbers refuse.
    Divide,
    And,
    Or,
    Xor,
    Equal,
    NotEqual,
    Less,
    LessEqual,
    Greater,
    GreaterEqual,
    Negate,
    Invert,
    IsNull,
    NotNull,
    FillNa,
    Cast,
}

/// A fold of cells to one.
#[derive(Clone, Copy, PartialEq, Eq)]
pub enum FoldKind {
    Sum,
    Prod,
    Min,
    Max,
    First,
    Last,
    ArgMin,
    ArgMax,
    Count,
    Any,
    All,
}

/// How a label that isn't there is found: the greatest not above it, the least not below it, or the nearest.
#[derive(Clone, Copy, PartialEq, Eq)]
pub enum Near {
    Pad,
    Backfill,
    Nearest,
}

/// How the labels of several axes become one list.
#[derive(Clone, Copy, PartialEq, Eq)]
pub enum How {
    Exact,
    Inner,
    Outer,
    Left,
    Right,
}
