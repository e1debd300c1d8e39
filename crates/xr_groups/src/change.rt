//! Dimensions whose positions are grouped.
use xr_arrays::Feeds;
use xr_types::{Axis, Name};

/// A dimension whose positions are grouped: for each position of the result those that it comes from, and the axis that stands in the
/// dimension's place.
#[derive(Drop)]
pub struct Change {
    pub dimension: Name,
    pub lists: Feeds,
    pub axis: Axis,
}

/// Which lists of positions are too few to be folded.
#[derive(Clone, Copy, PartialEq, Eq)]
pub enum Least {
    /// None.
    Never,
    /// Those without positions.
    Empty,
    /// Those with fewer present cells.
    Fewer(u64),
}
