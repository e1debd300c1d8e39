//! Datasets as tiles of a grid.
use xr_types::{Items, Name};

/// How datasets fill a grid along some dimensions.
#[derive(Drop)]
pub struct Grid {
    /// The dimensions along which they are put together.
    pub dims: Items<Name>,
    /// How many places there are along each.
    pub shape: Items<u64>,
    /// Whether the labels along each ascend.
    pub rises: Items<bool>,
    /// The number of the dataset at each place, in row order.
    pub order: Items<u64>,
}
