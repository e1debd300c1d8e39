//! The bins of labels.
use xr_types::Items;

/// Bins that follow one another.
#[derive(Drop)]
pub struct BinList {
    /// The first second of each bin, ascending, from 1970-01-01T00:00:00.
    pub starts: Items<i64>,
    /// For each label the place of its bin.
    pub bin: Items<u32>,
}
