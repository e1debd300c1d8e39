//! The calls that group.

/// A call that groups the positions of an array or a dataset.
#[derive(Clone, Copy, PartialEq, Eq)]
pub enum Maker {
    GroupBy,
    Resample,
    Rolling,
    Coarsen,
}
