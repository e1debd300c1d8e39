//! The ends of slices.
use xr_types::TextBytes;

/// An end of a slice.
#[derive(Drop)]
pub enum Part {
    /// None: the slice is open there.
    Open,
    At(i128),
    Label(TextBytes),
}
