//! Parts of arrays and datasets.
use xr_arrays::ArrayValue;
use xr_types::{Attr, Axis, Items, Name, TextBytes, TimeCoding};

/// What a coordinate that is no index holds, always computed.
#[derive(Drop)]
pub enum Content {
    /// Cells, and whether missing ones may stand among them.
    Cells(ArrayValue, bool),
    Text(TextBytes),
    /// A time in seconds from 1970-01-01T00:00:00, and how it stands in a file.
    Time(TimeCoding, i64),
}

/// A coordinate that is no index: over some of the dimensions, or a scalar.
#[derive(Drop)]
pub struct Coord {
    pub name: Name,
    pub axes: Items<Axis>,
    pub attrs: Items<Attr>,
    pub content: Content,
}
