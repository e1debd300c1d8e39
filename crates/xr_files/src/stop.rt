//! Where a walk over a file's bytes stops.
use xr_types::CdfKind;

/// A fault at a field, by how many bytes are left from the field's first byte on. A field that passes the end
/// has none left.
#[derive(Clone, Copy, PartialEq, Eq)]
pub struct Stop {
    pub kind: CdfKind,
    pub left: usize,
}
