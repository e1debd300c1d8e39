//! What becomes of dimensions.
use xr_arrays::Sources;
use xr_types::{Items, Label, Name};

/// The positions that a dimension is given: for each the old position that it shows, if there is one, and the new labels; without
/// those the labels go with their positions.
#[derive(Drop)]
pub struct Change {
    pub name: Name,
    pub labels: Option<Items<Label>>,
    pub from: Sources,
}

/// The positions that dimensions are given, and those of the dimensions that go, with one position each.
#[derive(Drop)]
pub struct Selection {
    pub changes: Items<Change>,
    pub gone: Items<Name>,
}
