//! Datasets.
use crate::coords::copy_coords;
use crate::variables::Variables;
use std::alloc::{AllocError, Global};
use xr_defs::Coord;
use xr_types::{Attr, Axis, DeepCopy, Items, Name};

/// Data variables over shared axes and coordinates (xarray user guide, "Data Structures"), with the names of the variables of its
/// file that aren't loaded.
#[derive(Drop)]
pub struct Dataset {
    pub axes: Items<Axis>,
    /// The coordinates that are no index.
    pub coords: Items<Coord>,
    pub vars: Variables,
    pub attrs: Items<Attr>,
    pub skipped: Items<Name>,
}

impl DeepCopy for Dataset {
    fn deep_copy(&self, alloc: Global) -> Result<Dataset, AllocError> {
        Ok(Dataset {
            axes: self.axes.deep_copy(alloc)?,
            coords: copy_coords(alloc, self.coords.as_slice())?,
            vars: self.vars.deep_copy(alloc)?,
            attrs: self.attrs.deep_copy(alloc)?,
            skipped: self.skipped.deep_copy(alloc)?,
        })
    }
}
