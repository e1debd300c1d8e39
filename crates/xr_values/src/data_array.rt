//! Arrays with named dimensions.
use crate::coords::copy_coords;
use std::alloc::{AllocError, Global};
use xr_defs::Coord;
use xr_types::{Attr, Axis, DType, DeepCopy, Items, Name, NodeId};

/// An array with named dimensions (xarray user guide, "Data Structures"). Its cells are the value of a node of a plan, which has
/// the sizes of the axes as its shape and the array's kind; missing cells stand in it only where the array is masked.
#[derive(Drop)]
pub struct DataArray {
    pub name: Option<Name>,
    pub axes: Items<Axis>,
    pub kind: DType,
    /// Whether missing cells may stand in the array.
    pub masked: bool,
    pub attrs: Items<Attr>,
    /// The coordinates that are no index.
    pub coords: Items<Coord>,
    pub node: NodeId,
}

impl DeepCopy for DataArray {
    fn deep_copy(&self, alloc: Global) -> Result<DataArray, AllocError> {
        Ok(DataArray {
            name: self.name.deep_copy(alloc)?,
            axes: self.axes.deep_copy(alloc)?,
            kind: self.kind,
            masked: self.masked,
            attrs: self.attrs.deep_copy(alloc)?,
            coords: copy_coords(alloc, self.coords.as_slice())?,
            node: self.node,
        })
    }
}
