//! Data variables of a dataset.
use std::alloc::{AllocError, Global};
use xr_types::{Attr, DType, DeepCopy, Items, Name, NodeId};

/// A data variable: an array over some axes of its dataset, which it names. Its cells are the value of a node of a plan.
#[derive(Drop)]
pub struct Variable {
    pub name: Name,
    pub dims: Items<Name>,
    pub kind: DType,
    /// Whether missing cells may stand in the variable.
    pub masked: bool,
    pub attrs: Items<Attr>,
    pub node: NodeId,
}

impl DeepCopy for Variable {
    fn deep_copy(&self, alloc: Global) -> Result<Variable, AllocError> {
        Ok(Variable {
            name: self.name.deep_copy(alloc)?,
            dims: self.dims.deep_copy(alloc)?,
            kind: self.kind,
            masked: self.masked,
            attrs: self.attrs.deep_copy(alloc)?,
            node: self.node,
        })
    }
}
