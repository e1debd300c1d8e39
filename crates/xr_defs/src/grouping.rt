//! How positions of arrays and datasets are grouped.
use std::alloc::{AllocError, Global};
use xr_times::{Field, Freq};
use xr_types::{DeepCopy, FoldKind, Items, Name};

/// The size of the blocks along a dimension.
#[derive(Drop)]
pub struct BlockSize {
    pub dimension: Name,
    pub size: u64,
}

/// How the positions of an array or a dataset are grouped.
#[derive(Drop)]
pub enum Grouping {
    /// By a field of the dates of a dimension's times.
    Dates(Name, Field),
    /// By the values of a coordinate.
    Coordinate(Name),
    /// By bins of the times of a dimension.
    Bins(Name, Freq),
    /// By windows of a width along a dimension, which end at their position or have it in their middle, and how many
    /// present cells a window needs.
    Windows {
        dimension: Name,
        width: u64,
        center: bool,
        least: u64,
    },
    /// By blocks along dimensions, whether a rest that fills no block is left out, and how labels become one, if that
    /// is said.
    Blocks {
        sizes: Items<BlockSize>,
        trim: bool,
        labels: Option<FoldKind>,
    },
}

impl DeepCopy for BlockSize {
    fn deep_copy(&self, alloc: Global) -> Result<BlockSize, AllocError> {
        Ok(BlockSize {
            dimension: self.dimension.deep_copy(alloc)?,
            size: self.size,
        })
    }
}

impl DeepCopy for Grouping {
    fn deep_copy(&self, alloc: Global) -> Result<Grouping, AllocError> {
        Ok(match self {
            Grouping::Dates(dimension, field) => {
                Grouping::Dates(dimension.deep_copy(alloc)?, *field)
            }
            Grouping::Coordinate(name) => Grouping::Coordinate(name.deep_copy(alloc)?),
            Grouping::Bins(dimension, freq) => Grouping::Bins(dimension.deep_copy(alloc)?, *freq),
            Grouping::Windows {
                dimension,
                width,
                center,
                least,
            } => Grouping::Windows {
                dimension: dimension.deep_copy(alloc)?,
                width: *width,
                center: *center,
                least: *least,
            },
            Grouping::Blocks {
                sizes,
                trim,
                labels,
            } => Grouping::Blocks {
                sizes: sizes.deep_copy(alloc)?,
                trim: *trim,
                labels: *labels,
            },
        })
    }
}
