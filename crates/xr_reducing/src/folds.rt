//! What a fold does to a kind, and what it needs.
ghost use Rattle.std.specs.Prelude.{◌≡◌};
ghost use Rattle.xr_arrays.specs.Folds as of;
ghost use Rattle.xr_arrays.specs.Nodes as nodes;
ghost use Rattle.xr_operations.specs.Reductions as calls;

use xr_types::{DType, FoldKind, is_unsigned};

/// The fold that the method of this name of arrays and datasets does.
#[tactic(auto, unfolding(xr_operations::specs::Reductions::reduction_named))]
pub fn reduction_named(name: &str) -> Option<FoldKind>
    ensures { result ≡ calls.reduction_named name.now }
{
    if name == "sum" {
        return Some(FoldKind::Sum);
    }
    if name == "prod" {
        return Some(FoldKind::Prod);
    }
    if name == "min" {
        return Some(FoldKind::Min);
    }
    if name == "max" {
        return Some(FoldKind::Max);
    }
    if name == "count" {
        return Some(FoldKind::Count);
    }
    if name == "any" {
        return Some(FoldKind::Any);
    }
    if name == "all" {
        return Some(FoldKind::All);
    }
    if name == "argmin" {
        return Some(FoldKind::ArgMin);
    }
    if name == "argmax" {
        return Some(FoldKind::ArgMax);
    }
    None
}

/// The kind of sums and products.
pub(crate) fn total_kind(kind: DType) -> DType
    ensures { result ≡ of.total_kind kind }
{
    if is_unsigned(kind) {
        DType::UInt64
    } else {
        DType::Int64
    }
}

/// The kind of a fold of cells of a kind.
pub(crate) fn folded_kind(fold: FoldKind, kind: DType) -> DType
    ensures { result ≡ of.folded_kind fold kind }
{
    match fold {
        FoldKind::Min | FoldKind::Max | FoldKind::First | FoldKind::Last => kind,
        FoldKind::Any | FoldKind::All => DType::Bool,
        FoldKind::Sum | FoldKind::Prod => total_kind(kind),
        FoldKind::ArgMin | FoldKind::ArgMax | FoldKind::Count => DType::Int64,
    }
}

/// Whether a fold gives nothing of no cell.
pub(crate) fn needs_cells(fold: FoldKind) -> bool
    ensures { result ≡ calls.needs_cells fold }
{
    match fold {
        FoldKind::Min | FoldKind::Max | FoldKind::First | FoldKind::Last => true,
        FoldKind::ArgMin | FoldKind::ArgMax => true,
        FoldKind::Sum | FoldKind::Prod | FoldKind::Count => false,
        FoldKind::Any | FoldKind::All => false,
    }
}

/// Whether a fold looks at positions.
pub(crate) fn is_positional(fold: FoldKind) -> bool
    ensures { result ≡ nodes.is_positional fold }
{
    match fold {
        FoldKind::ArgMin | FoldKind::ArgMax | FoldKind::First | FoldKind::Last => true,
        FoldKind::Sum | FoldKind::Prod | FoldKind::Min | FoldKind::Max => false,
        FoldKind::Count | FoldKind::Any | FoldKind::All => false,
    }
}

pub(crate) fn masked_after(fold: FoldKind, masked: bool) -> bool
    ensures { result ≡ calls.masked_after fold masked }
{
    needs_cells(fold) && masked
}
