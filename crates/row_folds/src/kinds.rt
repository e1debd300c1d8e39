//! The kinds of results.
ghost use Rattle.std.specs.Prelude.{◌≡◌};
ghost use Rattle.xr_arrays.specs.Folds.{folded_kind, total_kind};

use xr_types::{DType, FoldKind, is_unsigned};

/// The kind of sums of numbers of a kind.
pub fn total_kind(kind: DType) -> DType
    ensures { result ≡ total_kind kind }
{
    if is_unsigned(kind) {
        DType::UInt64
    } else {
        DType::Int64
    }
}

/// The kind of a fold of numbers of a kind.
pub fn folded_kind(fold: FoldKind, kind: DType) -> DType
    ensures { result ≡ folded_kind fold kind }
{
    match fold {
        FoldKind::Min | FoldKind::Max | FoldKind::First | FoldKind::Last => kind,
        FoldKind::Any | FoldKind::All => DType::Bool,
        FoldKind::Sum | FoldKind::Prod => total_kind(kind),
        FoldKind::ArgMin | FoldKind::ArgMax | FoldKind::Count => DType::Int64,
    }
}
