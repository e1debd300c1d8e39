//! What a method of a grouped value is asked, and what refuses it.
ghost use Rattle.std.specs.Prelude.{◌≡◌};
ghost use Rattle.xr_arrays.specs.Folds as folds;
ghost use Rattle.xr_types.specs.Results.{Answers, unless};
ghost use Rattle.xr_types.specs.declared.fault.Fault.TheVariants.{BadArgument};
ghost use Rattle.xr_groups.specs.Methods as calls;
ghost use Rattle.xr_operations.specs.Reductions as reductions;

use crate::windows::of_windows;
use xr_defs::Grouping;
use xr_types::{CallFault, DType, Fault, FoldKind, is_unsigned};

/// The kind of a fold of cells of a kind.
pub fn folded_kind(fold: FoldKind, kind: DType) -> DType
    ensures { result ≡ folds.folded_kind fold kind }
{
    match fold {
        FoldKind::Min | FoldKind::Max | FoldKind::First | FoldKind::Last => kind,
        FoldKind::Any | FoldKind::All => DType::Bool,
        FoldKind::Sum | FoldKind::Prod => {
            if is_unsigned(kind) {
                DType::UInt64
            } else {
                DType::Int64
            }
        }
        FoldKind::ArgMin | FoldKind::ArgMax | FoldKind::Count => DType::Int64,
    }
}

/// Whether a fold gives nothing of no cell.
pub fn needs_cells(fold: FoldKind) -> bool
    ensures { result ≡ reductions.needs_cells fold }
{
    match fold {
        FoldKind::Min | FoldKind::Max | FoldKind::First | FoldKind::Last => true,
        FoldKind::ArgMin | FoldKind::ArgMax => true,
        FoldKind::Sum | FoldKind::Prod | FoldKind::Count => false,
        FoldKind::Any | FoldKind::All => false,
    }
}

/// Which methods groups and bins have.
pub fn of_groups(fold: FoldKind) -> bool
    ensures { result ≡ calls.of_groups fold }
{
    match fold {
        FoldKind::ArgMin | FoldKind::ArgMax => false,
        FoldKind::Sum | FoldKind::Prod | FoldKind::Min | FoldKind::Max => true,
        FoldKind::Count | FoldKind::Any | FoldKind::All => true,
        FoldKind::First | FoldKind::Last => true,
    }
}

/// Which methods blocks have.
pub fn of_blocks(fold: FoldKind) -> bool
    ensures { result ≡ calls.of_blocks fold }
{
    match fold {
        FoldKind::Sum | FoldKind::Prod | FoldKind::Min | FoldKind::Max | FoldKind::Count => true,
        FoldKind::Any | FoldKind::All => true,
        FoldKind::First | FoldKind::Last => false,
        FoldKind::ArgMax | FoldKind::ArgMin => false,
    }
}

/// Whether what is grouped so has a method.
pub fn has_method(grouping: &Grouping, fold: FoldKind) -> bool
    ensures { result ≡ calls.has_method grouping.now fold }
{
    match grouping {
        Grouping::Windows { .. } => of_windows(fold),
        Grouping::Bins(_, _) | Grouping::Dates(_, _) | Grouping::Coordinate(_) => of_groups(fold),
        Grouping::Blocks { .. } => of_blocks(fold),
    }
}

/// Refuses a method that the grouping doesn't have.
///
/// # Errors
/// `BadArgument`.
#[tactic(auto, unfolding(xr_types::specs::Results::unless))]
pub fn check_has_method(grouping: &Grouping, fold: FoldKind) -> Result<(), CallFault>
    ensures { Answers (λ u. u) result (unless (calls.has_method grouping.now fold) BadArgument) }
{
    if has_method(grouping, fold) {
        Ok(())
    } else {
        Err(CallFault::Refused(Fault::BadArgument))
    }
}

/// Refuses a method that bins don't have.
#[tactic(auto, unfolding(xr_types::specs::Results::unless))]
pub(crate) fn check_method(fold: FoldKind) -> Result<(), CallFault>
    ensures { Answers (λ u. u) result (unless (calls.of_groups fold) BadArgument) }
{
    if of_groups(fold) {
        Ok(())
    } else {
        Err(CallFault::Refused(Fault::BadArgument))
    }
}
