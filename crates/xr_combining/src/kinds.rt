//! The kind of cells that are put together.
ghost use Rattle.std.specs.Prelude.{◌≡◌};
ghost use Rattle.std.specs.List.{list_all, list_any};
ghost use Rattle.xr_types.specs.Results.{Answers};
ghost use Rattle.xr_defs.specs.Building.{is_chars as of_chars};
ghost use Rattle.xr_combination.specs.Pieces.{common_kind_in, mixes_chars, promoted_all, promoted_from};

use xr_types::{CallFault, DType, Fault, promote};

fn is_chars(kind: DType) -> bool
    ensures { result ≡ of_chars kind }
{
    match kind {
        DType::Char => true,
        DType::Bool => false,
        DType::Int8 | DType::Int16 | DType::Int32 | DType::Int64 => false,
        DType::UInt8 | DType::UInt16 | DType::UInt32 | DType::UInt64 => false,
    }
}

fn some_chars(kinds: &[DType]) -> bool
    ensures { result ≡ list_any of_chars kinds.now }
{
    match kinds {
        [] => false,
        [kind, rest @ ..] => is_chars(*kind) || some_chars(rest),
    }
}

fn all_chars(kinds: &[DType]) -> bool
    ensures { result ≡ list_all of_chars kinds.now }
{
    match kinds {
        [] => true,
        [kind, rest @ ..] => is_chars(*kind) && all_chars(rest),
    }
}

fn mix_chars(kinds: &[DType]) -> bool
    ensures { result ≡ mixes_chars kinds.now }
{
    some_chars(kinds) && !all_chars(kinds)
}

fn promoted_from(kind: DType, kinds: &[DType]) -> Option<DType>
    ensures { result ≡ promoted_from kind kinds.now }
{
    match kinds {
        [] => Some(kind),
        [other, rest @ ..] => match promote(kind, *other) {
            Some(both) => promoted_from(both, rest),
            None => None,
        },
    }
}

/// The kind to which all are promoted, if there is one.
pub fn promoted_all(kinds: &[DType]) -> Option<DType>
    ensures { result ≡ promoted_all kinds.now }
{
    match kinds {
        [] => None,
        [kind, rest @ ..] => promoted_from(*kind, rest),
    }
}

/// The kind that cells of these kinds become.
///
/// # Errors
/// `WrongKind` for bytes of text among others; then `WouldPromote` for kinds that aren't promoted to one.
#[tactic(auto, using(crate::proofs::Promotion::mixed_refused, crate::proofs::Promotion::kind_found, crate::proofs::Promotion::not_promoted))]
pub fn common_kind(kinds: &[DType]) -> Result<DType, CallFault>
    ensures { Answers (λ t. t) result (common_kind_in kinds.now) }
{
    if mix_chars(kinds) {
        return Err(CallFault::Refused(Fault::WrongKind));
    }
    match promoted_all(kinds) {
        Some(kind) => Ok(kind),
        None => Err(CallFault::Refused(Fault::WouldPromote)),
    }
}
