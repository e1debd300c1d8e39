//! What the calls of this crate answer.
ghost use Rattle.std.specs.Prelude.{◌≡◌};
ghost use Rattle.cdf_writer.specs.declared.answer.WriteFault.TheVariants.{NoMemory};

use std::alloc::AllocError;
use xr_types::Items;

/// The places of a canonical file: in bytes its header's length, where each variable's values begin, the length of
/// a record, and the whole length.
#[derive(Drop)]
pub struct Layout {
    pub header: u64,
    pub begins: Items<u64>,
    pub recsize: u64,
    pub length: u64,
}

/// Why a file is not written: the version lacks one of its types or has no place for its record dimensions, the file
/// or a record would be larger than a file may be, or memory is wanting.
#[derive(Clone, Copy, PartialEq, Eq)]
pub enum WriteFault {
    CannotHold,
    TooLarge,
    NoMemory,
}

impl From<AllocError> for WriteFault {
    ghost from_gives = { λ _ e. e ≡ NoMemory };

    fn from(_e: AllocError) -> WriteFault {
        WriteFault::NoMemory
    }
}
