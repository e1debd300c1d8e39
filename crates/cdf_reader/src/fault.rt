//! Why a file could not be read.
ghost use Rattle.std.specs.Prelude.{◌≡◌};
ghost use Rattle.cdf_reader.specs.declared.fault.CdfFault.TheVariants as faults;
ghost use Rattle.cdf_reader.specs.declared.fault.WalkFault.TheVariants as walk;

use std::alloc::{AllocError, AllocFailed};
use xr_files::Stop;
use xr_types::{CdfKind, NoMemory};

/// Why bytes gave no file.
#[derive(Clone, Copy, PartialEq, Eq)]
pub enum CdfFault {
    /// What is wrong with the bytes, and the byte at which it shows.
    At(CdfKind, u64),
    NoMemory,
}

impl From<NoMemory> for CdfFault {
    ghost from_gives = { λ _ e. e ≡ faults.NoMemory };

    fn from(_e: NoMemory) -> CdfFault {
        CdfFault::NoMemory
    }
}

/// Why a step of the walk over the header went no further.
#[derive(Clone, Copy, PartialEq, Eq)]
pub enum WalkFault {
    At(Stop),
    NoMemory,
}

impl From<Stop> for WalkFault {
    ghost from_gives = { λ s e. e ≡ walk.At s };

    fn from(stop: Stop) -> WalkFault {
        WalkFault::At(stop)
    }
}

impl From<AllocError> for WalkFault {
    ghost from_gives = { λ _ e. e ≡ walk.NoMemory };

    fn from(_e: AllocError) -> WalkFault {
        WalkFault::NoMemory
    }
}

impl<T: Drop> From<AllocFailed<T>> for WalkFault {
    ghost from_gives = { λ _ e. e ≡ walk.NoMemory };

    fn from(_e: AllocFailed<T>) -> WalkFault {
        WalkFault::NoMemory
    }
}

impl From<NoMemory> for WalkFault {
    ghost from_gives = { λ _ e. e ≡ walk.NoMemory };

    fn from(_e: NoMemory) -> WalkFault {
        WalkFault::NoMemory
    }
}
