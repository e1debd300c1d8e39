//! Why a statement was not carried out.
ghost use Rattle.std.specs.Prelude.{◌≡◌};
ghost use Rattle.xr_run.specs.declared.stopped.Stopped.TheVariants as stops;
ghost use Rattle.xr_run.specs.Stops.{stopped_by};

use std::alloc::{AllocError, AllocFailed};
use xr_types::{CallFault, Fault};

/// Why a statement was not carried out.
#[derive(Drop)]
pub enum Stopped {
    Refused(Fault),
    /// The store or a sink failed.
    Storage,
    NoMemory,
}

impl From<AllocError> for Stopped {
    ghost from_gives = { λ _ e. e ≡ stops.NoMemory };

    fn from(_e: AllocError) -> Stopped {
        Stopped::NoMemory
    }
}

impl<T: Drop> From<AllocFailed<T>> for Stopped {
    ghost from_gives = { λ _ e. e ≡ stops.NoMemory };

    fn from(_e: AllocFailed<T>) -> Stopped {
        Stopped::NoMemory
    }
}

// No call of the definitions declines.
impl From<CallFault> for Stopped {
    ghost from_gives = { λ fault e. e ≡ stopped_by fault };

    fn from(fault: CallFault) -> Stopped {
        match fault {
            CallFault::Refused(fault) => Stopped::Refused(fault),
            CallFault::Declined(_) | CallFault::NoMemory => Stopped::NoMemory,
        }
    }
}
