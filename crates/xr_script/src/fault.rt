//! Why a text gives no script.
use std::alloc::AllocError;
use xr_types::ScriptFault;

/// Why a text gives no script.
#[derive(Clone, Copy, PartialEq, Eq)]
pub enum ParseFault {
    /// The text is no script: the first fault.
    Script(ScriptFault),
    NoMemory,
}

impl From<AllocError> for ParseFault {
    ghost use Rattle.std.specs.Prelude.{◌≡◌};
    ghost use Rattle.xr_script.specs.declared.fault.ParseFault.TheVariants.{NoMemory};

    ghost from_gives = { λ _ e. e ≡ NoMemory };

    fn from(_e: AllocError) -> ParseFault {
        ParseFault::NoMemory
    }
}
