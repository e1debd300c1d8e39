//! How a run ends.
use crate::fault::Fault;

/// Why a text is no script.
#[derive(Clone, Copy, PartialEq, Eq)]
pub enum ScriptKind {
    BadToken,
    BadSyntax,
    TooDeep,
    TooMany,
    NotUtf8,
}

/// Why a text is no script, and in which line, counted from 1.
#[derive(Clone, Copy, PartialEq, Eq)]
pub struct ScriptFault {
    pub kind: ScriptKind,
    pub line: u32,
}

impl ScriptKind {
    ghost use Rattle.std.specs.Prelude.{◌≡◌};
    ghost use Rattle.xr_types.specs.Faults.{script_words};

    /// The words for this kind in an error line.
    pub fn words(self) -> &'static str
        ensures { result.now ≡ script_words self }
    {
        match self {
            ScriptKind::BadToken => "bad token",
            ScriptKind::BadSyntax => "bad syntax",
            ScriptKind::TooDeep => "too deep",
            ScriptKind::TooMany => "too many",
            ScriptKind::NotUtf8 => "not UTF-8",
        }
    }
}

/// How a run ended.
#[derive(Drop)]
pub enum Status {
    /// Every statement was carried out.
    Done,
    /// The statement of this number, counted from 1, was refused.
    Refused(u32, Fault),
    /// The words of the command don't fit.
    BadWords,
    /// The store has no script of the name.
    NoScript,
    BadScript(ScriptFault),
    /// The store or a sink failed.
    Storage,
    NoMemory,
}
