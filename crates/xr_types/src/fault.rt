//! Why a statement is refused.
ghost use Rattle.std.specs.Prelude.{◌≡◌};
ghost use Rattle.xr_types.specs.declared.fault.CallFault.TheVariants as calls;
ghost use Rattle.xr_types.specs.declared.fault.ComputeFault.TheVariants as computes;
ghost use Rattle.xr_types.specs.Faults.{fault_number, fault_words, kind_words};

use crate::text::Name;
use std::alloc::{AllocError, AllocFailed};

/// A node's place in its plan.
pub type NodeId = u64;

/// Memory ran out.
#[derive(Clone, Copy, PartialEq, Eq)]
pub struct NoMemory;

impl From<AllocError> for NoMemory {
    fn from(_e: AllocError) -> NoMemory {
        NoMemory
    }
}

impl<T: Drop> From<AllocFailed<T>> for NoMemory {
    fn from(_e: AllocFailed<T>) -> NoMemory {
        NoMemory
    }
}

/// What is wrong with a classic file.
#[derive(Clone, Copy, PartialEq, Eq)]
pub enum CdfKind {
    /// More bytes than the program reads.
    TooLarge,
    /// The file doesn't begin as a classic file.
    BadMagic,
    /// The header passes the file's end.
    CutHeader,
    /// A list begins with a tag that isn't its own.
    BadTag,
    /// A name that is empty or isn't UTF-8.
    BadName,
    /// A name that stands earlier in the same list.
    Repeated,
    /// A second record dimension, or a dimension number that doesn't fit.
    BadDimension,
    /// A type that the version doesn't have.
    BadType,
    /// A variable's values pass the file's end.
    CutData,
}

impl CdfKind {
    /// The word for this kind in an error line.
    pub fn words(self) -> &'static str
        ensures { result.now ≡ kind_words self }
    {
        match self {
            CdfKind::TooLarge => "TooLarge",
            CdfKind::BadMagic => "BadMagic",
            CdfKind::CutHeader => "CutHeader",
            CdfKind::BadTag => "BadTag",
            CdfKind::BadName => "BadName",
            CdfKind::Repeated => "Repeated",
            CdfKind::BadDimension => "BadDimension",
            CdfKind::BadType => "BadType",
            CdfKind::CutData => "CutData",
        }
    }
}

/// Why a statement is refused.
#[derive(Drop)]
pub enum Fault {
    UnknownName(Name),
    NoVariable(Name),
    NoDimension(Name),
    WrongKind,
    BadArgument,
    NoSuchLabel,
    OutOfRange,
    NotUnique,
    NotMonotonic,
    LabelKind,
    WouldPromote,
    DoesNotFit,
    SizeConflict,
    NotAligned,
    Conflict,
    NotTime,
    EmptyReduce,
    NotMultiple,
    FillCollides,
    NoFill,
    CannotHold,
    TooLarge,
    NoFile(Name),
    /// What is wrong with a file, and the byte at which it shows.
    BadFile(CdfKind, u64),
    DuplicateName,
    NotLoaded(Name),
}

impl Fault {
    /// The number of the fault, which stays the same in every version.
    pub fn number(&self) -> u32
        ensures { result ≡ fault_number self.now }
    {
        match self {
            Fault::UnknownName(_) => 1,
            Fault::NoVariable(_) => 2,
            Fault::NoDimension(_) => 3,
            Fault::WrongKind => 4,
            Fault::BadArgument => 5,
            Fault::NoSuchLabel => 6,
            Fault::OutOfRange => 7,
            Fault::NotUnique => 8,
            Fault::NotMonotonic => 9,
            Fault::LabelKind => 10,
            Fault::WouldPromote => 11,
            Fault::DoesNotFit => 12,
            Fault::SizeConflict => 13,
            Fault::NotAligned => 14,
            Fault::Conflict => 15,
            Fault::NotTime => 16,
            Fault::EmptyReduce => 17,
            Fault::NotMultiple => 18,
            Fault::FillCollides => 19,
            Fault::NoFill => 20,
            Fault::CannotHold => 21,
            Fault::TooLarge => 22,
            Fault::NoFile(_) => 23,
            Fault::BadFile(_, _) => 24,
            Fault::DuplicateName => 25,
            Fault::NotLoaded(_) => 26,
        }
    }

    /// The words of the fault, behind its number and before what it names.
    pub fn words(&self) -> &'static str
        ensures { result.now ≡ fault_words self.now }
    {
        match self {
            Fault::UnknownName(_) => "unknown name",
            Fault::NoVariable(_) => "no variable",
            Fault::NoDimension(_) => "no dimension",
            Fault::WrongKind => "wrong kind of value",
            Fault::BadArgument => "bad argument",
            Fault::NoSuchLabel => "no such label",
            Fault::OutOfRange => "position out of range",
            Fault::NotUnique => "label not unique",
            Fault::NotMonotonic => "index not monotonic",
            Fault::LabelKind => "label of another kind",
            Fault::WouldPromote => "would promote",
            Fault::DoesNotFit => "number does not fit",
            Fault::SizeConflict => "sizes differ",
            Fault::NotAligned => "not aligned",
            Fault::Conflict => "conflicting values",
            Fault::NotTime => "not a time index",
            Fault::EmptyReduce => "nothing to reduce",
            Fault::NotMultiple => "size is not a multiple",
            Fault::FillCollides => "cell equals the fill value",
            Fault::NoFill => "no fill value",
            Fault::CannotHold => "format cannot hold it",
            Fault::TooLarge => "too large",
            Fault::NoFile(_) => "no file",
            Fault::BadFile(_, _) => "bad file:",
            Fault::DuplicateName => "duplicate name",
            Fault::NotLoaded(_) => "variable not loaded",
        }
    }
}

/// Why a node's cells aren't given.
#[derive(Clone, Copy, PartialEq, Eq)]
pub enum ComputeFault {
    /// The computer declines this node.
    Declined(NodeId),
    NoMemory,
}

impl From<AllocError> for ComputeFault {
    ghost from_gives = { λ _ e. e ≡ computes.NoMemory };

    fn from(_e: AllocError) -> ComputeFault {
        ComputeFault::NoMemory
    }
}

impl<T: Drop> From<AllocFailed<T>> for ComputeFault {
    ghost from_gives = { λ _ e. e ≡ computes.NoMemory };

    fn from(_e: AllocFailed<T>) -> ComputeFault {
        ComputeFault::NoMemory
    }
}

/// Why a call has no value.
#[derive(Drop)]
pub enum CallFault {
    Refused(Fault),
    /// The computer declines this node.
    Declined(NodeId),
    NoMemory,
}

impl From<AllocError> for CallFault {
    ghost from_gives = { λ _ e. e ≡ calls.NoMemory };

    fn from(_e: AllocError) -> CallFault {
        CallFault::NoMemory
    }
}

impl<T: Drop> From<AllocFailed<T>> for CallFault {
    ghost from_gives = { λ _ e. e ≡ calls.NoMemory };

    fn from(_e: AllocFailed<T>) -> CallFault {
        CallFault::NoMemory
    }
}

impl From<NoMemory> for CallFault {
    ghost from_gives = { λ _ e. e ≡ calls.NoMemory };

    fn from(_e: NoMemory) -> CallFault {
        CallFault::NoMemory
    }
}
