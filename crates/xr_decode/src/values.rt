//! The values of a variable.
ghost use Rattle.std.specs.Prelude.{◌≡◌, ◌≤◌, ◌%◌, length, IfOk};
ghost use Rattle.xr_types.specs.Widths.{width};
ghost use Rattle.xr_arrays.specs.Pieces.{together, AreInside};
ghost use Rattle.xr_files.specs.Files.{most_bytes};
ghost use Rattle.cdf_reader.specs.Heads.{var_seen};
ghost use Rattle.xr_decode.specs.Stored.{AreBytes};

use crate::place::Place;
use bytes::Bytes;
use cdf_reader::{FileHead, copied_values, values_in_pieces};
use std::alloc::{AllocError, Global};
use std::marker::Model;
use xr_arrays::Pieces;
use xr_files::VarHead;
use xr_types::NcType;

/// The values of a variable, where they lie.
#[derive(Drop)]
pub(crate) struct Values<'a> {
    place: Place<'a>,
}

impl<'a> Model for Values<'a> {
    ghost use Rattle.std.specs.Prelude.{List, ℕ};
    ghost use Rattle.xr_decode.specs.Stored.{values_in, IsPlace};

    ghost Value = { List ℕ };

    ghost view = { λ v. values_in v.place };

    ghost invariant = { λ v. IsPlace v.place };
}

/// Bytes are bytes.
pub(crate) fn are_bytes(bytes: &[u8])
    ensures { AreBytes bytes.now }
{
    let _count = bytes.len();
}

impl<'a> Values<'a> {
    /// Values that lie one behind the other.
    pub(crate) fn together(raw: Bytes) -> Values<'a>
        ensures { result ≡ raw }
    {
        are_bytes(raw.as_slice());
        Values {
            place: Place::Together(raw),
        }
    }

    /// The values of a variable of a head, in the bytes of its file.
    pub(crate) fn in_records(bytes: &'a Bytes, head: &'a FileHead, var: &'a VarHead) -> Values<'a>
        requires { length bytes.now ≤ most_bytes }
        ensures { result ≡ (var_seen bytes.now head.now var.now).raw }
    {
        are_bytes(bytes.as_slice());
        Values {
            place: Place::InRecords(bytes, head, var),
        }
    }

    /// Their bytes, which are shared. Values that lie in records are put together in new memory.
    pub(crate) fn raw(&self, alloc: Global) -> Result<Bytes, AllocError>
        ensures { IfOk result (λ r. r ≡ self.now) }
    {
        match &self.place {
            Place::Together(raw) => raw.slice(..),
            Place::InRecords(bytes, head, var) => {
                copied_values(alloc, bytes.as_slice(), head, var)
            }
        }
    }

    /// Their bytes where they lie, as values of a type.
    pub(crate) fn pieces(&self, alloc: Global, kind: NcType) -> Result<Pieces, AllocError>
        requires { length self.now % width kind ≡ 0 }
        ensures values { IfOk result (λ p. together kind p ≡ self.now) }
        ensures inside { IfOk result (AreInside kind) }
    {
        match &self.place {
            Place::Together(raw) => Ok(Pieces::whole(kind, raw.slice(..)?)),
            Place::InRecords(bytes, head, var) => {
                values_in_pieces(alloc, kind, bytes, head, var)
            }
        }
    }

    /// They are bytes.
    pub(crate) fn are_bytes(&self)
        ensures { AreBytes self.now }
    {
        let _ = &self.place;
    }
}
