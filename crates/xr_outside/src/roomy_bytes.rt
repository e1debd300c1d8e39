//! Bytes whose memory is taken ahead.
ghost use Rattle.std.specs.Prelude.{◌≡◌, ◌↔◌, ◌+◌, ◌≤◌, ◌++◌, [], length, IsOk, IfOk, OnOk, OnErr, vec_len, vec_capacity};

use crate::roomy_log::NoRoom;
use std::alloc::{AllocError, Global};

/// A list of bytes with room for so many more, for which no memory is taken any more.
#[derive(Drop)]
pub(crate) struct RoomyBytes {
    pub(crate) bytes: Vec<u8>,
    pub(crate) room: u64,
    ghost fit: { vec_len bytes + room ≤ vec_capacity bytes },
}

impl RoomyBytes {
    /// No bytes, with this room, which is taken here.
    pub(crate) fn new(alloc: Global, room: u64) -> Result<RoomyBytes, AllocError>
        ensures bytes { IfOk result (λ r. r.bytes.items ≡ []) }
        ensures room { IfOk result (λ r. r.room ≡ room) }
    {
        let bytes = Vec::with_capacity(alloc, room as usize)?;
        Ok(RoomyBytes { bytes, room })
    }

    /// Adds bytes. It takes no memory, and fails exactly where the room is too small.
    pub(crate) fn put(&mut self, bytes: &[u8]) -> Result<(), NoRoom>
        ensures bytes { OnOk result (self.new.bytes.items ≡ self.old.bytes.items ++ bytes.now) }
        ensures room { OnOk result (self.new.room + length bytes.now ≡ self.old.room) }
        ensures kept { OnErr result (self.new ≡ self.old) }
        ensures exact { IsOk result ↔ (length bytes.now ≤ self.old.room) }
    {
        let size = bytes.len() as u64;
        if size > self.room {
            return Err(NoRoom);
        }
        match self.bytes.extend_from_slice(bytes) {
            Ok(()) => {
                self.room -= size;
                Ok(())
            }
            Err(_) => unreachable!(),
        }
    }
}
