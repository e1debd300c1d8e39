//! A log of puts whose memory is taken ahead.
ghost use Rattle.std.specs.Prelude.{◌≡◌, ◌≢◌, ◌↔◌, ◌+◌, ◌*◌, ◌≤◌, List, ℕ, length, Some, IsOk, IfOk, IfSome, OnOk, OnErr, vec_len, vec_capacity};
ghost use Rattle.xr_outside.specs.PutLog.{found_in, puts_ahead};

use crate::put_log::PutLog;
use std::alloc::AllocError;

/// A log with room for so many bytes of names and of what is put under them. What the puts to come take is at hand,
/// so that none takes memory.
#[derive(Drop)]
pub(crate) struct RoomyLog {
    pub(crate) log: PutLog,
    pub(crate) room: u64,
    ghost bytes_fit: { vec_len log.pool + room ≤ vec_capacity log.pool },
    ghost puts_fit: { vec_len log.puts + puts_ahead log.puts.items room ≤ vec_capacity log.puts },
}

/// The log has no room for a put.
#[derive(Drop)]
pub(crate) struct NoRoom;

// A put that takes no room puts nothing under the empty name, and of two of these in a row one is logged: so at most
// two are logged for each byte of room, and one more.
fn most_puts(room: u64) -> Option<usize>
    ensures { IfSome result (λ n. n ≡ 2 * room + 1) }
{
    let twice = (room as usize).checked_mul(2)?;
    twice.checked_add(1)
}

impl RoomyLog {
    /// The log with this room, which is taken here.
    pub(crate) fn new(mut log: PutLog, room: u64) -> Result<RoomyLog, AllocError>
        ensures pool { IfOk result (λ r. r.log.pool.items ≡ log.pool.items) }
        ensures puts { IfOk result (λ r. r.log.puts.items ≡ log.puts.items) }
        ensures room { IfOk result (λ r. r.room ≡ room) }
    {
        let Some(puts) = most_puts(room) else {
            return Err(AllocError);
        };
        log.pool.reserve(room as usize)?;
        log.puts.reserve(puts)?;
        Ok(RoomyLog { log, room })
    }

    /// Adds a put. It takes no memory, and fails exactly where the room is too small.
    pub(crate) fn put(&mut self, name: &[u8], bytes: &[u8]) -> Result<(), NoRoom>
        ensures here { OnOk result (found_in self.new.log.pool.items self.new.log.puts.items name.now ≡ Some bytes.now) }
        ensures others { (n : List ℕ) → n ≢ name.now → found_in self.new.log.pool.items self.new.log.puts.items n ≡ found_in self.old.log.pool.items self.old.log.puts.items n }
        ensures room { OnOk result (self.new.room + (length name.now + length bytes.now) ≡ self.old.room) }
        ensures kept { OnErr result (self.new ≡ self.old) }
        ensures exact { IsOk result ↔ (length name.now + length bytes.now ≤ self.old.room) }
    {
        let size = (name.len() as u64).saturating_add(bytes.len() as u64);
        if size > self.room {
            return Err(NoRoom);
        }
        if size == 0 && self.log.ends_bare() {
            return Ok(());
        }
        match self.log.add(name, bytes) {
            Ok(()) => {
                self.room -= size;
                Ok(())
            }
            Err(_) => unreachable!(),
        }
    }
}
