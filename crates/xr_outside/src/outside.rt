//! What lies outside: a store of files, a sink of bytes, and a gate of tasks.
ghost use Rattle.std.specs.Prelude.{◌≡◌, ◌<◌, ◌^◌, List, ℕ, Bool, Option, IfOk, IsTrue};
ghost use Rattle.xr_outside.specs.Outside.{GotIs, GetCounted, Counted, PutIs, PutPiecesIs, OthersSame, Takes, IsCount, IsWithin};

use bytes::BytesQueue;
use std::alloc::Global;
use xr_types::TextBytes;

/// What a store answers for a name.
#[derive(Drop)]
pub enum Got {
    /// The bytes of the name.
    Found(Vec<u8>),
    /// The store has no such name.
    Absent,
    /// The name has more bytes than were asked for.
    TooLong,
}

/// Why a store gave no answer.
#[derive(Clone, Copy, PartialEq, Eq)]
pub enum StoreFault {
    Failed,
    NoMemory,
}

/// The store could not keep the bytes.
#[derive(Clone, Copy, PartialEq, Eq)]
pub struct StoreFailed;

/// The sink could not take the bytes.
#[derive(Clone, Copy, PartialEq, Eq)]
pub struct SinkFailed;

/// Files by their names.
pub trait Store {
    /// Whether it tells what it holds. One that doesn't says nothing of its content.
    ghost tells: { Self → Bool };

    /// The bytes of each name that it has.
    ghost held: { Self → List ℕ → Option (List ℕ) };

    /// How often it failed, from 0 to 2^64 - 1.
    ghost faults: { Self → ℕ };

    /// The bytes of a name, where they are at most so many.
    ///
    /// Fails where the store does, and then the count of faults rises; or where memory runs out.
    fn get(&mut self, alloc: Global, name: &TextBytes, limit: u64) -> Result<Got, StoreFault>
        ensures answer { IsTrue (tells self.old) → IfOk result (λ got. GotIs (held self.old name.now) limit got) }
        ensures within { IfOk result (λ got. IsWithin limit got) }
        ensures keeps { IsTrue (tells self.old) → held self.new ≡ held self.old }
        ensures tells { tells self.new ≡ tells self.old }
        ensures counted { GetCounted (faults self.old) (faults self.new) result }
        ensures counts { faults self.new < 2 ^ 64 };

    /// Makes the bytes those of the name. It takes no memory.
    ///
    /// Fails where the store does, and then the count of faults rises. The name may then hold its old bytes, a front
    /// of the new ones, or nothing.
    fn put(&mut self, name: &TextBytes, bytes: &[u8]) -> Result<(), StoreFailed>
        ensures here { IsTrue (tells self.old) → PutIs bytes.now (held self.old name.now) (held self.new name.now) result }
        ensures others { IsTrue (tells self.old) → OthersSame name.now (held self.old) (held self.new) }
        ensures tells { tells self.new ≡ tells self.old }
        ensures counted { Counted (faults self.old) (faults self.new) result }
        ensures counts { faults self.new < 2 ^ 64 };

    /// Makes the bytes of all pieces those of the name, as one `put` of them in a row does.
    ///
    /// Fails as `put` does; or where memory runs out, and then the store holds what it held.
    fn put_pieces(
        &mut self,
        alloc: Global,
        name: &TextBytes,
        mut pieces: BytesQueue,
    ) -> Result<(), StoreFault>
        ensures here { IsTrue (tells self.old) → PutPiecesIs pieces (held self.old name.now) (held self.new name.now) result }
        ensures others { IsTrue (tells self.old) → OthersSame name.now (held self.old) (held self.new) }
        ensures tells { tells self.new ≡ tells self.old }
        ensures counted { GetCounted (faults self.old) (faults self.new) result }
        ensures counts { faults self.old < 2 ^ 64 → faults self.new < 2 ^ 64 }
    {
        let whole = pieces.len();
        let Ok(bytes) = pieces.split_to(alloc, whole) else {
            return Err(StoreFault::NoMemory);
        };
        match self.put(name, bytes.as_slice()) {
            Ok(()) => Ok(()),
            Err(_) => Err(StoreFault::Failed),
        }
    }
}

/// A place that takes bytes, piece by piece.
pub trait Sink {
    /// Whether it tells what it took.
    ghost tells: { Self → Bool };

    /// The bytes that it took.
    ghost taken: { Self → List ℕ };

    /// How often it failed, from 0 to 2^64 - 1.
    ghost faults: { Self → ℕ };

    /// Takes bytes from the front of a piece, of one that isn't empty at least one, and answers how many. It takes no
    /// memory.
    ///
    /// Fails where the sink does, and then the count of faults rises. Some front of the piece may then be taken.
    fn put(&mut self, bytes: &[u8]) -> Result<usize, SinkFailed>
        ensures takes { IsTrue (tells self.old) → Takes bytes.now (taken self.old) (taken self.new) result }
        ensures count { IsCount bytes.now result }
        ensures tells { tells self.new ≡ tells self.old }
        ensures counted { Counted (faults self.old) (faults self.new) result }
        ensures counts { faults self.new < 2 ^ 64 };
}
