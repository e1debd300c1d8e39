//! Names and their bytes, kept in the order in which they were put.
ghost use Rattle.std.specs.Prelude.{◌≡◌, ◌+◌, ◌<◌, ◌≤◌, ◌++◌, ◌∷◌, length, option_map, IsOk, OnOk, OnErr, vec_len, vec_capacity};
ghost use Rattle.xr_outside.specs.PutLog.{found_in, ends_bare, sizes_of};

use std::alloc::AllocError;

/// How many bytes a name and what was put under it have.
#[derive(Clone, Copy)]
pub(crate) struct PutSizes {
    pub(crate) name: usize,
    pub(crate) bytes: usize,
}

/// The bytes of all puts, each name before what was put under it, and the sizes of the puts, the newest first.
#[derive(Drop)]
pub(crate) struct PutLog {
    pub(crate) pool: Vec<u8>,
    pub(crate) puts: Vec<PutSizes>,
}

impl PutLog {
    /// What the newest put of a name put.
    pub(crate) fn find(&self, name: &[u8]) -> Option<&[u8]>
        ensures { found_in self.now.pool.items self.now.puts.items name.now ≡ option_map (λ b. b.now) result }
    {
        let mut pool = self.pool.as_slice();
        for put in self.puts.as_slice() {
            let (before, bytes) = pool.split_at(pool.len().saturating_sub(put.bytes));
            let (rest, own) = before.split_at(before.len().saturating_sub(put.name));
            if name == own {
                return Some(bytes);
            }
            pool = rest;
        }
        None
    }

    /// Whether the newest put has neither a name nor bytes.
    pub(crate) fn ends_bare(&self) -> bool
        ensures { result ≡ ends_bare self.now.puts.items }
    {
        match self.puts.first() {
            Some(put) => put.name == 0 && put.bytes == 0,
            None => false,
        }
    }

    /// Adds a put. It takes no memory where both lists have room for it.
    pub(crate) fn add(&mut self, name: &[u8], bytes: &[u8]) -> Result<(), AllocError>
        ensures pool { OnOk result (self.new.pool.items ≡ (self.old.pool.items ++ name.now) ++ bytes.now) }
        ensures puts { OnOk result (self.new.puts.items ≡ sizes_of name.now bytes.now ∷ self.old.puts.items) }
        ensures pool_kept { OnErr result (self.new.pool.items ≡ self.old.pool.items) }
        ensures puts_kept { OnErr result (self.new.puts.items ≡ self.old.puts.items) }
        ensures pool_room { vec_capacity self.old.pool ≤ vec_capacity self.new.pool }
        ensures puts_room { vec_capacity self.old.puts ≤ vec_capacity self.new.puts }
        ensures succeeds { vec_len self.old.puts < vec_capacity self.old.puts → vec_len self.old.pool + (length name.now + length bytes.now) ≤ vec_capacity self.old.pool → IsOk result }
    {
        self.puts.reserve(1)?;
        self.pool.reserve(name.len() + bytes.len())?;
        self.pool.extend_from_slice(name)?;
        self.pool.extend_from_slice(bytes)?;
        let sizes = PutSizes {
            name: name.len(),
            bytes: bytes.len(),
        };
        match self.puts.insert(0, sizes) {
            Ok(()) => Ok(()),
            Err(_) => Err(AllocError),
        }
    }
}
