//! A store and a sink in memory, for tests.
ghost use Rattle.std.specs.Prelude.{◌≡◌, ◌≢◌, ◌+◌, ◌^◌, ◌<◌, ◌≤◌, [], true, false, length, option_map, Ok, Err, IsOk, IfOk, OnOk, OnErr};
ghost use Rattle.xr_types.specs.Names.{are_distinct};
ghost use Rattle.xr_outside.specs.Outside.{PutIs, OthersSame, Counted, GetCounted, GotIs, IsWithin, Takes, IsCount};
ghost use Rattle.xr_outside.specs.PutLog.{found_in};
ghost use Rattle.xr_outside.specs.Memory.{is_listed, next_call, Fails, files_of, put_all, file_names, nothing, bytes_of};

use crate::outside::{Got, Sink, SinkFailed, Store, StoreFailed, StoreFault};
use crate::put_log::PutLog;
use crate::roomy_bytes::RoomyBytes;
use crate::roomy_log::RoomyLog;
use std::alloc::Global;
use xr_types::{ByteList, NoMemory, TextBytes};

/// A file for a new store in memory.
#[derive(Drop)]
pub struct MemFile {
    pub name: TextBytes,
    pub bytes: ByteList,
}

/// Files in memory. The calls of `get` and `put` whose numbers are listed fail, counted from 1, and so does a `put`
/// past the room.
#[derive(Drop)]
pub struct MemStore {
    kept: RoomyLog,
    failing: Vec<u64>,
    calls: u64,
    faults: u64,
}

impl MemStore {
    /// A store of these files, with room for so many bytes of names and files in all its puts together. The room is
    /// taken here.
    pub fn new(
        alloc: Global,
        files: &[MemFile],
        room: u64,
        failing: &[u64],
    ) -> Result<MemStore, NoMemory>
        requires { are_distinct (file_names files.now) ≡ true }
        ensures files { IfOk result (λ s. files_of s ≡ put_all files.now nothing) }
        ensures count { IfOk result (λ s. s.faults ≡ 0) }
        ensures room { IfOk result (λ s. s.kept.room ≡ room) }
        ensures failing { IfOk result (λ s. s.failing.items ≡ failing.now) }
        ensures calls { IfOk result (λ s. s.calls ≡ 0) }
    {
        let log = log_of(alloc, files)?;
        let kept = RoomyLog::new(log, room)?;
        let failing = Vec::from_slice(alloc, failing)?;
        Ok(MemStore {
            kept,
            failing,
            calls: 0,
            faults: 0,
        })
    }

    /// The bytes of a name.
    pub fn bytes_of(&self, name: &TextBytes) -> Option<&[u8]>
        ensures { files_of self.now name.now ≡ option_map (λ b. b.now) result }
    {
        self.kept.log.find(name.as_bytes())
    }
}

fn log_of(alloc: Global, files: &[MemFile]) -> Result<PutLog, NoMemory>
    ensures { IfOk result (λ l. found_in l.pool.items l.puts.items ≡ put_all files.now nothing) }
{
    let mut log = PutLog {
        pool: Vec::new(alloc),
        puts: Vec::new(alloc),
    };
    for file in files {
        log.add(file.name.as_bytes(), file.bytes.as_slice())?;
    }
    Ok(log)
}

// Counts a call, and says whether it is to fail.
fn is_failing(failing: &[u64], calls: &mut u64) -> bool
    ensures listed { result ≡ is_listed failing.now calls.new }
    ensures counted { calls.new ≡ next_call calls.old }
{
    *calls = calls.saturating_add(1);
    failing.contains(calls)
}

impl Store for MemStore {
    ghost tells = { λ s. true };

    ghost held = { files_of };

    ghost faults = { λ s. s.faults };

    // Beside the clauses of the trait: a call that is listed as failing fails, and no other one does.
    fn get(&mut self, alloc: Global, name: &TextBytes, limit: u64) -> Result<Got, StoreFault>
        ensures answer { IfOk result (λ got. GotIs (files_of self.old name.now) limit got) }
        ensures within { IfOk result (λ got. IsWithin limit got) }
        ensures keeps { files_of self.new ≡ files_of self.old }
        ensures counted { GetCounted self.old.faults self.new.faults result }
        ensures counts { self.new.faults < 2 ^ 64 }
        ensures listed { is_listed self.old.failing.items (next_call self.old.calls) ≡ true → Fails self.old.faults self.new.faults result }
        ensures unlisted { is_listed self.old.failing.items (next_call self.old.calls) ≡ false → result ≢ Err StoreFault.Failed }
        ensures room { self.new.kept.room ≡ self.old.kept.room }
        ensures failing { self.new.failing.items ≡ self.old.failing.items }
        ensures calls { self.new.calls ≡ next_call self.old.calls }
    {
        let faults = self.faults;
        if is_failing(&self.failing, &mut self.calls) {
            self.faults = faults.saturating_add(1);
            return Err(StoreFault::Failed);
        }
        match self.kept.log.find(name.as_bytes()) {
            Some(bytes) => {
                if bytes.len() as u64 > limit {
                    return Ok(Got::TooLong);
                }
                match Vec::from_slice(alloc, bytes) {
                    Ok(copy) => Ok(Got::Found(copy)),
                    Err(_) => Err(StoreFault::NoMemory),
                }
            }
            None => Ok(Got::Absent),
        }
    }

    // Beside the clauses of the trait: a call that isn't listed as failing succeeds where there is room enough, and a listed
    // one fails. One that fails takes none of the room.
    fn put(&mut self, name: &TextBytes, bytes: &[u8]) -> Result<(), StoreFailed>
        ensures here { PutIs bytes.now (files_of self.old name.now) (files_of self.new name.now) result }
        ensures others { OthersSame name.now (files_of self.old) (files_of self.new) }
        ensures counted { Counted self.old.faults self.new.faults result }
        ensures counts { self.new.faults < 2 ^ 64 }
        ensures succeeds { is_listed self.old.failing.items (next_call self.old.calls) ≡ false → length name.now + length bytes.now ≤ self.old.kept.room → IsOk result }
        ensures listed { is_listed self.old.failing.items (next_call self.old.calls) ≡ true → Fails self.old.faults self.new.faults result }
        ensures room { OnOk result (self.new.kept.room + (length name.now + length bytes.now) ≡ self.old.kept.room) }
        ensures spared { OnErr result (self.new.kept.room ≡ self.old.kept.room) }
        ensures failing { self.new.failing.items ≡ self.old.failing.items }
        ensures calls { self.new.calls ≡ next_call self.old.calls }
    {
        let faults = self.faults;
        if is_failing(&self.failing, &mut self.calls) {
            self.faults = faults.saturating_add(1);
            return Err(StoreFailed);
        }
        match self.kept.put(name.as_bytes(), bytes) {
            Ok(()) => Ok(()),
            Err(_) => {
                self.faults = faults.saturating_add(1);
                Err(StoreFailed)
            }
        }
    }
}

/// Bytes in memory. The calls of `put` whose numbers are listed fail, counted from 1, and so does one past the room.
#[derive(Drop)]
pub struct MemSink {
    kept: RoomyBytes,
    failing: Vec<u64>,
    calls: u64,
    faults: u64,
}

impl MemSink {
    /// A sink with room for so many bytes.
    pub fn new(alloc: Global, room: u64, failing: &[u64]) -> Result<MemSink, NoMemory>
        ensures bytes { IfOk result (λ s. bytes_of s ≡ []) }
        ensures count { IfOk result (λ s. s.faults ≡ 0) }
        ensures room { IfOk result (λ s. s.kept.room ≡ room) }
        ensures failing { IfOk result (λ s. s.failing.items ≡ failing.now) }
        ensures calls { IfOk result (λ s. s.calls ≡ 0) }
    {
        let kept = RoomyBytes::new(alloc, room)?;
        let failing = Vec::from_slice(alloc, failing)?;
        Ok(MemSink {
            kept,
            failing,
            calls: 0,
            faults: 0,
        })
    }

    /// The bytes that it took.
    pub fn taken(&self) -> &[u8]
        ensures { result.now ≡ bytes_of self.now }
    {
        self.kept.bytes.as_slice()
    }
}

impl Sink for MemSink {
    ghost tells = { λ s. true };

    ghost taken = { bytes_of };

    ghost faults = { λ s. s.faults };

    // Beside the clauses of the trait: a call that isn't listed as failing takes the whole piece where there is room for it,
    // and a listed one fails. One that fails takes none of the room.
    fn put(&mut self, bytes: &[u8]) -> Result<usize, SinkFailed>
        ensures takes { Takes bytes.now (bytes_of self.old) (bytes_of self.new) result }
        ensures count { IsCount bytes.now result }
        ensures counted { Counted self.old.faults self.new.faults result }
        ensures counts { self.new.faults < 2 ^ 64 }
        ensures succeeds { is_listed self.old.failing.items (next_call self.old.calls) ≡ false → length bytes.now ≤ self.old.kept.room → result ≡ Ok (length bytes.now) }
        ensures listed { is_listed self.old.failing.items (next_call self.old.calls) ≡ true → Fails self.old.faults self.new.faults result }
        ensures room { IfOk result (λ n. self.new.kept.room + n ≡ self.old.kept.room) }
        ensures spared { OnErr result (self.new.kept.room ≡ self.old.kept.room) }
        ensures failing { self.new.failing.items ≡ self.old.failing.items }
        ensures calls { self.new.calls ≡ next_call self.old.calls }
    {
        let faults = self.faults;
        if is_failing(&self.failing, &mut self.calls) {
            self.faults = faults.saturating_add(1);
            return Err(SinkFailed);
        }
        match self.kept.put(bytes) {
            Ok(()) => Ok(bytes.len()),
            Err(_) => {
                self.faults = faults.saturating_add(1);
                Err(SinkFailed)
            }
        }
    }
}
