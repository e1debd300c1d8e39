//! The top call.
ghost use Rattle.std.specs.Prelude.{◌≡◌, ℕ, List, Option, Some, IsTrue};
ghost use denote.Param.Send.{IsSync};
ghost use Rattle.xr_types.specs.declared.status.Status.TheVariants as statuses;
ghost use Rattle.xr_run.specs.Words.{script_word as named_script};
ghost use Rattle.xr_run.specs.Broken.{CommandLeft, ScriptLeft, IsLine};
ghost use Rattle.xr_run.specs.Ends.{ScriptEnds, CommandEnds, IsNamedEnd, ScriptKeeps, CommandKeeps, StatusTallied, Untouched, WordsAsked};
ghost use Rattle.xr_run.specs.Top.{AsWords, IsSaid, RunEnds, RunCounted, unsaid, exit_of};

use crate::message::status_line;
use crate::run_statements::run_statements;
use crate::words::script_word;
use graph_pool::Gate;
use std::alloc::Global;
use std::thread::Threads;
use xr_outside::{Got, Sink, Store, StoreFault, write_all};
use xr_script::{ParseFault, parse};
use xr_types::{MOST_SCRIPT_BYTES, ScriptFault, ScriptKind, Status, TextBytes};

// The run of a script of these bytes.
fn run_bytes<R: Threads + Sync, S: Store, O: Sink, G: Gate>(
    rt: &R,
    alloc: Global,
    bytes: &[u8],
    store: &mut S,
    out: &mut O,
    gate: &G,
) -> Status
    requires sync { IsSync R.row }
    ensures ends { IsTrue (S.tells store.old) → ScriptEnds (S.held store.old) bytes.now (S.held store.new) (O.tells out.old) (O.taken out.old) (O.taken out.new) result }
    ensures left { IsTrue (S.tells store.old) → ScriptLeft (S.held store.old) bytes.now (S.held store.new) (O.tells out.old) (O.taken out.old) (O.taken out.new) }
    ensures keeps { IsTrue (S.tells store.old) → ScriptKeeps (S.held store.old) bytes.now (S.held store.new) }
    ensures store_tells { S.tells store.new ≡ S.tells store.old }
    ensures out_tells { O.tells out.new ≡ O.tells out.old }
    ensures named { IsNamedEnd result }
    ensures untouched { Untouched (O.taken out.old) (O.taken out.new) result }
    ensures tallied { StatusTallied (S.faults store.old) (S.faults store.new) (O.faults out.old) (O.faults out.new) result }
{
    match parse(alloc, bytes) {
        Ok(script) => run_statements(rt, alloc, script.statements.as_slice(), store, out, gate),
        Err(ParseFault::Script(fault)) => Status::BadScript(fault),
        Err(ParseFault::NoMemory) => Status::NoMemory,
    }
}

// The run of the script of a name.
fn run_named<R: Threads + Sync, S: Store, O: Sink, G: Gate>(
    rt: &R,
    alloc: Global,
    name: &TextBytes,
    store: &mut S,
    out: &mut O,
    gate: &G,
) -> Status
    requires sync { IsSync R.row }
    ensures ends { IsTrue (S.tells store.old) → CommandEnds (S.held store.old) (Some name.now) (S.held store.new) (O.tells out.old) (O.taken out.old) (O.taken out.new) result }
    ensures left { IsTrue (S.tells store.old) → CommandLeft (S.held store.old) (Some name.now) (S.held store.new) (O.tells out.old) (O.taken out.old) (O.taken out.new) }
    ensures keeps { IsTrue (S.tells store.old) → CommandKeeps (S.held store.old) (Some name.now) (S.held store.new) }
    ensures store_tells { S.tells store.new ≡ S.tells store.old }
    ensures out_tells { O.tells out.new ≡ O.tells out.old }
    ensures named { IsNamedEnd result }
    ensures untouched { Untouched (O.taken out.old) (O.taken out.new) result }
    ensures tallied { StatusTallied (S.faults store.old) (S.faults store.new) (O.faults out.old) (O.faults out.new) result }
{
    match store.get(alloc, name, MOST_SCRIPT_BYTES as u64) {
        Ok(Got::Found(bytes)) => run_bytes(rt, alloc, &bytes, store, out, gate),
        Ok(Got::Absent) => Status::NoScript,
        Ok(Got::TooLong) => Status::BadScript(ScriptFault {
            kind: ScriptKind::TooMany,
            line: 0,
        }),
        Err(StoreFault::Failed) => Status::Storage,
        Err(StoreFault::NoMemory) => Status::NoMemory,
    }
}

// All of the run but the words and the line on the error sink.
fn work<R: Threads + Sync, S: Store, O: Sink, G: Gate>(
    rt: &R,
    alloc: Global,
    script: &Option<TextBytes>,
    store: &mut S,
    out: &mut O,
    gate: &G,
) -> Status
    requires sync { IsSync R.row }
    ensures ends { IsTrue (S.tells store.old) → CommandEnds (S.held store.old) script.now (S.held store.new) (O.tells out.old) (O.taken out.old) (O.taken out.new) result }
    ensures left { IsTrue (S.tells store.old) → CommandLeft (S.held store.old) script.now (S.held store.new) (O.tells out.old) (O.taken out.old) (O.taken out.new) }
    ensures keeps { IsTrue (S.tells store.old) → CommandKeeps (S.held store.old) script.now (S.held store.new) }
    ensures store_tells { S.tells store.new ≡ S.tells store.old }
    ensures out_tells { O.tells out.new ≡ O.tells out.old }
    ensures words { WordsAsked script.now result }
    ensures untouched { Untouched (O.taken out.old) (O.taken out.new) result }
    ensures tallied { StatusTallied (S.faults store.old) (S.faults store.new) (O.faults out.old) (O.faults out.new) result }
{
    match script {
        Some(name) => run_named(rt, alloc, name, store, out, gate),
        None => Status::BadWords,
    }
}

/// The exit number of a status.
pub fn exit_number(status: &Status) -> u8
    ensures { result ≡ exit_of status.now }
{
    match status {
        Status::Done => 0,
        Status::Refused(_, _) => 1,
        Status::BadWords | Status::NoScript | Status::BadScript(_) => 2,
        Status::Storage => 3,
        Status::NoMemory => 4,
    }
}

// How a run ends whose line on the error sink failed.
fn unsaid(status: Status) -> Status
    ensures { result ≡ unsaid status }
{
    match status {
        Status::NoMemory => Status::NoMemory,
        Status::Done
        | Status::Refused(_, _)
        | Status::BadWords
        | Status::NoScript
        | Status::BadScript(_)
        | Status::Storage => Status::Storage,
    }
}

// Says on the error sink that memory ran out.
fn say_no_memory<E: Sink>(err: &mut E)
    ensures line { (script : Option (List ℕ)) → IsTrue (E.tells err.old) → IsLine script (E.taken err.old) (E.taken err.new) (E.faults err.old) (E.faults err.new) statuses.NoMemory }
    ensures tells { E.tells err.new ≡ E.tells err.old }
{
    match write_all(err, b"xrs: out of memory\n") {
        Ok(()) => {}
        Err(_) => {}
    }
}

/// Does all that the program does, and says how it ended.
///
/// Each answer but `Storage` and `NoMemory` comes exactly where the one end that the run has by the definitions is so:
/// `one_end_fits` says that there is no other.
pub fn run<R: Threads + Sync, S: Store, O: Sink, E: Sink, G: Gate>(
    rt: &R,
    alloc: Global,
    words: &[TextBytes],
    store: &mut S,
    out: &mut O,
    err: &mut E,
    gate: &G,
) -> Status
    // Where nothing failed, status, files and text are those that the definitions give on whole arrays.
    ensures headline { IsTrue (S.tells store.old) → IsTrue (O.tells out.old) → IsTrue (E.tells err.old) → RunEnds (S.held store.old) (named_script words.now) (S.held store.new) (O.taken out.old) (O.taken out.new) (E.taken err.old) (E.taken err.new) result }

    // Each part of it by itself, under what it needs: that the words don't fit by the words, the status and the files by a
    // store that tells, the text and the line by their sinks.
    ensures words { AsWords (named_script words.now) result }
    ensures ends { IsTrue (S.tells store.old) → CommandEnds (S.held store.old) (named_script words.now) (S.held store.new) (O.tells out.old) (O.taken out.old) (O.taken out.new) result }
    ensures said { IsTrue (E.tells err.old) → IsSaid (named_script words.now) (E.taken err.old) (E.taken err.new) result }

    // The store or a sink failed only where its count rose, and a count that rose shows in the status.
    ensures causes { RunCounted (S.faults store.old) (S.faults store.new) (O.faults out.old) (O.faults out.new) (E.faults err.old) (E.faults err.new) result }

    // However it ends, one number of statements fits both the files and the text: those before it are carried out, and of the next one
    // at most a part, a front of the text that it prints or of the file that it puts. The names that no put of the run names hold what
    // they held. The error sink gained the line of the status, or, where it failed, a front of a line.
    ensures left { IsTrue (S.tells store.old) → CommandLeft (S.held store.old) (named_script words.now) (S.held store.new) (O.tells out.old) (O.taken out.old) (O.taken out.new) }
    ensures line { IsTrue (E.tells err.old) → IsLine (named_script words.now) (E.taken err.old) (E.taken err.new) (E.faults err.old) (E.faults err.new) result }
    ensures keeps { IsTrue (S.tells store.old) → CommandKeeps (S.held store.old) (named_script words.now) (S.held store.new) }
    ensures untouched { Untouched (O.taken out.old) (O.taken out.new) result }
    ensures store_tells { S.tells store.new ≡ S.tells store.old }
    ensures out_tells { O.tells out.new ≡ O.tells out.old }
    ensures err_tells { E.tells err.new ≡ E.tells err.old }
{
    let Ok(script) = script_word(alloc, words) else {
        say_no_memory(err);
        return Status::NoMemory;
    };
    let status = work(rt, alloc, &script, store, out, gate);
    let Ok(text) = status_line(alloc, &script, &status) else {
        say_no_memory(err);
        return Status::NoMemory;
    };
    match write_all(err, &text) {
        Ok(()) => status,
        Err(_) => unsaid(status),
    }
}
