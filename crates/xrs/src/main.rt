//! The program `xrs`: runs a script over the files of the system.
#![tactic(auto)]

mod belongings;
mod beside;
mod disk;
mod file_store;
mod from_disk;
mod place;
mod size_limit;
mod std_sink;
#[cfg(test)]
mod tests;
mod to_disk;

use crate::file_store::FileStore;
use crate::std_sink::StdSink;
use std::alloc::{AllocError, Global};
use std::io::ErrorKind;
use std::process::ExitCode;
use std::rt::Env;
use std::{env, process};
use xr_run::{NoGate, Sink, exit_number, run};
use xr_types::{Status, TextBytes};

// The words of the command. Where one isn't UTF-8 there are none, and none don't fit.
fn words_of<R: Env + AllocGlobal>(rt: &R, alloc: Global) -> Result<Vec<TextBytes>, AllocError> {
    let mut words = Vec::new(alloc);
    match env::args(rt) {
        Ok(args) => {
            for word in args {
                words.push(TextBytes::of(word))?;
            }
        }
        Err(e) => {
            if e.kind() == ErrorKind::OutOfMemory {
                return Err(AllocError);
            }
        }
    }
    Ok(words)
}

fn main(rt: HostRuntime) -> ExitCode {
    let alloc = rt.alloc();
    let mut err = StdSink::new(rt.stderr());
    let Ok(words) = words_of(&rt, alloc) else {
        let _told = err.put(b"xrs: out of memory\n");
        return ExitCode::from(exit_number(&Status::NoMemory));
    };
    let mut store = FileStore::new(&rt, alloc, process::id(rt.process()));
    let mut out = StdSink::new(rt.stdout());
    let status = run(&rt, alloc, &words, &mut store, &mut out, &mut err, &NoGate);
    ExitCode::from(exit_number(&status))
}
