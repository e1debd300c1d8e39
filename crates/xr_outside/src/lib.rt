//! What lies outside the program: a store of files and a sink of bytes, what each call of them answers and leaves, and
//! ones in memory.
#![tactic(auto)]

mod memory;
mod outside;
mod put_log;
mod roomy_bytes;
mod roomy_log;
mod whole;

pub use memory::{MemFile, MemSink, MemStore};
pub use outside::{Got, Sink, SinkFailed, Store, StoreFailed, StoreFault};
pub use whole::write_all;
