//! A run of the program, over a store of files and two sinks of bytes.
#![tactic(auto)]

mod effect;
mod eval;
mod functions;
mod laws;
mod message;
mod names;
mod printed_name;
mod printing;
mod run_statements;
mod step;
mod stopped;
mod top;
mod words;
mod writing;

pub use graph_pool::{Gate, NoGate};
pub use laws::one_end_fits;
pub use top::{exit_number, run};
pub use xr_outside::{
    Got, MemFile, MemSink, MemStore, Sink, SinkFailed, Store, StoreFailed, StoreFault,
};
