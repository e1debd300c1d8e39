//! What tasks are told to before they run.

/// Called once by each task before it runs: with the number of its node and of its chunk. It takes no memory.
pub trait Gate: Sync {
    fn enter(&self, node: u64, chunk: u32);
}

/// A gate that does nothing.
#[derive(Clone, Copy, PartialEq, Eq)]
pub struct NoGate;

impl Gate for NoGate {
    fn enter(&self, _node: u64, _chunk: u32) {}
}
