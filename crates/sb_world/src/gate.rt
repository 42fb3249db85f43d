//! What stands round the store calls of workers.

/// A worker calls it round its store calls, which are numbered from 1. The real one does nothing.
pub trait Gate {
    /// Before a store call.
    fn before(&self, worker: u32, call: u64);

    /// After it.
    fn after(&self, worker: u32, call: u64);
}
