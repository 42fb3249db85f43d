//! The log of a link as a value that only clauses read: it takes no memory.
//!
//! A call is shown to the log where it is told. A loop goes over the bytes that it shows, and keeps none of them.
#![tactic(auto)]

mod log;
mod shown;

pub use log::GhostLog;

#[cfg(test)]
mod tests;
