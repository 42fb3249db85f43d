//! The world of a process: the system's clock, standard input, output and error, connections that come over TCP, and
//! buckets over TCP and directories as stores.
//!
//! These adapters are trusted. Each counts its faults, and tells nothing of bytes or times. What they decide of an
//! outcome stands in small functions, whose clauses are exact.
#![tactic(auto)]

mod clock;
mod ending;
mod folder;
mod store;
mod streams;
mod tcp;
#[cfg(test)]
mod tests;
mod wire;
mod world;

pub use clock::HostClock;
pub use folder::HostFolder;
pub use store::Store;
pub use streams::{HostSink, HostSource};
pub use tcp::{ConnSink, ConnSource, HostListener};
pub use wire::TcpWire;
pub use world::{HostGate, HostWorld};
