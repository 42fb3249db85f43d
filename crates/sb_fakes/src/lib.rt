//! Worlds in memory, for tests: stores, a folder, a wire, a clock, a tape and connections that tell all that they were
//! asked.
//!
//! A fake whose call has to grow a list, and has no fault to answer, tells nothing from a refused growth on.
#![tactic(auto)]

mod begun;
mod clock;
mod conn;
mod content;
mod faults;
mod folder;
mod history;
mod kept;
mod listener;
mod log;
mod names;
mod object;
mod shared_clock;
mod shared_link;
mod store;
mod tape;
#[cfg(test)]
mod tests;
mod timed;
mod wire;
mod world;

pub use clock::HandClock;
pub use conn::MemoryConn;
pub use folder::{Left, MemoryFolder};
pub use listener::{Given, MemoryListener};
pub use object::Object;
pub use shared_clock::{SharedClock, SlowLink};
pub use shared_link::SharedLink;
pub use store::PlainStore;
pub use tape::RecordTape;
pub use timed::{Show, TimedStore};
pub use wire::MemoryWire;
pub use world::{Heard, MemoryWorld, StillGate};
