//! A disk and its callers at work, in threads of their own, over one store.
#![tactic(auto)]

mod callers;
mod disks;
mod gate;
mod store;
#[cfg(test)]
mod tests;

pub use callers::{Caller, Played, both_play, work_and_close, write_block};
pub use disks::{BLOCK, GEOMETRY, caller_over, disk_with};
pub use gate::RingingGate;
pub use store::SharedStore;
