//! A plain, slow table of cached blocks beside that of `sb_blocks`, with the same contract, and tests that compare both.
#![tactic(auto)]

mod calls;
mod choice;
mod plain;
mod slot;
mod table;

pub use calls::{Call, GEOMETRY, Moment, content, perform, same};
pub use plain::Plain;
pub use table::Table;

#[cfg(test)]
mod tests;
