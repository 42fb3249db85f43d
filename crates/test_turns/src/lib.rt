//! The lock at work: a counter under it, to which threads add.
#![tactic(auto)]

mod adding;
mod counter;
mod crowd;
mod guest;
mod pair;
#[cfg(test)]
mod tests;
mod worker;

pub use adding::{add, read};
pub use counter::Counter;
pub use crowd::{all_work, crew_of};
pub use guest::both_visit;
pub use pair::counted_by_two;
pub use worker::Worker;
