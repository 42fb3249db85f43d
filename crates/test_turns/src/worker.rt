//! A pass with what it is to do.
use crate::counter::Counter;
use sb_turn::Pass;

/// Adds the amount in so many turns.
#[derive(Drop)]
pub struct Worker {
    pub pass: Pass<Counter>,
    pub amount: u64,
    pub turns: u32,
}
