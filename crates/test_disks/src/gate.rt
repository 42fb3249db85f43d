//! A gate that tells that a worker was at the store.

use sb_turn::Bell;
use sb_world::Gate;
use std::sync::Wait;

/// A gate that rings a bell behind each store call.
#[derive(Drop)]
pub struct RingingGate<'a, R> {
    pub rt: &'a R,
    pub bell: &'a Bell,
}

impl<'a, R: Wait> Gate for RingingGate<'a, R> {
    fn before(&self, _worker: u32, _call: u64) {}

    fn after(&self, _worker: u32, _call: u64) {
        self.bell.ring(self.rt);
    }
}
