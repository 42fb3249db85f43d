//! Numbers and texts that look random, and are the same for the same seed.

ghost use Rattle.std.specs.Prelude.{◌<◌, ◌≤◌, length};

use sb_base::Text;
use std::alloc::{AllocError, Global};

/// A linear congruential generator modulo 2^64, with Knuth's constants of MMIX.
#[derive(Drop)]
pub struct Draws {
    state: u64,
}

impl Draws {
    /// Draws from a seed.
    pub fn new(seed: u64) -> Draws {
        Draws { state: seed }
    }

    /// A number below a bound.
    pub fn below(&mut self, bound: u64) -> u64
        requires { 0 < bound }
        ensures { result < bound }
    {
        self.state = self
            .state
            .wrapping_mul(6_364_136_223_846_793_005)
            .wrapping_add(1_442_695_040_888_963_407);
        (self.state >> 24) % bound
    }

    /// At least and at most so many of these bytes.
    pub fn text(
        &mut self,
        alloc: Global,
        bytes: &[u8],
        least: u8,
        most: u8,
    ) -> Result<Text, AllocError>
        requires bytes { 0 < length bytes.now }
        requires lengths { least ≤ most }
    {
        let count = u64::from(least) + self.below(u64::from(most - least) + 1);
        let mut text = Vec::new(alloc);
        for _ in 0..count {
            let place = self.below(bytes.len() as u64) as usize;
            text.push(bytes[place])?;
        }
        Ok(Text::from_vec(text))
    }
}
