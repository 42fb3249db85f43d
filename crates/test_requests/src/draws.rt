//! Numbers and texts that look random, and are the same for the same seed.

ghost use Rattle.std.specs.Prelude.{◌<◌, ◌≤◌, length};

use rand_core::Rng;
use rand_pcg::Pcg32;
use sb_base::Text;
use std::alloc::{AllocError, Global};

/// The stream of the generator.
const STREAM: u64 = 54;

/// Draws from a permuted congruential generator.
#[derive(Drop)]
pub struct Draws {
    words: Pcg32,
}

impl Draws {
    /// Draws from a seed.
    pub fn new(seed: u64) -> Draws {
        Draws {
            words: Pcg32::new(seed, STREAM),
        }
    }

    /// A number below a bound.
    pub fn below(&mut self, bound: u32) -> u32
        requires { 0 < bound }
        ensures { result < bound }
    {
        self.words.next_u32() % bound
    }

    /// At least and at most so many of these bytes.
    pub fn text(
        &mut self,
        alloc: Global,
        bytes: &[u8],
        least: u8,
        most: u8,
    ) -> Result<Text, AllocError>
        requires bytes { (0 < length bytes.now) × (length bytes.now < 256) }
        requires lengths { least ≤ most }
    {
        let count = u32::from(least) + self.below(u32::from(most - least) + 1);
        let mut text = Vec::new(alloc);
        for _ in 0..count {
            let place = self.below(bytes.len() as u32) as usize;
            text.push(bytes[place])?;
        }
        Ok(Text::from_vec(text))
    }
}
