//! Numbers, parts and contents that look random, and are the same for the same seed.

ghost use Rattle.std.specs.Prelude.{◌<◌, ◌≡◌, length};
ghost use Rattle.sb_base.specs.Ranges.{IsPart};
ghost use Rattle.test_stale_reads.specs.declared.disks.TheConstants.{GEOMETRY};

use crate::disks::{BLOCK, GEOMETRY};
use rand_core::Rng;
use rand_pcg::Pcg32;
use sb_base::Part;

/// The stream of the generator.
const STREAM: u64 = 54;

/// Draws from a seed.
#[derive(Drop)]
pub struct Draws {
    words: Pcg32,
}

impl Draws {
    /// Draws from a seed.
    pub fn new(seed: u64) -> Draws {
        Draws {
            words: Pcg32::new(seed, STREAM),
        }
    }

    /// A number below a bound.
    pub fn below(&mut self, bound: u32) -> u32
        requires { 0 < bound }
        ensures { result < bound }
    {
        self.words.next_u32() % bound
    }

    /// A place among so many.
    pub fn place(&mut self, count: usize) -> usize
        requires { 0 < count }
        ensures { result < count }
    {
        self.words.next_u32() as usize % count
    }

    /// A number below a count that isn't 0, as one of 32 bits.
    pub fn number(&mut self, count: usize) -> u32
        requires { 0 < count }
        ensures { result < count }
    {
        let place = self.place(count);
        u32::try_from(place).unwrap_or(0)
    }

    /// One of some numbers, and another one where there is none.
    pub fn one_of(&mut self, numbers: &[u32], otherwise: u32) -> u32
        ensures { length numbers.now ≡ 0 → result ≡ otherwise }
    {
        if numbers.is_empty() {
            return otherwise;
        }
        numbers[self.place(numbers.len())]
    }

    /// A part of a block of the disk: a whole one once in four times.
    pub fn part(&mut self) -> Part
        ensures { IsPart GEOMETRY result }
    {
        let block = self.below(GEOMETRY.blocks);
        if self.below(4) == 0 {
            return Part {
                block,
                offset: 0,
                length: BLOCK,
            };
        }
        let offset = self.below(BLOCK);
        let length = 1 + self.below(BLOCK - offset);
        Part {
            block,
            offset,
            length,
        }
    }

    /// Fills a buffer: with zeros once in eight times, and else with random bytes.
    pub fn fill(&mut self, out: &mut [u8])
        ensures { length out.new ≡ length out.old }
    {
        if self.below(8) == 0 {
            out.fill(0);
        } else {
            self.scatter(out);
        }
    }

    /// Fills a buffer with random bytes.
    pub fn scatter(&mut self, out: &mut [u8])
        ensures { length out.new ≡ length out.old }
    {
        for byte in out.iter_mut() {
            *byte = (self.below(256) & 0xff) as u8;
        }
    }
}
