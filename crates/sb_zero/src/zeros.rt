//! A set of blocks, a bit each. Block 64 w + b is bit b of word w.

ghost use Rattle.std.specs.Prelude.{ℕ, ◌≡◌, ◌<◌, ◌≤◌, ◌+◌, ◌*◌, ◌/◌, true, false, vec_len, replicate, IfOk};
ghost use Rattle.sb_history.specs.Eviction.{count};
ghost use Rattle.sb_zero.specs.Marks.{is_set, SetsBit};

use std::alloc::{AllocError, Global};

/// Which blocks of a disk are known to be zeros. 2^28 blocks take 32 MiB, once. How many they are is kept.
#[derive(Drop)]
pub struct Zeros {
    words: Vec<u64>,
    blocks: u32,
    marked: u32,
    ghost sized: { vec_len words ≡ blocks / 64 + 1 },
    ghost counted: { marked ≡ count (is_set words.items) blocks },
}

impl Zeros {
    ghost use Rattle.sb_zero.specs.Sets.{blocks_of, is_marked, Sets};

    /// None of so many blocks.
    pub fn new(alloc: Global, blocks: u32) -> Result<Zeros, AllocError>
        ensures blocks { IfOk result (λ zeros. blocks_of zeros ≡ blocks) }
        ensures none { IfOk result (λ zeros. (block : ℕ) → is_marked zeros block ≡ false) }
    {
        let words = empty_words(alloc, (blocks / 64) as usize + 1)?;
        Ok(Zeros {
            words,
            blocks,
            marked: 0,
        })
    }

    /// Whether a block is known to be zeros.
    pub fn is_zero(&self, block: u32) -> bool
        requires { block < blocks_of self.now }
        ensures { result ≡ is_marked self.now block }
    {
        (self.words[(block / 64) as usize] >> (block % 64)) & 1 == 1
    }

    /// A block is known to be zeros from now on.
    pub fn mark(&mut self, block: u32)
        requires { block < blocks_of self.old }
        ensures { Sets self.old self.new block true }
    {
        if !self.is_zero(block) {
            let at = (block / 64) as usize;
            self.words[at] = with_bit(self.words[at], block % 64);
            self.marked += 1;
        }
    }

    /// A block isn't known to be zeros any more.
    pub fn clear(&mut self, block: u32)
        requires { block < blocks_of self.old }
        ensures { Sets self.old self.new block false }
    {
        if self.is_zero(block) {
            let at = (block / 64) as usize;
            self.words[at] = without_bit(self.words[at], block % 64);
            self.marked -= 1;
        }
    }

    /// All blocks are known to be zeros from now on.
    pub fn mark_all(&mut self)
        ensures blocks { blocks_of self.new ≡ blocks_of self.old }
        ensures all { (block : ℕ) → block < blocks_of self.new → is_marked self.new block ≡ true }
    {
        fill(&mut self.words);
        self.marked = self.blocks;
    }

    /// How many blocks are known to be zeros.
    pub fn count(&self) -> u32
        ensures { result ≡ count (is_marked self.now) (blocks_of self.now) }
    {
        self.marked
    }
}

/// So many words without a bit.
fn empty_words(alloc: Global, count: usize) -> Result<Vec<u64>, AllocError>
    ensures items { IfOk result (λ words. words.items ≡ replicate count 0) }
    ensures count { IfOk result (λ words. vec_len words ≡ count) }
{
    let mut words = Vec::new(alloc);
    words.resize(count, 0)?;
    Ok(words)
}

/// Sets all bits.
fn fill(words: &mut Vec<u64>)
    ensures items { words.new.items ≡ replicate (vec_len words.old) 18446744073709551615 }
    ensures count { vec_len words.new ≡ vec_len words.old }
{
    words.fill(u64::MAX);
}

/// A word with this bit.
fn with_bit(word: u64, bit: u32) -> u64
    requires { bit < 64 }
    ensures { SetsBit word result bit 1 }
{
    word | (1 << bit)
}

/// A word without this bit.
fn without_bit(word: u64, bit: u32) -> u64
    requires { bit < 64 }
    ensures { SetsBit word result bit 0 }
{
    word & !(1 << bit)
}
