//! The bytes of a disk, beside it.

ghost use Rattle.std.specs.Prelude.{◌≡◌, ◌+◌, ◌*◌, ◌<◌, ◌≤◌, length, take, drop, vec_len};
ghost use Rattle.sb_base.specs.Ranges.{IsPart};
ghost use Rattle.sb_history.specs.Contents.{overlay};
ghost use Rattle.test_stale_reads.specs.declared.disks.TheConstants.{GEOMETRY};

use crate::disks::{BLOCK, SIZE};
use crate::draws::Draws;
use sb_base::Part;
use std::alloc::{AllocError, Global};

/// The bytes of all blocks, one block after the other.
#[derive(Drop)]
pub struct Image {
    bytes: Vec<u8>,
    ghost whole: { vec_len bytes ≡ 2048 },
}

/// Where a part begins on the disk.
fn place(part: Part) -> usize
    requires { IsPart GEOMETRY part }
    ensures place { result ≡ part.block * 512 + part.offset }
    ensures within { result + part.length ≤ 2048 }
{
    (part.block * BLOCK + part.offset) as usize
}

/// The first block of some bytes.
fn front(bytes: &[u8]) -> &[u8]
    requires { 512 ≤ length bytes.now }
    ensures { result.now ≡ take 512 bytes.now }
{
    &bytes[..BLOCK as usize]
}

impl Image {
    /// Blocks 0 and 1 of random bytes, and zeros behind them.
    pub fn drawn(alloc: Global, draws: &mut Draws) -> Result<Image, AllocError> {
        let mut front = [0; 1024];
        draws.scatter(&mut front);
        let mut bytes = Vec::new(alloc);
        bytes.extend_from_slice(&front)?;
        bytes.resize(SIZE, 0)?;
        Ok(Image { bytes })
    }

    /// The same bytes once more.
    pub fn copy(&self, alloc: Global) -> Result<Image, AllocError> {
        let mut bytes = Vec::new(alloc);
        bytes.extend_from_slice(&self.bytes)?;
        Ok(Image { bytes })
    }

    /// The bytes of all blocks.
    pub fn bytes(&self) -> &[u8]
        ensures bytes { result.now ≡ self.now.bytes.items }
        ensures length { length result.now ≡ 2048 }
    {
        self.bytes.as_slice()
    }

    /// The bytes of a block.
    pub fn block(&self, block: u32) -> &[u8]
        requires { block < 4 }
        ensures { result.now ≡ take 512 (drop (block * 512) self.now.bytes.items) }
    {
        let from = (block * BLOCK) as usize;
        front(&self.bytes[from..])
    }

    /// Whether a part has these bytes.
    pub fn has(&self, part: Part, bytes: &[u8]) -> bool
        requires part { IsPart GEOMETRY part }
    {
        let from = place(part);
        bytes == &self.bytes[from..from + part.length as usize]
    }

    /// Writes a part.
    pub fn set(&mut self, part: Part, bytes: &[u8])
        requires part { IsPart GEOMETRY part }
        requires bytes { length bytes.now ≡ part.length }
        ensures { self.new.bytes.items
            ≡ overlay self.old.bytes.items (part.block * 512 + part.offset) bytes.now }
    {
        let from = place(part);
        self.bytes[from..from + bytes.len()].copy_from_slice(bytes);
    }
}
