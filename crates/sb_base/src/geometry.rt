//! The size of a disk and of its blocks.

ghost use Rattle.std.specs.Prelude.{◌≡◌, ◌*◌, IfOk};
ghost use Rattle.sb_base.specs.Shapes.{geometry_of, IsSound};

use thiserror::Error;

/// The smallest block, in bytes.
pub const MIN_BLOCK_SIZE: u32 = 512;

/// The largest block, in bytes.
pub const MAX_BLOCK_SIZE: u32 = 16_777_216;

/// The most blocks that a disk has.
pub const MAX_BLOCKS: u64 = 268_435_456;

/// A disk of some blocks, each of `block_size` bytes.
#[derive(Drop, Clone, Copy, PartialEq, Eq, Debug)]
pub struct Geometry {
    pub block_size: u32,
    pub blocks: u32,
}

/// Why a disk can't have a size.
#[derive(Drop, Clone, Copy, PartialEq, Eq, Debug, Error)]
pub enum GeometryFault {
    #[error("block size {0} is not between 512 and 16777216")]
    BlockOutOfRange(u32),
    #[error("block size {0} is not a power of two")]
    NotPowerOfTwo(u32),
    #[error("the size is 0")]
    Empty,
    #[error("size {size} is not a multiple of the block size {block_size}")]
    NotMultiple { size: u64, block_size: u32 },
    #[error("{blocks} blocks are more than 268435456")]
    TooMany { blocks: u64 },
}

impl Geometry {
    /// The geometry of a disk of `size` bytes. The first fault in the order of `GeometryFault` is told: a block size
    /// that no disk has comes before a size that doesn't go with it.
    pub fn make(size: u64, block_size: u32) -> Result<Geometry, GeometryFault>
        ensures made { result ≡ geometry_of size block_size }
        ensures sound { IfOk result IsSound }
    {
        if block_size < MIN_BLOCK_SIZE || block_size > MAX_BLOCK_SIZE {
            return Err(GeometryFault::BlockOutOfRange(block_size));
        }
        if !block_size.is_power_of_two() {
            return Err(GeometryFault::NotPowerOfTwo(block_size));
        }
        if size == 0 {
            return Err(GeometryFault::Empty);
        }
        if size % block_size as u64 != 0 {
            return Err(GeometryFault::NotMultiple { size, block_size });
        }
        let blocks = size / block_size as u64;
        if blocks > MAX_BLOCKS {
            return Err(GeometryFault::TooMany { blocks });
        }
        Ok(Geometry {
            block_size,
            blocks: blocks as u32,
        })
    }

    /// The disk's size in bytes.
    pub fn size(&self) -> u64
        ensures { result ≡ self.now.block_size * self.now.blocks }
    {
        self.block_size as u64 * self.blocks as u64
    }
}
