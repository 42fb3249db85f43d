//! The parts of a range of bytes, one for each block that the range meets.

ghost use Rattle.std.specs.Prelude.{◌≡◌, ◌+◌, All, sum_by};
ghost use Rattle.sb_base.specs.Shapes.{IsSound};
ghost use Rattle.sb_base.specs.Ranges.{IsPart, IsRange, parts_of};

use crate::geometry::Geometry;
use crate::range::Parts;

/// Some bytes of one block.
#[derive(Drop, Clone, Copy, PartialEq, Eq, Debug)]
pub struct Part {
    pub block: u32,
    /// Where the bytes begin in the block.
    pub offset: u32,
    /// How many they are.
    pub length: u32,
}

/// The parts of the `length` bytes from `offset` on. It takes no memory.
pub fn parts(geometry: &Geometry, offset: u64, length: u64) -> Parts
    requires sound { IsSound geometry.now }
    requires range { IsRange geometry.now offset (offset + length) }
    ensures parts { result ≡ parts_of geometry.now.block_size offset (offset + length) }
    ensures each { All (IsPart geometry.now) result }
    ensures whole { sum_by (λ part. part.length) result ≡ length }
{
    Parts::between(geometry.block_size, offset, offset + length)
}
