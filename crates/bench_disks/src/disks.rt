//! A disk of 64 blocks of 4,096 bytes.

ghost use Rattle.std.specs.Prelude.{◌≡◌, Some, IfOk};
ghost use Rattle.sb_base.specs.Ranges.{IsPart};
ghost use Rattle.sb_base.specs.SettingsTable.{IsChecked};
ghost use Rattle.sb_crew.specs.SharedDisks.{fixed_of_disk, MayUse};

use sb_base::{Geometry, Part, Settings};
use sb_core::Core;
use sb_crew::{Disk, Names};
use sb_turn::Pass;
use sb_world::Meta;
use sb_zero::Zeros;
use std::alloc::{AllocError, Global};

/// How many bytes a block has.
pub const BLOCK: u32 = 4_096;

/// How many blocks the disk has.
pub const BLOCKS: u32 = 64;

/// The disk's geometry.
pub const GEOMETRY: Geometry = Geometry {
    block_size: BLOCK,
    blocks: BLOCKS,
};

/// A disk with these settings, and its first pass.
pub fn disk_with(alloc: Global, settings: Settings) -> Result<(Disk, Pass<Core>), AllocError>
    requires { IsChecked settings (Some 64) }
    ensures ready { IfOk result (λ made. MayUse made.0 made.1) }
    ensures geometry { IfOk result (λ made. (fixed_of_disk made.0).geometry ≡ record { block_size = 4096; blocks = 64 }) }
{
    let zeros = Zeros::new(alloc, 64)?;
    let core = Core::new(alloc, GEOMETRY, settings, zeros)?;
    let names = Names {
        prefix: String::new(alloc),
        hashed: false,
        meta: Meta {
            size: 262_144,
            block_size: BLOCK,
        },
    };
    Disk::new(alloc, core, names)
}

/// The whole of a block, of the last one where there is none of this number.
pub fn whole(block: u32) -> Part
    ensures part { IsPart (record { block_size = 4096; blocks = 64 }) result }
    ensures length { result.length ≡ 4096 }
{
    Part {
        block: block.min(BLOCKS - 1),
        offset: 0,
        length: BLOCK,
    }
}
