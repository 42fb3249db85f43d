//! Disks of eight blocks of 512 bytes, and their callers.

ghost use Rattle.std.specs.Prelude.{◌≡◌, ◌≤◌, ◌^◌, Some, IfOk};
ghost use Rattle.sb_base.specs.SettingsTable.{IsChecked};
ghost use Rattle.sb_crew.specs.SharedDisks.{fixed_of_disk, MayUse};
ghost use Rattle.test_disks.specs.Callers.{MayCall};

use crate::callers::Caller;
use crate::store::SharedStore;
use sb_base::{Geometry, Settings};
use sb_core::Core;
use sb_crew::{Desk, Disk, Names};
use sb_fakes::{HandClock, PlainStore};
use sb_turn::Pass;
use sb_world::Meta;
use sb_zero::Zeros;
use std::alloc::{AllocError, Global};
use std::sync::{Mutex, Wait};

/// How many bytes a block has.
pub const BLOCK: u32 = 512;

/// The disks' geometry.
pub const GEOMETRY: Geometry = Geometry {
    block_size: BLOCK,
    blocks: 8,
};

/// A disk with these settings, and its first pass.
pub fn disk_with(alloc: Global, settings: Settings) -> Result<(Disk, Pass<Core>), AllocError>
    requires { IsChecked settings (Some 8) }
    ensures ready { IfOk result (λ made. MayUse made.0 made.1) }
    ensures geometry { IfOk result (λ made. (fixed_of_disk made.0).geometry ≡ record { block_size = 512; blocks = 8 }) }
{
    let zeros = Zeros::new(alloc, 8)?;
    let core = Core::new(alloc, GEOMETRY, settings, zeros)?;
    let names = Names {
        prefix: String::new(alloc),
        hashed: false,
        meta: Meta {
            size: 4096,
            block_size: BLOCK,
        },
    };
    Disk::new(alloc, core, names)
}

/// A caller with this pass over the store, whose clock begins at a reading in milliseconds.
pub fn caller_over<'a, R: Wait>(
    rt: &'a R,
    alloc: Global,
    store: &'a Mutex<PlainStore>,
    disk: &Disk,
    pass: Pass<Core>,
    reading: u64,
) -> Result<Caller<SharedStore<'a, R>, HandClock>, AllocError>
    requires reading { reading ≤ 2 ^ 62 }
    requires pass { MayUse disk.now pass }
    requires geometry { (fixed_of_disk disk.now).geometry ≡ record { block_size = 512; blocks = 8 } }
    ensures { IfOk result (MayCall disk.now) }
{
    let link = SharedStore { rt, store };
    let clock = HandClock::new(alloc, reading, 0, false);
    match Desk::new(alloc, link, clock, &GEOMETRY) {
        Ok(desk) => Ok(Caller { pass, desk }),
        Err(_) => Err(AllocError),
    }
}
