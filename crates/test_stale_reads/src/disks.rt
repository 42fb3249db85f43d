//! A disk of four blocks, and its calls of whole blocks.

ghost use Rattle.std.specs.Prelude.{◌≡◌, ◌<◌, Some, IfOk, vec_len};
ghost use Rattle.sb_base.specs.SettingsTable.{IsChecked};
ghost use Rattle.sb_core.specs.Cores.{geometry_of};
ghost use Rattle.sb_crew.specs.Disks.{core_of, IsReadyWith};
ghost use Rattle.sb_crew.specs.Ready.{IsReady};

use crate::steps::filler;
use sb_base::{Geometry, Part, Settings, Text};
use sb_core::Core;
use sb_crew::{Alone, CallFault, Calls, Desk, Names};
use sb_fakes::Object;
use sb_world::{Clock, Link, Meta, Tape};
use sb_zero::Zeros;
use std::alloc::{AllocError, Global};

/// How many bytes a block has.
pub const BLOCK: u32 = 512;

/// How many bytes the disk has.
pub const SIZE: usize = 2048;

/// The disk's geometry.
pub const GEOMETRY: Geometry = Geometry {
    block_size: BLOCK,
    blocks: 4,
};

/// A disk with no event behind it, whose objects are named by eight digits of their blocks.
pub fn disk_with<T: Tape + Drop>(
    alloc: Global,
    settings: Settings,
    tape: T,
) -> Result<Alone<T>, AllocError>
    requires checked { IsChecked settings (Some 4) }
    ensures shape { IfOk result (λ disk. geometry_of (core_of disk) ≡ GEOMETRY) }
    ensures ready { IfOk result (λ disk. IsReady disk.core disk.reading 512) }
{
    let zeros = Zeros::new(alloc, 4)?;
    let core = Core::new(alloc, GEOMETRY, settings, zeros)?;
    let names = Names {
        prefix: String::new(alloc),
        hashed: false,
        meta: Meta {
            size: 2048,
            block_size: BLOCK,
        },
    };
    Ok(Alone::new(core, names, tape))
}

/// A store's object for block 0, which is this.
pub fn first_block(alloc: Global, body: &[u8]) -> Result<Vec<Object>, AllocError> {
    let mut start = Vec::new(alloc);
    start.push(Object {
        name: Text::of(alloc, b"00000000")?,
        body: Text::of(alloc, body)?,
    })?;
    Ok(start)
}

/// A desk over a store.
pub fn desk_over<L: Link + Drop, C: Clock + Drop>(
    alloc: Global,
    store: L,
    clock: C,
) -> Result<Desk<L, C>, AllocError>
    ensures { IfOk result (λ desk. vec_len desk.room ≡ 512) }
{
    match Desk::new(alloc, store, clock, &GEOMETRY) {
        Ok(desk) => Ok(desk),
        Err(_) => Err(AllocError),
    }
}

/// All of a block.
fn whole(block: u32) -> Part
    ensures { result ≡ record { block = block; offset = 0; length = 512 } }
{
    Part {
        block,
        offset: 0,
        length: BLOCK,
    }
}

/// Writes one byte all over a block.
pub fn writes<T: Tape, L: Link, C: Clock>(
    disk: &mut Alone<T>,
    desk: &mut Desk<L, C>,
    block: u32,
    byte: u8,
) -> Result<(), CallFault>
    requires ready { IsReadyWith disk.old desk.old }
    requires shape { geometry_of (core_of disk.old) ≡ GEOMETRY }
    requires block { block < 4 }
    ensures ready { IsReadyWith disk.new desk.new }
    ensures shape { geometry_of (core_of disk.new) ≡ GEOMETRY }
{
    disk.write(desk, whole(block), &[byte; 512])
}

/// Reads a block: the byte that fills it, none where no one byte does.
pub fn reads<T: Tape, L: Link, C: Clock>(
    disk: &mut Alone<T>,
    desk: &mut Desk<L, C>,
    block: u32,
) -> Result<Option<u8>, CallFault>
    requires ready { IsReadyWith disk.old desk.old }
    requires shape { geometry_of (core_of disk.old) ≡ GEOMETRY }
    requires block { block < 4 }
    ensures ready { IsReadyWith disk.new desk.new }
    ensures shape { geometry_of (core_of disk.new) ≡ GEOMETRY }
{
    let mut out = [0; 512];
    match disk.read(desk, whole(block), &mut out) {
        Ok(()) => Ok(filler(&out)),
        Err(fault) => Err(fault),
    }
}

/// Flushes.
pub fn flushes<T: Tape, L: Link, C: Clock>(
    disk: &mut Alone<T>,
    desk: &mut Desk<L, C>,
) -> Result<(), CallFault>
    requires ready { IsReadyWith disk.old desk.old }
    requires shape { geometry_of (core_of disk.old) ≡ GEOMETRY }
    ensures ready { IsReadyWith disk.new desk.new }
    ensures shape { geometry_of (core_of disk.new) ≡ GEOMETRY }
{
    match disk.flush(desk) {
        Ok(()) => Ok(()),
        Err(fault) => Err(CallFault::from(fault)),
    }
}
