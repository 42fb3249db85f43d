//! What a thread works with, and its calls.

ghost use Rattle.std.specs.Prelude.{◌≡◌, ◌≤◌, ◌^◌, IfOk, length};
ghost use Rattle.sb_crew.specs.SharedDisks.{fixed_of_disk, MayUse};
ghost use Rattle.bench_disks.specs.Callers.{MayCall};

use crate::disks::{GEOMETRY, whole};
use crate::store::{Object, ShakyStore};
use rand_pcg::Pcg32;
use sb_core::Core;
use sb_crew::{CallFault, Desk, Disk, FlushFault};
use sb_host::HostClock;
use sb_turn::Pass;
use sb_world::{Clock, Link};
use std::alloc::{AllocError, Global};
use std::rt::HostRuntime;
use std::sync::{Mutex, Wait};
use std::time;
use std::time::Instant;

/// What a thread works with.
#[derive(Drop)]
pub struct Caller<L, C> {
    pub pass: Pass<Core>,
    pub desk: Desk<L, C>,
    /// Its place among the threads.
    pub place: u32,
    pub draws: Pcg32,
    /// How many of its calls went well.
    pub good: u32,
    pub calls: Vec<Made>,
}

/// A call that was made.
#[derive(Drop, Clone, Copy)]
pub struct Made {
    pub kind: Kind,
    pub block: u32,
    /// What was read or written.
    pub value: u64,
    /// The nanoseconds since the start, at its begin and its end.
    pub begun: u64,
    pub ended: u64,
    pub good: bool,
}

/// A kind of call.
#[derive(Drop, Clone, Copy, PartialEq, Eq, Debug)]
pub enum Kind {
    Read,
    Write,
    Flush,
}

/// The store's objects, and how they are reached.
#[derive(Drop)]
pub struct Reached<'a, R> {
    pub rt: &'a R,
    pub host: HostRuntime,
    pub objects: &'a Mutex<Vec<Object>>,
    pub origin: Option<Instant>,
    pub fails: u32,
    pub lag: u32,
}

/// A caller with this pass, of this place, whose draws come from a seed.
pub fn caller_over<'a, R: Wait>(
    alloc: Global,
    reached: &Reached<'a, R>,
    disk: &Disk,
    pass: Pass<Core>,
    place: u32,
    seed: u32,
) -> Result<Caller<ShakyStore<'a, R>, HostClock>, AllocError>
    requires pass { MayUse disk.now pass }
    requires geometry { (fixed_of_disk disk.now).geometry ≡ record { block_size = 4096; blocks = 64 } }
    ensures { IfOk result (MayCall disk.now) }
{
    let link = ShakyStore {
        rt: reached.rt,
        alloc,
        objects: reached.objects,
        clock: HostClock::new(reached.host, reached.origin),
        draws: Pcg32::new(seed as u64, place as u64),
        fails: reached.fails,
        lag: reached.lag as u64,
        faults: 0,
    };
    let clock = HostClock::new(reached.host, reached.origin);
    match Desk::new(alloc, link, clock, &GEOMETRY) {
        Ok(desk) => Ok(Caller {
            pass,
            desk,
            place,
            draws: Pcg32::new(seed as u64, 64 + place as u64),
            good: 0,
            calls: Vec::new(alloc),
        }),
        Err(_) => Err(AllocError),
    }
}

impl<L: Link, C: Clock> Caller<L, C> {
    /// Reads a whole block.
    pub fn read<R: Wait + time::Clock>(
        &mut self,
        rt: &R,
        disk: &Disk,
        block: u32,
        room: &mut [u8; 4096],
    ) -> Result<(), CallFault>
        requires may { MayCall disk.now self.old }
        ensures { MayCall disk.now self.new }
    {
        disk.read(rt, &mut self.pass, &mut self.desk, whole(block), room)
    }

    /// Writes a whole block.
    pub fn write<R: Wait + time::Clock>(
        &mut self,
        rt: &R,
        disk: &Disk,
        block: u32,
        room: &[u8; 4096],
    ) -> Result<(), CallFault>
        requires may { MayCall disk.now self.old }
        ensures { MayCall disk.now self.new }
    {
        disk.write(rt, &mut self.pass, &mut self.desk, whole(block), room)
    }

    /// Flushes the disk.
    pub fn flush<R: Wait + time::Clock>(&mut self, rt: &R, disk: &Disk) -> Result<(), FlushFault>
        requires may { MayCall disk.now self.old }
        ensures { MayCall disk.now self.new }
    {
        disk.flush(rt, &mut self.pass, &mut self.desk)
    }
}
