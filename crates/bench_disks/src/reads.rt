//! Reads of cached blocks.

ghost use Rattle.std.specs.Prelude.{◌≡◌, All, IfOk};
ghost use Rattle.sb_crew.specs.SharedDisks.{fixed_of_disk, MayUse};
ghost use Rattle.bench_disks.specs.Callers.{MayCall};

use crate::callers::{Caller, Reached, caller_over};
use crate::disks::disk_with;
use crate::store::ShakyStore;
use sb_base::Settings;
use sb_core::Core;
use sb_crew::Disk;
use sb_host::HostClock;
use sb_turn::Pass;
use std::alloc::{AllocError, Global};
use std::rt::HostRuntime;
use std::sync::{Mutex, Wait};
use std::thread::{self, Threads};
use std::time::{self, Instant};

/// The most threads.
const MOST_THREADS: usize = 64;

/// A disk's settings by default, of which each block stays in the cache.
const SETTINGS: Settings = Settings {
    min_write_delay: 500,
    md5_time: 10_000,
    md5_size: 10_000,
    cache_size: 64,
    write_delay: 250,
    clean_time: 0,
    max_dirty: 0,
    stale_limit: 5_000,
    read_ahead: 4,
    read_ahead_trigger: 0,
    threads: 20,
    clients: 4,
};

/// A caller of this crate.
pub type Reader<'a, R> = Caller<ShakyStore<'a, R>, HostClock>;

/// How many reads went well, where each of so many threads reads its block so often.
pub fn count<R: Threads + Wait + time::Clock + Sync>(
    rt: &R,
    host: HostRuntime,
    threads: u32,
    rounds: u32,
) -> Result<u64, AllocError> {
    let alloc = host.alloc();
    let (disk, mut pass) = disk_with(alloc, SETTINGS)?;
    let objects = Mutex::new(Vec::new(alloc));
    let reached = Reached {
        rt,
        host,
        objects: &objects,
        origin: Instant::now(&host).ok(),
        fails: 0,
        lag: 0,
    };
    let mut crew = crew_of(alloc, &reached, &disk, &mut pass, threads, 0)?;
    all_read(rt, &disk, crew.as_mut_slice(), rounds);
    let mut good: u64 = 0;
    for caller in crew.iter() {
        good = good.saturating_add(caller.good as u64);
    }
    Ok(good)
}

/// So many callers.
pub fn crew_of<'a, R: Wait>(
    alloc: Global,
    reached: &Reached<'a, R>,
    disk: &Disk,
    pass: &mut Pass<Core>,
    threads: u32,
    seed: u32,
) -> Result<Vec<Reader<'a, R>>, AllocError>
    requires pass { MayUse disk.now pass.old }
    requires geometry { (fixed_of_disk disk.now).geometry ≡ record { block_size = 4096; blocks = 64 } }
    ensures crew { IfOk result (λ crew. All (MayCall disk.now) crew.items) }
    ensures pass { MayUse disk.now pass.new }
{
    let mut crew = Vec::new(alloc);
    'callers: for place in 0..threads {
        let theirs = disk.split(reached.rt, pass);
        crew.push(caller_over(alloc, reached, disk, theirs, place, seed)?)?;
    }
    Ok(crew)
}

/// Each caller reads its block so often.
fn all_read<R: Threads + Wait + time::Clock + Sync>(
    rt: &R,
    disk: &Disk,
    crew: &mut [Reader<'_, R>],
    rounds: u32,
)
    requires { All (MayCall disk.now) crew.old }
{
    thread::for_each_mut(
        rt,
        crew,
        MOST_THREADS,
        &|_, caller: &mut Reader<'_, R>|
            requires { MayCall disk.now caller.old }
        { read_often(rt, disk, caller, rounds) },
    );
}

/// Reads the caller's block so often.
fn read_often<R: Wait + time::Clock>(rt: &R, disk: &Disk, caller: &mut Reader<'_, R>, rounds: u32)
    requires { MayCall disk.now caller.old }
{
    let mut room = [0; 4096];
    'rounds: for _ in 0..rounds {
        if caller.read(rt, disk, caller.place, &mut room).is_ok() {
            caller.good = caller.good.saturating_add(1);
        }
    }
}
