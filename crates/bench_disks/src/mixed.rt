//! Reads, writes and flushes at random, each told with its times.

ghost use Rattle.std.specs.Prelude.{All};
ghost use Rattle.sb_crew.specs.SharedDisks.{fixed_of_disk, MayUse};
ghost use Rattle.bench_disks.specs.Callers.{MayCall};

use crate::callers::{Caller, Kind, Made, Reached};
use crate::disks::disk_with;
use crate::reads::{Reader, crew_of};
use crate::store::Object;
use rand_core::Rng;
use sb_base::Settings;
use sb_crew::Disk;
use std::rt::HostRuntime;
use std::sync::{Mutex, Wait};
use std::thread::{self, Threads};
use std::time::{self, Instant};

/// The most threads.
const MOST_THREADS: usize = 64;

/// Few blocks stay in the cache, and puts are soon due.
const SETTINGS: Settings = Settings {
    min_write_delay: 20,
    md5_time: 10_000,
    md5_size: 10_000,
    cache_size: 4,
    write_delay: 5,
    clean_time: 0,
    max_dirty: 0,
    stale_limit: 5_000,
    read_ahead: 4,
    read_ahead_trigger: 0,
    threads: 20,
    clients: 4,
};

/// How many of the blocks are called for.
const CALLED: u32 = 8;

/// A trial.
#[derive(Drop, Clone, Copy)]
pub struct Trial {
    pub threads: u32,
    pub rounds: u32,
    pub seed: u32,
    pub fails: u32,
    pub lag: u32,
}

/// Runs a trial, and prints its calls and then the store's objects.
pub fn run<R: Threads + Wait + time::Clock + Sync>(
    rt: &R,
    host: HostRuntime,
    trial: Trial,
) -> anyhow::Result<()> {
    let alloc = host.alloc();
    let (disk, mut pass) = disk_with(alloc, SETTINGS)?;
    let objects = Mutex::new(Vec::new(alloc));
    let origin = Instant::now(&host).ok();
    let reached = Reached {
        rt,
        host,
        objects: &objects,
        origin,
        fails: trial.fails,
        lag: trial.lag,
    };
    let mut crew = crew_of(alloc, &reached, &disk, &mut pass, trial.threads, trial.seed)?;
    all_call(rt, host, &disk, crew.as_mut_slice(), origin, trial.rounds);
    print_calls(host, crew.as_slice())?;
    let objects = objects.lock(rt);
    print_objects(host, objects.as_slice())
}

/// Each caller makes so many calls, and then flushes until that goes well.
fn all_call<R: Threads + Wait + time::Clock + Sync>(
    rt: &R,
    host: HostRuntime,
    disk: &Disk,
    crew: &mut [Reader<'_, R>],
    origin: Option<Instant>,
    rounds: u32,
)
    requires { All (MayCall disk.now) crew.old }
{
    thread::for_each_mut(
        rt,
        crew,
        MOST_THREADS,
        &|_, caller: &mut Reader<'_, R>|
            requires { MayCall disk.now caller.old }
        { call_often(rt, host, disk, caller, origin, rounds) },
    );
}

/// Makes so many calls, and then flushes until that goes well.
fn call_often<R: Wait + time::Clock>(
    rt: &R,
    host: HostRuntime,
    disk: &Disk,
    caller: &mut Reader<'_, R>,
    origin: Option<Instant>,
    rounds: u32,
)
    requires { MayCall disk.now caller.old }
{
    'rounds: for round in 0..rounds {
        call_once(rt, host, disk, caller, origin, round);
    }
    'flushes: for _ in 0..1_000 {
        if caller.flush(rt, disk).is_ok() {
            return;
        }
    }
}

/// Makes one call, and keeps it.
fn call_once<R: Wait + time::Clock>(
    rt: &R,
    host: HostRuntime,
    disk: &Disk,
    caller: &mut Reader<'_, R>,
    origin: Option<Instant>,
    round: u32,
)
    requires { MayCall disk.now caller.old }
    ensures { MayCall disk.now caller.new }
{
    let drawn = caller.draws.next_u32();
    let block = drawn % CALLED;
    let begun = nanos(&host, origin);
    let (kind, value, good) = match (drawn >> 8) & 15 {
        0 => (Kind::Flush, 0, caller.flush(rt, disk).is_ok()),
        1..=6 => {
            let value = stamp(caller.place, round);
            let room = filled(value);
            (
                Kind::Write,
                value,
                caller.write(rt, disk, block, &room).is_ok(),
            )
        }
        _ => {
            let mut room = [0; 4096];
            let good = caller.read(rt, disk, block, &mut room).is_ok();
            (Kind::Read, value_of(&room), good)
        }
    };
    let made = Made {
        kind,
        block,
        value,
        begun,
        ended: nanos(&host, origin),
        good,
    };
    // one that finds no memory is left out
    match caller.calls.push(made) {
        Ok(()) | Err(_) => {}
    }
}

/// The nanoseconds since the start.
fn nanos(rt: &HostRuntime, origin: Option<Instant>) -> u64 {
    match origin {
        Some(origin) => match origin.elapsed(rt) {
            Ok(passed) => u64::try_from(passed.as_nanos()).unwrap_or(u64::MAX),
            Err(_) => 0,
        },
        None => 0,
    }
}

/// A value that no other write has.
fn stamp(place: u32, round: u32) -> u64 {
    ((place as u64 + 1) << 32) | round as u64
}

/// A block that has a value throughout.
fn filled(value: u64) -> [u8; 4096] {
    let mut room = [0; 4096];
    for piece in room.chunks_mut(8) {
        let bytes = value.to_le_bytes();
        if piece.len() == bytes.len() {
            piece.copy_from_slice(&bytes);
        }
    }
    room
}

/// The value that a block has throughout, and 2^64 - 1 where it has not one.
fn value_of(room: &[u8]) -> u64 {
    let Some(first) = room.first_chunk::<8>() else {
        return u64::MAX;
    };
    if room.chunks(8).all(|piece| piece == first.as_slice()) {
        u64::from_le_bytes(*first)
    } else {
        u64::MAX
    }
}

/// Prints each call.
fn print_calls<R>(rt: HostRuntime, crew: &[Reader<'_, R>]) -> anyhow::Result<()> {
    for caller in crew.iter() {
        for made in caller.calls.iter() {
            let kind = match made.kind {
                Kind::Read => "read",
                Kind::Write => "write",
                Kind::Flush => "flush",
            };
            let outcome = if made.good { "good" } else { "failed" };
            println!(rt;
                "{} {} {} {} {} {}",
                kind, made.block, made.value, made.begun, made.ended, outcome
            )?;
        }
    }
    Ok(())
}

/// Prints each object of the store: its name and its value.
fn print_objects(rt: HostRuntime, objects: &[Object]) -> anyhow::Result<()> {
    for object in objects.iter() {
        let name = std::str::from_utf8(object.name.as_slice())?;
        println!(rt; "object {} {}", name, value_of(object.body.as_slice()))?;
    }
    Ok(())
}
