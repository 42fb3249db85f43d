//! Callers of a disk and its workers, each in a thread of its own.

ghost use Rattle.std.specs.Prelude.{◌≡◌, ◌<◌};
ghost use Rattle.sb_base.specs.Ranges.{IsPart};
ghost use Rattle.sb_crew.specs.Safety.{IsSafe};
ghost use Rattle.sb_crew.specs.Sharing.{seen_by};
ghost use Rattle.sb_crew.specs.SharedDisks.{fixed_of_disk, MayUse};
ghost use Rattle.test_disks.specs.Callers.{MayCall};

use sb_base::Part;
use sb_core::Core;
use sb_crew::{CallFault, Desk, Disk, WorkEnd};
use sb_turn::{Bell, Pass};
use sb_world::{Clock, Gate, Link};
use std::sync::Wait;
use std::thread::{Threads, join};
use std::time;

/// How long a caller waits at most for a worker, in milliseconds.
const PATIENCE: u64 = 30_000;

/// What a thread works with.
#[derive(Drop)]
pub struct Caller<L, C> {
    pub pass: Pass<Core>,
    pub desk: Desk<L, C>,
}

/// What two callers left: the pass that knows of both, and how often each read what it had written.
#[derive(Drop)]
pub struct Played {
    pub pass: Pass<Core>,
    pub same: (Result<u32, CallFault>, Result<u32, CallFault>),
}

/// Two callers, each in a thread of its own. Each writes its byte over its own block so often, flushes each time and reads
/// it back. At the end their passes are joined to this one: in the one history of both each read is that of a register,
/// and each flush that is done has saved what was written before, over every store within delays that the settings cover.
pub fn both_play<
    R: Threads + Wait + time::Clock + Sync,
    L: Link + Send + Drop,
    C: Clock + Send + Drop,
>(
    rt: &R,
    disk: &Disk,
    mut pass: Pass<Core>,
    one: Caller<L, C>,
    two: Caller<L, C>,
    rounds: u32,
) -> Played
    requires pass { MayUse disk.now pass }
    requires one { MayCall disk.now one }
    requires two { MayCall disk.now two }
    ensures safe { IsSafe (fixed_of_disk disk.now) (seen_by result.pass) }
{
    let (one, two) = join(
        rt,
        || -> (Pass<Core>, Result<u32, CallFault>)
            requires { MayCall disk.now one }
            ensures { MayUse disk.entry.now result.0 }
        { play(rt, disk, one, 0, b'A', rounds) },
        || -> (Pass<Core>, Result<u32, CallFault>)
            requires { MayCall disk.now two }
            ensures { MayUse disk.entry.now result.0 }
        { play(rt, disk, two, 1, b'B', rounds) },
    );
    disk.join(&mut pass, one.0);
    disk.join(&mut pass, two.0);
    disk.is_safe(&pass);
    Played {
        pass,
        same: (one.1, two.1),
    }
}

/// Writes a byte over a block of 512 bytes, so often, flushes each time, and reads it back. It gives its pass back.
fn play<R: Wait + time::Clock, L: Link + Drop, C: Clock + Drop>(
    rt: &R,
    disk: &Disk,
    mut caller: Caller<L, C>,
    block: u32,
    byte: u8,
    rounds: u32,
) -> (Pass<Core>, Result<u32, CallFault>)
    requires may { MayCall disk.now caller }
    requires block { block < 8 }
    ensures { MayUse disk.now result.0 }
{
    let mut same: u32 = 0;
    'rounds: for _ in 0..rounds {
        match keeps(rt, disk, &mut caller, block, byte) {
            Ok(true) => same = same.saturating_add(1),
            Ok(false) => {}
            Err(fault) => return (pass_of(caller), Err(fault)),
        }
    }
    (pass_of(caller), Ok(same))
}

/// The pass of a caller.
fn pass_of<L: Drop, C: Drop>(caller: Caller<L, C>) -> Pass<Core>
    ensures { result ≡ caller.pass }
{
    let Caller { pass, desk: _ } = caller;
    pass
}

/// Writes a byte over a block of 512 bytes, flushes, and reads the block: whether it has this byte throughout.
fn keeps<R: Wait + time::Clock, L: Link, C: Clock>(
    rt: &R,
    disk: &Disk,
    caller: &mut Caller<L, C>,
    block: u32,
    byte: u8,
) -> Result<bool, CallFault>
    requires may { MayCall disk.now caller.old }
    requires block { block < 8 }
    ensures { MayCall disk.now caller.new }
{
    write_block(rt, disk, caller, block, byte)?;
    disk.flush(rt, &mut caller.pass, &mut caller.desk)?;
    let mut out = [0; 512];
    disk.read(
        rt,
        &mut caller.pass,
        &mut caller.desk,
        whole(block),
        &mut out,
    )?;
    Ok(out == [byte; 512])
}

/// Writes a byte over a block of 512 bytes.
pub fn write_block<R: Wait + time::Clock, L: Link, C: Clock>(
    rt: &R,
    disk: &Disk,
    caller: &mut Caller<L, C>,
    block: u32,
    byte: u8,
) -> Result<(), CallFault>
    requires may { MayCall disk.now caller.old }
    requires block { block < 8 }
    ensures { MayCall disk.now caller.new }
{
    disk.write(
        rt,
        &mut caller.pass,
        &mut caller.desk,
        whole(block),
        &[byte; 512],
    )
}

/// The whole of a block.
fn whole(block: u32) -> Part
    requires { block < 8 }
    ensures part { IsPart (record { block_size = 512; blocks = 8 }) result }
    ensures length { result.length ≡ 512 }
{
    Part {
        block,
        offset: 0,
        length: 512,
    }
}

/// A worker, and a caller who closes the disk where the bell was rung since the mark, each in a thread of its own.
pub fn work_and_close<
    R: Threads + Wait + time::Clock + Sync,
    L: Link + Send + Drop,
    C: Clock + Send + Drop,
    G: Gate + Sync,
>(
    rt: &R,
    disk: &Disk,
    worker: Caller<L, C>,
    gate: &G,
    closer: Caller<L, C>,
    bell: &Bell,
    mark: u64,
) -> WorkEnd
    requires worker { MayCall disk.now worker }
    requires closer { MayCall disk.now closer }
{
    let (end, ()) = join(
        rt,
        || -> WorkEnd
            requires { MayCall disk.now worker }
        { work(rt, disk, worker, gate) },
        || -> ()
            requires { MayCall disk.now closer }
        { close(rt, disk, closer, bell, mark) },
    );
    end
}

/// Works until the disk is closed.
fn work<R: Wait + time::Clock, L: Link + Drop, C: Clock + Drop, G: Gate>(
    rt: &R,
    disk: &Disk,
    mut worker: Caller<L, C>,
    gate: &G,
) -> WorkEnd
    requires { MayCall disk.now worker }
{
    disk.work(rt, &mut worker.pass, &mut worker.desk, gate, 0)
}

/// Closes the disk where the bell was rung since the mark.
fn close<R: Wait + time::Clock, L: Link + Drop, C: Clock + Drop>(
    rt: &R,
    disk: &Disk,
    mut closer: Caller<L, C>,
    bell: &Bell,
    mark: u64,
)
    requires { MayCall disk.now closer }
{
    bell.wait(rt, mark, PATIENCE);
    disk.close(rt, &mut closer.pass, &mut closer.desk.clock);
}
