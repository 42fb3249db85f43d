//! A driver for the tests: a small disk with two cached blocks, and what comes of its events.

ghost use Rattle.std.specs.Prelude.{◌≡◌, ◌<◌, ◌≤◌, ◌^◌, IfOk, Some, None, length};
ghost use Rattle.sb_base.specs.Ranges.{IsPart};
ghost use Rattle.sb_base.specs.Lines.{shown_of};
ghost use Rattle.sb_zero.specs.Sets.{blocks_of};
ghost use Rattle.sb_core.specs.Cores.{geometry_of};
ghost use Rattle.sb_core.specs.Steps.{HasGet, ShownFits};
ghost use Rattle.sb_core.specs.Trials.{KeepsPut};

use crate::job::{GetJob, PutJob};
use crate::{Core, FlushStep, GetDone, JobStep, ReadStep, WriteStep};
use sb_base::{Answer, Geometry, Part, Settings, Why};
use sb_zero::Zeros;
use std::alloc::Global;
use std::test::Fail;

/// Sixteen blocks of 512 bytes.
pub(crate) const GEOMETRY: Geometry = Geometry {
    block_size: 512,
    blocks: 16,
};

/// The store has the blocks from this one on, whose bytes are all 67, and no other.
const STORED: u32 = 8;

/// Two blocks are cached. Puts are spaced by 500 ms, and MD5s are kept for 10 s.
const SETTINGS: Settings = Settings {
    min_write_delay: 500,
    md5_time: 10_000,
    md5_size: 10_000,
    cache_size: 2,
    write_delay: 250,
    clean_time: 0,
    max_dirty: 0,
    stale_limit: 5000,
    read_ahead: 0,
    read_ahead_trigger: 0,
    threads: 1,
    clients: 1,
};

/// An event. A GET that it asks for is answered at once, and a PUT stays open until its end.
#[derive(Drop, Clone, Copy, PartialEq, Eq, Debug)]
pub(crate) enum Act {
    /// A write of this byte all over the block.
    Write(u32, u8),
    /// A write of this byte over half of the block, from this offset on.
    WriteHalf(u32, u32, u8),
    /// Zeros all over the block.
    Zero(u32),
    /// Zeros over half of the block, from this offset on.
    ZeroHalf(u32, u32),
    /// A read of the last byte of the block.
    Read(u32),
    FlushBegin,
    FlushStep(u64),
    PutOk,
    PutFailed,
    /// What a worker has to do.
    NextJob,
    Close,
}

/// What came of it.
#[derive(Drop, Clone, Copy, PartialEq, Eq, Debug)]
pub(crate) enum Seen {
    Done,
    Byte(u8),
    Mark(u64),
    Waits(Why),
    Got(u32, GetDone),
    Dropped(u32),
    Put(u32),
    Delete(u32),
    Sleeps(u64),
    Closed,
    NoSuchBlock,
    NothingOpen,
}

/// A PUT that is open: its block, and whether the content is zeros.
type Opened = Option<(u32, bool)>;

/// A disk of which so many blocks may be dirty, any where that is 0.
pub(crate) fn disk(alloc: Global, max_dirty: u32) -> Result<Core, Fail>
    requires { max_dirty ≤ 2 }
    ensures { IfOk result (λ core. geometry_of core ≡ GEOMETRY) }
{
    known_disk(alloc, max_dirty, Zeros::new(alloc, GEOMETRY.blocks)?)
}

/// A disk of which these blocks are known to be zeros.
pub(crate) fn known_disk(alloc: Global, max_dirty: u32, zeros: Zeros) -> Result<Core, Fail>
    requires dirty { max_dirty ≤ 2 }
    requires zeros { blocks_of zeros ≡ 16 }
    ensures { IfOk result (λ core. geometry_of core ≡ GEOMETRY) }
{
    let settings = Settings {
        max_dirty,
        ..SETTINGS
    };
    settings.check(Some(GEOMETRY.blocks))?;
    Ok(Core::new(alloc, GEOMETRY, settings, zeros)?)
}

/// Keeps a PUT open.
fn opens(opened: &mut Opened, job: PutJob) -> Seen
    ensures { opened.new ≡ Some (job.block, job.zeros) }
{
    let PutJob { block, zeros } = job;
    *opened = Some((block, zeros));
    if zeros {
        Seen::Delete(block)
    } else {
        Seen::Put(block)
    }
}

/// Ends a GET, after which no PUT counts as open.
fn gets(core: &mut Core, opened: &mut Opened, now: u64, job: GetJob) -> Seen
    requires disk { geometry_of core.old ≡ GEOMETRY }
    requires now { now ≤ 2 ^ 62 }
    requires job { HasGet core.old 1 job }
    ensures disk { geometry_of core.new ≡ GEOMETRY }
    ensures closed { opened.new ≡ None }
{
    *opened = None;
    let block = job.block();
    if block < STORED {
        return Seen::Got(block, answers(core, now, job, Answer::Absent));
    }
    let stored = [67; 512];
    Seen::Got(block, answers(core, now, job, Answer::Bytes(&stored)))
}

fn answers(core: &mut Core, now: u64, job: GetJob, answer: Answer<'_>) -> GetDone
    requires disk { geometry_of core.old ≡ GEOMETRY }
    requires now { now ≤ 2 ^ 62 }
    requires job { HasGet core.old 1 job }
    requires answer { ShownFits 512 job.verify (shown_of answer) }
    ensures disk { geometry_of core.new ≡ GEOMETRY }
{
    let digest = job.digest_of(&answer);
    core.get_end(now, 1, job, answer, digest)
}

fn writes(core: &mut Core, opened: &mut Opened, now: u64, part: Part, bytes: &[u8]) -> Seen
    requires disk { geometry_of core.old ≡ GEOMETRY }
    requires now { now ≤ 2 ^ 62 }
    requires part { IsPart GEOMETRY part }
    requires bytes { length bytes.now ≡ part.length }
    requires open { KeepsPut core.old opened.old }
    ensures disk { geometry_of core.new ≡ GEOMETRY }
    ensures open { KeepsPut core.new opened.new }
{
    let mut out = [0; 512];
    match core.write(now, 1, part, bytes, &mut out) {
        WriteStep::Done { dirtied: _ } => Seen::Done,
        WriteStep::Wait(why) => Seen::Waits(why),
        WriteStep::Get(job) => gets(core, opened, now, job),
        WriteStep::Dropped(block) => Seen::Dropped(block),
        WriteStep::Put(job) => opens(opened, job),
    }
}

fn writes_zeros(core: &mut Core, opened: &mut Opened, now: u64, part: Part) -> Seen
    requires disk { geometry_of core.old ≡ GEOMETRY }
    requires now { now ≤ 2 ^ 62 }
    requires part { IsPart GEOMETRY part }
    requires open { KeepsPut core.old opened.old }
    ensures disk { geometry_of core.new ≡ GEOMETRY }
    ensures open { KeepsPut core.new opened.new }
{
    let mut out = [0; 512];
    match core.zero(now, 1, part, &mut out) {
        WriteStep::Done { dirtied: _ } => Seen::Done,
        WriteStep::Wait(why) => Seen::Waits(why),
        WriteStep::Get(job) => gets(core, opened, now, job),
        WriteStep::Dropped(block) => Seen::Dropped(block),
        WriteStep::Put(job) => opens(opened, job),
    }
}

fn reads(core: &mut Core, opened: &mut Opened, now: u64, block: u32) -> Seen
    requires disk { geometry_of core.old ≡ GEOMETRY }
    requires now { now ≤ 2 ^ 62 }
    requires block { block < 16 }
    requires open { KeepsPut core.old opened.old }
    ensures disk { geometry_of core.new ≡ GEOMETRY }
    ensures open { KeepsPut core.new opened.new }
{
    let mut byte = [0];
    let mut room = [0; 512];
    let part = Part {
        block,
        offset: 511,
        length: 1,
    };
    match core.read(now, 1, part, &mut byte, &mut room) {
        ReadStep::Done => Seen::Byte(byte[0]),
        ReadStep::Wait(why) => Seen::Waits(why),
        ReadStep::Get(job) => gets(core, opened, now, job),
        ReadStep::Dropped(block) => Seen::Dropped(block),
        ReadStep::Put(job) => opens(opened, job),
    }
}

fn flushes(core: &mut Core, opened: &mut Opened, now: u64, mark: u64) -> Seen
    requires disk { geometry_of core.old ≡ GEOMETRY }
    requires now { now ≤ 2 ^ 62 }
    requires open { KeepsPut core.old opened.old }
    ensures disk { geometry_of core.new ≡ GEOMETRY }
    ensures open { KeepsPut core.new opened.new }
{
    let mut out = [0; 512];
    match core.flush_step(now, 1, mark, &mut out) {
        FlushStep::Done => Seen::Done,
        FlushStep::Wait(why) => Seen::Waits(why),
        FlushStep::Put(job) => opens(opened, job),
    }
}

fn works(core: &mut Core, opened: &mut Opened, now: u64) -> Seen
    requires disk { geometry_of core.old ≡ GEOMETRY }
    requires now { now ≤ 2 ^ 62 }
    requires open { KeepsPut core.old opened.old }
    ensures disk { geometry_of core.new ≡ GEOMETRY }
    ensures open { KeepsPut core.new opened.new }
{
    let mut out = [0; 512];
    match core.next_job(now, 1, &mut out) {
        JobStep::Closed => Seen::Closed,
        JobStep::Put(job) => opens(opened, job),
        JobStep::Dropped(block) => Seen::Dropped(block),
        JobStep::Sleep(until) => Seen::Sleeps(until),
    }
}

fn ends(core: &mut Core, opened: &mut Opened, now: u64, ok: bool) -> Seen
    requires now { now ≤ 2 ^ 62 }
    requires open { KeepsPut core.old opened.old }
    ensures disk { geometry_of core.new ≡ geometry_of core.old }
    ensures closed { opened.new ≡ None }
{
    match opened.take() {
        Some((block, zeros)) => {
            // No test asks again for a block that was put, so nothing looks at the digest.
            core.put_end(now, 1, PutJob { block, zeros }, ok, [0; 16]);
            Seen::Done
        }
        None => Seen::NothingOpen,
    }
}

/// What comes of an event.
fn performs(core: &mut Core, opened: &mut Opened, now: u64, act: Act) -> Seen
    requires disk { geometry_of core.old ≡ GEOMETRY }
    requires now { now ≤ 2 ^ 62 }
    requires open { KeepsPut core.old opened.old }
    ensures disk { geometry_of core.new ≡ GEOMETRY }
    ensures open { KeepsPut core.new opened.new }
{
    match act {
        Act::Write(block, byte) if block < 16 => {
            let part = Part {
                block,
                offset: 0,
                length: 512,
            };
            writes(core, opened, now, part, &[byte; 512])
        }
        Act::WriteHalf(block, offset, byte) if block < 16 && offset <= 256 => {
            let part = Part {
                block,
                offset,
                length: 256,
            };
            writes(core, opened, now, part, &[byte; 256])
        }
        Act::Zero(block) if block < 16 => {
            let part = Part {
                block,
                offset: 0,
                length: 512,
            };
            writes_zeros(core, opened, now, part)
        }
        Act::ZeroHalf(block, offset) if block < 16 && offset <= 256 => {
            let part = Part {
                block,
                offset,
                length: 256,
            };
            writes_zeros(core, opened, now, part)
        }
        Act::Read(block) if block < 16 => reads(core, opened, now, block),
        Act::Write(..) | Act::WriteHalf(..) => Seen::NoSuchBlock,
        Act::Zero(_) | Act::ZeroHalf(..) | Act::Read(_) => Seen::NoSuchBlock,
        Act::FlushBegin => Seen::Mark(core.flush_begin(now, 1)),
        Act::FlushStep(mark) => flushes(core, opened, now, mark),
        Act::PutOk => ends(core, opened, now, true),
        Act::PutFailed => ends(core, opened, now, false),
        Act::NextJob => works(core, opened, now),
        Act::Close => {
            core.close(now, 1);
            Seen::Done
        }
    }
}

/// The first of some events, each with its reading, of which something else comes, and what.
pub(crate) fn differs(core: &mut Core, rows: &[(u64, Act, Seen)]) -> Option<(Act, Seen)>
    requires disk { geometry_of core.old ≡ GEOMETRY }
{
    let mut opened: Opened = None;
    'rows: for (now, act, wanted) in rows {
        let seen = performs(core, &mut opened, (*now).min(1 << 62), *act);
        if seen != *wanted {
            return Some((*act, seen));
        }
    }
    None
}
