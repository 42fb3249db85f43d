//! Rows of a disk that caches one block, entry by entry and tick by tick.

ghost use Rattle.std.specs.Prelude.{◌≡◌, IfOk, vec_len};
ghost use Rattle.sb_core.specs.Cores.{geometry_of};
ghost use Rattle.sb_crew.specs.Disks.{core_of};
ghost use Rattle.sb_crew.specs.Ready.{IsReady};
ghost use Rattle.test_stale_reads.specs.declared.disks.TheConstants.{GEOMETRY};

use crate::Step::{
    Dropped, FlushBegin, FlushDone, GetBegin, GetEnd, PutBegin, PutEnd, Read, Waited, Write,
};
use crate::{
    BLOCK, SIZE, Step, desk_over, disk_with, first_block, flushes, lines_of, reads, writes,
};
use sb_base::{Settings, Why};
use sb_crew::{Alone, CallFault, Desk};
use sb_fakes::{HandClock, RecordTape, SharedClock, Show, SlowLink, TimedStore};
use sb_staleness::{Delays, is_stale_within};
use sb_world::Tick;
use sb_world::Tick::{Paused, Taken};
use std::alloc::{AllocError, Global};
use std::cell::Cell;
use std::test::Fail;

/// Puts are spaced by 500 ms, MD5s are kept for 10 s, and a GET is stale for good 5 s after the put.
pub(crate) const SETTINGS: Settings = Settings {
    min_write_delay: 500,
    md5_time: 10_000,
    md5_size: 10_000,
    cache_size: 1,
    write_delay: 250,
    clean_time: 0,
    max_dirty: 0,
    stale_limit: 5000,
    read_ahead: 0,
    read_ahead_trigger: 0,
    threads: 1,
    clients: 1,
};

/// The MD5 of 512 bytes `A`.
const A_DIGEST: [u8; 16] = [
    220, 80, 134, 184, 71, 40, 155, 168, 184, 189, 225, 73, 184, 56, 129, 117,
];

/// The MD5 of 512 bytes `B`.
const B_DIGEST: [u8; 16] = [
    245, 199, 178, 126, 10, 245, 67, 62, 171, 190, 249, 178, 187, 144, 121, 27,
];

/// The bytes of the blocks.
pub(crate) const A: u8 = b'A';

pub(crate) const B: u8 = b'B';

pub(crate) const C: u8 = b'C';

/// A put that the store refused.
pub(crate) const UNAVAILABLE: CallFault = CallFault::StoreFault { status: 503 };

/// A disk with no event behind it.
pub(crate) fn disk(alloc: Global, settings: Settings) -> Result<Alone<RecordTape>, Fail>
    ensures shape { IfOk result (λ disk. geometry_of (core_of disk) ≡ GEOMETRY) }
    ensures ready { IfOk result (λ disk. IsReady disk.core disk.reading 512) }
{
    settings.check(Some(4))?;
    Ok(disk_with(alloc, settings, RecordTape::new(alloc))?)
}

/// A desk at 1,000 over a store whose block 0 is `A`.
pub(crate) fn desk(
    alloc: Global,
    shows: &[Show],
    fails: &[u64],
    stalled: bool,
) -> Result<Desk<TimedStore, HandClock>, AllocError>
    ensures { IfOk result (λ desk. vec_len desk.room ≡ 512) }
{
    let start = first_block(alloc, &[A; 512])?;
    let store = TimedStore::new(alloc, start, shows.to_vec(alloc)?, fails.to_vec(alloc)?);
    desk_over(alloc, store, HandClock::new(alloc, 1000, 0, stalled))
}

/// The lines of a tape.
pub(crate) fn lines(alloc: Global, tape: &RecordTape) -> Result<Vec<(u64, Step)>, AllocError> {
    match tape.entries() {
        Some(entries) => lines_of(alloc, entries),
        None => Err(AllocError),
    }
}

/// Whether the store was stale only within a delay, on a tape of a disk that began as this.
pub(crate) fn is_within(
    alloc: Global,
    start: &[u8],
    delay: u64,
    tape: &RecordTape,
) -> Result<bool, AllocError> {
    let delays = Delays {
        order: delay,
        show: delay,
    };
    match tape.entries() {
        Some(entries) => is_stale_within(alloc, BLOCK, start, delays, entries),
        None => Err(AllocError),
    }
}

/// What the disks of the rows begin with: block 0 is `A`.
pub(crate) fn start(alloc: Global) -> Result<Vec<u8>, AllocError> {
    let mut bytes = Vec::new(alloc);
    bytes.resize(512, A)?;
    bytes.resize(SIZE, 0)?;
    Ok(bytes)
}

/// Whether the store was stale only within two delays, on a tape of such a disk.
pub(crate) fn are_within(
    alloc: Global,
    delays: (u64, u64),
    tape: &RecordTape,
) -> Result<(bool, bool), AllocError> {
    let start = start(alloc)?;
    let first = is_within(alloc, &start, delays.0, tape)?;
    Ok((first, is_within(alloc, &start, delays.1, tape)?))
}

/// Ticks, each as often in a row as the number beside it says.
fn ticks(alloc: Global, runs: &[(u32, Tick)]) -> Result<Vec<Tick>, AllocError> {
    let mut ticks = Vec::new(alloc);
    for run in runs {
        for _again in 0..run.0 {
            ticks.push(run.1)?;
        }
    }
    Ok(ticks)
}

/// The ticks of a clock, none after a growth was refused.
fn ticks_of(desk: &Desk<TimedStore, HandClock>) -> &[Tick] {
    match desk.clock.ticks() {
        Some(ticks) => ticks,
        None => &[],
    }
}

// Each call of the link takes 7 ms. The reading at a call's begin is taken before it is sent, and that at its end behind
// its answer and before anything else is sent.
#[test]
fn a_reading_is_taken_behind_the_answer(rt: HostRuntime) -> Result<(), Fail> {
    let hand = Cell::new(1000);
    let start = first_block(rt.alloc(), &[A; 512])?;
    let link = SlowLink {
        link: TimedStore::new(
            rt.alloc(),
            start,
            Vec::new(rt.alloc()),
            Vec::new(rt.alloc()),
        ),
        hand: &hand,
        millis: 7,
    };
    let mut desk = desk_over(rt.alloc(), link, SharedClock::new(rt.alloc(), &hand, 0))?;
    let mut disk = disk(rt.alloc(), SETTINGS)?;
    assert_eq!(rt; writes(&mut disk, &mut desk, 0, B), Ok(()));
    assert_eq!(rt; flushes(&mut disk, &mut desk), Ok(()));
    assert_eq!(rt; reads(&mut disk, &mut desk, 1), Ok(Some(0)));
    let want = [
        (1000, Write(0, B)),
        (1000, FlushBegin(0)),
        (1000, PutBegin(0, B)),
        (1007, PutEnd(0, true)),
        (1007, FlushDone(0)),
        (1007, Dropped(0)),
        (1007, GetBegin(1, None)),
        (1014, GetEnd(1, None, true)),
        (1014, Read(1, 0)),
    ];
    let (_core, tape) = disk.finish();
    assert_eq!(rt; lines(rt.alloc(), &tape)?.as_slice(), want.as_slice());
    Ok(())
}

// The store shows the start of block 0 to two GETs after its put.
#[test]
fn a_stale_get_is_asked_anew(rt: HostRuntime) -> Result<(), Fail> {
    let shows = [Show { get: 2, version: 0 }, Show { get: 3, version: 0 }];
    let mut desk = desk(rt.alloc(), &shows, &[], false)?;
    let mut disk = disk(rt.alloc(), SETTINGS)?;
    assert_eq!(rt; writes(&mut disk, &mut desk, 0, B), Ok(()));
    assert_eq!(rt; flushes(&mut disk, &mut desk), Ok(()));
    assert_eq!(rt; reads(&mut disk, &mut desk, 1), Ok(Some(0)));
    assert_eq!(rt; reads(&mut disk, &mut desk, 0), Ok(Some(B)));
    let want = [
        (1000, Write(0, B)),
        (1000, FlushBegin(0)),
        (1000, PutBegin(0, B)),
        (1000, PutEnd(0, true)),
        (1000, FlushDone(0)),
        (1000, Dropped(0)),
        (1000, GetBegin(1, None)),
        (1000, GetEnd(1, None, true)),
        (1000, Read(1, 0)),
        (1000, Dropped(1)),
        (1000, GetBegin(0, Some((B, 1000)))),
        (1000, GetEnd(0, Some(A), false)),
        (1100, GetBegin(0, Some((B, 1000)))),
        (1100, GetEnd(0, Some(A), false)),
        (1200, GetBegin(0, Some((B, 1000)))),
        (1200, GetEnd(0, Some(B), true)),
        (1200, Read(0, B)),
    ];
    let (_core, tape) = disk.finish();
    assert_eq!(rt; lines(rt.alloc(), &tape)?.as_slice(), want.as_slice());
    let want = [
        (12, Taken(1000)),
        (1, Paused(100)),
        (2, Taken(1100)),
        (1, Paused(100)),
        (3, Taken(1200)),
    ];
    assert_eq!(rt; ticks_of(&desk), ticks(rt.alloc(), &want)?.as_slice());
    assert_eq!(rt; are_within(rt.alloc(), (100, 101), &tape)?, (false, true));
    Ok(())
}

// Every GET of block 0 shows its start.
#[test]
fn a_get_that_stays_stale_is_a_fault(rt: HostRuntime) -> Result<(), Fail> {
    let mut shows = Vec::new(rt.alloc());
    for get in 2..60 {
        shows.push(Show { get, version: 0 })?;
    }
    let mut desk = desk(rt.alloc(), &shows, &[], false)?;
    let mut disk = disk(rt.alloc(), SETTINGS)?;
    let stale = CallFault::StaleRead {
        block: 0,
        expected: B_DIGEST,
        shown: A_DIGEST,
        begun: 6000,
    };
    assert_eq!(rt; writes(&mut disk, &mut desk, 0, B), Ok(()));
    assert_eq!(rt; flushes(&mut disk, &mut desk), Ok(()));
    assert_eq!(rt; reads(&mut disk, &mut desk, 1), Ok(Some(0)));
    assert_eq!(rt; reads(&mut disk, &mut desk, 0), Err(stale));
    let before = [
        (1000, Write(0, B)),
        (1000, FlushBegin(0)),
        (1000, PutBegin(0, B)),
        (1000, PutEnd(0, true)),
        (1000, FlushDone(0)),
        (1000, Dropped(0)),
        (1000, GetBegin(1, None)),
        (1000, GetEnd(1, None, true)),
        (1000, Read(1, 0)),
        (1000, Dropped(1)),
    ];
    let (_core, tape) = disk.finish();
    assert_eq!(rt; lines(rt.alloc(), &tape)?, with_gets(rt.alloc(), &before)?);
    assert_eq!(rt; ticks_of(&desk), ticks_of_gets(rt.alloc())?.as_slice());
    assert_eq!(rt; are_within(rt.alloc(), (5000, 5001), &tape)?, (false, true));
    Ok(())
}

/// These lines, and then 51 GETs of block 0, the first at 1,000 and the others 100 apart, which show `A` and not `B`.
fn with_gets(alloc: Global, before: &[(u64, Step)]) -> Result<Vec<(u64, Step)>, AllocError> {
    let mut lines = before.to_vec(alloc)?;
    for number in 0..51_u64 {
        let reading = 1000 + 100 * number;
        lines.push((reading, GetBegin(0, Some((B, 1000)))))?;
        lines.push((reading, GetEnd(0, Some(A), false)))?;
    }
    Ok(lines)
}

/// The ticks of ten entries and of those GETs: 100 ms pass after each but the last.
fn ticks_of_gets(alloc: Global) -> Result<Vec<Tick>, AllocError> {
    let mut ticks = ticks(alloc, &[(12, Taken(1000))])?;
    for number in 1..51_u64 {
        let reading = 1000 + 100 * number;
        ticks.push(Paused(100))?;
        ticks.push(Taken(reading))?;
        ticks.push(Taken(reading))?;
    }
    Ok(ticks)
}

// The put of `B` fails, and one GET shows it all the same, as the put of `C` ended.
#[test]
fn a_put_that_failed_is_spaced_and_may_be_shown(rt: HostRuntime) -> Result<(), Fail> {
    let shows = [Show { get: 2, version: 1 }];
    let mut desk = desk(rt.alloc(), &shows, &[1], false)?;
    let mut disk = disk(rt.alloc(), SETTINGS)?;
    assert_eq!(rt; writes(&mut disk, &mut desk, 0, B), Ok(()));
    assert_eq!(rt; flushes(&mut disk, &mut desk), Err(UNAVAILABLE));
    assert_eq!(rt; writes(&mut disk, &mut desk, 0, C), Ok(()));
    assert_eq!(rt; flushes(&mut disk, &mut desk), Ok(()));
    assert_eq!(rt; reads(&mut disk, &mut desk, 1), Ok(Some(0)));
    assert_eq!(rt; reads(&mut disk, &mut desk, 0), Ok(Some(C)));
    let want = [
        (1000, Write(0, B)),
        (1000, FlushBegin(0)),
        (1000, PutBegin(0, B)),
        (1000, PutEnd(0, false)),
        (1000, Write(0, C)),
        (1000, FlushBegin(1)),
        (1000, Waited(Why::Spaced(1500))),
        (1500, PutBegin(0, C)),
        (1500, PutEnd(0, true)),
        (1500, FlushDone(1)),
        (1500, Dropped(0)),
        (1500, GetBegin(1, None)),
        (1500, GetEnd(1, None, true)),
        (1500, Read(1, 0)),
        (1500, Dropped(1)),
        (1500, GetBegin(0, Some((C, 1500)))),
        (1500, GetEnd(0, Some(B), false)),
        (1600, GetBegin(0, Some((C, 1500)))),
        (1600, GetEnd(0, Some(C), true)),
        (1600, Read(0, C)),
    ];
    let (_core, tape) = disk.finish();
    assert_eq!(rt; lines(rt.alloc(), &tape)?.as_slice(), want.as_slice());
    let want = [
        (7, Taken(1000)),
        (1, Paused(500)),
        (10, Taken(1500)),
        (1, Paused(100)),
        (3, Taken(1600)),
    ];
    assert_eq!(rt; ticks_of(&desk), ticks(rt.alloc(), &want)?.as_slice());
    assert_eq!(rt; are_within(rt.alloc(), (0, 500), &tape)?, (false, true));
    Ok(())
}

// The MD5 window has one entry, which the put of block 0 has for 10 s.
#[test]
fn a_window_that_is_full_is_waited_for(rt: HostRuntime) -> Result<(), Fail> {
    let one_entry = Settings {
        md5_size: 1,
        ..SETTINGS
    };
    let mut desk = desk(rt.alloc(), &[], &[], false)?;
    let mut disk = disk(rt.alloc(), one_entry)?;
    assert_eq!(rt; writes(&mut disk, &mut desk, 0, B), Ok(()));
    assert_eq!(rt; writes(&mut disk, &mut desk, 1, C), Ok(()));
    assert_eq!(rt; flushes(&mut disk, &mut desk), Ok(()));
    assert_eq!(rt; reads(&mut disk, &mut desk, 0), Ok(Some(B)));
    assert_eq!(rt; reads(&mut disk, &mut desk, 1), Ok(Some(C)));
    let want = [
        (1000, Write(0, B)),
        (1000, PutBegin(0, B)),
        (1000, PutEnd(0, true)),
        (1000, Dropped(0)),
        (1000, Write(1, C)),
        (1000, FlushBegin(0)),
        (1000, Waited(Why::WindowFull(11_000))),
        (11_000, PutBegin(1, C)),
        (11_000, PutEnd(1, true)),
        (11_000, FlushDone(0)),
        (11_000, Dropped(1)),
        (11_000, GetBegin(0, None)),
        (11_000, GetEnd(0, Some(B), true)),
        (11_000, Read(0, B)),
        (11_000, Dropped(0)),
        (11_000, GetBegin(1, Some((C, 11_000)))),
        (11_000, GetEnd(1, Some(C), true)),
        (11_000, Read(1, C)),
    ];
    let (_core, tape) = disk.finish();
    assert_eq!(rt; lines(rt.alloc(), &tape)?.as_slice(), want.as_slice());
    let want = [(7, Taken(1000)), (1, Paused(10_000)), (11, Taken(11_000))];
    assert_eq!(rt; ticks_of(&desk), ticks(rt.alloc(), &want)?.as_slice());
    Ok(())
}

// The clock stands still in the pause of the second flush.
#[test]
fn a_clock_that_stands_still_is_a_fault(rt: HostRuntime) -> Result<(), Fail> {
    let mut desk = desk(rt.alloc(), &[], &[1], true)?;
    let mut disk = disk(rt.alloc(), SETTINGS)?;
    let stalled = CallFault::ClockStalled {
        before: 1000,
        asked: 500,
        after: 1000,
    };
    assert_eq!(rt; writes(&mut disk, &mut desk, 0, B), Ok(()));
    assert_eq!(rt; flushes(&mut disk, &mut desk), Err(UNAVAILABLE));
    assert_eq!(rt; writes(&mut disk, &mut desk, 0, C), Ok(()));
    assert_eq!(rt; flushes(&mut disk, &mut desk), Err(stalled));
    let want = [
        (1000, Write(0, B)),
        (1000, FlushBegin(0)),
        (1000, PutBegin(0, B)),
        (1000, PutEnd(0, false)),
        (1000, Write(0, C)),
        (1000, FlushBegin(1)),
        (1000, Waited(Why::Spaced(1500))),
    ];
    let (_core, tape) = disk.finish();
    assert_eq!(rt; lines(rt.alloc(), &tape)?.as_slice(), want.as_slice());
    let want = [(7, Taken(1000)), (1, Paused(500)), (1, Taken(1000))];
    assert_eq!(rt; ticks_of(&desk), ticks(rt.alloc(), &want)?.as_slice());
    Ok(())
}
