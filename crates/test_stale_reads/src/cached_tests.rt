//! Rows of a disk that caches two blocks, entry by entry.

ghost use Rattle.std.specs.Prelude.{◌≡◌, vec_len};
ghost use Rattle.sb_core.specs.Cores.{geometry_of};
ghost use Rattle.sb_crew.specs.Disks.{core_of, IsReadyWith};
ghost use Rattle.test_stale_reads.specs.declared.disks.TheConstants.{GEOMETRY};

use crate::Step::{Dropped, FlushBegin, FlushDone, PutBegin, PutEnd, Read, Waited, Write};
use crate::tests::{A, B, C, SETTINGS, UNAVAILABLE, desk, disk, lines};
use crate::{Step, flushes, reads, writes};
use sb_base::{Settings, Why};
use sb_crew::{Alone, CallFault, Desk};
use sb_fakes::{HandClock, RecordTape, TimedStore};
use std::alloc::{AllocError, Global};
use std::test::Fail;

const D: u8 = b'D';

/// A cache of two blocks.
const TWO_BLOCKS: Settings = Settings {
    cache_size: 2,
    ..SETTINGS
};

/// A call of a disk.
#[derive(Drop, Clone, Copy)]
enum Call {
    /// Writes a byte all over a block.
    Writes(u32, u8),
    /// Reads a block.
    Reads(u32),
    Flushes,
}

/// What a call answers: a read the byte that fills the block, if one does.
type Answer = Result<Option<u8>, CallFault>;

/// The answer of a call that gives no byte.
fn done(called: Result<(), CallFault>) -> Answer {
    match called {
        Ok(()) => Ok(None),
        Err(fault) => Err(fault),
    }
}

/// Makes a call. The blocks are those of the disk by their number modulo four.
fn make(disk: &mut Alone<RecordTape>, desk: &mut Desk<TimedStore, HandClock>, call: Call) -> Answer
    requires ready { IsReadyWith disk.old desk.old }
    requires shape { geometry_of (core_of disk.old) ≡ GEOMETRY }
    ensures ready { IsReadyWith disk.new desk.new }
    ensures shape { geometry_of (core_of disk.new) ≡ GEOMETRY }
{
    match call {
        Call::Writes(block, byte) => done(writes(disk, desk, block % 4, byte)),
        Call::Reads(block) => reads(disk, desk, block % 4),
        Call::Flushes => done(flushes(disk, desk)),
    }
}

/// Makes calls one after the other.
fn make_all(
    alloc: Global,
    disk: &mut Alone<RecordTape>,
    desk: &mut Desk<TimedStore, HandClock>,
    calls: &[Call],
) -> Result<Vec<Answer>, AllocError>
    requires ready { IsReadyWith disk.old desk.old }
    requires shape { geometry_of (core_of disk.old) ≡ GEOMETRY }
    ensures ready { IsReadyWith disk.new desk.new }
    ensures shape { geometry_of (core_of disk.new) ≡ GEOMETRY }
{
    let mut answers = Vec::new(alloc);
    for call in calls {
        answers.push(make(disk, desk, *call))?;
    }
    Ok(answers)
}

/// What calls of a new disk answer, and its tape.
fn called(
    alloc: Global,
    settings: Settings,
    desk: &mut Desk<TimedStore, HandClock>,
    calls: &[Call],
) -> Result<(Vec<Answer>, RecordTape), Fail>
    requires { vec_len desk.old.room ≡ 512 }
    ensures { vec_len desk.new.room ≡ 512 }
{
    let mut disk = disk(alloc, settings)?;
    let answers = make_all(alloc, &mut disk, desk, calls);
    let (_core, tape) = disk.finish();
    Ok((answers?, tape))
}

/// Whether calls of a disk, over a store whose requests of these numbers fail, answer so and leave these lines.
fn leaves(
    alloc: Global,
    settings: Settings,
    fails: &[u64],
    calls: &[Call],
    answers: &[Answer],
    left: &[(u64, Step)],
) -> Result<bool, Fail> {
    let mut desk = desk(alloc, &[], fails, false)?;
    let (said, tape) = called(alloc, settings, &mut desk, calls)?;
    Ok(said.as_slice() == answers && lines(alloc, &tape)?.as_slice() == left)
}

// The MD5 window has one entry, which the put of block 0 has for 10 s, and the cache has two.
#[test]
fn a_full_window_is_waited_for_and_cached_blocks_are_not_asked_for(
    rt: HostRuntime,
) -> Result<(), Fail> {
    let one_entry = Settings {
        md5_size: 1,
        ..TWO_BLOCKS
    };
    let calls = [
        Call::Writes(0, B),
        Call::Writes(1, C),
        Call::Flushes,
        Call::Reads(0),
        Call::Reads(1),
    ];
    let answers = [Ok(None), Ok(None), Ok(None), Ok(Some(B)), Ok(Some(C))];
    let left = [
        (1000, Write(0, B)),
        (1000, Write(1, C)),
        (1000, FlushBegin(0)),
        (1000, PutBegin(0, B)),
        (1000, PutEnd(0, true)),
        (1000, Waited(Why::WindowFull(11_000))),
        (11_000, PutBegin(1, C)),
        (11_000, PutEnd(1, true)),
        (11_000, FlushDone(0)),
        (11_000, Read(0, B)),
        (11_000, Read(1, C)),
    ];
    assert!(rt; leaves(rt.alloc(), one_entry, &[], &calls, &answers, &left)?);
    Ok(())
}

// The third block is written over two dirty ones. The put of the first fails, which ends the write.
#[test]
fn a_write_puts_what_makes_room_and_fails_with_it(rt: HostRuntime) -> Result<(), Fail> {
    let calls = [
        Call::Writes(0, B),
        Call::Writes(1, C),
        Call::Writes(2, A),
        Call::Writes(2, A),
    ];
    let answers = [Ok(None), Ok(None), Err(UNAVAILABLE), Ok(None)];
    let left = [
        (1000, Write(0, B)),
        (1000, Write(1, C)),
        (1000, PutBegin(0, B)),
        (1000, PutEnd(0, false)),
        (1000, PutBegin(1, C)),
        (1000, PutEnd(1, true)),
        (1000, Dropped(1)),
        (1000, Write(2, A)),
    ];
    assert!(rt; leaves(rt.alloc(), TWO_BLOCKS, &[1], &calls, &answers, &left)?);
    Ok(())
}

// At most one block of two may be dirty. The put of the first fails, and is spaced.
#[test]
fn a_write_over_too_many_dirty_blocks_puts_one(rt: HostRuntime) -> Result<(), Fail> {
    let one_dirty = Settings {
        max_dirty: 1,
        ..TWO_BLOCKS
    };
    let calls = [
        Call::Writes(0, B),
        Call::Writes(1, C),
        Call::Writes(1, C),
        Call::Writes(1, A),
    ];
    let answers = [Ok(None), Err(UNAVAILABLE), Ok(None), Ok(None)];
    let left = [
        (1000, Write(0, B)),
        (1000, PutBegin(0, B)),
        (1000, PutEnd(0, false)),
        (1000, Waited(Why::Spaced(1500))),
        (1500, PutBegin(0, B)),
        (1500, PutEnd(0, true)),
        (1500, Write(1, C)),
        (1500, Write(1, A)),
    ];
    assert!(rt; leaves(rt.alloc(), one_dirty, &[1], &calls, &answers, &left)?);
    Ok(())
}

#[test]
fn a_flush_of_nothing_dirty_asks_the_store_nothing(rt: HostRuntime) -> Result<(), Fail> {
    let left = [(1000, FlushBegin(0)), (1000, FlushDone(0))];
    assert!(rt;
        leaves(
            rt.alloc(),
            TWO_BLOCKS,
            &[],
            &[Call::Flushes],
            &[Ok(None)],
            &left
        )?
    );
    Ok(())
}

/// Whether a read shows something else than what was written there.
fn is_lost(written: Answer, read: Answer, byte: u8) -> bool {
    match (written, read) {
        (Ok(_), Ok(shown)) => shown != Some(byte),
        _ => false,
    }
}

/// Whether all calls succeeded.
fn all_done(answers: &[Answer]) -> bool {
    answers.iter().all(|answer| answer.is_ok())
}

// One request fails, the first, the second and so on, until none does. Three blocks are written over a cache of two, and
// flushed twice: what a write and the second flush covered is read by the next disk over the store.
#[test]
fn a_failed_call_loses_nothing_that_a_later_flush_covers(rt: HostRuntime) -> Result<(), Fail> {
    let calls = [
        Call::Writes(0, B),
        Call::Writes(1, C),
        Call::Writes(2, D),
        Call::Flushes,
        Call::Flushes,
    ];
    let blocks = [Call::Reads(0), Call::Reads(1), Call::Reads(2)];
    for fails in 1..20_u64 {
        let mut desk = desk(rt.alloc(), &[], &[fails], false)?;
        let (said, _tape) = called(rt.alloc(), TWO_BLOCKS, &mut desk, &calls)?;
        let (shown, _tape) = called(rt.alloc(), TWO_BLOCKS, &mut desk, &blocks)?;
        assert_eq!(rt; (said.len(), shown.len()), (5, 3));
        assert_eq!(rt; said[4], Ok(None));
        assert!(rt; !is_lost(said[0], shown[0], B), "request {fails}");
        assert!(rt; !is_lost(said[1], shown[1], C), "request {fails}");
        assert!(rt; !is_lost(said[2], shown[2], D), "request {fails}");
        if all_done(&said) && all_done(&shown) {
            assert_eq!(rt; fails, 7);
            return Ok(());
        }
    }
    Err(Fail::from("every run met a failure"))
}
