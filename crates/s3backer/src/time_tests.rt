//! Time in a whole run: a store that stays stale, and a clock that stands still.

ghost use Rattle.sb_world.specs.Told.{IsUnused};

use crate::rehearsal::{Rehearsal, rehearse};
use crate::tests::{DISC, OPENING, errors, failing_store, joined, output, words_of};
use crate::write_tests::{FLUSH, READ, WRITE, reply, request};
use sb_fakes::{HandClock, MemoryConn, Show, TimedStore};
use std::alloc::{AllocError, Global};
use std::sync::Wait;
use std::test::Fail;
use std::thread::Threads;
use std::time;

/// How many bytes the handshake has.
const GREETED: usize = 28;

/// A session of a disk of 1,280 blocks over a store, by a clock that stands at 1,000 and moves by pauses, or not at all.
fn session_in_time<R: Threads + Wait + time::Clock + Sync>(
    rt: &R,
    alloc: Global,
    store: TimedStore,
    stalled: bool,
    pieces: &[&[u8]],
) -> Result<Rehearsal<TimedStore>, AllocError>
    requires unused { IsUnused store.log store.faults.count }
{
    let words = words_of(alloc, &["--stdio", "--test", "--size=5m", "disk"])?;
    rehearse(
        rt,
        alloc,
        words.as_slice(),
        store,
        HandClock::new(alloc, 1000, 0, stalled),
        MemoryConn::source(joined(alloc, pieces)?, 65_536, Vec::new(alloc)),
        MemoryConn::sink(alloc, Vec::new(alloc)),
        MemoryConn::sink(alloc, Vec::new(alloc)),
    )
}

/// What a run wrote behind the handshake.
fn replies(done: &Rehearsal<TimedStore>) -> &[u8] {
    output(done).get(GREETED..).unwrap_or_default()
}

// Block 0 is put, and leaves the cache as 1,000 others are read. From then on the store shows what the disk began with.
#[test]
fn a_store_that_stays_stale_is_error_5(rt: HostRuntime) -> Result<(), Fail> {
    let alloc = rt.alloc();
    let mut shows = Vec::new(alloc);
    for get in 1001..1060 {
        shows.push(Show { get, version: 0 })?;
    }
    let store = TimedStore::new(alloc, Vec::new(alloc), shows, Vec::new(alloc));
    let write = request(alloc, WRITE, 1, 0, 4096)?;
    let flush = request(alloc, FLUSH, 2, 0, 0)?;
    let others = request(alloc, READ, 3, 4096, 4_096_000)?;
    let read = request(alloc, READ, 4, 0, 512)?;
    let asked = [OPENING, &write, &[0x42; 4096], &flush, &others, &read, DISC];
    let done = session_in_time(&rt, alloc, store, false, &asked)?;
    let mut wanted = Vec::new(alloc);
    for cookie in 1..4 {
        wanted.extend_from_slice(&reply(alloc, 0, cookie)?)?;
    }
    wanted.resize(3 * 16 + 4_096_000, 0)?;
    wanted.extend_from_slice(&reply(alloc, 5, 4)?)?;
    assert!(rt; replies(&done) == wanted.as_slice());
    assert_eq!(rt; (done.status, errors(&done).len()), (0, 0));
    Ok(())
}

// The put of the first flush fails, and the second and the last one wait for its spacing.
#[test]
fn a_clock_that_stands_still_is_status_11(rt: HostRuntime) -> Result<(), Fail> {
    let alloc = rt.alloc();
    let store = failing_store(alloc, Vec::from_array(alloc, [1])?);
    let write = request(alloc, WRITE, 1, 0, 4096)?;
    let first = request(alloc, FLUSH, 2, 0, 0)?;
    let second = request(alloc, FLUSH, 3, 0, 0)?;
    let asked = [OPENING, &write, &[0x42; 4096], &first, &second, DISC];
    let done = session_in_time(&rt, alloc, store, true, &asked)?;
    let mut wanted = Vec::new(alloc);
    for (cookie, error) in [(1, 0), (2, 5), (3, 5)] {
        wanted.extend_from_slice(&reply(alloc, error, cookie)?)?;
    }
    assert_eq!(rt; replies(&done), wanted.as_slice());
    assert_eq!(rt; done.status, 11);
    assert_eq!(rt; errors(&done), b"s3backer: clock stands still\n".as_slice());
    Ok(())
}
