//! What no clause says: that calls of many threads end, and what they leave in the store.

use crate::{RingingGate, both_play, caller_over, disk_with, work_and_close, write_block};
use sb_base::Settings;
use sb_crew::WorkEnd;
use sb_fakes::PlainStore;
use sb_turn::Bell;
use sb_world::{Got, Link};
use std::sync::Mutex;
use std::test::Fail;

/// One block is cached, and a dirty one is put a quarter of a second after it became so.
const SETTINGS: Settings = Settings {
    min_write_delay: 0,
    md5_time: 0,
    md5_size: 0,
    cache_size: 1,
    write_delay: 250,
    clean_time: 0,
    max_dirty: 0,
    stale_limit: 5000,
    read_ahead: 0,
    read_ahead_trigger: 0,
    threads: 1,
    clients: 1,
};

/// A block of one byte.
const A: [u8; 512] = [b'A'; 512];

#[test]
fn two_threads_read_what_each_has_written(rt: HostRuntime) -> Result<(), Fail> {
    SETTINGS.check(Some(8))?;
    let store = Mutex::new(PlainStore::new(rt.alloc()));
    let (disk, mut first) = disk_with(rt.alloc(), SETTINGS)?;
    let second = disk.split(&rt, &mut first);
    let third = disk.split(&rt, &mut first);
    let one = caller_over(&rt, rt.alloc(), &store, &disk, second, 1000)?;
    let two = caller_over(&rt, rt.alloc(), &store, &disk, third, 1000)?;
    let played = both_play(&rt, &disk, first, one, two, 50);
    assert_eq!(rt; played.same, (Ok(50), Ok(50)));
    Ok(())
}

#[test]
fn a_worker_puts_a_due_block_and_stops_where_the_disk_is_closed(
    rt: HostRuntime,
) -> Result<(), Fail> {
    SETTINGS.check(Some(8))?;
    let store = Mutex::new(PlainStore::new(rt.alloc()));
    let (disk, mut first) = disk_with(rt.alloc(), SETTINGS)?;
    let second = disk.split(&rt, &mut first);
    let mut client = caller_over(&rt, rt.alloc(), &store, &disk, first, 1000)?;
    let worker = caller_over(&rt, rt.alloc(), &store, &disk, second, 1250)?;
    write_block(&rt, &disk, &mut client, 0, b'A')?;
    let bell = Bell::new(rt.alloc())?;
    let mark = bell.mark();
    let gate = RingingGate {
        rt: &rt,
        bell: &bell,
    };
    let end = work_and_close(&rt, &disk, worker, &gate, client, &bell, mark);
    assert_eq!(rt; end, WorkEnd::Closed);
    let mut body = [0; 512];
    let mut kept = store.lock(&rt);
    assert_eq!(rt; kept.get(b"00000000", None, &mut body), Ok(Got::Bytes));
    assert!(rt; body == A);
    Ok(())
}
