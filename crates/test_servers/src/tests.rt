//! What no clause says: that clients and workers in many threads end, and that each client gets its own bytes.

use crate::{crew_over, serve_crew};
use sb_base::{Settings, Text};
use sb_fakes::PlainStore;
use std::alloc::Global;
use std::sync::Mutex;
use std::test::Fail;
use test_disks::disk_with;

/// One block is cached, so that each client drops the other's.
const SETTINGS: Settings = Settings {
    min_write_delay: 0,
    md5_time: 0,
    md5_size: 0,
    cache_size: 1,
    write_delay: 250,
    clean_time: 0,
    max_dirty: 0,
    stale_limit: 5000,
    read_ahead: 0,
    read_ahead_trigger: 0,
    threads: 2,
    clients: 2,
};

/// How often a client writes its block and reads it back.
const ROUNDS: u8 = 50;

/// A request of 512 bytes: its type, its cookie, and the high byte of its offset.
fn request(kind: u8, cookie: u8, offset: u8) -> [u8; 28] {
    [
        0x25, 0x60, 0x95, 0x13, 0, 0, 0, kind, 0, 0, 0, 0, 0, 0, 0, cookie, 0, 0, 0, 0, 0, 0,
        offset, 0, 0, 0, 2, 0,
    ]
}

/// The input of a client: its flags, EXPORT_NAME, its rounds and DISC.
fn input_of(alloc: Global, byte: u8, offset: u8) -> Result<Text, Fail> {
    let mut input = Vec::new(alloc);
    input.extend_from_slice(b"\x00\x00\x00\x03IHAVEOPT\x00\x00\x00\x01\x00\x00\x00\x00")?;
    for round in 0..ROUNDS {
        input.extend_from_slice(&request(1, round, offset))?;
        input.extend_from_slice(&[byte; 512])?;
        input.extend_from_slice(&request(0, round, offset))?;
    }
    input.extend_from_slice(&request(2, 0, 0))?;
    Ok(Text::from_vec(input))
}

/// The replies to a client's rounds.
fn replies_to(alloc: Global, byte: u8) -> Result<Vec<u8>, Fail> {
    let mut replies = Vec::new(alloc);
    for round in 0..ROUNDS {
        for body in [&[] as &[u8], &[byte; 512]] {
            replies.extend_from_slice(&[
                0x67, 0x44, 0x66, 0x98, 0, 0, 0, 0, 0, 0, 0, 0, 0, 0, 0, round,
            ])?;
            replies.extend_from_slice(body)?;
        }
    }
    Ok(replies)
}

#[test]
fn two_clients_and_two_workers_end_with_each_clients_bytes(rt: HostRuntime) -> Result<(), Fail> {
    SETTINGS.check(Some(8))?;
    let alloc = rt.alloc();
    let store = Mutex::new(PlainStore::new(alloc));
    let (disk, pass) = disk_with(alloc, SETTINGS)?;
    let one = input_of(alloc, b'A', 0)?;
    let two = input_of(alloc, b'B', 2)?;
    let crew = crew_over(&rt, alloc, &store, &disk, pass, one, two)?;
    let (crew, flushed) = serve_crew(&rt, &disk, crew);
    assert_eq!(rt; flushed, Ok(()));
    let mut written = Vec::new(alloc);
    for client in crew.clients.iter() {
        for given in client.tools.listener.given.iter() {
            written.extend_from_slice(given.sink.bytes().get(28..).unwrap_or(&[]))?;
        }
    }
    let mut wanted = replies_to(alloc, b'A')?;
    wanted.extend_from_slice(replies_to(alloc, b'B')?.as_slice())?;
    assert!(rt; written == wanted);
    Ok(())
}
