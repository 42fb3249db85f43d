//! The tools over objects in memory.

use crate::{ToolFault, confirm, detect, drop_token, show_blocks, take_token};
use sb_base::Text;
use sb_fakes::{MemoryConn, PlainStore};
use sb_world::{Got, Link, Meta};
use std::alloc::{AllocError, Global};
use std::test::Fail;

const TOKEN: &[u8] = b"s3backer-mounted";

/// A store with an object, which may carry a size and a block size.
fn store_with(alloc: Global, name: &[u8], body: &[u8], meta: Option<Meta>) -> PlainStore {
    let mut store = PlainStore::new(alloc);
    let _kept = store.put(name, body, meta);
    store
}

/// The eight bytes of a store's token, if there is one.
fn token_in(store: &mut PlainStore) -> Option<[u8; 8]> {
    let mut body = [0; 8];
    match store.get(TOKEN, None, &mut body) {
        Ok(Got::Bytes) => Some(body),
        _ => None,
    }
}

#[test]
fn a_token_is_taken_where_there_is_none_and_dropped(rt: HostRuntime) -> Result<(), Fail> {
    let mut store = PlainStore::new(rt.alloc());
    assert!(rt; take_token(rt.alloc(), &mut store, "", 0x00c0ffee, false).is_ok());
    assert!(rt; token_in(&mut store) == Some(*b"00c0ffee"));
    assert!(rt; drop_token(rt.alloc(), &mut store, "").is_ok());
    assert!(rt; token_in(&mut store).is_none());
    Ok(())
}

#[test]
fn a_token_that_is_there_is_told_unless_by_force(rt: HostRuntime) -> Result<(), Fail> {
    let mut mounted = store_with(rt.alloc(), TOKEN, b"deadbeef", None);
    let told = take_token(rt.alloc(), &mut mounted, "", 1, false);
    assert!(rt; matches!(told, Err(ToolFault::Mounted { token: 0xdeadbeef })));
    assert!(rt; token_in(&mut mounted) == Some(*b"deadbeef"));
    assert!(rt; take_token(rt.alloc(), &mut mounted, "", 1, true).is_ok());
    assert!(rt; token_in(&mut mounted) == Some(*b"00000001"));
    let mut damaged = store_with(rt.alloc(), TOKEN, b"DEADBEEF", None);
    let told = take_token(rt.alloc(), &mut damaged, "", 1, false);
    assert!(rt; matches!(told, Err(ToolFault::BadToken(body)) if body == *b"DEADBEEF"));
    let mut longer = store_with(rt.alloc(), TOKEN, b"deadbeef0", None);
    let told = take_token(rt.alloc(), &mut longer, "", 1, false);
    assert!(rt; matches!(told, Err(ToolFault::StoreFault { status: 600 })));
    assert!(rt; take_token(rt.alloc(), &mut longer, "", 1, true).is_ok());
    Ok(())
}

/// The size of the disk whose first block carries these.
fn detected(alloc: Global, size: u64, block_size: u32) -> Result<u64, ToolFault> {
    let meta = Some(Meta { size, block_size });
    let mut store = store_with(alloc, b"00000000", b"", meta);
    match detect(alloc, &mut store, "", false) {
        Ok(geometry) => Ok(geometry.size()),
        Err(fault) => Err(fault),
    }
}

#[test]
fn a_disk_is_detected_by_its_first_block(rt: HostRuntime) -> Result<(), Fail> {
    assert!(rt; matches!(detected(rt.alloc(), 65_536, 4_096), Ok(65_536)));
    match detected(rt.alloc(), 65_536, 3_000) {
        Err(ToolFault::BadGeometry { size, block_size }) => {
            assert!(rt; size.bytes() == b"65536".as_slice());
            assert!(rt; block_size.bytes() == b"3000".as_slice());
        }
        _ => return Err(Fail::from("no bad geometry")),
    }
    let mut empty = PlainStore::new(rt.alloc());
    let missing = detect(rt.alloc(), &mut empty, "", false);
    assert!(rt; matches!(missing, Err(ToolFault::NoGeometry)));
    let mut bare = store_with(rt.alloc(), b"00000000", b"", None);
    let missing = detect(rt.alloc(), &mut bare, "", false);
    assert!(rt; matches!(missing, Err(ToolFault::NoGeometry)));
    Ok(())
}

#[test]
fn blocks_are_shown_in_the_order_of_their_names(rt: HostRuntime) -> Result<(), Fail> {
    let alloc = rt.alloc();
    let mut store = store_with(alloc, b"v.0000000a", b"", None);
    for name in [b"v.00000001", b"v.0000000A", b"w.00000002"] {
        let _kept = store.put(name, b"", None);
    }
    let mut sink = MemoryConn::sink(alloc, Vec::new(alloc));
    let shown = show_blocks(alloc, &mut store, "v.", false, &mut sink);
    assert!(rt; matches!(shown, Ok(2)));
    assert!(rt; sink.bytes() == b"00000001\n0000000a\n".as_slice());
    Ok(())
}

/// Whether an answer, in pieces of one byte, erases; the question has to be asked.
fn erases(alloc: Global, answer: &[u8]) -> Result<bool, AllocError> {
    let mut source = MemoryConn::source(Text::of(alloc, answer)?, 1, Vec::new(alloc));
    let mut sink = MemoryConn::sink(alloc, Vec::new(alloc));
    let confirmed = confirm(&mut source, &mut sink, false).is_ok();
    Ok(confirmed && sink.bytes() == b"erase all blocks? [y/n] ".as_slice())
}

#[test]
fn only_y_and_yes_erase(rt: HostRuntime) -> Result<(), Fail> {
    let rows: [(&[u8], bool); 8] = [
        (b"y\n", true),
        (b"yes\n", true),
        (b"yes", true),
        (b"", false),
        (b"\n", false),
        (b"no\n", false),
        (b"Y\n", false),
        (b"yes, all of them\n", false),
    ];
    for (answer, wanted) in rows {
        assert!(rt; erases(rt.alloc(), answer)? == wanted);
    }
    Ok(())
}
