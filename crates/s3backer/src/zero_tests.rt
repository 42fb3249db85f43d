//! TRIM and WRITE_ZEROES of the program in a world in memory, by the entries of its history.

ghost use Rattle.std.specs.Prelude.{IfOk};
ghost use Rattle.sb_world.specs.Told.{IsUnused};

use crate::tests::{DISC, OPENING, session};
use crate::write_tests::{TRIM, WRITE_ZEROES, request};
use sb_base::{EntryKind, Text};
use sb_fakes::{Object, TimedStore};
use std::alloc::{AllocError, Global};
use std::sync::Wait;
use std::test::Fail;
use std::thread::Threads;
use std::time;

/// A store that has these objects, each a block of `A`.
fn store_of(alloc: Global, names: &[&[u8]]) -> Result<TimedStore, AllocError>
    ensures { IfOk result (λ store. IsUnused store.log store.faults.count) }
{
    let mut start = Vec::new(alloc);
    for name in names {
        start.push(Object {
            name: Text::of(alloc, name)?,
            body: Text::of(alloc, &[0x41; 4096])?,
        })?;
    }
    Ok(TimedStore::new(alloc, start, Vec::new(alloc), Vec::new(alloc)))
}

/// The blocks of a session's GETs, and those that it wrote zeros to, in the order of time.
#[derive(Drop)]
struct Touched {
    gets: Vec<u32>,
    zeroed: Vec<u32>,
}

/// What a session of one request does over a store that has these objects.
fn session_over<R: Threads + Wait + time::Clock + Sync>(
    rt: &R,
    alloc: Global,
    names: &[&[u8]],
    asked: &[u8],
) -> Result<Touched, Fail> {
    let done = session(
        rt,
        alloc,
        store_of(alloc, names)?,
        &[OPENING, asked, DISC],
        4096,
    )?;
    let entries = done.tape.entries().ok_or("no entries")?;
    let mut gets = Vec::new(alloc);
    let mut zeroed = Vec::new(alloc);
    for entry in entries {
        match &entry.kind {
            EntryKind::GetBegin(block, _, _) => gets.push(*block)?,
            EntryKind::Write(part, bytes) => {
                if bytes.bytes().iter().all(|byte| *byte == 0) {
                    zeroed.push(part.block)?;
                }
            }
            _ => {}
        }
    }
    Ok(Touched { gets, zeroed })
}

/// The names of the first two blocks.
const TWO: &[&[u8]] = &[b"00000000", b"00000001"];

#[test]
fn a_block_is_asked_for_only_where_a_part_of_it_gets_zeros(rt: HostRuntime) -> Result<(), Fail> {
    let alloc = rt.alloc();
    let rows: [(u16, u64, u32, &[u32], &[u32]); 4] = [
        (TRIM, 2_048, 8_192, &[], &[1]),
        (TRIM, 2_048, 4_096, &[], &[]),
        (WRITE_ZEROES, 2_048, 4_096, &[0, 1], &[0, 1]),
        (WRITE_ZEROES, 4_096, 8_192, &[], &[1, 2]),
    ];
    for (kind, offset, length, gets, zeroed) in rows {
        let asked = request(alloc, kind, 1, offset, length)?;
        let touched = session_over(&rt, alloc, TWO, asked.as_slice())?;
        assert!(rt; touched.gets.as_slice() == gets);
        assert!(rt; touched.zeroed.as_slice() == zeroed);
    }
    Ok(())
}
