//! TRIM and WRITE_ZEROES, over a disk of 16 blocks of 4,096 bytes. The replies are those of the NBD protocol document.

use crate::SessionEnd;
use crate::fakes::{run, sink_for, source_of, told};
use crate::messages::{DISC, EXPORT_NAME, FLAGS, HANDSHAKE, OPENING, joined, reply};
use sb_world::LinkFault;
use std::alloc::{AllocError, Global};
use std::test::Fail;

const WRITE: u8 = 1;

const TRIM: u8 = 4;

const WRITE_ZEROES: u8 = 6;

const FUA: u8 = 1;

const NO_HOLE: u8 = 2;

/// A request of cookie 2.
fn request(flags: u8, kind: u8, offset: u32, length: u32) -> [u8; 28] {
    let at = offset.to_be_bytes();
    let count = length.to_be_bytes();
    [
        0x25, 0x60, 0x95, 0x13, 0, flags, 0, kind, 0, 0, 0, 0, 0, 0, 0, 2, 0, 0, 0, 0, at[0],
        at[1], at[2], at[3], count[0], count[1], count[2], count[3],
    ]
}

/// What is read at a place behind a request, where the first three blocks were written with `A` before.
fn shows(alloc: Global, asked: [u8; 28], place: u32, seen: &[u8; 4]) -> Result<bool, AllocError> {
    let written = vec![in alloc; 0x41; 12_288]?;
    let write = request(0, WRITE, 0, 12_288);
    let read = request(0, 0, place, 4);
    let session = told(
        alloc,
        false,
        &[
            OPENING,
            write.as_slice(),
            written.as_slice(),
            asked.as_slice(),
            read.as_slice(),
            DISC,
        ],
        4096,
    )?;
    let done = reply(0, 2);
    let wanted = joined(
        alloc,
        &[
            HANDSHAKE,
            done.as_slice(),
            done.as_slice(),
            done.as_slice(),
            seen.as_slice(),
        ],
    )?;
    Ok(session.end == Some(SessionEnd::Disconnected) && session.bytes == wanted)
}

#[test]
fn zeros_are_written_to_whole_blocks_by_a_trim_and_to_each_part_else(
    rt: HostRuntime,
) -> Result<(), Fail> {
    let rows: [(u8, u8, u32, u32, u32, &[u8; 4]); 10] = [
        (0, TRIM, 2_048, 8_192, 4_094, b"AA\0\0"),
        (0, TRIM, 2_048, 8_192, 8_190, b"\0\0AA"),
        (0, TRIM, 4_096, 8_192, 12_286, b"\0\0\0\0"),
        (0, TRIM, 4_096, 4_095, 4_095, b"AAAA"),
        (0, TRIM, 4_096, 0, 4_095, b"AAAA"),
        (FUA, TRIM, 0, 4_096, 4_094, b"\0\0AA"),
        (0, WRITE_ZEROES, 2_048, 4_096, 2_046, b"AA\0\0"),
        (0, WRITE_ZEROES, 2_048, 4_096, 6_142, b"\0\0AA"),
        (NO_HOLE, WRITE_ZEROES, 0, 65_536, 12_286, b"\0\0\0\0"),
        (FUA | NO_HOLE, WRITE_ZEROES, 1, 1, 0, b"A\0AA"),
    ];
    for (flags, kind, offset, length, place, seen) in rows {
        let asked = request(flags, kind, offset, length);
        assert!(rt; shows(rt.alloc(), asked, place, seen)?);
    }
    Ok(())
}

/// Whether a request with a payload is refused by this error.
fn is_refused(
    alloc: Global,
    read_only: bool,
    asked: [u8; 28],
    payload: &[u8],
    error: u8,
) -> Result<bool, AllocError> {
    let session = told(
        alloc,
        read_only,
        &[FLAGS, EXPORT_NAME, asked.as_slice(), payload, DISC],
        4096,
    )?;
    let refused = reply(error, 2);
    let whole = session.bytes.as_slice();
    let behind = whole.len().saturating_sub(16);
    Ok(session.end == Some(SessionEnd::Disconnected) && &whole[behind..] == refused.as_slice())
}

#[test]
fn requests_for_zeros_are_refused_by_the_table(rt: HostRuntime) -> Result<(), Fail> {
    let rows: [(bool, u8, u8, u32, u32, u8); 8] = [
        (false, NO_HOLE, TRIM, 0, 4_096, 22),
        (false, 4, WRITE_ZEROES, 0, 4_096, 22),
        (false, 0, TRIM, 61_441, 4_096, 22),
        (false, 0, WRITE_ZEROES, 61_441, 4_096, 28),
        (true, 0, TRIM, 0, 4_096, 1),
        (true, 0, WRITE_ZEROES, 0, 4_096, 1),
        (true, 4, TRIM, 61_441, 4_096, 22),
        (true, 0, TRIM, 61_441, 4_096, 1),
    ];
    for (read_only, flags, kind, offset, length, error) in rows {
        let asked = request(flags, kind, offset, length);
        assert!(rt; is_refused(rt.alloc(), read_only, asked, b"", error)?);
    }
    let write = request(NO_HOLE, WRITE, 0, 3);
    assert!(rt; is_refused(rt.alloc(), false, write, b"abc", 22)?);
    Ok(())
}

#[test]
fn the_fault_of_a_flush_is_that_of_a_trim_with_fua(rt: HostRuntime) -> Result<(), Fail> {
    let mut room = vec![in rt.alloc(); 0; 33_554_432]?;
    let asked = request(FUA, TRIM, 1, 4_096);
    let mut source = source_of(rt.alloc(), &[OPENING, asked.as_slice(), DISC], 4096)?;
    let mut sink = sink_for(rt.alloc(), 9);
    let end = run(
        rt.alloc(),
        Some(LinkFault::Failed { status: 503 }),
        false,
        &mut source,
        &mut sink,
        room.as_mut_slice(),
    )?;
    assert_eq!(rt; end, Some(SessionEnd::Disconnected));
    let failed = reply(5, 2);
    let wanted = joined(rt.alloc(), &[HANDSHAKE, failed.as_slice()])?;
    assert!(rt; sink.bytes == wanted);
    Ok(())
}
