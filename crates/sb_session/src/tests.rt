//! Sessions over a disk and a connection in memory. The bytes are those of the NBD protocol document.

ghost use Rattle.std.specs.Prelude.{◌≡◌, ◌≤◌, length};

use crate::SessionEnd;
use crate::fakes::{Incoming, run, sink_for, source_of};
use crate::messages::{DISC, HANDSHAKE, OPENING, joined, reply, request};
use sb_nbd::{MAX_PAYLOAD, NbdEnd};
use sb_world::LinkFault;
use std::alloc::{AllocError, Global};
use std::test::Fail;

/// Two bytes at 4,095, none at the end of the disk, and its last byte.
fn reads(alloc: Global) -> Result<Vec<u8>, AllocError> {
    let over_a_border = request(0, 3, 4_095, 2);
    let none = request(0, 4, 65_536, 0);
    let last = request(0, 5, 65_535, 1);
    joined(
        alloc,
        &[over_a_border.as_slice(), none.as_slice(), last.as_slice()],
    )
}

/// The replies to these, where the disk has `41` at 4,095 and `5a` at its end, and the first read had this error.
fn replies(alloc: Global, error: u8) -> Result<Vec<u8>, AllocError> {
    let mut all = Vec::new(alloc);
    all.extend_from_slice(&reply(error, 3))?;
    if error == 0 {
        all.extend_from_slice(b"A\0")?;
    }
    all.extend_from_slice(&reply(0, 4))?;
    all.extend_from_slice(&reply(0, 5))?;
    all.extend_from_slice(b"Z")?;
    Ok(all)
}

/// The opening, these requests, and DISC, in pieces of so many bytes.
fn session_of(alloc: Global, requests: &[u8], piece: usize) -> Result<Incoming, AllocError> {
    let disconnect = request(2, 0, 0, 0);
    source_of(alloc, &[OPENING, requests, disconnect.as_slice()], piece)
}

#[test]
fn a_client_that_asks_for_nothing_gets_greeting_and_export(rt: HostRuntime) -> Result<(), Fail> {
    let mut room = vec![in rt.alloc(); 0; 33_554_432]?;
    let mut source = session_of(rt.alloc(), b"", 4096)?;
    let mut sink = sink_for(rt.alloc(), 9);
    assert_eq!(rt;
        run(
            rt.alloc(),
            None,
            false,
            &mut source,
            &mut sink,
            room.as_mut_slice()
        )?,
        Some(SessionEnd::Disconnected)
    );
    assert!(rt; sink.bytes.as_slice() == HANDSHAKE);
    Ok(())
}

#[test]
fn an_export_is_padded_unless_no_zeroes_are_wanted(rt: HostRuntime) -> Result<(), Fail> {
    let mut room = vec![in rt.alloc(); 0; 33_554_432]?;
    let opening = b"\x00\x00\x00\x01IHAVEOPT\x00\x00\x00\x01\x00\x00\x00\x00";
    let mut source = source_of(rt.alloc(), &[opening.as_slice()], 4096)?;
    let mut sink = sink_for(rt.alloc(), 9);
    assert_eq!(rt;
        run(
            rt.alloc(),
            None,
            false,
            &mut source,
            &mut sink,
            room.as_mut_slice()
        )?,
        Some(SessionEnd::Ended)
    );
    let wanted = joined(rt.alloc(), &[HANDSHAKE, [0; 124].as_slice()])?;
    assert!(rt; sink.bytes == wanted);
    Ok(())
}

/// Whether the reads, in pieces of this length, get these replies, where the disk's first call fails so.
fn is_read(
    alloc: Global,
    fault: Option<LinkFault>,
    piece: usize,
    error: u8,
    room: &mut [u8],
) -> Result<bool, AllocError>
    requires { MAX_PAYLOAD ≤ length room.old }
    ensures { length room.new ≡ length room.old }
{
    let requests = reads(alloc)?;
    let mut source = session_of(alloc, requests.as_slice(), piece)?;
    let mut sink = sink_for(alloc, 9);
    let end = run(alloc, fault, false, &mut source, &mut sink, room)?;
    let replies = replies(alloc, error)?;
    let wanted = joined(alloc, &[HANDSHAKE, replies.as_slice()])?;
    Ok(end == Some(SessionEnd::Disconnected) && sink.bytes == wanted)
}

#[test]
fn reads_in_one_piece_get_their_replies(rt: HostRuntime) -> Result<(), Fail> {
    let mut room = vec![in rt.alloc(); 0; 33_554_432]?;
    let read = is_read(rt.alloc(), None, 4096, 0, room.as_mut_slice())?;
    assert!(rt; read);
    Ok(())
}

#[test]
fn reads_in_pieces_of_one_byte_get_the_same_replies(rt: HostRuntime) -> Result<(), Fail> {
    let mut room = vec![in rt.alloc(); 0; 33_554_432]?;
    let read = is_read(rt.alloc(), None, 1, 0, room.as_mut_slice())?;
    assert!(rt; read);
    Ok(())
}

#[test]
fn a_store_that_failed_is_an_error_and_the_session_goes_on(rt: HostRuntime) -> Result<(), Fail> {
    let mut room = vec![in rt.alloc(); 0; 33_554_432]?;
    let failed = Some(LinkFault::Failed { status: 503 });
    let told = is_read(rt.alloc(), failed, 4096, 5, room.as_mut_slice())?;
    assert!(rt; told);
    Ok(())
}

#[test]
fn memory_that_ran_out_is_another_error(rt: HostRuntime) -> Result<(), Fail> {
    let mut room = vec![in rt.alloc(); 0; 33_554_432]?;
    let memory = Some(LinkFault::Memory);
    let told = is_read(rt.alloc(), memory, 4096, 12, room.as_mut_slice())?;
    assert!(rt; told);
    Ok(())
}

/// Whether a session of these requests writes these replies behind the handshake, and is disconnected.
fn is_answered(
    alloc: Global,
    requests: &[&[u8]],
    replies: &[&[u8]],
    room: &mut [u8],
) -> Result<bool, AllocError>
    requires { MAX_PAYLOAD ≤ length room.old }
    ensures { length room.new ≡ length room.old }
{
    let requests = joined(alloc, requests)?;
    let mut source = session_of(alloc, requests.as_slice(), 4096)?;
    let mut sink = sink_for(alloc, 9);
    let end = run(alloc, None, false, &mut source, &mut sink, room)?;
    let replies = joined(alloc, replies)?;
    let wanted = joined(alloc, &[HANDSHAKE, replies.as_slice()])?;
    Ok(end == Some(SessionEnd::Disconnected) && sink.bytes == wanted)
}

#[test]
fn a_read_past_the_end_is_invalid(rt: HostRuntime) -> Result<(), Fail> {
    let mut room = vec![in rt.alloc(); 0; 33_554_432]?;
    let read = request(0, 2, 65_535, 2);
    let invalid = reply(22, 2);
    let answered = is_answered(
        rt.alloc(),
        &[read.as_slice()],
        &[invalid.as_slice()],
        room.as_mut_slice(),
    )?;
    assert!(rt; answered);
    Ok(())
}

#[test]
fn a_write_past_the_end_has_no_space(rt: HostRuntime) -> Result<(), Fail> {
    let mut room = vec![in rt.alloc(); 0; 33_554_432]?;
    let write = request(1, 3, 65_535, 2);
    let no_space = reply(28, 3);
    let answered = is_answered(
        rt.alloc(),
        &[write.as_slice(), b"AB"],
        &[no_space.as_slice()],
        room.as_mut_slice(),
    )?;
    assert!(rt; answered);
    Ok(())
}

#[test]
fn a_request_of_another_type_is_invalid(rt: HostRuntime) -> Result<(), Fail> {
    let mut room = vec![in rt.alloc(); 0; 33_554_432]?;
    let cache = request(5, 4, 0, 2);
    let invalid = reply(22, 4);
    let answered = is_answered(
        rt.alloc(),
        &[cache.as_slice()],
        &[invalid.as_slice()],
        room.as_mut_slice(),
    )?;
    assert!(rt; answered);
    Ok(())
}

#[test]
fn what_was_written_is_read_after_a_flush(rt: HostRuntime) -> Result<(), Fail> {
    let mut room = vec![in rt.alloc(); 0; 33_554_432]?;
    let write = request(1, 1, 0, 4_096);
    let flush = request(3, 2, 0, 0);
    let read = request(0, 3, 4_095, 2);
    let written = reply(0, 1);
    let flushed = reply(0, 2);
    let shown = reply(0, 3);
    let answered = is_answered(
        rt.alloc(),
        &[
            write.as_slice(),
            [0x41; 4_096].as_slice(),
            flush.as_slice(),
            read.as_slice(),
        ],
        &[
            written.as_slice(),
            flushed.as_slice(),
            shown.as_slice(),
            b"A\0",
        ],
        room.as_mut_slice(),
    )?;
    assert!(rt; answered);
    Ok(())
}

#[test]
fn a_write_over_a_border_is_read_from_both_blocks(rt: HostRuntime) -> Result<(), Fail> {
    let mut room = vec![in rt.alloc(); 0; 33_554_432]?;
    let write = request(1, 1, 4_094, 4);
    let read = request(0, 2, 4_093, 6);
    let written = reply(0, 1);
    let shown = reply(0, 2);
    let answered = is_answered(
        rt.alloc(),
        &[write.as_slice(), b"abcd", read.as_slice()],
        &[written.as_slice(), shown.as_slice(), b"\0abcd\0"],
        room.as_mut_slice(),
    )?;
    assert!(rt; answered);
    Ok(())
}

#[test]
fn the_fault_of_a_flush_is_that_of_a_write_with_fua(rt: HostRuntime) -> Result<(), Fail> {
    let mut room = vec![in rt.alloc(); 0; 33_554_432]?;
    let failed = Some(LinkFault::Failed { status: 503 });
    let nothing =
        b"\x25\x60\x95\x13\x00\x01\x00\x01\x00\x00\x00\x00\x00\x00\x00\x04\x00\x00\x00\x00\x00\x00\x00\x00\x00\x00\x00\x00";
    let mut source = source_of(rt.alloc(), &[OPENING, nothing.as_slice(), DISC], 4096)?;
    let mut sink = sink_for(rt.alloc(), 9);
    let end = run(
        rt.alloc(),
        failed,
        false,
        &mut source,
        &mut sink,
        room.as_mut_slice(),
    )?;
    assert_eq!(rt; end, Some(SessionEnd::Disconnected));
    let told = reply(5, 4);
    let wanted = joined(rt.alloc(), &[HANDSHAKE, told.as_slice()])?;
    assert!(rt; sink.bytes == wanted);
    Ok(())
}

#[test]
fn a_source_that_fails_ends_the_session_so(rt: HostRuntime) -> Result<(), Fail> {
    let mut room = vec![in rt.alloc(); 0; 33_554_432]?;
    let requests = reads(rt.alloc())?;
    let mut source = source_of(rt.alloc(), &[OPENING, requests.as_slice()], 4096)?;
    source.fails = true;
    let mut sink = sink_for(rt.alloc(), 9);
    let end = run(
        rt.alloc(),
        None,
        false,
        &mut source,
        &mut sink,
        room.as_mut_slice(),
    )?;
    assert_eq!(rt; end, Some(SessionEnd::Fault(NbdEnd::ReadFault)));
    let replies = replies(rt.alloc(), 0)?;
    let wanted = joined(rt.alloc(), &[HANDSHAKE, replies.as_slice()])?;
    assert!(rt; sink.bytes == wanted);
    Ok(())
}

#[test]
fn a_sink_that_fails_ends_the_session_so(rt: HostRuntime) -> Result<(), Fail> {
    let mut room = vec![in rt.alloc(); 0; 33_554_432]?;
    let requests = reads(rt.alloc())?;
    let mut source = session_of(rt.alloc(), requests.as_slice(), 4096)?;
    let mut sink = sink_for(rt.alloc(), 3);
    let end = run(
        rt.alloc(),
        None,
        false,
        &mut source,
        &mut sink,
        room.as_mut_slice(),
    )?;
    assert_eq!(rt; end, Some(SessionEnd::Fault(NbdEnd::WriteFault)));
    let head = reply(0, 3);
    let wanted = joined(rt.alloc(), &[HANDSHAKE, head.as_slice()])?;
    assert!(rt; sink.bytes == wanted);
    Ok(())
}
