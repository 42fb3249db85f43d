//! Options and requests beside the tables of their answers, and sessions that are cut at each byte.

use crate::SessionEnd;
use crate::fakes::told;
use crate::messages::{
    ABORT, ACK_3, ACK_7, DISC, EXPORT_7, EXPORT_NAME, FLAGS, GO, GO_3, GREETING, LIST, OPTION_9,
    READ_1, READ_512, SERVER_3, SIZES_7, UNSUP_9, WRITE_ABC, ZEROS, joined,
};
use sb_nbd::NbdEnd;
use std::alloc::{AllocError, Global};
use std::test::Fail;

/// Whether a session of these bytes writes that behind the greeting and ends so, in one piece and in pieces of one byte.
fn is_told(
    alloc: Global,
    read_only: bool,
    sent: &[&[u8]],
    answers: &[&[u8]],
    end: SessionEnd,
) -> Result<bool, AllocError> {
    let whole = told(alloc, read_only, sent, 4096)?;
    let dripped = told(alloc, read_only, sent, 1)?;
    let answers = joined(alloc, answers)?;
    let wanted = joined(alloc, &[GREETING, answers.as_slice()])?;
    let ended = whole.end == Some(end) && dripped.end == Some(end);
    Ok(ended && whole.bytes == wanted && dripped.bytes == wanted)
}

#[test]
fn options_are_answered_by_the_table(rt: HostRuntime) -> Result<(), Fail> {
    let rows: [(bool, &[&[u8]], &[&[u8]], SessionEnd); 12] = [
        (
            false,
            &[FLAGS, GO, DISC],
            &[EXPORT_7, ACK_7],
            SessionEnd::Disconnected,
        ),
        (
            false,
            &[FLAGS, GO_3],
            &[EXPORT_7, SIZES_7, ACK_7],
            SessionEnd::Ended,
        ),
        (false, &[FLAGS, LIST], &[SERVER_3, ACK_3], SessionEnd::Ended),
        (false, &[FLAGS, OPTION_9], &[UNSUP_9], SessionEnd::Ended),
        (
            false,
            &[FLAGS, b"IHAVEOPT\x00\x00\x00\x05\x00\x00\x00\x00"],
            &[b"\x00\x03\xe8\x89\x04\x55\x65\xa9\x00\x00\x00\x05\x80\x00\x00\x02\x00\x00\x00\x00"],
            SessionEnd::Ended,
        ),
        (
            false,
            &[FLAGS, b"IHAVEOPT\x00\x00\x00\x03\x00\x00\x00\x01a"],
            &[b"\x00\x03\xe8\x89\x04\x55\x65\xa9\x00\x00\x00\x03\x80\x00\x00\x03\x00\x00\x00\x00"],
            SessionEnd::Ended,
        ),
        (
            false,
            &[
                FLAGS,
                b"IHAVEOPT\x00\x00\x00\x07\x00\x00\x00\x07\x00\x00\x00\x01a\x00\x00",
            ],
            &[b"\x00\x03\xe8\x89\x04\x55\x65\xa9\x00\x00\x00\x07\x80\x00\x00\x06\x00\x00\x00\x00"],
            SessionEnd::Ended,
        ),
        (
            false,
            &[
                FLAGS,
                b"IHAVEOPT\x00\x00\x00\x06\x00\x00\x00\x06\x00\x00\x00\x00\x00\x01",
            ],
            &[b"\x00\x03\xe8\x89\x04\x55\x65\xa9\x00\x00\x00\x06\x80\x00\x00\x03\x00\x00\x00\x00"],
            SessionEnd::Ended,
        ),
        (
            false,
            &[FLAGS, ABORT, LIST],
            &[b"\x00\x03\xe8\x89\x04\x55\x65\xa9\x00\x00\x00\x02\x00\x00\x00\x01\x00\x00\x00\x00"],
            SessionEnd::Aborted,
        ),
        (
            false,
            &[FLAGS, b"IHAVEOPT\x00\x00\x00\x01\x00\x00\x00\x01a"],
            &[],
            SessionEnd::NoSuchExport(1),
        ),
        (
            false,
            &[FLAGS, b"IHAVEOPT\x00\x00\x00\x08\x00\x01\x00\x01", LIST],
            &[],
            SessionEnd::Fault(NbdEnd::TooBig { length: 65_537 }),
        ),
        (
            false,
            &[b"\x00\x00\x00\x04", LIST],
            &[],
            SessionEnd::Fault(NbdEnd::BadFlags(4)),
        ),
    ];
    for (read_only, sent, answers, end) in rows {
        assert!(rt; is_told(rt.alloc(), read_only, sent, answers, end)?);
    }
    Ok(())
}

#[test]
fn requests_are_answered_by_the_table(rt: HostRuntime) -> Result<(), Fail> {
    let rows: [(bool, &[&[u8]], &[&[u8]], SessionEnd); 4] = [
        (
            false,
            &[
                FLAGS,
                b"IHAVEOPT\x00\x00\x00\x0b\x00\x00\x00\x00",
                b"IHAVEOPT\x00\x00\x00\x08\x00\x00\x00\x00",
                GO_3,
                READ_512,
                DISC,
            ],
            &[
                b"\x00\x03\xe8\x89\x04\x55\x65\xa9\x00\x00\x00\x0b\x80\x00\x00\x01\x00\x00\x00\x00",
                b"\x00\x03\xe8\x89\x04\x55\x65\xa9\x00\x00\x00\x08\x80\x00\x00\x01\x00\x00\x00\x00",
                EXPORT_7,
                SIZES_7,
                ACK_7,
                READ_1,
                ZEROS,
            ],
            SessionEnd::Disconnected,
        ),
        (
            false,
            &[FLAGS, EXPORT_NAME, WRITE_ABC, DISC],
            &[
                b"\x00\x00\x00\x00\x00\x01\x00\x00\x01\x6d",
                b"\x67\x44\x66\x98\x00\x00\x00\x00\x00\x00\x00\x00\x00\x00\x00\x04",
            ],
            SessionEnd::Disconnected,
        ),
        (
            true,
            &[FLAGS, EXPORT_NAME, WRITE_ABC, DISC],
            &[
                b"\x00\x00\x00\x00\x00\x01\x00\x00\x01\x6f",
                b"\x67\x44\x66\x98\x00\x00\x00\x01\x00\x00\x00\x00\x00\x00\x00\x04",
            ],
            SessionEnd::Disconnected,
        ),
        (
            false,
            &[FLAGS, GO, b"\x25\x60\x95\x14", DISC],
            &[EXPORT_7, ACK_7],
            SessionEnd::Fault(NbdEnd::BadMagic(0x25609514)),
        ),
    ];
    for (read_only, sent, answers, end) in rows {
        assert!(rt; is_told(rt.alloc(), read_only, sent, answers, end)?);
    }
    Ok(())
}

/// Whether a session that is cut behind so many bytes of a message is told so, and as ended where none of it came.
fn is_cut(alloc: Global, before: &[u8], message: &[u8]) -> Result<bool, AllocError> {
    for got in 0..message.len() {
        let cut = told(alloc, false, &[before, &message[..got]], 4096)?;
        let wanted = if got == 0 {
            SessionEnd::Ended
        } else {
            SessionEnd::Fault(NbdEnd::Cut { got: got as u64 })
        };
        if cut.end != Some(wanted) {
            return Ok(false);
        }
    }
    Ok(true)
}

#[test]
fn a_session_that_is_cut_tells_how_much_of_its_message_came(rt: HostRuntime) -> Result<(), Fail> {
    let messages = [FLAGS, OPTION_9, LIST, GO_3, READ_512, WRITE_ABC, DISC];
    let mut before = Vec::new(rt.alloc());
    for message in messages {
        assert!(rt; is_cut(rt.alloc(), before.as_slice(), message)?);
        before.extend_from_slice(message)?;
    }
    Ok(())
}
