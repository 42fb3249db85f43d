//! Messages that come byte by byte, and messages that are written.

ghost use Rattle.std.specs.Prelude.{None};

use crate::{
    Asked, Command, Export, NbdEnd, Wanted, answer_to, has_fua, read_flags, read_option,
    read_request, write_answer, write_export, write_reply,
};
use sb_world::{ReadFault, Sink, Source, WriteFault};
use std::alloc::Global;
use std::test::Fail;

/// A source that gives one byte at a time.
#[derive(Drop)]
struct Drip {
    bytes: Vec<u8>,
    at: usize,
}

impl Source for Drip {
    ghost left = { λ _. None };

    ghost faults = { λ _. 0 };

    fn read(&mut self, out: &mut [u8]) -> Result<usize, ReadFault> {
        if self.at >= self.bytes.len() || out.is_empty() {
            return Ok(0);
        }
        out[0] = self.bytes[self.at];
        self.at += 1;
        Ok(1)
    }
}

/// A sink that keeps what it is given, and how often.
#[derive(Drop)]
struct Kept {
    bytes: Vec<u8>,
    writes: u8,
    faults: u64,
}

impl Sink for Kept {
    ghost held = { λ _. None };

    ghost faults = { λ k. k.faults };

    fn write(&mut self, bytes: &[u8]) -> Result<(), WriteFault> {
        self.writes = self.writes.saturating_add(1);
        match self.bytes.extend_from_slice(bytes) {
            Ok(()) => Ok(()),
            Err(_) => {
                self.faults = self.faults.saturating_add(1);
                Err(WriteFault::Failed)
            }
        }
    }
}

fn source_of(alloc: Global, bytes: &[u8]) -> Result<Drip, Fail> {
    let mut kept = Vec::new(alloc);
    kept.extend_from_slice(bytes)?;
    Ok(Drip { bytes: kept, at: 0 })
}

#[test]
fn messages_that_come_byte_by_byte_are_read_whole(rt: HostRuntime) -> Result<(), Fail> {
    let mut room = vec![in rt.alloc(); 0; 33_554_432]?;
    let mut source = source_of(
        rt.alloc(),
        b"\x00\x00\x00\x03IHAVEOPT\x00\x00\x00\x01\x00\x00\x00\x02hi\x25\x60\x95\x13\x00\x00\x00\x01\x00\x00\x00\x00\x00\x00\x00\x07\x00\x00\x00\x00\x00\x00\x10\x00\x00\x00\x00\x03abc",
    )?;
    assert_eq!(rt; read_flags(&mut source), Ok(3));
    let asked = read_option(&mut source, room.as_mut_slice())
        .ok()
        .ok_or("option")?;
    assert_eq!(rt; (asked.option, asked.length), (1, 2));
    assert!(rt; room[0] == 104 && room[1] == 105);
    let wanted = read_request(&mut source, room.as_mut_slice());
    assert_eq!(rt;
        wanted,
        Ok(Wanted {
            flags: 0,
            kind: 1,
            cookie: 7,
            offset: 4096,
            length: 3
        })
    );
    assert!(rt; room.len() == 33_554_432);
    assert!(rt; room[0] == 97 && room[1] == 98 && room[2] == 99);
    assert_eq!(rt;
        read_request(&mut source, room.as_mut_slice()),
        Err(NbdEnd::Ended)
    );
    Ok(())
}

#[test]
fn a_wrong_magic_is_told_once_its_bytes_came(rt: HostRuntime) -> Result<(), Fail> {
    let mut room = vec![in rt.alloc(); 0; 33_554_432]?;
    let mut whole = source_of(rt.alloc(), b"\x25\x60\x95\x14")?;
    assert_eq!(rt;
        read_request(&mut whole, room.as_mut_slice()),
        Err(NbdEnd::BadMagic(0x25609514))
    );
    let mut cut = source_of(rt.alloc(), b"\x00\x60\x95")?;
    assert_eq!(rt;
        read_request(&mut cut, room.as_mut_slice()),
        Err(NbdEnd::Cut { got: 3 })
    );
    Ok(())
}

#[test]
fn a_write_of_more_than_32_mib_is_too_big(rt: HostRuntime) -> Result<(), Fail> {
    let mut room = vec![in rt.alloc(); 0; 33_554_432]?;
    let mut source = source_of(
        rt.alloc(),
        b"\x25\x60\x95\x13\x00\x00\x00\x01\x00\x00\x00\x00\x00\x00\x00\x07\x00\x00\x00\x00\x00\x00\x10\x00\x02\x00\x00\x01abc",
    )?;
    assert_eq!(rt;
        read_request(&mut source, room.as_mut_slice()),
        Err(NbdEnd::TooBig { length: 33_554_433 })
    );
    assert_eq!(rt; source.at, 28);
    Ok(())
}

#[test]
fn a_body_is_a_write_of_its_own_and_an_empty_one_is_none(rt: HostRuntime) -> Result<(), Fail> {
    let mut sink = Kept {
        bytes: Vec::new(rt.alloc()),
        writes: 0,
        faults: 0,
    };
    assert_eq!(rt; write_reply(&mut sink, 5, 1, &[]), Ok(()));
    assert_eq!(rt; sink.writes, 1);
    assert_eq!(rt; write_reply(&mut sink, 0, 3, b"\x41\x00"), Ok(()));
    assert_eq!(rt; sink.writes, 3);
    assert_eq!(rt; write_export(&mut sink, 65536, 5, false), Ok(()));
    assert_eq!(rt; sink.writes, 4);
    let wanted =
        b"\x67\x44\x66\x98\x00\x00\x00\x05\x00\x00\x00\x00\x00\x00\x00\x01\x67\x44\x66\x98\x00\x00\x00\x00\x00\x00\x00\x00\x00\x00\x00\x03\x41\x00\x00\x00\x00\x00\x00\x01\x00\x00\x00\x05";
    assert!(rt; sink.bytes.as_slice() == wanted.as_slice());
    Ok(())
}

/// A disk of 16 blocks of 4,096 bytes.
const EXPORT: Export = Export {
    size: 65_536,
    block_size: 4096,
    flags: 0x006d,
};

/// What an option that carries these bytes is answered, to a client that wants no zeros.
fn answered(alloc: Global, option: u32, payload: &[u8]) -> Result<Vec<u8>, Fail> {
    let mut sink = Kept {
        bytes: Vec::new(alloc),
        writes: 0,
        faults: 0,
    };
    let asked = Asked {
        option,
        length: payload.len().min(255) as u32,
    };
    match write_answer(&mut sink, EXPORT, 3, option, answer_to(asked, payload)) {
        Ok(()) => Ok(sink.bytes),
        Err(_) => Err(Fail::from("no memory")),
    }
}

#[test]
fn options_have_the_answers_of_the_table(rt: HostRuntime) -> Result<(), Fail> {
    let rows: [(u32, &[u8], &[u8]); 8] = [
        (1, b"", b"\x00\x00\x00\x00\x00\x01\x00\x00\x00\x6d"),
        (1, b"a", b""),
        (
            2,
            b"",
            b"\x00\x03\xe8\x89\x04\x55\x65\xa9\x00\x00\x00\x02\x00\x00\x00\x01\x00\x00\x00\x00",
        ),
        (
            3,
            b"",
            b"\x00\x03\xe8\x89\x04\x55\x65\xa9\x00\x00\x00\x03\x00\x00\x00\x02\x00\x00\x00\x04\x00\x00\x00\x00\x00\x03\xe8\x89\x04\x55\x65\xa9\x00\x00\x00\x03\x00\x00\x00\x01\x00\x00\x00\x00",
        ),
        (
            5,
            b"",
            b"\x00\x03\xe8\x89\x04\x55\x65\xa9\x00\x00\x00\x05\x80\x00\x00\x02\x00\x00\x00\x00",
        ),
        (
            7,
            b"\x00\x00\x00\x00\x00\x01\x00\x03",
            b"\x00\x03\xe8\x89\x04\x55\x65\xa9\x00\x00\x00\x07\x00\x00\x00\x03\x00\x00\x00\x0c\x00\x00\x00\x00\x00\x00\x00\x01\x00\x00\x00\x6d\x00\x03\xe8\x89\x04\x55\x65\xa9\x00\x00\x00\x07\x00\x00\x00\x03\x00\x00\x00\x0e\x00\x03\x00\x00\x00\x01\x00\x00\x10\x00\x02\x00\x00\x00\x00\x03\xe8\x89\x04\x55\x65\xa9\x00\x00\x00\x07\x00\x00\x00\x01\x00\x00\x00\x00",
        ),
        (
            7,
            b"\x00\x00\x00\x01a\x00\x00",
            b"\x00\x03\xe8\x89\x04\x55\x65\xa9\x00\x00\x00\x07\x80\x00\x00\x06\x00\x00\x00\x00",
        ),
        (
            9,
            b"",
            b"\x00\x03\xe8\x89\x04\x55\x65\xa9\x00\x00\x00\x09\x80\x00\x00\x01\x00\x00\x00\x00",
        ),
    ];
    for (option, payload, wanted) in rows {
        let bytes = answered(rt.alloc(), option, payload)?;
        assert!(rt; bytes.as_slice() == wanted);
    }
    Ok(())
}

/// A request of this type with these flags.
fn wanted(kind: u16, flags: u16) -> Wanted {
    Wanted {
        flags,
        kind,
        cookie: 1,
        offset: 0,
        length: 4096,
    }
}

#[test]
fn types_have_the_commands_and_flags_of_the_table(rt: HostRuntime) -> Result<(), Fail> {
    let rows: [(u16, Option<Command>, u16); 8] = [
        (0, Some(Command::Read), 1),
        (1, Some(Command::Write), 1),
        (2, Some(Command::Disc), 1),
        (3, Some(Command::Flush), 1),
        (4, Some(Command::Trim), 1),
        (5, None, 0),
        (6, Some(Command::WriteZeroes), 3),
        (7, None, 0),
    ];
    for (kind, command, flags) in rows {
        assert!(rt; wanted(kind, 0).command() == command);
        if let Some(command) = command {
            assert!(rt; !command.has_other_flags(flags));
            assert!(rt; command.has_other_flags(flags + 1));
        }
    }
    for (flags, fua) in [(0, false), (1, true), (2, false), (3, true)] {
        assert!(rt; has_fua(flags) == fua);
    }
    Ok(())
}
