//! Writes and flushes of the program in a world in memory, and of its disk.

ghost use Rattle.std.specs.Prelude.{◌≡◌, ◌≢◌, ◌≤◌, ◌<◌, None, vec_len};
ghost use Rattle.sb_base.specs.Ranges.{IsPart};

use crate::settings::SETTINGS;
use crate::tests::{
    DISC, HANDSHAKE, OPENING, errors, failing_store, joined, output, plain_names, session,
    session_over,
};
use sb_base::{Geometry, Kind, Line, Part, Settings, Text};
use sb_core::Core;
use sb_crew::{Alone, Calls, Desk};
use sb_fakes::{HandClock, MemoryConn, PlainStore, TimedStore};
use sb_world::{Got, Link, Tape};
use sb_zero::Zeros;
use std::alloc::{AllocError, Global};
use std::test::Fail;

/// The types of requests.
pub(crate) const READ: u16 = 0;

pub(crate) const WRITE: u16 = 1;

pub(crate) const FLUSH: u16 = 3;

pub(crate) const TRIM: u16 = 4;

pub(crate) const WRITE_ZEROES: u16 = 6;

/// A request without its bytes.
pub(crate) fn request(
    alloc: Global,
    kind: u16,
    cookie: u64,
    offset: u64,
    length: u32,
) -> Result<Vec<u8>, AllocError> {
    let mut bytes = Vec::new(alloc);
    bytes.extend_from_slice(b"\x25\x60\x95\x13\x00\x00")?;
    bytes.extend_from_slice(&kind.to_be_bytes())?;
    bytes.extend_from_slice(&cookie.to_be_bytes())?;
    bytes.extend_from_slice(&offset.to_be_bytes())?;
    bytes.extend_from_slice(&length.to_be_bytes())?;
    Ok(bytes)
}

/// A reply without its bytes.
pub(crate) fn reply(alloc: Global, error: u32, cookie: u64) -> Result<Vec<u8>, AllocError> {
    let mut bytes = Vec::new(alloc);
    bytes.extend_from_slice(b"\x67\x44\x66\x98")?;
    bytes.extend_from_slice(&error.to_be_bytes())?;
    bytes.extend_from_slice(&cookie.to_be_bytes())?;
    Ok(bytes)
}

#[test]
fn what_was_written_is_read(rt: HostRuntime) -> Result<(), Fail> {
    let alloc = rt.alloc();
    let write = request(alloc, WRITE, 1, 0, 4096)?;
    let flush = request(alloc, FLUSH, 2, 0, 0)?;
    let read = request(alloc, READ, 3, 4095, 2)?;
    let asked = joined(alloc, &[&write, &[0x41; 4096], &flush, &read])?;
    let done = session(
        &rt,
        alloc,
        PlainStore::new(alloc),
        &[OPENING, asked.bytes(), DISC],
        4096,
    )?;
    let written = reply(alloc, 0, 1)?;
    let flushed = reply(alloc, 0, 2)?;
    let answered = reply(alloc, 0, 3)?;
    let wanted = joined(
        alloc,
        &[HANDSHAKE, &written, &flushed, &answered, &[0x41, 0]],
    )?;
    assert_eq!(rt; done.status, 0);
    assert_eq!(rt; output(&done), wanted.bytes());
    Ok(())
}

#[test]
fn a_last_flush_that_fails_is_the_status(rt: HostRuntime) -> Result<(), Fail> {
    let alloc = rt.alloc();
    let write = request(alloc, WRITE, 1, 0, 4096)?;
    let asked = joined(alloc, &[&write, &[0x41; 4096]])?;
    let fails = Vec::from_array(alloc, [1])?;
    let link = failing_store(alloc, fails);
    let done = session(&rt, alloc, link, &[OPENING, asked.bytes(), DISC], 4096)?;
    let written = reply(alloc, 0, 1)?;
    let wanted = joined(alloc, &[HANDSHAKE, &written])?;
    assert_eq!(rt; done.status, 3);
    assert_eq!(rt; output(&done), wanted.bytes());
    assert_eq!(rt; errors(&done), b"s3backer: store fault 503\n".as_slice());
    Ok(())
}

/// A tape that keeps the kinds of events with their blocks, in the order of time.
#[derive(Drop)]
struct Kinds {
    text: Vec<u8>,
}

impl Kinds {
    /// Adds an event, with the last digit of its block.
    fn note(&mut self, kind: &[u8], block: u32) {
        let _kind = self.text.extend_from_slice(kind);
        let _block = self
            .text
            .extend_from_slice(&[b' ', b'0' + (block % 10) as u8, b'\n']);
    }
}

impl Tape for Kinds {
    ghost told = { λ _. None };

    fn add(&mut self, line: Line<'_>) {
        match line.kind {
            Kind::Read(part, _) => self.note(b"Read", part.block),
            Kind::Write(part, _) => self.note(b"Write", part.block),
            Kind::FlushBegin(_) => self.note(b"FlushBegin", 0),
            Kind::FlushDone(_) => self.note(b"FlushDone", 0),
            Kind::GetBegin(block, _, _) => self.note(b"GetBegin", block),
            Kind::GetEnd { block, .. } => self.note(b"GetEnd", block),
            Kind::PutBegin(block, _) => self.note(b"PutBegin", block),
            Kind::PutEnd(block, _) => self.note(b"PutEnd", block),
            Kind::Dropped(block) => self.note(b"Dropped", block),
            _ => self.note(b"other", 0),
        }
    }
}

/// Whether two parts of 2,048 bytes are written, one after the other.
fn writes_both<K, D: Calls<K>>(disk: &mut D, desk: &mut K, first: Part, second: Part) -> bool
    requires ready { D.ready disk.old desk.old }
    requires first { IsPart (D.base disk.old).geometry first }
    requires second { IsPart (D.base disk.old).geometry second }
    requires first_length { first.length ≡ 2048 }
    requires second_length { second.length ≡ 2048 }
{
    disk.write(desk, first, &[0x41; 2048]).is_ok()
        && disk.write(desk, second, &[0x42; 2048]).is_ok()
}

/// Whether a write over the border of the first two blocks adds these entries, over a cache of so many blocks.
fn border_adds(alloc: Global, cache_size: u32, wanted: &[u8]) -> Result<bool, Fail>
    requires { (0 < cache_size) × (cache_size ≤ 1048576) }
{
    let geometry = Geometry::make(65_536, 4096)?;
    if geometry.blocks < 2 {
        return Err(Fail::from("no second block"));
    }
    let settings = Settings {
        cache_size,
        ..SETTINGS
    };
    let store = PlainStore::new(alloc);
    let clock = HandClock::new(alloc, 0, 0, false);
    let Ok(mut desk) = Desk::new(alloc, store, clock, &geometry) else {
        return Err(Fail::from("no memory"));
    };
    let kinds = Kinds {
        text: Vec::new(alloc),
    };
    let zeros = Zeros::new(alloc, geometry.blocks)?;
    let core = Core::new(alloc, geometry, settings, zeros)?;
    let mut disk = Alone::new(core, plain_names(alloc, &geometry), kinds);
    let first = Part {
        block: 0,
        offset: 2048,
        length: 2048,
    };
    let second = Part {
        block: 1,
        offset: 0,
        length: 2048,
    };
    let flushed = disk.flush(&mut desk).is_ok();
    let written = writes_both(&mut disk, &mut desk, first, second);
    let (_core, kinds) = disk.finish();
    Ok(flushed && written && kinds.text.as_slice() == wanted)
}

#[test]
fn a_write_over_a_border_puts_the_first_block_to_make_room(rt: HostRuntime) -> Result<(), Fail> {
    let alone =
        b"FlushBegin 0\nFlushDone 0\nGetBegin 0\nGetEnd 0\nWrite 0\nPutBegin 0\nPutEnd 0\nDropped 0\nGetBegin 1\nGetEnd 1\nWrite 1\n";
    let both =
        b"FlushBegin 0\nFlushDone 0\nGetBegin 0\nGetEnd 0\nWrite 0\nGetBegin 1\nGetEnd 1\nWrite 1\n";
    assert!(rt; border_adds(rt.alloc(), 1, alone.as_slice())?);
    assert!(rt; border_adds(rt.alloc(), 2, both.as_slice())?);
    Ok(())
}

/// The block of a store, `None` where it is absent. A call that fails is made once more.
fn block_of(link: &mut TimedStore, name: &[u8]) -> Option<[u8; 4096]> {
    let mut block = [0; 4096];
    let got = match link.get(name, None, &mut block) {
        Ok(got) => got,
        Err(_) => match link.get(name, None, &mut block) {
            Ok(got) => got,
            Err(_) => return None,
        },
    };
    match got {
        Got::Bytes => Some(block),
        _ => None,
    }
}

/// The error of a reply that stands at a place, `None` where there is none.
fn error_at(output: &[u8], at: usize) -> Option<u8> {
    output.get(at..)?.get(7).copied()
}

/// Whether a block is what a write of 512 bytes left of zeros.
fn is_small_write(block: &[u8; 4096]) -> bool {
    block[..512].iter().all(|byte| *byte == 0x41) && block[512..].iter().all(|byte| *byte == 0)
}

#[test]
fn a_failed_call_loses_nothing_that_was_flushed(rt: HostRuntime) -> Result<(), Fail> {
    let alloc = rt.alloc();
    let small = request(alloc, WRITE, 1, 0, 512)?;
    let whole = request(alloc, WRITE, 2, 4096, 4096)?;
    let flush = request(alloc, FLUSH, 3, 0, 0)?;
    let asked = joined(
        alloc,
        &[&small, &[0x41; 512], &whole, &[0x42; 4096], &flush],
    )?;
    let replies = HANDSHAKE.len();
    for call in 1..10 {
        let fails = Vec::from_array(alloc, [call])?;
        let link = failing_store(alloc, fails);
        let mut done = session(&rt, alloc, link, &[OPENING, asked.bytes(), DISC], 4096)?;
        let first = error_at(output(&done), replies);
        let second = error_at(output(&done), replies + 16);
        let flush = error_at(output(&done), replies + 32);
        assert!(rt; first == Some(0) || first == Some(5));
        assert!(rt; second == Some(0) || second == Some(5));
        assert!(rt; flush == Some(0) || flush == Some(5));
        if done.status == 3 {
            assert_eq!(rt; errors(&done), b"s3backer: store fault 503\n".as_slice());
        } else {
            assert_eq!(rt; done.status, 0);
            assert_eq!(rt; errors(&done).len(), 0);
        }
        if flush == Some(0) || done.status == 0 {
            let bench = match &mut done.world.last {
                Some(bench) => bench,
                None => return Err(Fail::from("no bench was shut")),
            };
            let link = match bench.links.first_mut() {
                Some(link) => link,
                None => return Err(Fail::from("the bench has no link")),
            };
            let small = block_of(link, b"00000000");
            let whole = block_of(link, b"00000001");
            assert!(rt; small.is_some() == (first == Some(0)));
            assert!(rt; whole.is_some() == (second == Some(0)));
            if let Some(small) = small {
                assert!(rt; is_small_write(&small));
            }
            if let Some(whole) = whole {
                assert!(rt; whole == [0x42; 4096]);
            }
        }
        if first == Some(0) && second == Some(0) && flush == Some(0) && done.status == 0 {
            assert_eq!(rt; call, 4);
            return Ok(());
        }
    }
    Err(Fail::from("every session met a failure"))
}

/// Numbers that look random.
#[derive(Drop)]
struct Numbers {
    state: u64,
}

impl Numbers {
    /// The next number below a limit, by Marsaglia's xorshift.
    fn below(&mut self, limit: u64) -> u64
        requires { limit ≢ 0 }
        ensures { result < limit }
    {
        self.state ^= self.state << 13;
        self.state ^= self.state >> 7;
        self.state ^= self.state << 17;
        self.state % limit
    }
}

/// An array of bytes, of the size of the disk.
#[derive(Drop)]
struct Array {
    bytes: Vec<u8>,
    ghost sized: { vec_len bytes ≡ 65536 },
}

impl Array {
    fn new(alloc: Global) -> Result<Array, AllocError> {
        let mut bytes = Vec::new(alloc);
        bytes.resize(65_536, 0)?;
        Ok(Array { bytes })
    }

    /// The bytes from one place to another.
    fn part(&self, begin: usize, end: usize) -> &[u8]
        requires { (begin ≤ end) × (end ≤ 65536) }
    {
        &self.bytes[begin..end]
    }

    /// Fills each block of 4,096 bytes that lies wholly between two places with zeros.
    fn trim(&mut self, begin: usize, end: usize) {
        for block in 0..16 {
            let at = 4096 * block;
            if begin <= at && at + 4096 <= end {
                self.fill(at, at + 4096, 0);
            }
        }
    }

    /// Fills them with one byte.
    fn fill(&mut self, begin: usize, end: usize, byte: u8)
        requires { (begin ≤ end) × (end ≤ 65536) }
    {
        self.bytes[begin..end].fill(byte);
    }
}

#[test]
fn random_requests_get_the_replies_of_an_array(rt: HostRuntime) -> Result<(), Fail> {
    let alloc = rt.alloc();
    let mut numbers = Numbers {
        state: 88_172_645_463_325_252,
    };
    let mut disk = Array::new(alloc)?;
    let mut asked = Vec::new(alloc);
    let mut wanted = Vec::new(alloc);
    wanted.extend_from_slice(HANDSHAKE)?;
    for cookie in 0..4000 {
        let length = numbers.below(1200);
        let offset = numbers.below(65_537 - length);
        let begin = offset as usize;
        let end = (offset + length) as usize;
        match numbers.below(11) {
            0..=3 => {
                let fill = numbers.below(3) as u8;
                disk.fill(begin, end, fill);
                asked.extend_from_slice(&request(alloc, WRITE, cookie, offset, length as u32)?)?;
                asked.extend_from_slice(disk.part(begin, end))?;
                wanted.extend_from_slice(&reply(alloc, 0, cookie)?)?;
            }
            4..=7 => {
                asked.extend_from_slice(&request(alloc, READ, cookie, offset, length as u32)?)?;
                wanted.extend_from_slice(&reply(alloc, 0, cookie)?)?;
                wanted.extend_from_slice(disk.part(begin, end))?;
            }
            8 => {
                asked.extend_from_slice(&request(alloc, FLUSH, cookie, offset, 0)?)?;
                wanted.extend_from_slice(&reply(alloc, 0, cookie)?)?;
            }
            9 => {
                disk.fill(begin, end, 0);
                asked.extend_from_slice(&request(
                    alloc,
                    WRITE_ZEROES,
                    cookie,
                    offset,
                    length as u32,
                )?)?;
                wanted.extend_from_slice(&reply(alloc, 0, cookie)?)?;
            }
            _ => {
                let length = 8 * length;
                let offset = numbers.below(65_537 - length);
                disk.trim(offset as usize, (offset + length) as usize);
                asked.extend_from_slice(&request(alloc, TRIM, cookie, offset, length as u32)?)?;
                wanted.extend_from_slice(&reply(alloc, 0, cookie)?)?;
            }
        }
    }
    let done = session(
        &rt,
        alloc,
        PlainStore::new(alloc),
        &[OPENING, &asked, DISC],
        977,
    )?;
    assert_eq!(rt; done.status, 0);
    assert!(rt; output(&done) == wanted.as_slice());
    Ok(())
}

/// The requests of a short session: a WRITE, a FLUSH and DISC.
fn short_session(alloc: Global) -> Result<Text, AllocError> {
    let write = request(alloc, WRITE, 1, 100, 7)?;
    let flush = request(alloc, FLUSH, 2, 0, 0)?;
    joined(alloc, &[OPENING, &write, b"several", &flush, DISC])
}

#[test]
fn a_read_that_fails_is_told(rt: HostRuntime) -> Result<(), Fail> {
    let alloc = rt.alloc();
    for call in 1..40 {
        let fails = Vec::from_array(alloc, [call])?;
        let input = MemoryConn::source(short_session(alloc)?, 16, fails);
        let output = MemoryConn::sink(alloc, Vec::new(alloc));
        let done = session_over(&rt, alloc, PlainStore::new(alloc), input, output)?;
        if done.status == 0 {
            assert!(rt; call > 8);
            return Ok(());
        }
        assert_eq!(rt; done.status, 7);
        assert_eq!(rt;
            errors(&done),
            b"s3backer: session: read fault\n".as_slice()
        );
    }
    Err(Fail::from("every session met a failure"))
}

#[test]
fn a_write_of_a_reply_that_fails_is_told(rt: HostRuntime) -> Result<(), Fail> {
    let alloc = rt.alloc();
    for call in 1..40 {
        let fails = Vec::from_array(alloc, [call])?;
        let input = MemoryConn::source(short_session(alloc)?, 4096, Vec::new(alloc));
        let output = MemoryConn::sink(alloc, fails);
        let done = session_over(&rt, alloc, PlainStore::new(alloc), input, output)?;
        if done.status == 0 {
            assert!(rt; call > 3);
            return Ok(());
        }
        assert_eq!(rt; done.status, 7);
        assert_eq!(rt;
            errors(&done),
            b"s3backer: session: write fault\n".as_slice()
        );
    }
    Err(Fail::from("every session met a failure"))
}
