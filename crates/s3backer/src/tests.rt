//! Sessions of the program in a world in memory. The bytes are those of the NBD protocol document.

ghost use Rattle.std.specs.Prelude.{◌≡◌, ◌≢◌, length};
ghost use Rattle.sb_base.specs.Shapes.{IsSound};
ghost use Rattle.sb_world.specs.Told.{IsUnused};

use crate::plan::{Form, Plan};
use crate::rehearsal::{Rehearsal, rehearse};
use crate::settings::SETTINGS;
use crate::top::run_single;
use sb_base::{Geometry, Part, Settings, StorePlan, Text};
use sb_core::Core;
use sb_crew::{Alone, Calls, Desk, Names};
use sb_fakes::{HandClock, MemoryConn, MemoryWorld, PlainStore, TimedStore};
use sb_world::{Bench, Link, Meta, NoTape};
use sb_zero::Zeros;
use std::alloc::{AllocError, Global};
use std::sync::Wait;
use std::test::Fail;
use std::thread::Threads;
use std::time;

const FLAGS: &[u8] = b"\x00\x00\x00\x03";

pub(crate) const OPENING: &[u8] = b"\x00\x00\x00\x03IHAVEOPT\x00\x00\x00\x01\x00\x00\x00\x00";

pub(crate) const HANDSHAKE: &[u8] =
    b"NBDMAGICIHAVEOPT\x00\x03\x00\x00\x00\x00\x00\x01\x00\x00\x01\x6d";

pub(crate) const DISC: &[u8] =
    b"\x25\x60\x95\x13\x00\x00\x00\x02\x00\x00\x00\x00\x00\x00\x00\x00\x00\x00\x00\x00\x00\x00\x00\x00\x00\x00\x00\x00";

pub(crate) const READ_512: &[u8] =
    b"\x25\x60\x95\x13\x00\x00\x00\x00\x00\x00\x00\x00\x00\x00\x00\x01\x00\x00\x00\x00\x00\x00\x00\x00\x00\x00\x02\x00";

pub(crate) const EIO_1: &[u8] = b"\x67\x44\x66\x98\x00\x00\x00\x05\x00\x00\x00\x00\x00\x00\x00\x01";

pub(crate) const OK_1: &[u8] = b"\x67\x44\x66\x98\x00\x00\x00\x00\x00\x00\x00\x00\x00\x00\x00\x01";

/// The pieces, one after the other.
pub(crate) fn joined(alloc: Global, pieces: &[&[u8]]) -> Result<Text, AllocError> {
    let mut bytes = Vec::new(alloc);
    for piece in pieces {
        bytes.extend_from_slice(piece)?;
    }
    Ok(Text::from_vec(bytes))
}

/// A session of a disk of 64k over a link, whose client sends these pieces and is read in pieces of so many bytes.
pub(crate) fn session<R: Threads + Wait + time::Clock + Sync, L: Link + Drop + Send>(
    rt: &R,
    alloc: Global,
    link: L,
    pieces: &[&[u8]],
    piece: u32,
) -> Result<Rehearsal<L>, AllocError>
    requires piece { piece ≢ 0 }
    requires unused { IsUnused (L.log link) (L.faults link) }
{
    let input = MemoryConn::source(joined(alloc, pieces)?, piece, Vec::new(alloc));
    let output = MemoryConn::sink(alloc, Vec::new(alloc));
    session_over(rt, alloc, link, input, output)
}

/// These words.
pub(crate) fn words_of(alloc: Global, words: &[&str]) -> Result<Vec<String>, AllocError> {
    let mut owned = Vec::new(alloc);
    for word in words {
        owned.push(String::from_str(alloc, word)?)?;
    }
    Ok(owned)
}

/// A session of a disk of these words over a link, whose client sends these bytes.
pub(crate) fn session_of<R: Threads + Wait + time::Clock + Sync, L: Link + Drop + Send>(
    rt: &R,
    alloc: Global,
    words: &[String],
    link: L,
    sent: Text,
) -> Result<Rehearsal<L>, AllocError>
    requires unused { IsUnused (L.log link) (L.faults link) }
{
    rehearse(
        rt,
        alloc,
        words,
        link,
        HandClock::new(alloc, 1000, 0, false),
        MemoryConn::source(sent, 4096, Vec::new(alloc)),
        MemoryConn::sink(alloc, Vec::new(alloc)),
        MemoryConn::sink(alloc, Vec::new(alloc)),
    )
}

/// A session of a disk of 64k over a link and these ends of a connection.
pub(crate) fn session_over<R: Threads + Wait + time::Clock + Sync, L: Link + Drop + Send>(
    rt: &R,
    alloc: Global,
    link: L,
    input: MemoryConn,
    output: MemoryConn,
) -> Result<Rehearsal<L>, AllocError>
    requires unused { IsUnused (L.log link) (L.faults link) }
{
    let words = words_of(alloc, &["--stdio", "--test", "--size=64k", "disk"])?;
    rehearse(
        rt,
        alloc,
        words.as_slice(),
        link,
        HandClock::new(alloc, 1000, 0, false),
        input,
        output,
        MemoryConn::sink(alloc, Vec::new(alloc)),
    )
}

/// An empty store. The calls in `fails`, counted from 1, fail.
pub(crate) fn failing_store(alloc: Global, fails: Vec<u64>) -> TimedStore
    ensures { IsUnused result.log result.faults.count }
{
    TimedStore::new(alloc, Vec::new(alloc), Vec::new(alloc), fails)
}

/// The names of the objects of a disk of this geometry, without a prefix.
pub(crate) fn plain_names(alloc: Global, geometry: &Geometry) -> Names
    requires { IsSound geometry.now }
    ensures { length result.prefix ≡ 0 }
{
    Names {
        prefix: String::new(alloc),
        hashed: false,
        meta: Meta {
            size: geometry.size(),
            block_size: geometry.block_size,
        },
    }
}

/// What a run wrote.
pub(crate) fn output<L: Link>(done: &Rehearsal<L>) -> &[u8] {
    match &done.world.last {
        Some(bench) => bench.output.bytes(),
        None => &[],
    }
}

/// What a run said on its error sink.
pub(crate) fn errors<L: Link>(done: &Rehearsal<L>) -> &[u8] {
    match &done.world.last {
        Some(bench) => bench.errors.bytes(),
        None => &[],
    }
}

#[test]
fn a_session_ends_at_disc(rt: HostRuntime) -> Result<(), Fail> {
    let store = PlainStore::new(rt.alloc());
    let done = session(&rt, rt.alloc(), store, &[OPENING, DISC], 4096)?;
    assert_eq!(rt; done.status, 0);
    assert_eq!(rt; output(&done), HANDSHAKE);
    assert_eq!(rt; errors(&done).len(), 0);
    Ok(())
}

#[test]
fn an_input_in_single_bytes_gets_the_same_replies(rt: HostRuntime) -> Result<(), Fail> {
    let wanted = joined(rt.alloc(), &[HANDSHAKE, OK_1, &[0; 512]])?;
    for piece in [1, 7, 4096] {
        let store = PlainStore::new(rt.alloc());
        let done = session(&rt, rt.alloc(), store, &[OPENING, READ_512, DISC], piece)?;
        assert_eq!(rt; done.status, 0);
        assert_eq!(rt; output(&done), wanted.bytes());
    }
    Ok(())
}

#[test]
fn a_failed_get_is_eio_and_the_session_goes_on(rt: HostRuntime) -> Result<(), Fail> {
    let fails = Vec::from_array(rt.alloc(), [1])?;
    let link = failing_store(rt.alloc(), fails);
    let done = session(
        &rt,
        rt.alloc(),
        link,
        &[OPENING, READ_512, READ_512, DISC],
        4096,
    )?;
    let wanted = joined(rt.alloc(), &[HANDSHAKE, EIO_1, OK_1, &[0; 512]])?;
    assert_eq!(rt; done.status, 0);
    assert_eq!(rt; output(&done), wanted.bytes());
    Ok(())
}

/// Whether a session of these pieces ends with this status and this line.
fn ends_so<R: Threads + Wait + time::Clock + Sync>(
    rt: &R,
    alloc: Global,
    pieces: &[&[u8]],
    status: u8,
    line: &[u8],
) -> Result<bool, AllocError> {
    let done = session(rt, alloc, PlainStore::new(alloc), pieces, 4096)?;
    Ok(done.status == status && errors(&done) == line)
}

#[test]
fn each_end_of_a_session_has_its_status_and_its_line(rt: HostRuntime) -> Result<(), Fail> {
    let rows: [(&[&[u8]], u8, &[u8]); 8] = [
        (&[OPENING], 0, b""),
        (
            &[FLAGS, b"IHAVEOPT\x00\x00\x00\x02\x00\x00\x00\x00"],
            0,
            b"",
        ),
        (
            &[OPENING, b"\x25\x60\x95\x14"],
            7,
            b"s3backer: session: magic\n",
        ),
        (
            &[OPENING, b"\x25\x60\x95\x13\x00\x00\x00\x00\x00\x00"],
            7,
            b"s3backer: session: cut\n",
        ),
        (&[b"\x00\x00\x00\x04"], 7, b"s3backer: session: flags\n"),
        (
            &[FLAGS, b"IHAVEOPT\x00\x00\x00\x09\x00\x01\x00\x01"],
            7,
            b"s3backer: session: too big\n",
        ),
        (
            &[FLAGS, b"IHAVEOPT\x00\x00\x00\x01\x00\x00\x00\x01a"],
            7,
            b"s3backer: session: no such export\n",
        ),
        (&[FLAGS, b"IHAVEOPX"], 7, b"s3backer: session: magic\n"),
    ];
    for (pieces, status, line) in rows {
        assert!(rt; ends_so(&rt, rt.alloc(), pieces, status, line)?);
    }
    Ok(())
}

/// A WRITE of one byte with the cookie 4.
const WRITE_4: &[u8] =
    b"\x25\x60\x95\x13\x00\x00\x00\x01\x00\x00\x00\x00\x00\x00\x00\x04\x00\x00\x00\x00\x00\x00\x00\x00\x00\x00\x00\x01a";

/// Its reply on a read-only disk.
const EPERM_4: &[u8] = b"\x67\x44\x66\x98\x00\x00\x00\x01\x00\x00\x00\x00\x00\x00\x00\x04";

#[test]
fn a_read_only_disk_refuses_writes(rt: HostRuntime) -> Result<(), Fail> {
    let alloc = rt.alloc();
    let plan = Plan {
        form: Form::Stdio,
        store: StorePlan::Dir {
            path: Text::of(alloc, b"disk")?,
        },
        prefix: String::new(alloc),
        hashed: false,
        geometry: Geometry::make(65_536, 4096)?,
        read_only: true,
    };
    let bench = Bench {
        links: Vec::from_array(alloc, [failing_store(alloc, Vec::new(alloc))])?,
        clock: HandClock::new(alloc, 1000, 0, false),
        input: MemoryConn::source(
            joined(alloc, &[OPENING, WRITE_4, DISC])?,
            4096,
            Vec::new(alloc),
        ),
        output: MemoryConn::sink(alloc, Vec::new(alloc)),
        errors: MemoryConn::sink(alloc, Vec::new(alloc)),
    };
    let (status, _tape, bench) = run_single::<MemoryWorld<TimedStore>, NoTape>(
        alloc, &plan, bench, NoTape,
    );
    assert_eq!(rt; status, 0);
    let greeting = b"NBDMAGICIHAVEOPT\x00\x03\x00\x00\x00\x00\x00\x01\x00\x00\x01\x6f";
    let wanted = joined(alloc, &[greeting.as_slice(), EPERM_4])?;
    assert_eq!(rt; bench.output.bytes(), wanted.bytes());
    Ok(())
}

/// Whether words are refused with this line.
pub(crate) fn is_refused<R: Threads + Wait + time::Clock + Sync>(
    rt: &R,
    alloc: Global,
    words: &[&str],
    line: &[u8],
) -> Result<bool, AllocError> {
    let words = words_of(alloc, words)?;
    let sent = joined(alloc, &[OPENING, DISC])?;
    let done = session_of(rt, alloc, words.as_slice(), PlainStore::new(alloc), sent)?;
    let told = done.world.said.len() == 1 && done.world.said[0].bytes() == line;
    Ok(done.status == 2 && done.world.last.is_none() && told)
}

/// The line of words that are of no form.
const FORM: &[u8] =
    b"s3backer: usage: s3backer --stdio --test [--prefix=TEXT] [--blockHashPrefix] --size=SIZE DIR, or s3backer --test [--prefix=TEXT] [--blockHashPrefix] --size=SIZE DIR HOST:PORT, or s3backer --stdio --baseURL=URL --accessId=ID --accessKey=KEY --size=SIZE BUCKET\n";

#[test]
fn words_of_no_form_are_refused(rt: HostRuntime) -> Result<(), Fail> {
    let alloc = rt.alloc();
    let forms: [&[&str]; 10] = [
        &[],
        &["--test", "--size=64k", "disk"],
        &["--stdio", "--test", "--size=64k", "disk", "host:1"],
        &["--stdio", "--size=64k", "memory"],
        &["--test", "--stdio", "--size=64k", "disk"],
        &["--stdio", "--test", "--size=64k"],
        &["--stdio", "--test", "--size", "64k", "disk"],
        &["--stdio", "--test", "--size=64k", "--readOnly"],
        &["--stdio", "--test", "--size=64k", "disk", "more"],
        &[
            "--stdio",
            "--test",
            "--blockHashPrefix",
            "--prefix=p",
            "--size=64k",
            "disk",
        ],
    ];
    for words in forms {
        assert!(rt; is_refused(&rt, alloc, words, FORM)?);
    }
    Ok(())
}

#[test]
fn the_first_fault_of_values_is_told(rt: HostRuntime) -> Result<(), Fail> {
    let alloc = rt.alloc();
    let rows: [(&[&str], &[u8]); 5] = [
        (
            &["--stdio", "--test", "--prefix=<", "--size=q", ""],
            b"s3backer: usage: --size: not a size: q\n",
        ),
        (
            &["--stdio", "--test", "--prefix=<", "--size=0", ""],
            b"s3backer: usage: the size is 0\n",
        ),
        (
            &["--stdio", "--test", "--prefix=a/<", "--size=64k", ""],
            b"s3backer: usage: --prefix: not a prefix: a/<\n",
        ),
        (
            &["--stdio", "--test", "--prefix=a/", "--size=64k", ""],
            b"s3backer: usage: --prefix: a slash, with --test\n",
        ),
        (
            &["--stdio", "--test", "--size=64k", ""],
            b"s3backer: usage: not the name of a bucket or directory: \n",
        ),
    ];
    for (words, line) in rows {
        assert!(rt; is_refused(&rt, alloc, words, line)?);
    }
    Ok(())
}

#[test]
fn a_block_of_16_mib_is_read(rt: HostRuntime) -> Result<(), Fail> {
    let alloc = rt.alloc();
    let geometry = Geometry::make(33_554_432, 16_777_216)?;
    let mut desk = match Desk::new(
        alloc,
        PlainStore::new(alloc),
        HandClock::new(alloc, 0, 0, false),
        &geometry,
    ) {
        Ok(desk) => desk,
        Err(_) => return Err(Fail::from("no memory")),
    };
    let settings = Settings {
        cache_size: 2,
        ..SETTINGS
    };
    let zeros = Zeros::new(alloc, geometry.blocks)?;
    let core = Core::new(alloc, geometry, settings, zeros)?;
    let mut disk = Alone::new(core, plain_names(alloc, &geometry), NoTape);
    let mut out = [1];
    let part = Part {
        block: 1,
        offset: 16_777_215,
        length: 1,
    };
    assert!(rt; disk.read(&mut desk, part, &mut out).is_ok());
    assert_eq!(rt; out, [0]);
    let (_core, _tape) = disk.finish();
    Ok(())
}
