//! A directory in memory as the store.

ghost use Rattle.std.specs.Prelude.{Some};
ghost use Rattle.sb_world.specs.Told.{IsUnused};
ghost use Rattle.sb_dirstore.specs.Objects.{faults_of, log_of};

use crate::tests::{
    DISC, EIO_1, HANDSHAKE, OK_1, OPENING, READ_512, joined, output, session, session_of, words_of,
};
use sb_base::Text;
use sb_dirstore::DirLink;
use sb_fakes::{MemoryFolder, Object};
use sb_world::{Link, LinkFault, Page};
use std::alloc::{AllocError, Global};
use std::test::Fail;

/// A file of this name and these bytes.
fn file(alloc: Global, name: &[u8], body: &[u8]) -> Result<Object, AllocError> {
    Ok(Object {
        name: Text::of(alloc, name)?,
        body: Text::of(alloc, body)?,
    })
}

/// An empty folder. The calls in `fails`, counted from 1, fail.
fn empty_folder(alloc: Global, fails: Vec<u64>) -> DirLink<MemoryFolder>
    ensures { IsUnused (Some (log_of result)) (faults_of result) }
{
    DirLink::new(alloc, MemoryFolder::new(alloc, Vec::new(alloc), fails))
}

#[test]
fn a_failed_rename_leaves_the_object(rt: HostRuntime) -> Result<(), Fail> {
    let alloc = rt.alloc();
    let files = Vec::from_array(
        alloc,
        [
            file(alloc, b"00000000", b"old")?,
            file(alloc, b"other", b"same")?,
        ],
    )?;
    let fails = Vec::from_array(alloc, [2])?;
    let mut link = DirLink::new(alloc, MemoryFolder::new(alloc, files, fails));
    let answer = link.put(b"00000000", b"new", None);
    assert!(rt; answer == Err(LinkFault::Failed { status: 605 }));
    assert!(rt; link.folder().body(b"00000000") == Some(b"old".as_slice()));
    assert!(rt; link.folder().body(b"other") == Some(b"same".as_slice()));
    Ok(())
}

#[test]
fn a_read_of_an_empty_disk_is_one_get(rt: HostRuntime) -> Result<(), Fail> {
    let alloc = rt.alloc();
    let link = empty_folder(alloc, Vec::from_array(alloc, [2])?);
    let done = session(&rt, alloc, link, &[OPENING, READ_512, DISC], 4096)?;
    let wanted = joined(alloc, &[HANDSHAKE, OK_1, &[0; 512]])?;
    assert_eq!(rt; done.status, 0);
    assert_eq!(rt; output(&done), wanted.bytes());
    let bench = match &done.world.last {
        Some(bench) => bench,
        None => return Err(Fail::from("no bench was shut")),
    };
    let link = match bench.links.first() {
        Some(link) => link,
        None => return Err(Fail::from("the bench has no link")),
    };
    assert_eq!(rt; link.folder().count(), 0);
    Ok(())
}

#[test]
fn a_read_of_a_folder_that_fails_is_eio(rt: HostRuntime) -> Result<(), Fail> {
    let alloc = rt.alloc();
    let link = empty_folder(alloc, Vec::from_array(alloc, [1])?);
    let done = session(&rt, alloc, link, &[OPENING, READ_512, DISC], 4096)?;
    let wanted = joined(alloc, &[HANDSHAKE, EIO_1])?;
    assert_eq!(rt; output(&done), wanted.bytes());
    Ok(())
}

/// A WRITE of 512 bytes at the front of the disk, as cookie 1.
const WRITE_512: &[u8] =
    b"\x25\x60\x95\x13\x00\x00\x00\x01\x00\x00\x00\x00\x00\x00\x00\x01\x00\x00\x00\x00\x00\x00\x00\x00\x00\x00\x02\x00";

#[test]
fn a_block_is_a_file_of_its_name(rt: HostRuntime) -> Result<(), Fail> {
    let alloc = rt.alloc();
    let words = words_of(
        alloc,
        &[
            "--stdio",
            "--test",
            "--prefix=p+",
            "--blockHashPrefix",
            "--size=64k",
            "disk",
        ],
    )?;
    let pieces = joined(alloc, &[OPENING, WRITE_512, &[0x41; 512], DISC])?;
    let link = empty_folder(alloc, Vec::new(alloc));
    let done = session_of(&rt, alloc, words.as_slice(), link, pieces)?;
    assert_eq!(rt; done.status, 0);
    let folder = match done
        .world
        .last
        .as_ref()
        .and_then(|bench| bench.links.first())
    {
        Some(link) => link.folder(),
        None => return Err(Fail::from("no bench was shut")),
    };
    assert_eq!(rt; folder.count(), 1);
    assert!(rt;
        folder
            .body(b"p+dd4b21e9-00000000")
            .is_some_and(|body| body.len() == 4096)
    );
    Ok(())
}

/// A folder of so many files, whose names are four digits, and of one that is being written.
fn numbered_folder(alloc: Global, count: u32) -> Result<DirLink<MemoryFolder>, AllocError> {
    let mut files = Vec::new(alloc);
    files.push(file(alloc, b"0007.tmp", b"")?)?;
    for number in 0..count {
        let name = format!(in alloc; "{number:04}")?;
        files.push(file(alloc, name.as_bytes(), b"")?)?;
    }
    Ok(DirLink::new(alloc, MemoryFolder::new(alloc, files, Vec::new(alloc))))
}

#[test]
fn a_listing_comes_in_pages_of_1000(rt: HostRuntime) -> Result<(), Fail> {
    let alloc = rt.alloc();
    let mut link = numbered_folder(alloc, 2500)?;
    let mut marker = Text::of(alloc, b"")?;
    for (begin, end, more) in [
        (0u32, 1000u32, true),
        (1000, 2000, true),
        (2000, 2500, false),
    ] {
        let mut page = Page {
            keys: Vec::new(alloc),
        };
        assert!(rt; link.list(b"", marker.bytes(), &mut page) == Ok(more));
        assert_eq!(rt; page.keys.len(), (end - begin) as usize);
        for (number, key) in (begin..end).zip(page.keys.iter()) {
            let name = format!(in alloc; "{number:04}")?;
            assert!(rt; key.bytes() == name.as_bytes());
        }
        if let Some(last) = page.keys.pop() {
            marker = last;
        }
    }
    Ok(())
}
