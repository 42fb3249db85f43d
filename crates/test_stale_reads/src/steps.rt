//! The entries of a history as lines of a table: a reading, and what happened to whole blocks that one byte fills.

ghost use Rattle.std.specs.Prelude.{◌≡◌, true, nat_eq, replicate, IfSome};
ghost use Rattle.std.specs.List.{list_all};
ghost use Rattle.md5.specs.Md5.{md5};

use crate::disks::BLOCK;
use md5::Md5;
use sb_base::{Digest, Entry, EntryKind, Expect, Part, Shown, Text, Why};
use std::alloc::{AllocError, Global};

/// What happened, named as in `EntryKind`: blocks by their numbers, and contents by the byte that fills them.
#[derive(Drop, Clone, Copy, PartialEq, Eq, Debug)]
pub enum Step {
    Read(u32, u8),
    Write(u32, u8),
    FlushBegin(u64),
    FlushDone(u64),
    /// With the content whose MD5 it has to show, and the reading of the end of the put that left it.
    GetBegin(u32, Option<(u8, u64)>),
    /// With the content that it showed, none where the object is absent, and whether that was taken.
    GetEnd(u32, Option<u8>, bool),
    PutBegin(u32, u8),
    PutEnd(u32, bool),
    Dropped(u32),
    Waited(Why),
    /// What no line of a table says: another kind, another pass than 1, a part of a block, or mixed bytes.
    Other,
}

/// Whether a byte fills these bytes.
fn is_filled(bytes: &[u8], byte: u8) -> bool
    ensures { result ≡ list_all (λ other. nat_eq other byte) bytes.now }
{
    bytes.iter().all(|other| *other == byte)
}

/// The byte that fills these bytes, if one does.
pub(crate) fn filler(bytes: &[u8]) -> Option<u8>
    ensures { IfSome result (λ byte. list_all (λ other. nat_eq other byte) bytes.now ≡ true) }
{
    let first = *bytes.first()?;
    if is_filled(bytes, first) {
        Some(first)
    } else {
        None
    }
}

/// The byte that fills a block of this MD5, if one does.
fn filler_of(digest: Digest) -> Option<u8>
    ensures { IfSome result (λ byte. md5 (replicate 512 byte) ≡ digest) }
{
    for byte in 0..=255 {
        if <Md5 as md5::Digest>::digest(&[byte; 512]) == digest {
            return Some(byte);
        }
    }
    None
}

/// The byte that fills the text of a whole block.
fn block_filler(text: &Text) -> Option<u8> {
    if text.bytes().len() == BLOCK as usize {
        filler(text.bytes())
    } else {
        None
    }
}

/// The byte that fills the text of a part that is a whole block.
fn part_filler(part: &Part, text: &Text) -> Option<u8> {
    if part.offset == 0 && part.length == BLOCK {
        block_filler(text)
    } else {
        None
    }
}

/// The begin of a GET, with the digest that it has to show.
fn begin_step(block: u32, expect: &Option<Expect>) -> Step {
    match expect {
        None => Step::GetBegin(block, None),
        Some(expect) => match filler_of(expect.digest) {
            Some(byte) => Step::GetBegin(block, Some((byte, expect.since))),
            None => Step::Other,
        },
    }
}

/// The end of a GET, with what it showed.
fn end_step(block: u32, shown: &Shown, taken: bool) -> Step {
    match shown {
        Shown::Absent => Step::GetEnd(block, None, taken),
        Shown::Bytes(text) => match block_filler(text) {
            Some(byte) => Step::GetEnd(block, Some(byte), taken),
            None => Step::Other,
        },
        Shown::Same | Shown::Failed => Step::Other,
    }
}

/// What a kind of entry says.
fn step_of(kind: &EntryKind) -> Step {
    match kind {
        EntryKind::Read(part, text) => match part_filler(part, text) {
            Some(byte) => Step::Read(part.block, byte),
            None => Step::Other,
        },
        EntryKind::Write(part, text) => match part_filler(part, text) {
            Some(byte) => Step::Write(part.block, byte),
            None => Step::Other,
        },
        EntryKind::FlushBegin(mark) => Step::FlushBegin(*mark),
        EntryKind::FlushDone(mark) => Step::FlushDone(*mark),
        EntryKind::GetBegin(block, expect, None) => begin_step(*block, expect),
        EntryKind::GetEnd {
            block,
            answer,
            verify: None,
            taken,
        } => end_step(*block, answer, *taken),
        EntryKind::PutBegin(block, text) => match block_filler(text) {
            Some(byte) => Step::PutBegin(*block, byte),
            None => Step::Other,
        },
        EntryKind::PutEnd(block, ok) => Step::PutEnd(*block, *ok),
        EntryKind::Dropped(block) => Step::Dropped(*block),
        EntryKind::Waited(why) => Step::Waited(*why),
        _ => Step::Other,
    }
}

/// An entry as a line of a table.
pub fn line_of(entry: &Entry) -> (u64, Step)
    ensures reading { result.0 ≡ entry.now.reading }
{
    if entry.pass == 1 {
        (entry.reading, step_of(&entry.kind))
    } else {
        (entry.reading, Step::Other)
    }
}

/// Entries as the lines of a table.
pub fn lines_of(alloc: Global, entries: &[Entry]) -> Result<Vec<(u64, Step)>, AllocError> {
    let mut lines = Vec::new(alloc);
    for entry in entries {
        lines.push(line_of(entry))?;
    }
    Ok(lines)
}
