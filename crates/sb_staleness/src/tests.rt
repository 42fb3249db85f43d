//! What no clause says: that memory is found, and answers that were worked out by hand.

use crate::{Delays, is_stale_within};
use sb_base::{Digest, Entry, EntryKind, Shown, Text};
use std::alloc::{AllocError, Global};
use std::test::Fail;

/// A disk of 16 blocks of one byte: block 0 begins as `A`, the others as zeros.
const IMAGE: [u8; 16] = [A, 0, 0, 0, 0, 0, 0, 0, 0, 0, 0, 0, 0, 0, 0, 0];

/// Three contents of a block.
const A: u8 = 1;

const B: u8 = 2;

const C: u8 = 3;

/// The MD5 of `B`, by `printf '\x02' | md5sum`.
const DIGEST_OF_B: Digest = [
    0x9e, 0x68, 0x8c, 0x58, 0xa5, 0x48, 0x7b, 0x8e, 0xaf, 0x69, 0xc9, 0xe1, 0x00, 0x5a, 0xd0, 0xbf,
];

/// The MD5 of `A`, by `printf '\x01' | md5sum`.
const DIGEST_OF_A: Digest = [
    0x55, 0xa5, 0x40, 0x08, 0xad, 0x1b, 0xa5, 0x89, 0xaa, 0x21, 0x0d, 0x26, 0x29, 0xc1, 0xdf, 0x41,
];

/// A history that is written down, the oldest entry first.
#[derive(Drop)]
struct Story {
    alloc: Global,
    entries: Vec<Entry>,
}

impl Story {
    fn new(alloc: Global) -> Story {
        Story {
            alloc,
            entries: Vec::new(alloc),
        }
    }

    /// Something happened at a reading.
    fn at(&mut self, reading: u64, kind: EntryKind) -> Result<(), AllocError> {
        self.entries.push(Entry {
            pass: 1,
            reading,
            kind,
        })?;
        Ok(())
    }

    /// A put of this content began.
    fn put_begins(&mut self, reading: u64, block: u32, content: u8) -> Result<(), AllocError> {
        let content = Text::of(self.alloc, &[content])?;
        self.at(reading, EntryKind::PutBegin(block, content))
    }

    /// It ended, ok or not.
    fn put_ends(&mut self, reading: u64, block: u32, ok: bool) -> Result<(), AllocError> {
        self.at(reading, EntryKind::PutEnd(block, ok))
    }

    /// A GET began and ended.
    fn get(
        &mut self,
        reading: u64,
        block: u32,
        verify: Option<Digest>,
        answer: Shown,
    ) -> Result<(), AllocError> {
        self.at(reading, EntryKind::GetBegin(block, None, verify))?;
        let taken = true;
        self.at(
            reading,
            EntryKind::GetEnd {
                block,
                answer,
                verify,
                taken,
            },
        )
    }

    /// A GET showed this content.
    fn get_shows(&mut self, reading: u64, block: u32, content: u8) -> Result<(), AllocError> {
        let content = Text::of(self.alloc, &[content])?;
        self.get(reading, block, None, Shown::Bytes(content))
    }

    /// The store was stale only within these delays.
    fn is_within_both(&self, order: u64, show: u64) -> Result<bool, AllocError> {
        let delays = Delays { order, show };
        is_stale_within(self.alloc, 1, &IMAGE, delays, &self.entries)
    }

    /// The store was stale only within this delay.
    fn is_within(&self, delay: u64) -> Result<bool, AllocError> {
        self.is_within_both(delay, delay)
    }
}

/// `B` is put over block 0 at 1,000, and block 1 is read.
fn b_is_put(alloc: Global) -> Result<Story, AllocError> {
    let mut story = Story::new(alloc);
    story.put_begins(1000, 0, B)?;
    story.put_ends(1000, 0, true)?;
    story.get(1000, 1, None, Shown::Absent)?;
    Ok(story)
}

#[test]
fn an_old_version_is_shown_twice(rt: HostRuntime) -> Result<(), Fail> {
    let mut story = b_is_put(rt.alloc())?;
    story.get_shows(1000, 0, A)?;
    story.get_shows(1100, 0, A)?;
    story.get_shows(1200, 0, B)?;
    assert!(rt; story.is_within(101)?);
    assert!(rt; !story.is_within(100)?);
    Ok(())
}

#[test]
fn an_old_version_is_shown_for_good(rt: HostRuntime) -> Result<(), Fail> {
    let mut story = b_is_put(rt.alloc())?;
    for turn in 0..51u64 {
        story.get_shows(1000 + turn * 100, 0, A)?;
    }
    assert!(rt; story.is_within(5001)?);
    assert!(rt; !story.is_within(5000)?);
    Ok(())
}

#[test]
fn a_failed_put_is_shown_when_the_next_one_ended(rt: HostRuntime) -> Result<(), Fail> {
    let mut story = Story::new(rt.alloc());
    story.put_begins(1000, 0, B)?;
    story.put_ends(1000, 0, false)?;
    story.put_begins(1500, 0, C)?;
    story.put_ends(1500, 0, true)?;
    story.get(1500, 1, None, Shown::Absent)?;
    story.get_shows(1500, 0, B)?;
    story.get_shows(1600, 0, C)?;
    assert!(rt; story.is_within(1)?);
    assert!(rt; story.is_within(500)?);
    assert!(rt; !story.is_within(0)?);
    assert!(rt; story.is_within_both(0, 1)?);
    assert!(rt; story.is_within_both(501, 0)?);
    assert!(rt; !story.is_within_both(500, 0)?);
    Ok(())
}

#[test]
fn the_same_object_has_the_digest_that_was_asked_about(rt: HostRuntime) -> Result<(), Fail> {
    let mut right = b_is_put(rt.alloc())?;
    right.get(1000, 0, Some(DIGEST_OF_B), Shown::Same)?;
    assert!(rt; right.is_within(0)?);
    let mut wrong = b_is_put(rt.alloc())?;
    wrong.get(1000, 0, Some(DIGEST_OF_A), Shown::Same)?;
    assert!(rt; !wrong.is_within(0)?);
    let mut unasked = b_is_put(rt.alloc())?;
    unasked.get(1000, 0, None, Shown::Same)?;
    assert!(rt; !unasked.is_within(0)?);
    Ok(())
}

#[test]
fn a_failure_is_always_within(rt: HostRuntime) -> Result<(), Fail> {
    let mut story = b_is_put(rt.alloc())?;
    story.get(1000, 0, None, Shown::Failed)?;
    assert!(rt; story.is_within(0)?);
    Ok(())
}

#[test]
fn what_is_known_to_be_zeros_began_as_zeros(rt: HostRuntime) -> Result<(), Fail> {
    let mut zeros = Story::new(rt.alloc());
    zeros.at(0, EntryKind::KnownZero(15))?;
    assert!(rt; zeros.is_within(0)?);
    let mut other = Story::new(rt.alloc());
    other.at(0, EntryKind::KnownZero(0))?;
    assert!(rt; !other.is_within(0)?);
    let mut behind = Story::new(rt.alloc());
    behind.at(0, EntryKind::KnownZero(16))?;
    assert!(rt; !behind.is_within(0)?);
    Ok(())
}
