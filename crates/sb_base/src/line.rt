//! What happened to a disk, with its bytes borrowed.

ghost use Rattle.std.specs.Prelude.{◌≡◌, IfOk};
ghost use Rattle.sb_base.specs.Lines.{entry_of, entry_kind_of, shown_of};

use crate::entry::{Entry, EntryKind, Shown};
use crate::part::Part;
use crate::text::Text;
use std::alloc::{AllocError, Global};

/// An MD5 (RFC 1321).
pub type Digest = [u8; 16];

/// The digest that a GET has to show: that of the last put of its block, which ended at this reading.
#[derive(Drop, Clone, Copy, PartialEq, Eq, Debug)]
pub struct Expect {
    pub digest: Digest,
    pub since: u64,
}

/// Why an event has to be tried again later.
#[derive(Drop, Clone, Copy, PartialEq, Eq, Debug)]
pub enum Why {
    /// A request for this block is open.
    Busy(u32),
    /// The block was put too short a time ago, until this reading.
    Spaced(u64),
    /// The MD5 window has no room, until this reading.
    WindowFull(u64),
    /// Each entry of the cache is being read or written.
    NoRoom,
}

/// What the store showed to a GET.
#[derive(Drop, Clone, Copy)]
pub enum Answer<'a> {
    Absent,
    Bytes(&'a [u8]),
    Same,
    Failed,
}

/// What happened, as `EntryKind` says it.
#[derive(Drop, Clone, Copy)]
pub enum Kind<'a> {
    KnownZero(u32),
    Read(Part, &'a [u8]),
    Write(Part, &'a [u8]),
    FlushBegin(u64),
    FlushDone(u64),
    GetBegin(u32, Option<Expect>, Option<Digest>),
    GetEnd {
        block: u32,
        answer: Answer<'a>,
        verify: Option<Digest>,
        taken: bool,
    },
    PutBegin(u32, &'a [u8]),
    PutEnd(u32, bool),
    Dropped(u32),
    Waited(Why),
    SlotFault,
    Slept(u64),
    Stopped,
    Closing,
}

/// One event of a disk, as `Entry` says it.
#[derive(Drop, Clone, Copy)]
pub struct Line<'a> {
    pub pass: u64,
    pub reading: u64,
    pub kind: Kind<'a>,
}

impl<'a> Answer<'a> {
    /// The answer with its bytes copied.
    pub fn to_shown(&self, alloc: Global) -> Result<Shown, AllocError>
        ensures { IfOk result (λ shown. shown ≡ shown_of self.now) }
    {
        match self {
            Answer::Absent => Ok(Shown::Absent),
            Answer::Bytes(bytes) => Ok(Shown::Bytes(Text::of(alloc, bytes)?)),
            Answer::Same => Ok(Shown::Same),
            Answer::Failed => Ok(Shown::Failed),
        }
    }
}

impl<'a> Kind<'a> {
    /// What happened, with its bytes copied.
    pub fn to_entry_kind(&self, alloc: Global) -> Result<EntryKind, AllocError>
        ensures { IfOk result (λ kind. kind ≡ entry_kind_of self.now) }
    {
        Ok(match *self {
            Kind::KnownZero(block) => EntryKind::KnownZero(block),
            Kind::Read(part, bytes) => EntryKind::Read(part, Text::of(alloc, bytes)?),
            Kind::Write(part, bytes) => EntryKind::Write(part, Text::of(alloc, bytes)?),
            Kind::FlushBegin(mark) => EntryKind::FlushBegin(mark),
            Kind::FlushDone(mark) => EntryKind::FlushDone(mark),
            Kind::GetBegin(block, expect, verify) => EntryKind::GetBegin(block, expect, verify),
            Kind::GetEnd {
                block,
                answer,
                verify,
                taken,
            } => EntryKind::GetEnd {
                block,
                answer: answer.to_shown(alloc)?,
                verify,
                taken,
            },
            Kind::PutBegin(block, bytes) => EntryKind::PutBegin(block, Text::of(alloc, bytes)?),
            Kind::PutEnd(block, ok) => EntryKind::PutEnd(block, ok),
            Kind::Dropped(block) => EntryKind::Dropped(block),
            Kind::Waited(why) => EntryKind::Waited(why),
            Kind::SlotFault => EntryKind::SlotFault,
            Kind::Slept(until) => EntryKind::Slept(until),
            Kind::Stopped => EntryKind::Stopped,
            Kind::Closing => EntryKind::Closing,
        })
    }
}

impl<'a> Line<'a> {
    /// The entry with its bytes copied.
    pub fn to_entry(&self, alloc: Global) -> Result<Entry, AllocError>
        ensures { IfOk result (λ entry. entry ≡ entry_of self.now) }
    {
        Ok(Entry {
            pass: self.pass,
            reading: self.reading,
            kind: self.kind.to_entry_kind(alloc)?,
        })
    }
}
