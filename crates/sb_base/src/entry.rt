//! What happened to a disk: one entry for each event, with its bytes owned.

use crate::line::{Digest, Expect, Why};
use crate::part::Part;
use crate::text::Text;

/// What the store showed to a GET.
#[derive(Drop)]
pub enum Shown {
    /// There is no such object, which stands for zeros.
    Absent,
    Bytes(Text),
    /// The object has the digest that was asked about.
    Same,
    Failed,
}

/// What happened. Blocks go by their numbers, times are readings in milliseconds.
#[derive(Drop)]
pub enum EntryKind {
    /// The block is known to be zeros before the first event.
    KnownZero(u32),
    Read(Part, Text),
    Write(Part, Text),
    /// A flush began, and has this mark.
    FlushBegin(u64),
    FlushDone(u64),
    /// A GET of the block began, with the digest that it has to show and the one that it asks about.
    GetBegin(u32, Option<Expect>, Option<Digest>),
    GetEnd {
        block: u32,
        answer: Shown,
        verify: Option<Digest>,
        taken: bool,
    },
    /// A PUT of the block began, with this content.
    PutBegin(u32, Text),
    /// It ended, ok or not.
    PutEnd(u32, bool),
    /// The block left the cache.
    Dropped(u32),
    Waited(Why),
    /// A slot of the cache failed.
    SlotFault,
    /// A worker has nothing to do until this reading.
    Slept(u64),
    /// A worker ended.
    Stopped,
    /// The disk was closed.
    Closing,
}

/// One event of a disk.
#[derive(Drop)]
pub struct Entry {
    /// The number of the pass by which it was made.
    pub pass: u64,
    /// The disk's clock, in milliseconds. It never falls from one entry to the next.
    pub reading: u64,
    pub kind: EntryKind,
}
