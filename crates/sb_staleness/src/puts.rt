//! The puts of a block, as a history shows them.

ghost use Rattle.std.specs.Prelude.{◌≡◌, IfOk, OnOk, reverse};
ghost use Rattle.sb_history.specs.Puts.{ended, puts_after, puts_of};
ghost use Rattle.sb_history.specs.Visibility.{is_settled, supersedes};
ghost use Rattle.sb_staleness.specs.Seen.{ending_seen, put_seen, puts_seen};

use crate::begin::Begin;
use crate::delays::is_over;
use sb_base::{Entry, EntryKind};
use std::alloc::{AllocError, Global};

/// How a put ended: the number of the entries before the end, its reading in milliseconds, and whether it was ok.
#[derive(Drop, Clone, Copy)]
pub(crate) struct SeenEnding {
    pub place: usize,
    pub reading: u64,
    pub ok: bool,
}

/// A put: its content, and the pass, the place and the reading of its begin.
#[derive(Drop, Clone, Copy)]
pub(crate) struct SeenPut<'a> {
    pub content: &'a [u8],
    pub pass: u64,
    pub place: usize,
    pub reading: u64,
    pub ending: Option<SeenEnding>,
}

impl SeenPut<'_> {
    /// It began after the end of the other one, ok or not, by the delay in milliseconds at least.
    pub(crate) fn supersedes(&self, delay: u64, earlier: &SeenPut<'_>) -> bool
        ensures { result ≡ supersedes delay (put_seen self.now) (put_seen earlier.now) }
    {
        let Some(ending) = earlier.ending else {
            return false;
        };
        ending.place < self.place && is_over(delay, ending.reading, self.reading)
    }

    /// It ended ok before a GET began, by the delay in milliseconds at least.
    pub(crate) fn is_settled(&self, delay: u64, begin: Begin) -> bool
        ensures { result ≡ is_settled delay begin.place begin.reading (put_seen self.now) }
    {
        let Some(ending) = self.ending else {
            return false;
        };
        let waited = is_over(delay, ending.reading, begin.reading);
        ending.ok && ending.place < begin.place && waited
    }
}

/// The puts of a block in a history. Both are in order, the oldest first.
pub(crate) fn puts_of<'a>(
    alloc: Global,
    past: &'a [Entry],
    block: u32,
) -> Result<Vec<SeenPut<'a>>, AllocError>
    ensures { IfOk result (λ puts. puts_seen puts.items ≡ puts_of (reverse past.now) block) }
{
    let mut puts = Vec::new(alloc);
    for (place, entry) in past.iter().enumerate() {
        add_entry(&mut puts, block, place, entry)?;
    }
    Ok(puts)
}

/// Adds an entry at a place to the puts of a block.
fn add_entry<'a>(
    puts: &mut Vec<SeenPut<'a>>,
    block: u32,
    place: usize,
    entry: &'a Entry,
) -> Result<(), AllocError>
    ensures { OnOk result (puts_seen puts.new.items
        ≡ puts_after block entry.now.pass place entry.now.reading entry.now.kind (puts_seen puts.old.items)) }
{
    let (pass, reading) = (entry.pass, entry.reading);
    match &entry.kind {
        EntryKind::PutBegin(of, content) if *of == block => {
            let content = content.bytes();
            let ending = None;
            puts.push(SeenPut {
                content,
                pass,
                place,
                reading,
                ending,
            })?;
            Ok(())
        }
        EntryKind::PutEnd(of, ok) if *of == block => {
            let ok = *ok;
            end_newest(puts, SeenEnding { place, reading, ok })
        }
        _ => Ok(()),
    }
}

/// Ends the newest put.
fn end_newest(puts: &mut Vec<SeenPut<'_>>, ending: SeenEnding) -> Result<(), AllocError>
    ensures { OnOk result (puts_seen puts.new.items ≡ ended (ending_seen ending) (puts_seen puts.old.items)) }
{
    if let Some(put) = puts.pop() {
        let ending = Some(ending);
        puts.push(SeenPut { ending, ..put })?;
    }
    Ok(())
}
