//! When a GET began.

ghost use Rattle.std.specs.Prelude.{◌≡◌, Option, reverse, option_map};
ghost use Rattle.sb_history.specs.Gets.{Fetch, fetch_after, fetch_of};
ghost use Rattle.sb_staleness.specs.Seen.{begin_seen};

use sb_base::{Entry, EntryKind};

/// Where a GET began in a history, as the number of the entries before it, and its reading in milliseconds.
#[derive(Drop, Clone, Copy)]
pub(crate) struct Begin {
    pub place: usize,
    pub reading: u64,
}

/// The begin of the block's GET that is open after a history, the oldest entry first.
pub(crate) fn open_begin(past: &[Entry], block: u32) -> Option<Begin>
    ensures { result ≡ option_map begin_seen (fetch_of (reverse past.now) block) }
{
    let mut begin = None;
    for (place, entry) in past.iter().enumerate() {
        begin = after_entry(begin, block, place, entry);
    }
    begin
}

/// The begin of the block's GET that is open after an entry at a place, where this one was open before.
fn after_entry(before: Option<Begin>, block: u32, place: usize, entry: &Entry) -> Option<Begin>
    ensures { (fetch : Option Fetch) → before ≡ option_map begin_seen fetch
        → result ≡ option_map begin_seen
        (fetch_after block entry.now.pass place entry.now.reading entry.now.kind fetch) }
{
    let reading = entry.reading;
    match &entry.kind {
        EntryKind::GetBegin(of, _, _) if *of == block => Some(Begin { place, reading }),
        EntryKind::GetEnd { block: of, .. } if *of == block => None,
        _ => before,
    }
}
