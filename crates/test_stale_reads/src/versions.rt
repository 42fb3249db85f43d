//! The puts of a block so far, and which of its versions a store may show that is stale only within a delay.

use sb_base::{Entry, EntryKind};
use std::alloc::{AllocError, Global};

/// A put that ended: the readings of its begin and of its end in milliseconds, and whether it ended ok.
#[derive(Drop, Clone, Copy, PartialEq, Eq, Debug)]
pub struct Put {
    pub begun: u64,
    pub ended: u64,
    pub ok: bool,
}

/// The puts of a block that ended, the oldest first. No two of a block are open at once.
pub fn puts_of(alloc: Global, entries: &[Entry], block: u32) -> Result<Vec<Put>, AllocError> {
    let mut puts = Vec::new(alloc);
    let mut begun = 0;
    for entry in entries {
        match &entry.kind {
            EntryKind::PutBegin(of, _) if *of == block => begun = entry.reading,
            EntryKind::PutEnd(of, ok) if *of == block => puts.push(Put {
                begun,
                ended: entry.reading,
                ok: *ok,
            })?,
            _ => {}
        }
    }
    Ok(puts)
}

/// Whether a put has settled at a reading: it ended ok, by the delay at least before.
fn is_settled(put: &Put, reading: u64, delay: u64) -> bool {
    put.ok && put.ended.saturating_add(delay) <= reading
}

/// Whether a put supersedes an earlier one: it began after that one's end, ok or not, by the delay at least.
fn supersedes(later: &Put, earlier: &Put, delay: u64) -> bool {
    earlier.ended.saturating_add(delay) <= later.begun
}

/// Whether a store that is stale for a delay, which isn't 0, may show a version of a block to a GET that begins at a
/// reading, after these puts: version 0 is the start, and then comes each put.
pub fn is_visible(puts: &[Put], version: usize, reading: u64, delay: u64) -> bool {
    let earlier = if version == 0 {
        None
    } else {
        puts.get(version - 1)
    };
    !puts.iter().any(|later| {
        is_settled(later, reading, delay)
            && earlier.is_none_or(|earlier| supersedes(later, earlier, delay))
    })
}

/// The versions that such a store may show then.
pub fn visible_versions(
    alloc: Global,
    puts: &[Put],
    reading: u64,
    delay: u64,
) -> Result<Vec<u32>, AllocError> {
    let mut versions = Vec::new(alloc);
    let mut number = 0_u32;
    for version in 0..=puts.len() {
        if is_visible(puts, version, reading, delay) {
            versions.push(number)?;
        }
        number = number.saturating_add(1);
    }
    Ok(versions)
}
