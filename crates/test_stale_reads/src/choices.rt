//! Which versions the GETs of a call show.

use crate::draws::Draws;
use crate::tally::{Tally, dirty_blocks};
use crate::versions::{Put, puts_of, visible_versions};
use sb_base::Entry;
use sb_fakes::{Show, TimedStore};
use std::alloc::{AllocError, Global};

/// How long after a stale GET the next one begins, in milliseconds.
const STALE_PAUSE: u64 = 100;

/// A version that no name has, in place of which a store shows the newest one that ended ok.
const NEWEST: u32 = u32::MAX;

/// How many GETs a call makes of a block at most, where a store is stale for 400 ms: at 0, 100 and so on to 400 ms.
const GETS_WITHIN: u64 = 5;

/// How many GETs a call makes of a block at most, where the stale limit is 5,000 ms.
const MOST_GETS: u64 = 51;

/// What GETs show.
#[derive(Drop, Clone, Copy, PartialEq, Eq, Debug)]
pub enum Showing {
    /// What a store may show that is stale for so many milliseconds, which aren't 0 and at most 400. While the cache is
    /// full of dirty blocks that is the newest version: a block has to be put first, and the reading of a GET isn't known.
    Within(u64),
    /// Any version.
    Any,
}

/// Chooses what GETs show.
pub(crate) fn choose_all(link: &mut TimedStore, shows: &[Show]) -> Result<(), AllocError> {
    for show in shows {
        link.choose(*show)?;
    }
    Ok(())
}

/// What the GETs of a call show, which is made at a reading after these entries, and may ask for the block. The cache has
/// room for so many blocks.
pub(crate) fn shows_for(
    alloc: Global,
    draws: &mut Draws,
    showing: Showing,
    entries: &[Entry],
    cache_size: u32,
    block: u32,
    now: u64,
) -> Result<Vec<Show>, AllocError> {
    let first = Tally::of(entries).gets.saturating_add(1);
    let puts = puts_of(alloc, entries, block)?;
    match showing {
        Showing::Within(_) if dirty_blocks(entries) >= cache_size as usize => newest(alloc, first),
        Showing::Within(delay) => within(alloc, draws, &puts, first, now, delay),
        Showing::Any => any(alloc, draws, puts.len(), first),
    }
}

/// The newest version.
fn newest(alloc: Global, first: u64) -> Result<Vec<Show>, AllocError> {
    let mut shows = Vec::new(alloc);
    for place in 0..GETS_WITHIN {
        shows.push(Show {
            get: first.saturating_add(place),
            version: NEWEST,
        })?;
    }
    Ok(shows)
}

/// Versions that a store may show that is stale for a delay, to GETs that begin at a reading and each 100 ms later.
fn within(
    alloc: Global,
    draws: &mut Draws,
    puts: &[Put],
    first: u64,
    now: u64,
    delay: u64,
) -> Result<Vec<Show>, AllocError> {
    let mut shows = Vec::new(alloc);
    for place in 0..GETS_WITHIN {
        let reading = now.saturating_add(place * STALE_PAUSE);
        let versions = visible_versions(alloc, puts, reading, delay)?;
        shows.push(Show {
            get: first.saturating_add(place),
            version: draws.one_of(&versions, NEWEST),
        })?;
    }
    Ok(shows)
}

/// Any of the versions of a block with so many puts: once in two times the same one for all GETs.
fn any(alloc: Global, draws: &mut Draws, puts: usize, first: u64) -> Result<Vec<Show>, AllocError> {
    let versions = puts.saturating_add(1);
    let same = draws.below(2) == 0;
    let mut version = draws.number(versions);
    let mut shows = Vec::new(alloc);
    for place in 0..MOST_GETS {
        if !same {
            version = draws.number(versions);
        }
        shows.push(Show {
            get: first.saturating_add(place),
            version,
        })?;
    }
    Ok(shows)
}
