//! The judgement on a history.

ghost use Rattle.std.specs.Prelude.{Decides, IfOk, reverse};
ghost use Rattle.sb_history.specs.Gets.{fetch_of};
ghost use Rattle.sb_history.specs.Puts.{puts_of};
ghost use Rattle.sb_history.specs.Visibility.{AnswersWithin, IsStaleWithin, ShowsVisible};
ghost use Rattle.sb_staleness.specs.Seen.{delays_seen};
ghost use Rattle.sb_staleness.specs.Starts.{start_of};

use crate::begin::open_begin;
use crate::content::is_zero_block;
use crate::delays::Delays;
use crate::image::Image;
use crate::puts::puts_of;
use crate::visible::Sight;
use sb_base::{Digest, Entry, EntryKind, Shown};
use std::alloc::{AllocError, Global};

/// Decides whether each answer in a disk's history, the oldest entry first, is that of a store that reorders puts and
/// shows old versions only within these delays. The disk began as this image, block after block; a block behind its end
/// began with no bytes. The time that it takes goes by the square of the history's length, and by its cube where most
/// entries are of one block.
pub fn is_stale_within(
    alloc: Global,
    block_size: u32,
    image: &[u8],
    delays: Delays,
    history: &[Entry],
) -> Result<bool, AllocError>
    ensures { IfOk result (λ within. Decides within
        (IsStaleWithin block_size (start_of block_size image.now) (delays_seen delays) (reverse history.now))) }
{
    let disk = Image {
        block_size,
        bytes: image,
    };
    for place in 0..history.len() {
        let past = &history[..place];
        if !answers_within(alloc, disk, delays, past, &history[place].kind)? {
            return Ok(false);
        }
    }
    Ok(true)
}

/// Decides whether such a store may answer so after a history.
fn answers_within(
    alloc: Global,
    image: Image<'_>,
    delays: Delays,
    past: &[Entry],
    kind: &EntryKind,
) -> Result<bool, AllocError>
    ensures { IfOk result (λ within. Decides within (AnswersWithin image.entry.block_size
        (start_of image.entry.block_size image.entry.bytes.now) (delays_seen delays) (reverse past.now) kind.now)) }
{
    match kind {
        EntryKind::KnownZero(block) => {
            let start = image.content(*block);
            Ok(is_zero_block(image.block_size, start))
        }
        EntryKind::GetEnd {
            block,
            answer,
            verify,
            taken: _,
        } => shows_visible(alloc, image, delays, past, *block, *verify, answer),
        _ => Ok(true),
    }
}

/// Decides whether the answer to the block's open GET shows a content that was visible when it began. Where none is
/// open, each answer does.
fn shows_visible(
    alloc: Global,
    image: Image<'_>,
    delays: Delays,
    past: &[Entry],
    block: u32,
    verify: Option<Digest>,
    answer: &Shown,
) -> Result<bool, AllocError>
    ensures { IfOk result (λ within. Decides within (ShowsVisible image.entry.block_size
        (start_of image.entry.block_size image.entry.bytes.now block) (delays_seen delays)
        (puts_of (reverse past.now) block) (fetch_of (reverse past.now) block) verify answer.now)) }
{
    let Some(begin) = open_begin(past, block) else {
        return Ok(true);
    };
    let puts = puts_of(alloc, past, block)?;
    let sight = Sight {
        delays,
        begin,
        start: image.content(block),
        puts: &puts,
    };
    Ok(sight.shows(image.block_size, verify, answer))
}
