//! How often what came up in a history.

use sb_base::{Entry, EntryKind, Shown, Why};

/// How often what came up.
#[derive(Drop, Clone, Copy, PartialEq, Eq, Debug)]
pub struct Tally {
    /// GETs that began.
    pub gets: u64,
    /// GETs whose answer was another version than the expected one.
    pub refused: u64,
    /// GETs and puts that failed.
    pub failed: u64,
    /// Puts that failed.
    pub failed_puts: u64,
    /// Waits for the spacing of puts.
    pub spaced: u64,
    /// Waits for the MD5 window.
    pub full: u64,
}

impl Tally {
    /// What came up in these entries.
    pub fn of(entries: &[Entry]) -> Tally {
        let mut tally = Tally {
            gets: 0,
            refused: 0,
            failed: 0,
            failed_puts: 0,
            spaced: 0,
            full: 0,
        };
        for entry in entries {
            tally.add(&entry.kind);
        }
        tally
    }

    /// Counts an entry.
    fn add(&mut self, kind: &EntryKind) {
        match kind {
            EntryKind::GetBegin(..) => count(&mut self.gets),
            EntryKind::GetEnd {
                answer: Shown::Failed,
                ..
            } => count(&mut self.failed),
            EntryKind::GetEnd { taken: false, .. } => count(&mut self.refused),
            EntryKind::PutEnd(_, false) => {
                count(&mut self.failed);
                count(&mut self.failed_puts);
            }
            EntryKind::Waited(Why::Spaced(_)) => count(&mut self.spaced),
            EntryKind::Waited(Why::WindowFull(_)) => count(&mut self.full),
            _ => {}
        }
    }
}

/// Counts one more.
pub(crate) fn count(counter: &mut u64) {
    *counter = counter.saturating_add(1);
}

/// Whether a kind of entry ends a request, and if so, whether that failed.
fn request_failed(kind: &EntryKind) -> Option<bool> {
    match kind {
        EntryKind::GetEnd {
            answer: Shown::Failed,
            ..
        } => Some(true),
        EntryKind::GetEnd { .. } => Some(false),
        EntryKind::PutEnd(_, ok) => Some(!*ok),
        _ => None,
    }
}

/// Whether just those requests failed whose numbers, counted from 1, are among these.
pub fn fail_as_planned(entries: &[Entry], planned: &[u64]) -> bool {
    let mut number = 0;
    for entry in entries {
        if let Some(failed) = request_failed(&entry.kind) {
            count(&mut number);
            if failed != planned.contains(&number) {
                return false;
            }
        }
    }
    true
}

/// How many blocks may be dirty, on a disk of four blocks with no request open: they were written after their last put that
/// ended ok.
pub fn dirty_blocks(entries: &[Entry]) -> usize {
    let mut dirty = [false; 4];
    for entry in entries {
        match &entry.kind {
            EntryKind::Write(part, _) => set(&mut dirty, part.block, true),
            EntryKind::PutEnd(block, true) => set(&mut dirty, *block, false),
            _ => {}
        }
    }
    dirty.iter().filter(|is| **is).count()
}

/// Sets what is said of a block.
fn set(dirty: &mut [bool], block: u32, is: bool) {
    if let Some(place) = dirty.get_mut(block as usize) {
        *place = is;
    }
}
