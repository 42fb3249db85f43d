//! A tape in memory.

ghost use Rattle.std.specs.Prelude.{◌≡◌, Some, None, [], reverse, MatchOption};

use crate::kept::Kept;
use sb_base::{Entry, Line};
use sb_world::Tape;
use std::alloc::Global;

/// A tape that tells its list until a growth is refused.
#[derive(Drop)]
pub struct RecordTape {
    alloc: Global,
    entries: Kept<Entry>,
}

impl RecordTape {
    ghost use Rattle.sb_fakes.specs.Told.{entries_of};

    /// A tape with nothing on it.
    pub fn new(alloc: Global) -> RecordTape
        ensures { result.entries ≡ Some [] }
    {
        RecordTape {
            alloc,
            entries: Kept::new(alloc),
        }
    }

    /// The entries on it, the oldest first, and none after a growth was refused.
    pub fn entries(&self) -> Option<&[Entry]>
        ensures { MatchOption result (entries_of self.now ≡ None)
            (λ entries. entries_of self.now ≡ Some (reverse entries.now)) }
    {
        self.entries.items()
    }
}

impl Tape for RecordTape {
    ghost told = { λ tape. tape.entries };

    fn add(&mut self, line: Line<'_>) {
        match line.to_entry(self.alloc) {
            Ok(entry) => self.entries.add(entry),
            Err(_) => self.entries.forget(),
        }
    }
}
