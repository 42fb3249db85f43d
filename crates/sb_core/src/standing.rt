//! A core under a lock: the history that it stands for.

use crate::machine::Core;
use sb_base::{EntryKind, Geometry, Settings};
use sb_turn::Stands;

/// What happened, at a reading of the disk's clock in milliseconds. With the number of a pass it is an entry.
#[derive(Drop)]
pub struct Timed {
    pub reading: u64,
    pub kind: EntryKind,
}

/// The part of a disk that no event changes.
#[derive(Drop, Clone, Copy)]
pub struct Fixed {
    pub geometry: Geometry,
    pub settings: Settings,
}

impl Stands for Core {
    ghost use Rattle.sb_core.specs.Standing.{entries_in, fixed_of, opening_of, StandsFor};

    type Entry = Timed;

    type Base = Fixed;

    ghost stands = { λ core history. StandsFor core (entries_in history) };

    ghost opening = { λ core. opening_of core };

    ghost base = { λ core. fixed_of core };
}
