//! The disk on one thread.

ghost use Rattle.std.specs.Prelude.{ℕ, ◌≡◌, ◌≤◌, ◌∷◌, [], false, max, length, vec_len, List, Option};
ghost use Rattle.sb_base.specs.Lines.{entry_kind_of};
ghost use Rattle.sb_names.specs.declared.names.TheConstants.{MAX_PREFIX};

use crate::calls::{CallFault, Calls, FlushFault};
use crate::desk::Desk;
use crate::names::Names;
use crate::writes::Content;
use sb_base::{Geometry, Kind, Line, Part};
use sb_core::Core;
use sb_world::{Clock, Link, Tape};

/// The number of the one pass that a disk on one thread has.
pub(crate) const PASS: u64 = 1;

/// A disk for one caller. It makes the requests that its core asks for, and adds each event to its tape.
pub struct Alone<T> {
    pub(crate) core: Core,
    pub(crate) names: Names,
    pub(crate) tape: T,
    /// The core's greatest reading.
    pub(crate) reading: u64,
    ghost short: { length names.prefix ≤ MAX_PREFIX },
}

impl<T: Tape> Alone<T> {
    ghost use Rattle.sb_world.specs.Told.{Gains};
    ghost use Rattle.sb_core.specs.Cores.{geometry_of, reading_of, marks_of};
    ghost use Rattle.sb_core.specs.Opening.{opening};
    ghost use Rattle.sb_core.specs.Leads.{IsIdle};
    ghost use Rattle.sb_crew.specs.Disks.{core_of, names_of, tape_of};
    ghost use Rattle.sb_crew.specs.Ready.{IsReady};

    /// A disk over a core with no event behind it, whose objects have these names. Their prefix has at most
    /// `MAX_PREFIX` bytes. What the core knows to be zeros opens the history, and is added to the tape.
    pub fn new(core: Core, names: Names, tape: T) -> Alone<T>
        requires idle { IsIdle core }
        requires fresh { reading_of core ≡ 0 }
        requires prefix { length names.prefix ≤ MAX_PREFIX }
        ensures core { core_of result ≡ core }
        ensures names { names_of result ≡ names }
        ensures opening { Gains (T.told tape) (T.told (tape_of result)) (opening (marks_of core) (geometry_of core).blocks) }
        ensures unmarked { ((block : ℕ) → marks_of core block ≡ false) → tape_of result ≡ tape }
        ensures ready { IsReady result.core result.reading (geometry_of core).block_size }
    {
        let mut disk = Alone {
            core,
            names,
            tape,
            reading: 0,
        };
        if disk.core.known_zeros() > 0 {
            disk.open();
        }
        disk
    }

    /// Adds the opening list to the tape: each block that is known to be zeros, in rising order.
    fn open(&mut self)
        ensures told { Gains (T.told self.old.tape) (T.told self.new.tape)
            (opening (marks_of self.old.core) (geometry_of self.old.core).blocks) }
        ensures core { self.new.core ≡ self.old.core }
        ensures names { self.new.names ≡ self.old.names }
        ensures reading { self.new.reading ≡ self.old.reading }
    {
        let blocks = self.core.geometry().blocks;
        for block in 0..blocks {
            if self.core.marked(block) {
                self.tape.add(Line {
                    pass: 0,
                    reading: 0,
                    kind: Kind::KnownZero(block),
                });
            }
        }
    }

    /// The core and the tape.
    pub fn finish(self) -> (Core, T)
        ensures { result ≡ (core_of self, tape_of self) }
    {
        let Alone {
            core,
            names: _,
            tape,
            reading: _,
        } = self;
        (core, tape)
    }

    /// Adds an event at a reading that was taken for it.
    pub(crate) fn note(&mut self, now: u64, kind: Kind<'_>)
        ensures told { Gains (T.told self.old.tape) (T.told self.new.tape)
            (record { pass = 1; reading = max now self.old.reading; kind = entry_kind_of kind.entry } ∷ []) }
        ensures core { self.new.core ≡ self.old.core }
        ensures names { self.new.names ≡ self.old.names }
        ensures reading { self.new.reading ≡ max now self.old.reading }
    {
        self.reading = now.max(self.reading);
        self.tape.add(Line {
            pass: PASS,
            reading: self.reading,
            kind,
        });
    }
}

impl<T: Tape, L: Link, C: Clock> Calls<Desk<L, C>> for Alone<T> {
    ghost use Rattle.sb_crew.specs.Bases.{base_of};
    ghost use Rattle.sb_crew.specs.Ready.{IsReady};
    ghost use Rattle.sb_crew.specs.Disks.{scene_of};
    ghost use Rattle.sb_crew.specs.Runs.{Did};
    ghost use Rattle.sb_crew.specs.Joins.{did_join, did_nothing};

    ghost base = { λ disk. base_of disk.core };

    ghost ready = { λ disk desk. IsReady disk.core disk.reading (vec_len desk.room) };

    ghost did = { λ disk desk disk' desk' deed. Did (scene_of T.Tape L.Link C.Clock disk desk)
        (scene_of T.Tape L.Link C.Clock disk' desk') deed };

    ghost did_nothing = { λ disk desk. did_nothing };

    ghost did_both = { λ d₁ k₁ d₂ k₂ d₃ k₃ x y first second. did_join (λ past fits. fits) first second };

    fn geometry(&self) -> Geometry {
        self.core.geometry()
    }

    fn read(&mut self, desk: &mut Desk<L, C>, part: Part, out: &mut [u8]) -> Result<(), CallFault> {
        self.read_part(desk, part, out)
    }

    fn write(&mut self, desk: &mut Desk<L, C>, part: Part, bytes: &[u8]) -> Result<(), CallFault> {
        self.write_part(desk, part, Content::Bytes(bytes))
    }

    fn zero(&mut self, desk: &mut Desk<L, C>, part: Part) -> Result<(), CallFault> {
        self.write_part(desk, part, Content::Zeros)
    }

    fn flush(&mut self, desk: &mut Desk<L, C>) -> Result<(), FlushFault> {
        self.flush_writes(desk)
    }
}
