//! Where a disk's history goes.

ghost use Rattle.std.specs.Prelude.{List, [], ◌∷◌, Option, None};
ghost use Rattle.sb_base.specs.Lines.{entry_of};
ghost use Rattle.sb_base.specs.declared.entry.Entry.{Entry};
ghost use Rattle.sb_world.specs.Told.{Gains};

use sb_base::Line;

/// A tape of a disk's history.
pub trait Tape {
    /// The entries so far, where it tells them.
    ghost told: { Self → Option (List Entry) };

    /// Adds an entry. It cannot fail: a tape that can't keep the entry tells nothing from then on.
    fn add(&mut self, line: Line<'_>)
        ensures { Gains (told self.old) (told self.new) (entry_of line.entry ∷ []) };
}

/// A tape that keeps nothing and tells nothing.
#[derive(Drop, Clone, Copy, Debug)]
pub struct NoTape;

impl Tape for NoTape {
    ghost told = { λ _. None };

    fn add(&mut self, _line: Line<'_>) {}
}
