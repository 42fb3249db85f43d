//! A clock.

ghost use Rattle.std.specs.Prelude.{◌≡◌, ◌≤◌, ◌^◌, ℕ, List, [], ◌∷◌, Option};
ghost use Rattle.std.specs.Prelude.{ℤ};
ghost use Rattle.sb_world.specs.Told.{Gains};
ghost use Rattle.sb_world.specs.declared.clock.Tick.{Tick};
ghost use Rattle.sb_world.specs.declared.clock.Tick.TheVariants.{Taken, Paused};

/// What a clock was asked for.
#[derive(Drop, Clone, Copy, PartialEq, Eq, Debug)]
pub enum Tick {
    /// A reading that it gave.
    Taken(u64),
    /// A pause of so many milliseconds.
    Paused(u64),
}

/// A clock that gives readings in milliseconds and pauses.
pub trait Clock {
    /// The readings and pauses so far, where it tells them.
    ghost ticks: { Self → Option (List Tick) };

    /// The moments so far, where it tells them.
    ghost moments: { Self → Option (List ℤ) };

    /// Its last reading, 0 before the first.
    ghost latest: { Self → ℕ };

    /// A reading in milliseconds, never less than the one before.
    fn now(&mut self) -> u64
        ensures limit { result ≤ 2 ^ 62 }
        ensures later { latest self.old ≤ result }
        ensures latest { latest self.new ≡ result }
        ensures told { Gains (ticks self.old) (ticks self.new) (Taken result ∷ []) }
        ensures moments { moments self.new ≡ moments self.old };

    /// The moment in seconds since the begin of 1970 in UTC.
    fn moment(&mut self) -> i64
        ensures latest { latest self.new ≡ latest self.old }
        ensures told { Gains (moments self.old) (moments self.new) (result ∷ []) }
        ensures ticks { ticks self.new ≡ ticks self.old };

    /// Lets so many milliseconds pass.
    fn pause(&mut self, millis: u64)
        ensures latest { latest self.new ≡ latest self.old }
        ensures told { Gains (ticks self.old) (ticks self.new) (Paused millis ∷ []) }
        ensures moments { moments self.new ≡ moments self.old };
}
