//! A clock that its pauses move.

ghost use Rattle.std.specs.Prelude.{◌≡◌, ◌≤◌, ◌^◌, Some, None, [], ◌∷◌, reverse, MatchOption};
ghost use Rattle.sb_world.specs.Told.{Gains};
ghost use Rattle.sb_world.specs.declared.clock.Tick.TheVariants.{Taken, Paused};

use crate::kept::Kept;
use sb_world::{Clock, Tick};
use std::alloc::Global;

/// The last reading that a clock gives, in milliseconds.
const LAST_READING: u64 = 1 << 62;

/// A clock that its pauses move. Reading it moves nothing.
#[derive(Drop)]
pub struct HandClock {
    reading: u64,
    latest: u64,
    moment: i64,
    stalled: bool,
    ticks: Kept<Tick>,
    moments: Kept<i64>,
    ghost limit: { reading ≤ 2 ^ 62 },
    ghost later: { latest ≤ reading },
}

impl HandClock {
    ghost use Rattle.sb_fakes.specs.Told.{ticks_of};

    /// A clock at a reading in milliseconds, whose moment in seconds since 1970 stands still. A pause moves the
    /// reading, at most to 2^62; that of a stalled clock stands still too.
    pub fn new(alloc: Global, reading: u64, moment: i64, stalled: bool) -> HandClock
        requires { reading ≤ 2 ^ 62 }
        ensures ticks { result.ticks ≡ Some [] }
        ensures moments { result.moments ≡ Some [] }
        ensures latest { result.latest ≡ 0 }
        ensures given { (result.reading ≡ reading) × (result.moment ≡ moment) × (result.stalled ≡ stalled) }
    {
        HandClock {
            reading,
            latest: 0,
            moment,
            stalled,
            ticks: Kept::new(alloc),
            moments: Kept::new(alloc),
        }
    }

    /// Its readings and pauses so far, the oldest first, and none after a growth was refused.
    pub fn ticks(&self) -> Option<&[Tick]>
        ensures { MatchOption result (ticks_of self.now ≡ None)
            (λ ticks. ticks_of self.now ≡ Some (reverse ticks.now)) }
    {
        self.ticks.items()
    }
}

impl Clock for HandClock {
    ghost use Rattle.sb_fakes.specs.Clocks.{IsStill, IsMoved, paused};

    ghost ticks = { λ clock. clock.ticks };

    ghost moments = { λ clock. clock.moments };

    ghost latest = { λ clock. clock.latest };

    fn now(&mut self) -> u64
        ensures limit { result ≤ 2 ^ 62 }
        ensures later { self.old.latest ≤ result }
        ensures latest { self.new.latest ≡ result }
        ensures told { Gains self.old.ticks self.new.ticks (Taken result ∷ []) }
        ensures moments { self.new.moments ≡ self.old.moments }
        ensures reading { result ≡ self.old.reading }
        ensures stays { IsStill self.old self.new }
    {
        self.latest = self.reading;
        self.ticks.add(Tick::Taken(self.reading));
        self.reading
    }

    fn moment(&mut self) -> i64
        ensures latest { self.new.latest ≡ self.old.latest }
        ensures told { Gains self.old.moments self.new.moments (result ∷ []) }
        ensures ticks { self.new.ticks ≡ self.old.ticks }
        ensures moment { result ≡ self.old.moment }
        ensures stays { IsStill self.old self.new }
    {
        self.moments.add(self.moment);
        self.moment
    }

    fn pause(&mut self, millis: u64)
        ensures latest { self.new.latest ≡ self.old.latest }
        ensures told { Gains self.old.ticks self.new.ticks (Paused millis ∷ []) }
        ensures moments { self.new.moments ≡ self.old.moments }
        ensures moved { IsMoved (paused self.old millis) self.old self.new }
    {
        if !self.stalled {
            self.reading = self.reading.saturating_add(millis).min(LAST_READING);
        }
        self.ticks.add(Tick::Paused(millis));
    }
}
