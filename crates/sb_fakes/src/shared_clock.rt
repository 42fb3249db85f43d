//! A clock that the calls of a link move.

ghost use Rattle.std.specs.Prelude.{◌≡◌, ◌≤◌, ◌^◌, Some, None, [], reverse, MatchOption};

use crate::kept::Kept;
use sb_base::Digest;
use sb_world::{Clock, Got, HeadText, Link, LinkFault, Meta, Page, Tick};
use std::alloc::Global;
use std::cell::Cell;

/// The last reading that a clock gives, in milliseconds.
const LAST_READING: u64 = 1 << 62;

/// A clock that is read from a hand in milliseconds, which the calls of a `SlowLink` move too. No contract knows what a
/// cell has: the clauses say that no reading is less than the one before, and that its readings are told.
#[derive(Drop)]
pub struct SharedClock<'a> {
    hand: &'a Cell<u64>,
    latest: u64,
    moment: i64,
    ticks: Kept<Tick>,
    moments: Kept<i64>,
    ghost limit: { latest ≤ 2 ^ 62 },
}

impl<'a> SharedClock<'a> {
    ghost use Rattle.sb_fakes.specs.Clocks.{shared_ticks};

    /// A clock with this hand, whose moment in seconds since 1970 stands still.
    pub fn new(alloc: Global, hand: &'a Cell<u64>, moment: i64) -> SharedClock<'a>
        ensures ticks { result.ticks ≡ Some [] }
        ensures moments { result.moments ≡ Some [] }
        ensures latest { result.latest ≡ 0 }
        ensures moment { result.moment ≡ moment }
    {
        SharedClock {
            hand,
            latest: 0,
            moment,
            ticks: Kept::new(alloc),
            moments: Kept::new(alloc),
        }
    }

    /// Its readings and pauses so far, the oldest first, and none after a growth was refused.
    pub fn ticks(&self) -> Option<&[Tick]>
        ensures { MatchOption result (shared_ticks self.now ≡ None)
            (λ ticks. shared_ticks self.now ≡ Some (reverse ticks.now)) }
    {
        self.ticks.items()
    }
}

/// Moves a hand on.
fn move_hand(hand: &Cell<u64>, millis: u64) {
    hand.set(hand.get().saturating_add(millis));
}

impl<'a> Clock for SharedClock<'a> {
    ghost ticks = { λ clock. clock.ticks };

    ghost moments = { λ clock. clock.moments };

    ghost latest = { λ clock. clock.latest };

    fn now(&mut self) -> u64 {
        self.latest = self.hand.get().min(LAST_READING).max(self.latest);
        self.ticks.add(Tick::Taken(self.latest));
        self.latest
    }

    fn moment(&mut self) -> i64 {
        self.moments.add(self.moment);
        self.moment
    }

    fn pause(&mut self, millis: u64) {
        move_hand(self.hand, millis);
        self.ticks.add(Tick::Paused(millis));
    }
}

/// A link each of whose calls takes so many milliseconds on a hand: the hand moves behind the answer.
#[derive(Drop)]
pub struct SlowLink<'a, L> {
    pub link: L,
    pub hand: &'a Cell<u64>,
    pub millis: u64,
}

impl<'a, L: Link> Link for SlowLink<'a, L> {
    ghost log = { λ slow. L.log slow.link };

    ghost faults = { λ slow. L.faults slow.link };

    fn get(
        &mut self,
        name: &[u8],
        verify: Option<Digest>,
        out: &mut [u8],
    ) -> Result<Got, LinkFault> {
        let answer = self.link.get(name, verify, out);
        move_hand(self.hand, self.millis);
        answer
    }

    fn put(&mut self, name: &[u8], body: &[u8], meta: Option<Meta>) -> Result<(), LinkFault> {
        let answer = self.link.put(name, body, meta);
        move_hand(self.hand, self.millis);
        answer
    }

    fn delete(&mut self, name: &[u8]) -> Result<(), LinkFault> {
        let answer = self.link.delete(name);
        move_hand(self.hand, self.millis);
        answer
    }

    fn head(&mut self, name: &[u8]) -> Result<Option<HeadText>, LinkFault> {
        let answer = self.link.head(name);
        move_hand(self.hand, self.millis);
        answer
    }

    fn list(&mut self, prefix: &[u8], marker: &[u8], page: &mut Page) -> Result<bool, LinkFault> {
        let answer = self.link.list(prefix, marker, page);
        move_hand(self.hand, self.millis);
        answer
    }
}
