//! What a thread goes through the lock with.
ghost use Rattle.std.specs.Prelude.{◌≡◌, ◌<◌};

use crate::stands::Stands;
use crate::turn::Place;

/// What a thread knows of one lock. One thread has it at a time. Beside its number it takes no
/// bytes.
#[derive(Drop)]
pub struct Pass<S: Stands> {
    // Each call of the lock that is lent the pass steps with it.
    pub(crate) seat: Place<S>,
    // Fixed when the pass is made.
    pub(crate) number: u64,
    pub(crate) ghost own: { (number ≡ seat.me.0.number) × (0 < number) },
}

impl<S: Stands> Pass<S> {
    ghost use Rattle.std.specs.Prelude.{ℕ, ◌≤◌};
    ghost use Rattle.sb_turn.specs.Histories.{entries_of_pass};
    ghost use Rattle.sb_turn.specs.Views.{count, AccountsMatch};
    ghost use Rattle.sb_turn.specs.Passes.{number, seen, mine, joined, IsFree};

    /// No other pass of the lock ever has this number. 0 is the number of no pass.
    pub fn number(&self) -> u64
        ensures number { (result ≡ number self.now) × (0 < result) }
    {
        self.number
    }

    /// What a pass keeps outside a turn is exact. It does nothing.
    pub fn outside_a_turn(&self)
        requires { IsFree self.now }
        ensures own { entries_of_pass (number self.now) (seen self.now) ≡ mine self.now }
        ensures joined { AccountsMatch (seen self.now) (seen self.now) (joined self.now) }
        ensures apart { (k : ℕ) → 0 < k → count k (joined self.now) ≤ 1 }
        ensures not_own { count (number self.now) (joined self.now) ≡ 0 }
    {}
}
