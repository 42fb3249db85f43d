//! Which of the entries comes first.

ghost use Rattle.std.specs.Prelude.{◌≡◌};
ghost use Rattle.sb_blocks.specs.Orders.{comes_behind};
ghost use Rattle.test_blocks.specs.Choices.{rank_by};

use crate::slot::Slot;
use sb_blocks::State;

/// Some of the entries, each with a rank.
#[derive(Drop, Clone, Copy)]
pub(crate) enum Choice {
    /// The clean ones, by the place of their last use.
    Unused,
    /// The dirty ones behind this one, by the reading since which they are dirty.
    Dirty(Option<(u64, u32)>),
    /// Those of which a PUT is open and which are stamped at most so.
    Writing(u64),
}

impl Choice {
    /// The rank of an entry that takes part.
    pub(crate) fn rank(self, block: u32, slot: &Slot) -> Option<u64>
        ensures { result ≡ rank_by self block slot.now }
    {
        match (self, slot.state()) {
            (Choice::Unused, State::Clean) => Some(slot.place()),
            (Choice::Dirty(after), State::Dirty { since, .. }) if behind(since, block, after) => {
                Some(since)
            }
            (Choice::Writing(mark), State::Writing { stamp, .. }) if stamp <= mark => Some(0),
            (Choice::Writing(mark), State::Writing2 { stamp, .. }) if stamp <= mark => Some(0),
            _ => None,
        }
    }
}

/// Whether a reading and block come behind others.
fn behind(since: u64, block: u32, after: Option<(u64, u32)>) -> bool
    ensures { result ≡ comes_behind since block after }
{
    match after {
        None => true,
        Some((before, other)) => since > before || (since == before && block > other),
    }
}
