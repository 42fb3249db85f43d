//! Which calls of a fake fail.

ghost use Rattle.std.specs.Prelude.{◌≡◌, true, false};
ghost use Rattle.sb_world.specs.Told.{CountsJust};
ghost use Rattle.sb_world.specs.Calls as calls;
ghost use Rattle.sb_fakes.specs.Failing.{fails_next, answered, one_more};

use sb_world::LinkFault;

/// The calls of a fake that are to fail, counted from 1, and how often it has failed.
#[derive(Drop)]
pub(crate) struct Faults {
    planned: Vec<u64>,
    calls: u64,
    count: u64,
}

impl Faults {
    /// No call and no fault yet.
    pub(crate) fn new(planned: Vec<u64>) -> Faults
        ensures { result ≡ record { planned = planned; calls = 0; count = 0 } }
    {
        Faults {
            planned,
            calls: 0,
            count: 0,
        }
    }

    /// Counts a call, and answers whether it is to fail.
    pub(crate) fn next_call_fails(&mut self) -> bool
        ensures planned { result ≡ fails_next self.old }
        ensures call { self.new ≡ answered false self.old }
    {
        self.calls = self.calls.saturating_add(1);
        self.planned.contains(&self.calls)
    }

    /// Counts a fault.
    pub(crate) fn add(&mut self)
        ensures added { self.new ≡ record {
          planned = self.old.planned;
          calls = self.old.calls;
          count = one_more self.old.count;
        } }
        ensures cause { CountsJust self.old.count self.new.count true }
    {
        self.count = self.count.saturating_add(1);
    }
}

/// Tells whether a request failed for another cause than memory.
pub(crate) fn has_failed<T>(answer: &Result<T, LinkFault>) -> bool
    ensures { result ≡ calls.has_failed answer.now }
{
    matches!(answer, Err(LinkFault::Failed { .. }))
}
