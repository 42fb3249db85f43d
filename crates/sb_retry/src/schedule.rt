//! The pauses before further attempts.

ghost use Rattle.std.specs.Prelude.{◌≡◌, ◌≢◌, ◌≤◌, ◌^◌, ◌⊎◌, [], ℕ};

/// The pauses that are left, in milliseconds: the first, doubled each time, the last one cut so that the sum of all is the
/// total.
#[derive(Drop, Clone, Copy)]
pub struct Schedule {
    /// The next pause, where it needn't be cut.
    next: u64,
    /// The sum of the pauses that are left.
    left: u64,
    ghost some: { left ≢ 0 → next ≢ 0 },
    ghost within: { left ≤ 2 ^ 32 },
    ghost doubled: { left ≢ 0 → next ≤ 2 ^ 33 },
}

impl Schedule {
    ghost use Rattle.sb_retry.specs.Schedules.{Begins, Steps};

    /// All pauses. There are none where the total is 0.
    pub fn new(first: u32, total: u32) -> Schedule
        requires { (first ≢ 0) ⊎ (total ≡ 0) }
        ensures { Begins first total result }
    {
        Schedule {
            next: u64::from(first),
            left: u64::from(total),
        }
    }

    /// The next pause, if one is left.
    pub fn next(&mut self) -> Option<u64>
        ensures { Steps self.old self.new result }
    {
        if self.left == 0 {
            return None;
        }
        let pause = self.next.min(self.left);
        self.left -= pause;
        self.next *= 2;
        Some(pause)
    }
}
