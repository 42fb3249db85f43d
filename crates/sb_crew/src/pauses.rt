//! Pauses of a call.

ghost use Rattle.std.specs.Prelude.{◌≡◌, ◌+◌, ◌≤◌, ◌<◌, ◌^◌, ℕ};
ghost use Rattle.sb_core.specs.Leads.{IsUntil};
ghost use Rattle.sb_crew.specs.Turns.{Pauses, Waits};

use crate::calls::FlushFault;
use sb_base::Why;
use sb_world::Clock;

/// Lets so many milliseconds pass since a reading, and takes the next one. The clock stands still where that comes
/// short.
pub(crate) fn pause<C: Clock>(clock: &mut C, now: u64, millis: u64) -> Result<u64, FlushFault>
    requires { now + millis < 2 ^ 64 }
    ensures { Pauses (C.ticks clock.old) (C.ticks clock.new) (C.latest clock.old)
        (C.latest clock.new) now millis result }
{
    clock.pause(millis);
    let after = clock.now();
    if after < now + millis {
        Err(FlushFault::ClockStalled {
            before: now,
            asked: millis,
            after,
        })
    } else {
        Ok(after)
    }
}

/// Lets time pass from a reading to the one that is waited for, which is ahead, and takes the next one.
pub(crate) fn wait<C: Clock>(clock: &mut C, now: u64, why: Why) -> Result<u64, FlushFault>
    requires { (until : ℕ) × IsUntil until why × (now < until) }
    ensures { Waits (C.ticks clock.old) (C.ticks clock.new) (C.latest clock.old) (C.latest clock.new) now why result }
{
    match why {
        Why::Spaced(until) | Why::WindowFull(until) => pause(clock, now, until - now),
        Why::Busy(_) | Why::NoRoom => unreachable!(),
    }
}
