//! The system's clock.

ghost use Rattle.std.specs.Prelude.{◌≤◌, ◌^◌, None};
ghost use Rattle.sb_host.specs.Outcomes.{IsMoment};

use sb_world::Clock;
use std::rt::HostRuntime;
use std::time::{Duration, Instant, SystemTime};

/// The last reading of a clock, in milliseconds.
const LAST_READING: u64 = 1 << 62;

/// The system's clock. Readings are the milliseconds since an origin, which all clocks of one world have in common; where
/// the system gives none the last one stands.
#[derive(Drop)]
pub struct HostClock {
    rt: HostRuntime,
    origin: Option<Instant>,
    latest: u64,
    ghost limit: { latest ≤ 2 ^ 62 },
}

impl HostClock {
    /// A clock whose readings count from an origin. Without one each reading is 0.
    pub fn new(rt: HostRuntime, origin: Option<Instant>) -> HostClock {
        HostClock {
            rt,
            origin,
            latest: 0,
        }
    }

    /// The milliseconds since the origin.
    fn elapsed(&self) -> Option<u64> {
        match self.origin?.elapsed(&self.rt) {
            Ok(passed) => u64::try_from(passed.as_millis()).ok(),
            Err(_) => None,
        }
    }

    /// The seconds since the begin of 1970.
    fn seconds(&self) -> Option<u64> {
        let now = SystemTime::now(&self.rt).ok()?;
        let passed = now.duration_since(SystemTime::UNIX_EPOCH).ok()?;
        Some(passed.as_secs())
    }
}

/// The moment that is so many seconds behind the begin of 1970. Where they can't be had it is -1, which no signature
/// takes, and not some moment of 1970.
pub(crate) fn moment_of(seconds: Option<u64>) -> i64
    ensures { IsMoment seconds result }
{
    match seconds {
        Some(seconds) => i64::try_from(seconds).unwrap_or(i64::MAX),
        None => -1,
    }
}

impl Clock for HostClock {
    ghost ticks = { λ _. None };

    ghost moments = { λ _. None };

    ghost latest = { λ clock. clock.latest };

    fn now(&mut self) -> u64 {
        if let Some(reading) = self.elapsed() {
            self.latest = reading.min(LAST_READING).max(self.latest);
        }
        self.latest
    }

    fn moment(&mut self) -> i64 {
        moment_of(self.seconds())
    }

    fn pause(&mut self, millis: u64) {
        std::thread::sleep(&self.rt, Duration::from_millis(millis));
    }
}
