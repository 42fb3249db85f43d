//! A bell that threads wait for. Nothing is proved of waking.
ghost use Rattle.std.specs.Prelude.{IsOk};

use std::alloc::{AllocError, Global};
use std::sync::atomic::{AtomicU64, Ordering};
use std::sync::{Condvar, Mutex, Wait};
use std::time::{Clock, Duration};

/// How often it was rung, and those who wait for the next time.
#[derive(Drop)]
pub struct Bell {
    // Any thread reads it at any time. It is raised under `lock` alone.
    rings: AtomicU64,
    // Whoever waits has it from a look at `rings` until it sleeps, so that no ring falls between.
    lock: Mutex<()>,
    // Those who wait sleep on it, having let go of `lock`.
    rung: Condvar,
}

impl Bell {
    /// A bell that was never rung.
    pub fn new(_alloc: Global) -> Result<Bell, AllocError>
        ensures { IsOk result }
    {
        Ok(Bell {
            rings: AtomicU64::new(0),
            lock: Mutex::new(()),
            rung: Condvar::new(),
        })
    }

    /// What to remember before a look that may be in vain. It waits for nobody.
    pub fn mark(&self) -> u64 {
        self.rings.load(Ordering::SeqCst)
    }

    /// Wakes all who wait.
    pub fn ring<R: Wait>(&self, rt: &R) {
        let _guard = self.lock.lock(rt);
        self.rings.fetch_add(1, Ordering::SeqCst);
        self.rung.notify_all();
    }

    /// Waits until the bell was rung since the mark, and at most so many milliseconds.
    pub fn wait<R: Wait + Clock>(&self, rt: &R, mark: u64, millis: u64) {
        let guard = self.lock.lock(rt);
        let (_guard, _result) = self.rung.wait_timeout_while(
            rt,
            guard,
            Duration::from_millis(millis),
            |_| self.rings.load(Ordering::SeqCst) == mark,
        );
    }
}
