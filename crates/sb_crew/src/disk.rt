//! A disk for many callers: a core under a lock.

ghost use Rattle.std.specs.Prelude.{◌≤◌, length};
ghost use Rattle.sb_names.specs.declared.names.TheConstants.{MAX_PREFIX};

use crate::names::Names;
use sb_core::{Core, Fixed};
use sb_turn::{Bell, Turn};

/// A core under a lock, with what its callers share. A caller has a pass of the lock, and a desk.
#[derive(Drop)]
pub struct Disk {
    /// Whoever has the turn changes the core, by one event.
    pub(crate) turn: Turn<Core>,
    /// Any thread reads them. They never change.
    pub(crate) names: Names,
    /// The core's size and settings, which any thread reads, and which never change.
    pub(crate) fixed: Fixed,
    /// Rung outside a turn, behind each event after which another caller may go on.
    pub(crate) bell: Bell,
    ghost short: { length names.prefix ≤ MAX_PREFIX },
}
