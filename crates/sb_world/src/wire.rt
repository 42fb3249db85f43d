//! Connections to one place, one after the other.

ghost use Rattle.std.specs.Prelude.{◌≡◌, ℕ, List, Option, length, IsErr};
ghost use Rattle.sb_world.specs.Told.{CountsFaults};
ghost use Rattle.sb_world.specs.declared.wire.Connection.{Connection};
ghost use Rattle.sb_world.specs.Wires.{Connects, Sends, Receives};

use sb_base::Text;

/// A wire has failed.
#[derive(Drop, Clone, Copy, PartialEq, Eq, Debug)]
pub enum WireFault {
    Failed,
}

/// What was sent and received on a connection, the oldest byte first, and whether its end came.
#[derive(Drop)]
pub struct Connection {
    pub sent: Text,
    pub received: Text,
    pub ended: bool,
}

/// A wire to one place. Bytes go over its newest connection.
pub trait Wire {
    /// The connections so far, where it tells them.
    ghost connections: { Self → Option (List Connection) };

    /// How often it has failed.
    ghost faults: { Self → ℕ };

    /// Begins a connection.
    fn connect(&mut self) -> Result<(), WireFault>
        ensures told { Connects (connections self.old) (connections self.new) result }
        ensures cause { CountsFaults (faults self.old) (faults self.new) (IsErr result) };

    /// Sends all bytes, or a front of them and fails.
    fn send(&mut self, bytes: &[u8]) -> Result<(), WireFault>
        ensures told { Sends (connections self.old) (connections self.new) result bytes.now }
        ensures cause { CountsFaults (faults self.old) (faults self.new) (IsErr result) };

    /// Receives some bytes into the front of `out` and answers how many: none only at the end, or into an empty buffer.
    /// A receive that fails gives none.
    fn receive(&mut self, out: &mut [u8]) -> Result<usize, WireFault>
        ensures length { length out.new ≡ length out.old }
        ensures told { Receives (connections self.old) (connections self.new) result out.new }
        ensures cause { CountsFaults (faults self.old) (faults self.new) (IsErr result) };
}
