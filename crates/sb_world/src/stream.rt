//! Where bytes come from and go to.

ghost use Rattle.std.specs.Prelude.{◌≡◌, ℕ, List, Option, length, IsErr};
ghost use Rattle.sb_world.specs.Told.{CountsFaults};
ghost use Rattle.sb_world.specs.Streams.{ReadTakes, WriteHolds};

/// A source has failed.
#[derive(Drop, Clone, Copy, PartialEq, Eq, Debug)]
pub enum ReadFault {
    Failed,
}

/// A sink has failed.
#[derive(Drop, Clone, Copy, PartialEq, Eq, Debug)]
pub enum WriteFault {
    Failed,
}

/// A source of bytes.
pub trait Source {
    /// The bytes that are left, where it tells them.
    ghost left: { Self → Option (List ℕ) };

    /// How often it has failed.
    ghost faults: { Self → ℕ };

    /// Takes some bytes into the front of `out` and answers how many: none only at the end, or into an empty buffer. A
    /// read that fails takes none.
    fn read(&mut self, out: &mut [u8]) -> Result<usize, ReadFault>
        ensures length { length out.new ≡ length out.old }
        ensures told { ReadTakes (left self.old) (left self.new) result out.new }
        ensures cause { CountsFaults (faults self.old) (faults self.new) (IsErr result) };
}

/// A sink of bytes.
pub trait Sink {
    /// The bytes that it holds, the oldest first, where it tells them.
    ghost held: { Self → Option (List ℕ) };

    /// How often it has failed.
    ghost faults: { Self → ℕ };

    /// Writes all bytes, or a front of them and fails.
    fn write(&mut self, bytes: &[u8]) -> Result<(), WriteFault>
        ensures told { WriteHolds (held self.old) (held self.new) result bytes.now }
        ensures cause { CountsFaults (faults self.old) (faults self.new) (IsErr result) };
}
