//! What a session asks of a disk.

ghost use Rattle.std.specs.Prelude.{◌≡◌, length};
ghost use Rattle.sb_base.specs.Ranges.{IsPart};
ghost use Rattle.sb_history.specs.Contents.{zeros};
ghost use Rattle.sb_crew.specs.Bases.{Base};
ghost use Rattle.sb_crew.specs.Scenes.{Deed, nothing, followed};
ghost use Rattle.sb_crew.specs.Outcomes.{ReadDoes, WriteDoes, FlushDoes};

use sb_base::{Digest, Geometry, Part};

/// Why a call failed.
#[derive(Drop, Clone, Copy, PartialEq, Eq, Debug)]
pub enum CallFault {
    /// The link answered this status. The reply's error is EIO.
    StoreFault {
        status: u16,
    },
    /// The link had no memory. The reply's error is ENOMEM.
    Memory,
    /// A GET of the block, begun at this reading in milliseconds, showed another MD5 than that of the block's last put,
    /// which ended at least the stale limit before. The reply's error is EIO.
    StaleRead {
        block: u32,
        expected: Digest,
        shown: Digest,
        begun: u64,
    },
    /// A pause of so many milliseconds left the clock less than that later. The reply's error is EIO.
    ClockStalled {
        before: u64,
        asked: u64,
        after: u64,
    },
}

/// Why a call failed that reads nothing.
#[derive(Drop, Clone, Copy, PartialEq, Eq, Debug)]
pub enum FlushFault {
    /// As `CallFault::StoreFault`.
    StoreFault { status: u16 },
    /// As `CallFault::Memory`.
    Memory,
    /// As `CallFault::ClockStalled`.
    ClockStalled { before: u64, asked: u64, after: u64 },
}

impl From<FlushFault> for CallFault {
    ghost use Rattle.sb_crew.specs.Answers.{call_fault};

    ghost from_gives = { λ fault call. call ≡ call_fault fault };

    fn from(fault: FlushFault) -> CallFault {
        match fault {
            FlushFault::StoreFault { status } => CallFault::StoreFault { status },
            FlushFault::Memory => CallFault::Memory,
            FlushFault::ClockStalled {
                before,
                asked,
                after,
            } => CallFault::ClockStalled {
                before,
                asked,
                after,
            },
        }
    }
}

/// The calls of a disk that are made with a desk, which has what one thread works with.
pub trait Calls<K> {
    /// Its size and settings, which no call changes.
    ghost base: { Self → Base };

    /// A call may be made.
    ghost ready: { Self → K → Type 0 };

    /// What happened from one state of disk and desk to another: these entries, these calls of the link and these ticks
    /// of the clock, the newest first.
    ghost did: { Self → K → Self → K → Deed → Type 0 };

    /// Nothing happens from a state to itself.
    ghost did_nothing: { (disk : Self) (desk : K) → did disk desk disk desk nothing };

    /// What happened to one state and from there on happened in all.
    ghost did_both: { (d₁ : Self) (k₁ : K) (d₂ : Self) (k₂ : K) (d₃ : Self) (k₃ : K) (x y : Deed)
        → did d₁ k₁ d₂ k₂ x → did d₂ k₂ d₃ k₃ y → did d₁ k₁ d₃ k₃ (followed x y) };

    /// Its size.
    fn geometry(&self) -> Geometry
        ensures { result ≡ (base self.now).geometry };

    /// Reads a part into a buffer. After a fault the buffer is unspecified.
    fn read(&mut self, desk: &mut K, part: Part, out: &mut [u8]) -> Result<(), CallFault>
        requires ready { ready self.old desk.old }
        requires part { IsPart (base self.old).geometry part }
        requires out { length out.old ≡ part.length }
        ensures ready { ready self.new desk.new }
        ensures did { ReadDoes (base self.old) (did self.old desk.old self.new desk.new) part out.new result }
        ensures base { base self.new ≡ base self.old }
        ensures length { length out.new ≡ length out.old };

    /// Writes a part.
    fn write(&mut self, desk: &mut K, part: Part, bytes: &[u8]) -> Result<(), CallFault>
        requires ready { ready self.old desk.old }
        requires part { IsPart (base self.old).geometry part }
        requires bytes { length bytes.now ≡ part.length }
        ensures ready { ready self.new desk.new }
        ensures did { WriteDoes (base self.old) (did self.old desk.old self.new desk.new) part bytes.now result }
        ensures base { base self.new ≡ base self.old };

    /// Writes zeros to a part.
    fn zero(&mut self, desk: &mut K, part: Part) -> Result<(), CallFault>
        requires ready { ready self.old desk.old }
        requires part { IsPart (base self.old).geometry part }
        ensures ready { ready self.new desk.new }
        ensures did { WriteDoes (base self.old) (did self.old desk.old self.new desk.new) part (zeros part.length) result }
        ensures base { base self.new ≡ base self.old };

    /// Has everything written back that was written before.
    fn flush(&mut self, desk: &mut K) -> Result<(), FlushFault>
        requires { ready self.old desk.old }
        ensures ready { ready self.new desk.new }
        ensures did { FlushDoes (base self.old) (did self.old desk.old self.new desk.new) result }
        ensures base { base self.new ≡ base self.old };
}
