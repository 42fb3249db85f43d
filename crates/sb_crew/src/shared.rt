//! One of many callers of a disk, as a session sees it.

ghost use Rattle.std.specs.Prelude.{◌≡◌, vec_len};

use crate::calls::{CallFault, Calls, FlushFault};
use crate::desk::Desk;
use crate::disk::Disk;
use sb_base::{Geometry, Part};
use sb_core::Core;
use sb_turn::Pass;
use sb_world::{Clock, Link};
use std::sync::Wait;
use std::time;

/// A disk for many callers, with the pass of one of them. Its calls may wait for other callers.
pub struct Shared<'a, R> {
    pub rt: &'a R,
    pub disk: &'a Disk,
    pub pass: Pass<Core>,
}

impl<'a, R: Wait + time::Clock, L: Link, C: Clock> Calls<Desk<L, C>> for Shared<'a, R> {
    ghost use Rattle.std.proofs.Common.{refl};
    ghost use Rattle.sb_crew.specs.Bases.{shared_base};
    ghost use Rattle.sb_crew.specs.Sharing.{MayCall, PassDid, caller_of};
    ghost use Rattle.sb_crew.specs.SharedJoins.{shared_both, shared_nothing};

    ghost base = { λ caller. shared_base caller.disk.now.fixed };

    ghost ready = { λ caller desk. MayCall caller.disk.now.turn caller.disk.now.fixed caller.pass
        × (vec_len desk.room ≡ caller.disk.now.fixed.geometry.block_size) };

    ghost did = { λ caller desk caller' desk' deed. (caller'.disk.now ≡ caller.disk.now)
        × PassDid caller.disk.now.names caller.disk.now.fixed (caller_of L.Link C.Clock caller.pass desk)
        (caller_of L.Link C.Clock caller'.pass desk') deed };

    ghost did_nothing = { λ caller desk. (refl, shared_nothing) };

    ghost did_both = { λ d₁ k₁ d₂ k₂ d₃ k₃ x y first second.
        shared_both first.0 second.0 first.1 second.1 };

    fn geometry(&self) -> Geometry {
        self.disk.geometry()
    }

    fn read(&mut self, desk: &mut Desk<L, C>, part: Part, out: &mut [u8]) -> Result<(), CallFault> {
        self.disk.read(self.rt, &mut self.pass, desk, part, out)
    }

    fn write(&mut self, desk: &mut Desk<L, C>, part: Part, bytes: &[u8]) -> Result<(), CallFault> {
        self.disk.write(self.rt, &mut self.pass, desk, part, bytes)
    }

    fn zero(&mut self, desk: &mut Desk<L, C>, part: Part) -> Result<(), CallFault> {
        self.disk.zero(self.rt, &mut self.pass, desk, part)
    }

    fn flush(&mut self, desk: &mut Desk<L, C>) -> Result<(), FlushFault> {
        self.disk.flush(self.rt, &mut self.pass, desk)
    }
}
