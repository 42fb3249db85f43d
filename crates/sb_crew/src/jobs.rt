//! The turns of a worker, and that of a close.

ghost use Rattle.std.specs.Prelude.{ℕ, ◌≡◌, ◌≤◌, ◌^◌, length};
ghost use Rattle.sb_base.specs.Lines.{entry_kind_of};
ghost use Rattle.sb_turn.specs.Passes.{number};
ghost use Rattle.sb_core.specs.Jobs.{closing_entry, job_entry, job_kind};
ghost use Rattle.sb_crew.specs.Sharing.{seen_by, MayCall, PassTurn};
ghost use Rattle.sb_crew.specs.Working.{JobBegins, StopsClosed};

use crate::disk::Disk;
use crate::turns::leave;
use sb_base::Kind;
use sb_core::{Core, JobStep};
use sb_turn::Pass;
use std::marker::Brand;
use std::sync::Wait;

/// What an answer to a worker is in the history.
fn job_kind<'a>(step: &JobStep, room: &'a [u8]) -> Kind<'a>
    ensures { entry_kind_of result ≡ job_kind room.now step.now }
{
    match step {
        JobStep::Closed => Kind::Stopped,
        JobStep::Put(job) => Kind::PutBegin(job.block(), room),
        JobStep::Dropped(block) => Kind::Dropped(*block),
        JobStep::Sleep(until) => Kind::Slept(*until),
    }
}

impl Disk {
    /// Asks the core for a worker's next job at a reading.
    pub(crate) fn ask_job<R: Wait>(
        &self,
        rt: &R,
        pass: &mut Pass<Core>,
        now: u64,
        room: &mut [u8],
    ) -> JobStep
        requires now { now ≤ 2 ^ 62 }
        requires ready { MayCall self.now.turn self.now.fixed pass.old }
        requires room { length room.old ≡ self.now.fixed.geometry.block_size }
        ensures turn { (reading : ℕ)
            × PassTurn pass.old pass.new now (job_entry (number pass.old) reading room.new result) }
        ensures ready { MayCall self.now.turn self.now.fixed pass.new }
        ensures begins { JobBegins (seen_by pass.new) (number pass.old) room.new result }
        ensures closed { StopsClosed (seen_by pass.new) result }
    {
        let mut held = self.turn.enter(rt, pass);
        let number = pass.number();
        let step = held.value().next_job(now, number, room);
        let kind = job_kind(&step, room);
        leave::<Brand>(&self.turn, held, pass, kind);
        step
    }

    /// Closes the disk at a reading.
    pub(crate) fn end_work<R: Wait>(&self, rt: &R, pass: &mut Pass<Core>, now: u64)
        requires now { now ≤ 2 ^ 62 }
        requires ready { MayCall self.now.turn self.now.fixed pass.old }
        ensures turn { (reading : ℕ) × PassTurn pass.old pass.new now (closing_entry (number pass.old) reading) }
        ensures ready { MayCall self.now.turn self.now.fixed pass.new }
    {
        let mut held = self.turn.enter(rt, pass);
        let number = pass.number();
        held.value().close(now, number);
        leave::<Brand>(&self.turn, held, pass, Kind::Closing);
    }
}
