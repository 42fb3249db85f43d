//! Flushes.

ghost use Rattle.std.specs.Prelude.{◌≡◌, ◌≤◌, ◌^◌, length, vec_len};
ghost use Rattle.sb_base.specs.Lines.{entry_kind_of};
ghost use Rattle.sb_core.specs.Flushing.{flush_kind};

use crate::alone::{Alone, PASS};
use crate::calls::FlushFault;
use crate::desk::Desk;
use crate::pauses::wait;
use sb_base::Kind;
use sb_core::{FlushStep, Mark};
use sb_world::{Clock, Link, Tape};

/// What an answer to a step of a flush is in the history.
pub(crate) fn flush_kind<'a>(step: &FlushStep, mark: Mark, room: &'a [u8]) -> Kind<'a>
    ensures { entry_kind_of result ≡ flush_kind mark room.now step.now }
{
    match step {
        FlushStep::Done => Kind::FlushDone(mark),
        FlushStep::Wait(why) => Kind::Waited(*why),
        FlushStep::Put(job) => Kind::PutBegin(job.block(), room),
    }
}

impl<T: Tape> Alone<T> {
    ghost use Rattle.sb_core.specs.Cores.{geometry_of, reading_of};
    ghost use Rattle.sb_core.specs.Leads.{FlushLeads, IsIdle};
    ghost use Rattle.sb_core.specs.Flushing.{AnswersFlush, CopiesFlush, flush_begin_entry, flush_step_entry};
    ghost use Rattle.sb_crew.specs.Bases.{base_of};
    ghost use Rattle.sb_crew.specs.Outcomes.{FlushDoes};
    ghost use Rattle.sb_crew.specs.Ready.{IsReady};
    ghost use Rattle.sb_crew.specs.Disks.{disk_of, scene_of};
    ghost use Rattle.sb_crew.specs.Runs.{Event, EventWhere, HasBegun, Did};

    /// Begins a flush at a reading.
    fn begin_flush(&mut self, now: u64) -> Mark
        requires now { now ≤ 2 ^ 62 }
        requires current { self.old.reading ≡ reading_of self.old.core }
        ensures event { Event (disk_of T.Tape self.old) (disk_of T.Tape self.new) now (flush_begin_entry 1 self.new.reading result) }
        ensures idle { IsIdle self.old.core → IsIdle self.new.core }
        ensures current { self.new.reading ≡ reading_of self.new.core }
    {
        let mark = self.core.flush_begin(now, PASS);
        self.note(now, Kind::FlushBegin(mark));
        mark
    }

    /// Asks the core for a step of a flush at a reading.
    fn ask_flush(&mut self, now: u64, room: &mut [u8], mark: Mark) -> FlushStep
        requires now { now ≤ 2 ^ 62 }
        requires ready { IsReady self.old.core self.old.reading (length room.old) }
        ensures event { EventWhere (HasBegun mark) (disk_of T.Tape self.old) (disk_of T.Tape self.new) now
            (flush_step_entry 1 self.new.reading mark room.new result) }
        ensures answer { AnswersFlush self.old.core self.new.reading mark result }
        ensures copies { CopiesFlush self.old.core room.new result }
        ensures leads { FlushLeads self.old.core self.new.core 1 mark room.new result }
        ensures current { self.new.reading ≡ reading_of self.new.core }
    {
        let step = self.core.flush_step(now, PASS, mark, room);
        let kind = flush_kind(&step, mark, room);
        self.note(now, kind);
        step
    }

    /// Has everything written back that was written before.
    pub(crate) fn flush_writes<L: Link, C: Clock>(
        &mut self,
        desk: &mut Desk<L, C>,
    ) -> Result<(), FlushFault>
        requires ready { IsReady self.old.core self.old.reading (vec_len desk.old.room) }
        ensures did { let scene = scene_of T.Tape L.Link C.Clock in
            FlushDoes (base_of self.old.core) (Did (scene self.old desk.old) (scene self.new desk.new)) result }
        ensures ready { IsReady self.new.core self.new.reading (vec_len desk.new.room) }
    {
        let begun = desk.clock.now();
        let mark = self.begin_flush(begun);
        let mut now = desk.clock.now();
        'turns: loop {
            match self.ask_flush(now, desk.room.as_mut_slice(), mark) {
                FlushStep::Done => return Ok(()),
                FlushStep::Wait(why) => now = wait(&mut desk.clock, now, why)?,
                FlushStep::Put(job) => now = self.store(desk, job)?,
            }
        }
    }
}
