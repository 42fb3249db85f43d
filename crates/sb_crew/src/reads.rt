//! Reads.

ghost use Rattle.std.specs.Prelude.{◌≡◌, ◌≤◌, ◌^◌, length, vec_len};
ghost use Rattle.sb_base.specs.Lines.{entry_kind_of};
ghost use Rattle.sb_core.specs.Steps.{read_kind};
ghost use Rattle.sb_base.specs.Ranges.{IsPart};

use crate::alone::{Alone, PASS};
use crate::calls::CallFault;
use crate::desk::Desk;
use crate::pauses::wait;
use sb_base::{Kind, Part};
use sb_core::ReadStep;
use sb_world::{Clock, Link, Tape};

/// What an answer to a read is in the history.
pub(crate) fn read_kind<'a>(step: &ReadStep, part: Part, out: &'a [u8], room: &'a [u8]) -> Kind<'a>
    ensures { entry_kind_of result ≡ read_kind part out.now room.now step.now }
{
    match step {
        ReadStep::Done => Kind::Read(part, out),
        ReadStep::Wait(why) => Kind::Waited(*why),
        ReadStep::Get(job) => Kind::GetBegin(job.block(), job.expect(), job.verify()),
        ReadStep::Dropped(block) => Kind::Dropped(*block),
        ReadStep::Put(job) => Kind::PutBegin(job.block(), room),
    }
}

impl<T: Tape> Alone<T> {
    ghost use Rattle.sb_core.specs.Cores.{geometry_of, reading_of};
    ghost use Rattle.sb_core.specs.Leads.{ReadLeads};
    ghost use Rattle.sb_core.specs.Steps.{AnswersRead, CopiesRead, read_entry};
    ghost use Rattle.sb_crew.specs.Bases.{base_of};
    ghost use Rattle.sb_crew.specs.Outcomes.{ReadDoes};
    ghost use Rattle.sb_crew.specs.Ready.{IsReady};
    ghost use Rattle.sb_crew.specs.Disks.{disk_of, scene_of};
    ghost use Rattle.sb_crew.specs.Runs.{Event, Did};

    /// Asks the core to read a part at a reading.
    fn ask_read(&mut self, now: u64, room: &mut [u8], part: Part, out: &mut [u8]) -> ReadStep
        requires now { now ≤ 2 ^ 62 }
        requires ready { IsReady self.old.core self.old.reading (length room.old) }
        requires part { IsPart (geometry_of self.old.core) part }
        requires out { length out.old ≡ part.length }
        ensures event { Event (disk_of T.Tape self.old) (disk_of T.Tape self.new) now (read_entry 1 self.new.reading part out.new room.new result) }
        ensures answer { AnswersRead self.old.core self.new.reading part.block result }
        ensures copies { CopiesRead self.old.core part out.new room.new result }
        ensures leads { ReadLeads self.old.core self.new.core 1 part.block room.new result }
        ensures current { self.new.reading ≡ reading_of self.new.core }
    {
        let step = self.core.read(now, PASS, part, out, room);
        let kind = read_kind(&step, part, out, room);
        self.note(now, kind);
        step
    }

    /// Reads a part of a block.
    pub(crate) fn read_part<L: Link, C: Clock>(
        &mut self,
        desk: &mut Desk<L, C>,
        part: Part,
        out: &mut [u8],
    ) -> Result<(), CallFault>
        requires ready { IsReady self.old.core self.old.reading (vec_len desk.old.room) }
        requires part { IsPart (geometry_of self.old.core) part }
        requires out { length out.old ≡ part.length }
        ensures did { let scene = scene_of T.Tape L.Link C.Clock in
            ReadDoes (base_of self.old.core) (Did (scene self.old desk.old) (scene self.new desk.new)) part out.new result }
        ensures ready { IsReady self.new.core self.new.reading (vec_len desk.new.room) }
    {
        let mut now = desk.clock.now();
        'turns: loop {
            match self.ask_read(now, desk.room.as_mut_slice(), part, out) {
                ReadStep::Done => return Ok(()),
                ReadStep::Wait(why) => now = wait(&mut desk.clock, now, why)?,
                ReadStep::Get(job) => now = self.fetch(desk, job)?,
                ReadStep::Dropped(_) => now = desk.clock.now(),
                ReadStep::Put(job) => now = self.store(desk, job)?,
            }
        }
    }
}
