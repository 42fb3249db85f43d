//! Writes.

ghost use Rattle.std.specs.Prelude.{◌≡◌, ◌≤◌, ◌^◌, length, vec_len};
ghost use Rattle.sb_base.specs.Lines.{entry_kind_of};
ghost use Rattle.sb_core.specs.Writing.{write_kind};
ghost use Rattle.sb_base.specs.Ranges.{IsPart};

use crate::alone::{Alone, PASS};
use crate::calls::CallFault;
use crate::desk::Desk;
use crate::pauses::wait;
use sb_base::{Kind, Part};
use sb_core::WriteStep;
use sb_world::{Clock, Link, Tape};

/// What a part is written with.
#[derive(Drop, Clone, Copy)]
pub enum Content<'a> {
    /// These bytes, as many as the part is long.
    Bytes(&'a [u8]),
    /// Zeros.
    Zeros,
}

/// What an answer to a write is in the history.
fn write_kind<'a>(step: &WriteStep, part: Part, bytes: &'a [u8], room: &'a [u8]) -> Kind<'a>
    ensures { entry_kind_of result ≡ write_kind part bytes.now room.now step.now }
{
    match step {
        WriteStep::Done { .. } => Kind::Write(part, bytes),
        WriteStep::Wait(why) => Kind::Waited(*why),
        WriteStep::Get(job) => Kind::GetBegin(job.block(), job.expect(), job.verify()),
        WriteStep::Dropped(block) => Kind::Dropped(*block),
        WriteStep::Put(job) => Kind::PutBegin(job.block(), room),
    }
}

impl<T: Tape> Alone<T> {
    ghost use Rattle.sb_history.specs.Contents.{zeros};
    ghost use Rattle.sb_crew.specs.Contents.{content_of};
    ghost use Rattle.sb_core.specs.Cores.{geometry_of, reading_of};
    ghost use Rattle.sb_core.specs.Leads.{WriteLeads};
    ghost use Rattle.sb_core.specs.Writing.{AnswersWrite, CopiesWrite, write_entry};
    ghost use Rattle.sb_crew.specs.Bases.{base_of};
    ghost use Rattle.sb_crew.specs.Outcomes.{WriteDoes};
    ghost use Rattle.sb_crew.specs.Ready.{IsReady};
    ghost use Rattle.sb_crew.specs.Disks.{disk_of, scene_of};
    ghost use Rattle.sb_crew.specs.Runs.{Event, Did};

    /// Asks the core to write a part at a reading.
    fn ask_write(&mut self, now: u64, room: &mut [u8], part: Part, bytes: &[u8]) -> WriteStep
        requires now { now ≤ 2 ^ 62 }
        requires ready { IsReady self.old.core self.old.reading (length room.old) }
        requires part { IsPart (geometry_of self.old.core) part }
        requires bytes { length bytes.now ≡ part.length }
        ensures event { Event (disk_of T.Tape self.old) (disk_of T.Tape self.new) now (write_entry 1 self.new.reading part bytes.now room.new result) }
        ensures answer { AnswersWrite self.old.core self.new.reading part bytes.now result }
        ensures copies { CopiesWrite self.old.core room.new result }
        ensures leads { WriteLeads self.old.core self.new.core 1 part.block room.new result }
        ensures current { self.new.reading ≡ reading_of self.new.core }
    {
        let step = self.core.write(now, PASS, part, bytes, room);
        let kind = write_kind(&step, part, bytes, room);
        self.note(now, kind);
        step
    }

    /// Asks the core to write zeros to a part at a reading.
    fn ask_zero(&mut self, now: u64, room: &mut [u8], part: Part) -> WriteStep
        requires now { now ≤ 2 ^ 62 }
        requires ready { IsReady self.old.core self.old.reading (length room.old) }
        requires part { IsPart (geometry_of self.old.core) part }
        ensures event { Event (disk_of T.Tape self.old) (disk_of T.Tape self.new) now
            (write_entry 1 self.new.reading part (zeros part.length) room.new result) }
        ensures answer { AnswersWrite self.old.core self.new.reading part (zeros part.length) result }
        ensures copies { CopiesWrite self.old.core room.new result }
        ensures leads { WriteLeads self.old.core self.new.core 1 part.block room.new result }
        ensures current { self.new.reading ≡ reading_of self.new.core }
    {
        match self.core.zero(now, PASS, part, room) {
            WriteStep::Done { dirtied } => {
                let zeros = &mut room[..part.length as usize];
                zeros.fill(0);
                self.note(now, Kind::Write(part, zeros));
                WriteStep::Done { dirtied }
            }
            WriteStep::Wait(why) => {
                self.note(now, Kind::Waited(why));
                WriteStep::Wait(why)
            }
            WriteStep::Get(job) => {
                let (block, expect, verify) = (job.block(), job.expect(), job.verify());
                self.note(now, Kind::GetBegin(block, expect, verify));
                WriteStep::Get(job)
            }
            WriteStep::Dropped(block) => {
                self.note(now, Kind::Dropped(block));
                WriteStep::Dropped(block)
            }
            WriteStep::Put(job) => {
                let block = job.block();
                self.note(now, Kind::PutBegin(block, room));
                WriteStep::Put(job)
            }
        }
    }

    /// Asks the core to write a part at a reading.
    fn ask(&mut self, now: u64, room: &mut [u8], part: Part, content: Content<'_>) -> WriteStep
        requires now { now ≤ 2 ^ 62 }
        requires ready { IsReady self.old.core self.old.reading (length room.old) }
        requires part { IsPart (geometry_of self.old.core) part }
        requires content { length (content_of content part) ≡ part.length }
        ensures event { Event (disk_of T.Tape self.old) (disk_of T.Tape self.new) now
            (write_entry 1 self.new.reading part (content_of content.entry part) room.new result) }
        ensures answer { AnswersWrite self.old.core self.new.reading part (content_of content.entry part) result }
        ensures copies { CopiesWrite self.old.core room.new result }
        ensures leads { WriteLeads self.old.core self.new.core 1 part.block room.new result }
        ensures current { self.new.reading ≡ reading_of self.new.core }
    {
        match content {
            Content::Bytes(bytes) => self.ask_write(now, room, part, bytes),
            Content::Zeros => self.ask_zero(now, room, part),
        }
    }

    /// Writes a part of a block.
    pub(crate) fn write_part<L: Link, C: Clock>(
        &mut self,
        desk: &mut Desk<L, C>,
        part: Part,
        content: Content<'_>,
    ) -> Result<(), CallFault>
        requires ready { IsReady self.old.core self.old.reading (vec_len desk.old.room) }
        requires part { IsPart (geometry_of self.old.core) part }
        requires content { length (content_of content part) ≡ part.length }
        ensures did { let scene = scene_of T.Tape L.Link C.Clock in
            WriteDoes (base_of self.old.core) (Did (scene self.old desk.old) (scene self.new desk.new)) part (content_of content.entry part) result }
        ensures ready { IsReady self.new.core self.new.reading (vec_len desk.new.room) }
    {
        let mut now = desk.clock.now();
        'turns: loop {
            match self.ask(now, desk.room.as_mut_slice(), part, content) {
                WriteStep::Done { dirtied: _ } => return Ok(()),
                WriteStep::Wait(why) => now = wait(&mut desk.clock, now, why)?,
                WriteStep::Get(job) => now = self.fetch(desk, job)?,
                WriteStep::Dropped(_) => now = desk.clock.now(),
                WriteStep::Put(job) => now = self.store(desk, job)?,
            }
        }
    }
}
