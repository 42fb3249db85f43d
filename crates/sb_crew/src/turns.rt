//! The turns of a pass: each takes the core, makes one event of it, and leaves the event's entry.

ghost use Rattle.std.specs.Prelude.{ℕ, ◌≡◌, ◌≤◌, ◌^◌, ◌∷◌, [], length, Some, None};
ghost use Rattle.sb_base.specs.Lines.{entry_kind_of};
ghost use Rattle.sb_base.specs.Ranges.{IsPart};
ghost use Rattle.sb_world.specs.Calls.{IsAsked};
ghost use Rattle.sb_history.specs.Window.{answer_digest};
ghost use Rattle.sb_turn.specs.Passes.{seen, mine, number, base_of, IsPassOf, IsFree, HoldsTurn, IsSamePass};
ghost use Rattle.sb_core.specs.Cores.{Adds, KeepsSignals, geometry_of, reading_at, reading_of};
ghost use Rattle.sb_core.specs.Requests.{SameBase};
ghost use Rattle.sb_core.specs.Leads.{WriteLeads};
ghost use Rattle.sb_core.specs.Judging.{judged};
ghost use Rattle.sb_core.specs.PutWindow.{IsPutDigest};
ghost use Rattle.sb_core.specs.Steps.{read_entry, get_end_entry};
ghost use Rattle.sb_core.specs.Writing.{CopiesWrite, write_entry, write_kind};
ghost use Rattle.sb_core.specs.Flushing.{flush_begin_entry, flush_step_entry};
ghost use Rattle.sb_core.specs.Standing.{StandsFor, entry_at, timed, fixed_of};
ghost use Rattle.sb_crew.specs.Answers.{shown_for};
ghost use Rattle.sb_crew.specs.Contents.{content_of};
ghost use Rattle.sb_crew.specs.Runs.{HasBegun};
ghost use Rattle.sb_crew.specs.Sharing.{
  seen_by,
  MayCall,
  PassTurn,
  IsOpenGet,
  IsOpenPut,
  ReadBegins,
  WriteBegins,
  FlushBegins,
  ended_put,
};

use crate::disk::Disk;
use crate::flushes::flush_kind;
use crate::reads::read_kind;
use crate::requests::{answer_of, is_taken};
use crate::writes::Content;
use sb_base::{Digest, Kind, Part};
use sb_core::{Core, FlushStep, GetDone, GetJob, Mark, PutJob, ReadStep, Timed, WriteStep};
use sb_turn::{Event, Held, Pass, Turn};
use sb_world::{Got, LinkFault};
use std::marker::Brand;
use std::sync::Wait;

/// Gives the core back behind an event. A call picks the entry from its arguments alone, so what happened is one of
/// them.
pub(crate) fn leave<M: Event<Timed>>(
    turn: &Turn<Core>,
    held: Held<Core>,
    pass: &mut Pass<Core>,
    kind: Kind<'_>,
)
    requires pass { IsPassOf turn.now pass.old × HoldsTurn pass.old }
    requires event { M.made ≡ (number pass.old, timed (reading_of held.value) (entry_kind_of kind)) ∷ [] }
    requires value { StandsFor held.value
        (entry_at (number pass.old, timed (reading_of held.value) (entry_kind_of kind)) ∷ seen_by pass.old) }
    requires base { base_of pass.old ≡ Some (fixed_of held.value) }
    ensures pass { IsSamePass pass.old pass.new × IsFree pass.new }
    ensures seen { seen pass.new
        ≡ (number pass.old, timed (reading_of held.value) (entry_kind_of kind.entry)) ∷ seen pass.old }
    ensures mine { mine pass.new
        ≡ (number pass.old, timed (reading_of held.value) (entry_kind_of kind.entry)) ∷ mine pass.old }
    ensures stands { StandsFor held.value (seen_by pass.new) }
{
    turn.leave::<M>(held, pass);
}

/// Gives the core back behind an answer to a write. No byte is looked at.
fn leave_write<M: Event<Timed>>(
    turn: &Turn<Core>,
    held: Held<Core>,
    pass: &mut Pass<Core>,
    part: Part,
    content: Content<'_>,
    step: &WriteStep,
    room: &[u8],
)
    requires pass { IsPassOf turn.now pass.old × HoldsTurn pass.old }
    requires event { M.made ≡ (
      number pass.old,
      timed (reading_of held.value)
          (write_kind part (content_of content part) room.now step.now),
    ) ∷ [] }
    requires value { StandsFor held.value (entry_at (
      number pass.old,
      timed (reading_of held.value)
          (write_kind part (content_of content part) room.now step.now),
    ) ∷ seen_by pass.old) }
    requires base { base_of pass.old ≡ Some (fixed_of held.value) }
    ensures pass { IsSamePass pass.old pass.new × IsFree pass.new }
    ensures seen { seen pass.new ≡ (
      number pass.old,
      timed (reading_of held.value)
          (write_kind part (content_of content.entry part) room.now step.now),
    ) ∷ seen pass.old }
    ensures mine { mine pass.new ≡ (
      number pass.old,
      timed (reading_of held.value)
          (write_kind part (content_of content.entry part) room.now step.now),
    ) ∷ mine pass.old }
    ensures stands { StandsFor held.value (seen_by pass.new) }
{
    turn.leave::<M>(held, pass);
}

/// Writes to a part in the core.
fn write_core(
    core: &mut Core,
    now: u64,
    pass: u64,
    part: Part,
    content: Content<'_>,
    room: &mut [u8],
) -> WriteStep
    requires now { now ≤ 2 ^ 62 }
    requires part { IsPart (geometry_of core.old) part }
    requires content { length (content_of content part) ≡ part.length }
    requires room { length room.old ≡ (geometry_of core.old).block_size }
    ensures represents { Adds core.old core.new
        (write_entry pass (reading_at now core.old) part (content_of content.entry part) room.new result) }
    ensures copies { CopiesWrite core.old room.new result }
    ensures leads { WriteLeads core.old core.new pass part.block room.new result }
    ensures base { SameBase core.old core.new }
    ensures reading { reading_of core.new ≡ reading_at now core.old }
    ensures signals { KeepsSignals core.old core.new }
{
    match content {
        Content::Bytes(bytes) => core.write(now, pass, part, bytes, room),
        Content::Zeros => core.zero(now, pass, part, room),
    }
}

impl Disk {
    /// Asks the core to read a part at a reading.
    pub(crate) fn ask_read<R: Wait>(
        &self,
        rt: &R,
        pass: &mut Pass<Core>,
        now: u64,
        room: &mut [u8],
        part: Part,
        out: &mut [u8],
    ) -> ReadStep
        requires now { now ≤ 2 ^ 62 }
        requires ready { MayCall self.now.turn self.now.fixed pass.old }
        requires room { length room.old ≡ self.now.fixed.geometry.block_size }
        requires part { IsPart self.now.fixed.geometry part }
        requires out { length out.old ≡ part.length }
        ensures turn { (reading : ℕ)
            × PassTurn pass.old pass.new now (read_entry (number pass.old) reading part out.new room.new result) }
        ensures ready { MayCall self.now.turn self.now.fixed pass.new }
        ensures begins { ReadBegins (seen_by pass.new) (number pass.old) part.block room.new result }
    {
        let mut held = self.turn.enter(rt, pass);
        let number = pass.number();
        let step = held.value().read(now, number, part, out, room);
        let kind = read_kind(&step, part, out, room);
        leave::<Brand>(&self.turn, held, pass, kind);
        step
    }

    /// Asks the core to write to a part at a reading.
    pub(crate) fn ask_write<R: Wait>(
        &self,
        rt: &R,
        pass: &mut Pass<Core>,
        now: u64,
        room: &mut [u8],
        part: Part,
        content: Content<'_>,
    ) -> WriteStep
        requires now { now ≤ 2 ^ 62 }
        requires ready { MayCall self.now.turn self.now.fixed pass.old }
        requires room { length room.old ≡ self.now.fixed.geometry.block_size }
        requires part { IsPart self.now.fixed.geometry part }
        requires content { length (content_of content part) ≡ part.length }
        ensures turn { (reading : ℕ) × PassTurn pass.old pass.new now
            (write_entry (number pass.old) reading part (content_of content.entry part) room.new result) }
        ensures ready { MayCall self.now.turn self.now.fixed pass.new }
        ensures begins { WriteBegins (seen_by pass.new) (number pass.old) part.block room.new result }
    {
        let mut held = self.turn.enter(rt, pass);
        let number = pass.number();
        let step = write_core(held.value(), now, number, part, content, room);
        leave_write::<Brand>(&self.turn, held, pass, part, content, &step, room);
        step
    }

    /// Begins a flush at a reading.
    pub(crate) fn begin_flush<R: Wait>(&self, rt: &R, pass: &mut Pass<Core>, now: u64) -> Mark
        requires now { now ≤ 2 ^ 62 }
        requires ready { MayCall self.now.turn self.now.fixed pass.old }
        ensures turn { (reading : ℕ)
            × PassTurn pass.old pass.new now (flush_begin_entry (number pass.old) reading result) }
        ensures ready { MayCall self.now.turn self.now.fixed pass.new }
        ensures begun { HasBegun result (seen_by pass.new) }
    {
        let mut held = self.turn.enter(rt, pass);
        let number = pass.number();
        let mark = held.value().flush_begin(now, number);
        leave::<Brand>(&self.turn, held, pass, Kind::FlushBegin(mark));
        mark
    }

    /// Asks the core for a step of a flush at a reading.
    pub(crate) fn ask_flush<R: Wait>(
        &self,
        rt: &R,
        pass: &mut Pass<Core>,
        now: u64,
        room: &mut [u8],
        mark: Mark,
    ) -> FlushStep
        requires now { now ≤ 2 ^ 62 }
        requires ready { MayCall self.now.turn self.now.fixed pass.old }
        requires room { length room.old ≡ self.now.fixed.geometry.block_size }
        requires begun { HasBegun mark (seen_by pass.old) }
        ensures turn { (reading : ℕ)
            × PassTurn pass.old pass.new now (flush_step_entry (number pass.old) reading mark room.new result) }
        ensures ready { MayCall self.now.turn self.now.fixed pass.new }
        ensures begins { FlushBegins (seen_by pass.new) (number pass.old) room.new result }
    {
        let mut held = self.turn.enter(rt, pass);
        let number = pass.number();
        let step = held.value().flush_step(now, number, mark, room);
        let kind = flush_kind(&step, mark, room);
        leave::<Brand>(&self.turn, held, pass, kind);
        step
    }

    /// Gives the answer to a GET to the core at a reading, with its bytes in the buffer. They are hashed before the turn.
    pub(crate) fn end_get<R: Wait>(
        &self,
        rt: &R,
        pass: &mut Pass<Core>,
        now: u64,
        room: &[u8],
        job: GetJob,
        got: Result<Got, LinkFault>,
    ) -> GetDone
        requires now { now ≤ 2 ^ 62 }
        requires ready { MayCall self.now.turn self.now.fixed pass.old }
        requires job { IsOpenGet (seen_by pass.old) (number pass.old) job }
        requires unverified { job.verify ≡ None }
        requires asked { IsAsked got job.verify }
        requires room { length room.now ≡ self.now.fixed.geometry.block_size }
        ensures turn { (reading : ℕ) × PassTurn pass.old pass.new now
            (get_end_entry (number pass.old) reading job (shown_for got room.now) result) }
        ensures ready { MayCall self.now.turn self.now.fixed pass.new }
        ensures answer { result ≡ judged job.expect
            (answer_digest self.now.fixed.geometry.block_size job.verify (shown_for got room.now)) }
    {
        let verify = job.verify();
        let block = job.block();
        let answer = answer_of(got, room);
        let digest = job.digest_of(&answer);
        let mut held = self.turn.enter(rt, pass);
        let number = pass.number();
        let done = held.value().get_end(now, number, job, answer, digest);
        let taken = is_taken(done);
        let kind = Kind::GetEnd {
            block,
            answer,
            verify,
            taken,
        };
        leave::<Brand>(&self.turn, held, pass, kind);
        done
    }

    /// Tells the core at a reading how a PUT ended.
    pub(crate) fn end_put<R: Wait>(
        &self,
        rt: &R,
        pass: &mut Pass<Core>,
        now: u64,
        job: PutJob,
        sent: Result<(), LinkFault>,
        digest: Digest,
    )
        requires now { now ≤ 2 ^ 62 }
        requires ready { MayCall self.now.turn self.now.fixed pass.old }
        requires job { IsOpenPut (seen_by pass.old) (number pass.old) job }
        requires digest { IsPutDigest self.now.fixed.settings (seen_by pass.old) job.block digest }
        ensures turn { (reading : ℕ)
            × PassTurn pass.old pass.new now (ended_put (number pass.old) job.block reading sent) }
        ensures ready { MayCall self.now.turn self.now.fixed pass.new }
    {
        let block = job.block();
        let ok = sent.is_ok();
        let mut held = self.turn.enter(rt, pass);
        let number = pass.number();
        held.value().put_end(now, number, job, ok, digest);
        leave::<Brand>(&self.turn, held, pass, Kind::PutEnd(block, ok));
    }
}
