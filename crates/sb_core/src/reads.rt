//! Reads.

ghost use Rattle.std.specs.Prelude.{◌≡◌, ◌≢◌, ◌<◌, ◌≤◌, ◌^◌, length, is_none, is_some, true, None, Some};
ghost use Rattle.std.specs.FinMap.{get};
ghost use Rattle.sb_base.specs.Lines.{shown_of};
ghost use Rattle.sb_history.specs.Cache.{answer_content};
ghost use Rattle.sb_history.specs.Window.{answer_digest};
ghost use Rattle.sb_blocks.specs.Cached.{passes, is_held, get_in};
ghost use Rattle.sb_blocks.specs.Moves.{ShowsContent};
ghost use Rattle.sb_core.specs.Judging.{judged, digest_wanted, IsStaleByWindow};
ghost use Rattle.sb_base.specs.Ranges.{IsPart};

use crate::bytes::fill_zeros;
use crate::job::GetJob;
use crate::machine::Core;
use crate::marks;
use crate::room::Room;
use crate::step::{GetDone, ReadStep};
use sb_base::{Answer, Digest, Expect, Part, Why};
use sb_blocks::Look;

impl Core {
    ghost use Rattle.sb_core.specs.Cores.{geometry_of, settings_of, window_of, reading_of, reading_at, Adds, KeepsSignals, ReadsHeld, TakesAnswer};
    ghost use Rattle.sb_core.specs.Leads.{IsIdle, IsIdleBut, KeepsOpen, KeepsOthers, ReadLeads, LeavesNothing, steps_left};
    ghost use Rattle.sb_core.specs.Requests.{SameBase, ReadOpens};
    ghost use Rattle.sb_core.specs.Steps.{AnswersRead, CopiesRead, read_entry, HasGet, ShownFits, get_end_answer, get_end_entry};

    /// Reads a part of a block into `out`, which is as long as the part. `room` is one block long, and has the body
    /// where the answer is a PUT. `now` is a reading in milliseconds.
    pub fn read(
        &mut self,
        now: u64,
        pass: u64,
        part: Part,
        out: &mut [u8],
        room: &mut [u8],
    ) -> ReadStep
        requires now { now ≤ 2 ^ 62 }
        requires part { IsPart (geometry_of self.old) part }
        requires out { length out.old ≡ part.length }
        requires room { length room.old ≡ (geometry_of self.old).block_size }
        ensures represents { Adds self.old self.new
            (read_entry pass (reading_at now self.old) part out.new room.new result) }
        ensures answer { AnswersRead self.old (reading_at now self.old) part.block result }
        ensures copies { CopiesRead self.old part out.new room.new result }
        ensures opens { ReadOpens self.new pass result }
        ensures leads { ReadLeads self.old self.new pass part.block room.new result }
        ensures open { KeepsOpen self.old self.new }
        ensures base { SameBase self.old self.new }
        ensures reading { reading_of self.new ≡ reading_at now self.old }
        ensures signals { KeepsSignals self.old self.new }
    {
        let place = self.tick(now);
        if self.holds(part.block) {
            self.read_held(place, part, out);
            return ReadStep::Done;
        }
        if !self.is_missing(part.block) {
            return ReadStep::Wait(Why::Busy(part.block));
        }
        if self.marked(part.block) {
            fill_zeros(out);
            return ReadStep::Done;
        }
        if self.blocks.free() != 0 {
            return ReadStep::Get(self.begin_get(pass, part.block));
        }
        match self.make_room(pass, room) {
            Room::Dropped(block) => ReadStep::Dropped(block),
            Room::Put(job) => ReadStep::Put(job),
            Room::Wait(why) => ReadStep::Wait(why),
        }
    }

    /// Gives the answer to a GET. Bytes are one block long. The block is held where the answer has the digest that the
    /// GET has to show, if there is one. No hash is computed here: `digest` is that of `GetJob::digest_of`.
    pub fn get_end(
        &mut self,
        now: u64,
        pass: u64,
        job: GetJob,
        answer: Answer<'_>,
        digest: Option<Digest>,
    ) -> GetDone
        requires now { now ≤ 2 ^ 62 }
        requires job { HasGet self.old pass job }
        requires answer { ShownFits (geometry_of self.old).block_size job.verify (shown_of answer) }
        requires digest { digest ≡ digest_wanted job.expect (shown_of answer) }
        ensures represents { Adds self.old self.new
            (get_end_entry pass (reading_at now self.old) job (shown_of answer.entry) result) }
        ensures answer { result ≡ get_end_answer (geometry_of self.old).block_size job (shown_of answer.entry) }
        ensures stale { IsStaleByWindow (settings_of self.old) result }
        ensures idle { IsIdleBut job.block self.old → IsIdle self.new }
        ensures nothing { LeavesNothing self.old self.new job.block result }
        ensures closer { result ≡ GetDone.Taken → steps_left self.new job.block < steps_left self.old job.block }
        ensures others { KeepsOthers job.block self.old self.new }
        ensures window { window_of self.new ≡ window_of self.old }
        ensures base { SameBase self.old self.new }
        ensures reading { reading_of self.new ≡ reading_at now self.old }
        ensures signals { KeepsSignals self.old self.new }
    {
        let GetJob {
            block,
            expect,
            verify: _,
            begun: _,
        } = job;
        let place = self.tick(now);
        let outcome = self.judge(expect, &answer, digest);
        self.take(place, block, answer, outcome.is_taken());
        outcome
    }

    /// Holds the content that an answer shows, if it is taken, and else gives the entry of the block up.
    fn take(&mut self, place: u64, block: u32, answer: Answer<'_>, taken: bool)
        requires open { is_some (get_in (get self.old.blocks.cached block)) ≡ true }
        requires content { taken ≡ true → ShowsContent self.old.geometry.block_size (shown_of answer) }
        ensures { TakesAnswer self.old self.new place block (shown_of answer.entry) taken }
    {
        let size = self.geometry.block_size;
        marks::get_ends(&mut self.marks, block, size, &answer, taken);
        self.blocks
            .end_read(self.reading, place, block, answer, taken);
    }

    /// What becomes of the answer to a GET that has to show this digest, where its bytes have that one.
    fn judge(&self, expect: Option<Expect>, answer: &Answer<'_>, digest: Option<Digest>) -> GetDone
        requires on { is_some expect ≡ true → self.now.settings.md5_size ≢ 0 }
        requires digest { digest ≡ digest_wanted expect (shown_of answer.now) }
        ensures { result ≡ judged expect (answer_digest self.now.geometry.block_size None (shown_of answer.now)) }
    {
        match answer {
            Answer::Absent => compare(expect, self.absent),
            Answer::Bytes(_) => match digest {
                Some(shown) => compare(expect, shown),
                None => GetDone::Taken,
            },
            Answer::Same | Answer::Failed => GetDone::Failed,
        }
    }

    /// Reads a part of a block that is held.
    fn read_held(&mut self, place: u64, part: Part, out: &mut [u8])
        requires part { IsPart self.old.geometry part }
        requires held { passes is_held (get self.old.blocks.cached part.block) ≡ true }
        requires out { length out.old ≡ part.length }
        ensures { ReadsHeld self.old self.new place part out.new }
    {
        self.blocks.copy(part, out);
        self.blocks.touch(self.reading, place, part.block);
    }

    /// Whether the content of a block is held.
    pub(crate) fn holds(&self, block: u32) -> bool
        ensures { result ≡ passes is_held (get self.now.blocks.cached block) }
    {
        match self.blocks.look(block) {
            Look::Missing => false,
            Look::Reading => false,
            Look::Clean => true,
            Look::Dirty => true,
            Look::Writing => true,
            Look::Writing2 => true,
        }
    }

    /// Whether a block has no entry.
    pub(crate) fn is_missing(&self, block: u32) -> bool
        ensures { result ≡ is_none (get self.now.blocks.cached block) }
    {
        match self.blocks.look(block) {
            Look::Missing => true,
            Look::Reading => false,
            Look::Clean => false,
            Look::Dirty => false,
            Look::Writing => false,
            Look::Writing2 => false,
        }
    }
}

/// What becomes of an answer with this digest.
fn compare(expect: Option<Expect>, shown: Digest) -> GetDone
    ensures { result ≡ judged expect (Some shown) }
{
    let Some(expect) = expect else {
        return GetDone::Taken;
    };
    let expected = expect.digest;
    if shown == expected {
        GetDone::Taken
    } else {
        GetDone::Stale { expected, shown }
    }
}
