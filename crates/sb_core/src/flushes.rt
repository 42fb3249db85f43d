//! Flushes.

ghost use Rattle.std.specs.Prelude.{◌≡◌, ◌≤◌, ◌^◌, length, Some};
ghost use Rattle.sb_core.specs.Rules.{Owes};

use crate::job::Mark;
use crate::machine::Core;
use crate::step::FlushStep;
use sb_base::Why;

impl Core {
    ghost use Rattle.sb_core.specs.Cores.{
      geometry_of,
      window_of,
      reading_of,
      reading_at,
      epoch_of,
      closed_of,
      last_mark_of,
      Adds,
      AddsAfterFlush,
      KeepsSignals,
    };
    ghost use Rattle.sb_core.specs.Leads.{IsIdle, KeepsOpen, FlushLeads};
    ghost use Rattle.sb_core.specs.Requests.{SameBase, FlushOpens};
    ghost use Rattle.sb_core.specs.Flushing.{
      AnswersFlush,
      CopiesFlush,
      flush_begin_entry,
      flush_step_entry,
      Rises,
    };

    /// Begins a flush. Its mark covers all writes so far; the last mark, 2^64 - 1, covers later ones too.
    pub fn flush_begin(&mut self, now: u64, pass: u64) -> Mark
        requires now { now ≤ 2 ^ 62 }
        ensures represents { Adds self.old self.new (flush_begin_entry pass (reading_at now self.old) result) }
        ensures mark { result ≡ epoch_of self.old }
        ensures idle { IsIdle self.old → IsIdle self.new }
        ensures open { KeepsOpen self.old self.new }
        ensures window { window_of self.new ≡ window_of self.old }
        ensures base { SameBase self.old self.new }
        ensures reading { reading_of self.new ≡ reading_at now self.old }
        ensures closed { closed_of self.new ≡ closed_of self.old }
        ensures last_mark { last_mark_of self.new ≡ Some result }
    {
        let _place = self.tick(now);
        self.next_mark()
    }

    /// Gives a mark.
    fn next_mark(&mut self) -> Mark
        ensures { Rises self.old self.new result }
    {
        let mark = self.epoch;
        self.epoch = mark.saturating_add(1);
        self.last_mark = Some(mark);
        mark
    }

    /// Makes a step of a flush that has begun with this mark. `out` is one block long, and has the body where the
    /// answer is a PUT.
    pub fn flush_step(&mut self, now: u64, pass: u64, mark: Mark, out: &mut [u8]) -> FlushStep
        requires now { now ≤ 2 ^ 62 }
        requires out { length out.old ≡ (geometry_of self.old).block_size }
        ensures represents { AddsAfterFlush mark self.old self.new
            (flush_step_entry pass (reading_at now self.old) mark out.new result) }
        ensures answer { AnswersFlush self.old (reading_at now self.old) mark result }
        ensures copies { CopiesFlush self.old out.new result }
        ensures opens { FlushOpens self.new pass result }
        ensures leads { FlushLeads self.old self.new pass mark out.new result }
        ensures open { KeepsOpen self.old self.new }
        ensures base { SameBase self.old self.new }
        ensures reading { reading_of self.new ≡ reading_at now self.old }
        ensures signals { KeepsSignals self.old self.new }
    {
        let _place = self.tick(now);
        match self.put_next(pass, Some(mark), out) {
            Ok(job) => FlushStep::Put(job),
            Err(Why::Busy(block)) => FlushStep::Wait(Why::Busy(block)),
            Err(Why::Spaced(until)) => FlushStep::Wait(Why::Spaced(until)),
            Err(Why::WindowFull(until)) => FlushStep::Wait(Why::WindowFull(until)),
            Err(Why::NoRoom) => match self.blocks.lowest_writing(mark) {
                Some(block) => FlushStep::Wait(Why::Busy(block)),
                None => {
                    if self.owes(mark) {
                        FlushStep::Wait(Why::NoRoom)
                    } else {
                        FlushStep::Done
                    }
                }
            },
        }
    }

    /// Whether a flush of this mark covers a dirty block.
    fn owes(&self, mark: u64) -> bool
        ensures { Owes mark self.now.blocks.cached result }
    {
        let mut after: Option<(u64, u32)> = None;
        'dirty: while let Some(next) = self.blocks.next_dirty(after) {
            if self.covers(Some(mark), next.1) {
                return true;
            }
            after = Some(next);
        }
        false
    }
}
