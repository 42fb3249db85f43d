//! What a worker does next, and the close of a disk.

ghost use Rattle.std.specs.Prelude.{◌≡◌, ◌≤◌, ◌^◌, length, true, Some};
ghost use Rattle.std.specs.FinMap.{get};
ghost use Rattle.sb_blocks.specs.Cached as cached;
ghost use Rattle.sb_blocks.specs.Cached.{passes, is_clean, stamp_in, use_in};

use crate::machine::Core;
use crate::step::JobStep;
use sb_window::PutWhen;

/// The last reading of a disk's clock, in milliseconds: a worker that has nothing to wait for rests until then.
const LAST_READING: u64 = 1 << 62;

/// A number above all readings, of what never comes.
const NEVER: u64 = u64::MAX;

/// When something may be done with a block.
pub(crate) enum Due {
    /// With this block, at once.
    Now(u32),
    /// Not before this reading.
    From(u64),
}

impl Core {
    ghost use Rattle.sb_core.specs.Cores.{
      geometry_of,
      window_of,
      reading_of,
      reading_at,
      closed_of,
      last_mark_of,
      Adds,
      KeepsSignals,
      LosesBlock,
    };
    ghost use Rattle.sb_core.specs.Standing.{AddsByMark};
    ghost use Rattle.sb_core.specs.Leads.{IsIdle, KeepsOpen};
    ghost use Rattle.sb_core.specs.Requests.{SameBase};
    ghost use Rattle.sb_core.specs.Jobs.{closing_entry, job_entry, AnswersJob, CopiesJob, JobOpens};
    ghost use Rattle.sb_core.specs.JobSearches.{given_in, due_from, put_from, drop_from, PutIsDue, DropIsDue};

    /// Closes the disk: a worker has nothing more to do from then on.
    pub fn close(&mut self, now: u64, pass: u64)
        requires now { now ≤ 2 ^ 62 }
        ensures represents { Adds self.old self.new (closing_entry pass (reading_at now self.old)) }
        ensures closed { closed_of self.new ≡ true }
        ensures last_mark { last_mark_of self.new ≡ last_mark_of self.old }
        ensures idle { IsIdle self.old → IsIdle self.new }
        ensures open { KeepsOpen self.old self.new }
        ensures window { window_of self.new ≡ window_of self.old }
        ensures base { SameBase self.old self.new }
        ensures reading { reading_of self.new ≡ reading_at now self.old }
    {
        let _place = self.tick(now);
        self.closed = true;
    }

    /// What a worker does next: it puts the first dirty block that is due, drops one that is unused, or rests until one
    /// of these can come if nothing else happens. A block is due where it is dirty for `write_delay`, a flush that has
    /// begun waits for it, or as many blocks are dirty as may be. `out` is one block long, and has the body where the
    /// answer is a PUT.
    pub fn next_job(&mut self, now: u64, pass: u64, out: &mut [u8]) -> JobStep
        requires now { now ≤ 2 ^ 62 }
        requires out { length out.old ≡ (geometry_of self.old).block_size }
        ensures represents { AddsByMark self.old self.new (job_entry pass (reading_at now self.old) out.new result) }
        ensures answer { AnswersJob self.old (reading_at now self.old) result }
        ensures copies { CopiesJob self.old out.new result }
        ensures opens { JobOpens self.new pass result }
        ensures open { KeepsOpen self.old self.new }
        ensures base { SameBase self.old self.new }
        ensures reading { reading_of self.new ≡ reading_at now self.old }
        ensures signals { KeepsSignals self.old self.new }
    {
        let _place = self.tick(now);
        if self.closed {
            return JobStep::Closed;
        }
        match self.next_due() {
            Due::Now(block) => JobStep::Put(self.begin_put(pass, block, out)),
            Due::From(put) => match self.next_drop() {
                Due::Now(block) => {
                    self.drop_clean(block);
                    JobStep::Dropped(block)
                }
                Due::From(drop) => JobStep::Sleep(put.min(drop)),
            },
        }
    }

    /// The first dirty block that is due and may be put, or when one will be.
    fn next_due(&self) -> Due
        ensures { PutIsDue self.now.window self.now.settings self.now.last_mark self.now.blocks.cached
            self.now.reading result }
    {
        let too_dirty = self.is_too_dirty();
        let mut after: Option<(u64, u32)> = None;
        let mut until = LAST_READING;
        'dirty: while let Some(next) = self.blocks.next_dirty(after) {
            let from = self.put_from(next.0, next.1, too_dirty);
            if from <= self.reading {
                return Due::Now(next.1);
            }
            until = until.min(from);
            after = Some(next);
        }
        Due::From(until)
    }

    /// The reading from which on a block that is dirty since then may be put by a worker, where too many are dirty or
    /// not; or the last number.
    fn put_from(&self, since: u64, block: u32, too_dirty: bool) -> u64
        ensures { result ≡ put_from self.now.window self.now.settings self.now.reading self.now.last_mark too_dirty
            block (stamp_in (get self.now.blocks.cached block)) (Some since) }
    {
        let due = self.due_from(since, block, too_dirty);
        match self.window.may_put(block, self.reading) {
            PutWhen::Now => due,
            PutWhen::Busy => NEVER,
            PutWhen::At(until) => due.max(until),
            PutWhen::Full(until) => due.max(until),
        }
    }

    /// The reading from which on it is due.
    fn due_from(&self, since: u64, block: u32, too_dirty: bool) -> u64
        ensures { result ≡ due_from self.now.settings self.now.last_mark too_dirty
            (stamp_in (get self.now.blocks.cached block)) since }
    {
        if self.is_given(block) || too_dirty {
            0
        } else {
            since.saturating_add(self.settings.write_delay as u64)
        }
    }

    /// Whether a flush that has begun waits for a block.
    fn is_given(&self, block: u32) -> bool
        ensures { result ≡ given_in self.now.last_mark (stamp_in (get self.now.blocks.cached block)) }
    {
        match (self.last_mark, self.blocks.stamp(block)) {
            (_, None) => false,
            (None, Some(_)) => false,
            (Some(mark), Some(stamp)) => stamp <= mark,
        }
    }

    /// The clean block that was used least, where it is unused for the clean time, or when it will be.
    fn next_drop(&self) -> Due
        ensures { DropIsDue self.now.settings self.now.blocks.cached self.now.reading result }
    {
        let Some(block) = self.blocks.victim() else {
            return Due::From(LAST_READING);
        };
        let from = self.drop_from(block);
        if from <= self.reading {
            Due::Now(block)
        } else {
            Due::From(from.min(LAST_READING))
        }
    }

    /// The reading from which on a block is unused, or the last number.
    fn drop_from(&self, block: u32) -> u64
        ensures { result ≡ drop_from self.now.settings (cached.reading_of (use_in (get self.now.blocks.cached block))) }
    {
        match self.blocks.used(block) {
            None => NEVER,
            Some(used) => {
                if self.settings.clean_time == 0 {
                    NEVER
                } else {
                    used.saturating_add(self.settings.clean_time as u64)
                }
            }
        }
    }

    /// A clean block leaves the cache.
    fn drop_clean(&mut self, block: u32)
        requires clean { passes is_clean (get self.old.blocks.cached block) ≡ true }
        ensures { LosesBlock self.old self.new block }
    {
        self.blocks.drop_block(block);
    }
}
