//! Which dirty block is put next, and the ends of PUTs.

ghost use Rattle.std.specs.Prelude.{◌≡◌, ◌≤◌, ◌^◌, Option, Some, None, is_some, true, false, length};
ghost use Rattle.std.specs.FinMap.{get};
ghost use Rattle.sb_window.specs.declared.window.PutWhen.TheVariants.{Now};
ghost use Rattle.sb_window.specs.Windows.{put_when, ended};
ghost use Rattle.sb_blocks.specs.Cached.{put_in, stamp_in, passes, is_dirty};
ghost use Rattle.sb_core.specs.PutWindow.{IsDigestOf};
ghost use Rattle.sb_core.specs.Rules.{is_covered, PutRule};
ghost use Rattle.sb_core.specs.Searches.{covers_in, sooner};

use crate::job::PutJob;
use crate::machine::{Core, digest_if};
use crate::marks;
use sb_base::{Digest, Settings, Why};
use sb_window::PutWhen;

impl Core {
    ghost use Rattle.sb_core.specs.Cores.{StartsPut, PutsNext, put_block, window_of, reading_of, reading_at, AddsAfterPut, KeepsSignals, EndsWrite};
    ghost use Rattle.sb_core.specs.Steps.{HasPut, put_end_entry};
    ghost use Rattle.sb_core.specs.Requests.{SameBase, PutOpens};
    ghost use Rattle.sb_core.specs.Leads.{IsIdle, IsIdleBut, IsCloser, IsDirty, KeepsOpen, KeepsOthers, PutLeads};

    /// Begins the next PUT, whose body is copied to `out`, or tells what is waited for.
    pub(crate) fn put_next(
        &mut self,
        pass: u64,
        mark: Option<u64>,
        out: &mut [u8],
    ) -> Result<PutJob, Why>
        requires out { length out.old ≡ self.old.geometry.block_size }
        ensures rule { PutRule self.old.window self.old.reading mark self.old.blocks.cached (put_block result) }
        ensures puts { PutsNext self.old self.new pass out.new result }
        ensures opens { PutOpens self.new pass result }
        ensures leads { PutLeads mark self.old self.new pass out.new result }
        ensures open { KeepsOpen self.old self.new }
        ensures signals { KeepsSignals self.old self.new }
    {
        match self.next_put(mark) {
            Ok(block) => Ok(self.begin_put(pass, block, out)),
            Err(why) => Err(why),
        }
    }

    /// Begins the PUT of a dirty block, whose body is copied to `out`.
    pub(crate) fn begin_put(&mut self, pass: u64, block: u32, out: &mut [u8]) -> PutJob
        requires dirty { passes is_dirty (get self.old.blocks.cached block) ≡ true }
        requires ready { put_when self.old.window block self.old.reading ≡ Now }
        requires out { length out.old ≡ self.old.geometry.block_size }
        ensures starts { StartsPut self.old self.new pass block out.new result }
        ensures opens { HasPut self.new pass result }
    {
        let zeros = self.blocks.begin_write(block, pass, out);
        marks::put_begins(&mut self.marks, block, zeros);
        self.window.begin_put(block, self.reading);
        PutJob { block, zeros }
    }

    /// Of the dirty blocks that a flush of this mark covers (all, without a mark) the first that may be put now; where
    /// none may, what is waited for.
    pub(crate) fn next_put(&self, mark: Option<u64>) -> Result<u32, Why>
        ensures { PutRule self.now.window self.now.reading mark self.now.blocks.cached result }
    {
        let mut after: Option<(u64, u32)> = None;
        let mut soonest: Option<(u64, Why)> = None;
        'dirty: while let Some(next) = self.blocks.next_dirty(after) {
            if self.covers(mark, next.1) {
                match self.window.may_put(next.1, self.reading) {
                    PutWhen::Now => return Ok(next.1),
                    PutWhen::Busy => {}
                    PutWhen::At(until) => soonest = sooner(soonest, until, Why::Spaced(until)),
                    PutWhen::Full(until) => soonest = sooner(
                        soonest,
                        until,
                        Why::WindowFull(until),
                    ),
                }
            }
            after = Some(next);
        }
        match soonest {
            Some((_, why)) => Err(why),
            None => Err(Why::NoRoom),
        }
    }

    /// Whether a flush of this mark covers a block that is dirty.
    pub(crate) fn covers(&self, mark: Option<u64>, block: u32) -> bool
        ensures { result ≡ covers_in mark (stamp_in (get self.now.blocks.cached block)) }
    {
        match (mark, self.blocks.stamp(block)) {
            (_, None) => false,
            (None, Some(_)) => true,
            (Some(mark), Some(stamp)) => stamp <= mark,
        }
    }

    /// Ends a PUT, ok or not. The clause speaks of histories in which `digest` is that of its content, where the window
    /// is on; no hash is computed here.
    pub fn put_end(&mut self, now: u64, pass: u64, job: PutJob, ok: bool, digest: Digest)
        requires now { now ≤ 2 ^ 62 }
        requires job { HasPut self.old pass job }
        ensures represents { AddsAfterPut digest job.block self.old self.new
            (put_end_entry pass (reading_at now self.old) job ok) }
        ensures idle { IsIdleBut job.block self.old → IsIdle self.new }
        ensures closer { ok ≡ true → IsCloser self.old self.new }
        ensures dirty { ok ≡ false → IsDirty self.new job.block }
        ensures others { KeepsOthers job.block self.old self.new }
        ensures window { window_of self.new ≡ ended (window_of self.old) job.block (reading_at now self.old) ok digest }
        ensures base { SameBase self.old self.new }
        ensures reading { reading_of self.new ≡ reading_at now self.old }
        ensures signals { KeepsSignals self.old self.new }
    {
        let PutJob { block, zeros } = job;
        let _place = self.tick(now);
        self.end_put(block, zeros, ok, digest);
    }

    /// The PUT of a block ends, of zeros or not.
    fn end_put(&mut self, block: u32, zeros: bool, ok: bool, digest: Digest)
        requires open { is_some (put_in (get self.old.blocks.cached block)) ≡ true }
        ensures { EndsWrite self.old self.new block zeros ok digest }
    {
        marks::put_ends(&mut self.marks, block, zeros, ok);
        self.blocks.end_write(block, self.reading, ok);
        self.window.end_put(block, self.reading, ok, digest);
    }
}

/// The MD5 that `put_end` needs, of the content that was put: where the window is on. It isn't computed elsewhere.
pub fn put_digest(settings: &Settings, content: &[u8]) -> Digest
    ensures { IsDigestOf settings.now content.now result }
{
    digest_if(settings.md5_size != 0, content)
}

/// What is waited for, with another wait that comes behind it in the order of the dirty blocks.
fn sooner(soonest: Option<(u64, Why)>, until: u64, why: Why) -> Option<(u64, Why)>
    ensures { result ≡ sooner soonest until why }
{
    match soonest {
        Some((least, first)) if least <= until => Some((least, first)),
        _ => Some((until, why)),
    }
}
