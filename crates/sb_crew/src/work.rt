//! The work behind the callers: blocks that are dirty are put, and clean ones that were long unused leave the cache.

ghost use Rattle.std.specs.Prelude.{ℕ, ◌≡◌, ◌∷◌, [], true, vec_len, Result};
ghost use Rattle.sb_history.specs.Contents.{is_zeros};
ghost use Rattle.sb_turn.specs.Passes.{number};
ghost use Rattle.sb_core.specs.Jobs.{closing_entry};
ghost use Rattle.sb_core.specs.Standing.{is_closed};
ghost use Rattle.sb_world.specs.declared.clock.Tick.TheVariants.{Taken};
ghost use Rattle.sb_crew.specs.Sharing.{seen_by, MayCall, PassRuns, PassStore, IsOpenPut, caller_of};
ghost use Rattle.sb_crew.specs.Runs.{IsPutOf};
ghost use Rattle.sb_crew.specs.SharedDisks.{fixed_of_disk, MayUse};
ghost use Rattle.sb_crew.specs.Working.{WorkerStopped};
ghost use Rattle.sb_crew.specs.declared.calls.FlushFault.{FlushFault};

use crate::desk::Desk;
use crate::disk::Disk;
use sb_core::{Core, JobStep, PutJob, put_digest};
use sb_turn::Pass;
use sb_world::{Clock, Gate, Link};
use std::sync::Wait;
use std::time::Duration;
use std::{thread, time};

/// How long a worker rests after a fault, in milliseconds, whatever rings.
const REST: u64 = 1_000;

/// How long a worker sleeps at most, in milliseconds, so that one that isn't woken looks again.
const NAP: u64 = 60_000;

/// How the work ends.
#[derive(Drop, Clone, Copy, PartialEq, Eq, Debug)]
pub enum WorkEnd {
    /// The disk was closed.
    Closed,
}

impl Disk {
    /// Closes the disk: its workers end.
    pub fn close<R: Wait, C: Clock>(&self, rt: &R, pass: &mut Pass<Core>, clock: &mut C)
        requires ready { MayUse self.now pass.old }
        ensures ready { MayUse self.now pass.new }
        ensures did { (reading now : ℕ) × PassRuns (fixed_of_disk self.now) pass.old pass.new (C.ticks clock.old)
            (C.ticks clock.new) (closing_entry (number pass.old) reading ∷ []) (Taken now ∷ []) }
        ensures closed { is_closed (seen_by pass.new) ≡ true }
    {
        let now = clock.now();
        self.end_work(rt, pass, now);
        self.bell.ring(rt);
    }

    /// Puts blocks as they become due, and drops those that were long unused, until the disk is closed. The gate stands
    /// round each store call, which has its number among those of this worker, from 1.
    pub fn work<R: Wait + time::Clock, L: Link, C: Clock, G: Gate>(
        &self,
        rt: &R,
        pass: &mut Pass<Core>,
        desk: &mut Desk<L, C>,
        gate: &G,
        worker: u32,
    ) -> WorkEnd
        requires ready { MayUse self.now pass.old }
        requires room { vec_len desk.old.room ≡ (fixed_of_disk self.now).geometry.block_size }
        ensures did { let scene = caller_of L.Link C.Clock in
            WorkerStopped self.now (scene pass.old desk.old) (scene pass.new desk.new) }
        ensures ready { MayUse self.now pass.new }
        ensures room { vec_len desk.new.room ≡ vec_len desk.old.room }
    {
        let mut call: u64 = 0;
        'turns: for _ in rt.forever() {
            let mark = self.bell.mark();
            let now = desk.clock.now();
            match self.ask_job(rt, pass, now, desk.room.as_mut_slice()) {
                JobStep::Closed => return WorkEnd::Closed,
                JobStep::Put(job) => {
                    call = call.saturating_add(1);
                    self.put_off(rt, pass, desk, job, gate, worker, call);
                }
                JobStep::Dropped(_) => {}
                JobStep::Sleep(until) => {
                    self.bell.wait(rt, mark, until.saturating_sub(now).min(NAP));
                }
            }
        }
        unreachable!()
    }

    /// Puts a block, and rests after a fault.
    fn put_off<R: Wait + time::Clock, L: Link, C: Clock, G: Gate>(
        &self,
        rt: &R,
        pass: &mut Pass<Core>,
        desk: &mut Desk<L, C>,
        job: PutJob,
        gate: &G,
        worker: u32,
        call: u64,
    )
        requires ready { MayCall self.now.turn self.now.fixed pass.old }
        requires job { IsOpenPut (seen_by pass.old) (number pass.old) job }
        requires zeros { job.zeros ≡ is_zeros desk.old.room.items }
        requires content { IsPutOf job.block desk.old.room.items (seen_by pass.old) }
        ensures did { let scene = caller_of L.Link C.Clock in (ended : Result (Unit {0}) FlushFault)
            × PassStore self.now.names self.now.fixed (scene pass.old desk.old) (scene pass.new desk.new) job.block
            desk.old.room.items ended }
        ensures ready { MayCall self.now.turn self.now.fixed pass.new }
        ensures room { desk.new.room ≡ desk.old.room }
    {
        let room = desk.room.as_slice();
        gate.before(worker, call);
        let sent = self
            .names
            .send(&mut desk.link, room, job.block(), job.zeros());
        gate.after(worker, call);
        let digest = put_digest(&self.fixed.settings, desk.room.as_slice());
        match self.end_store(rt, pass, &mut desk.clock, job, sent, digest) {
            Ok(()) => {}
            Err(_) => thread::sleep(rt, Duration::from_millis(REST)),
        }
    }
}
