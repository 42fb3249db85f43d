//! The requests to the store that the core asks one of many callers for. Each is made outside a turn, and ended in one.

ghost use Rattle.std.specs.Prelude.{ℕ, ◌≡◌, ◌∷◌, [], vec_len, None};
ghost use Rattle.sb_world.specs.Told.{Gains};
ghost use Rattle.sb_world.specs.declared.clock.Tick.TheVariants.{Taken};
ghost use Rattle.sb_history.specs.Contents.{is_zeros};
ghost use Rattle.sb_turn.specs.Passes.{number};
ghost use Rattle.sb_core.specs.PutWindow.{IsPutDigest};
ghost use Rattle.sb_crew.specs.Answers.{put_result};
ghost use Rattle.sb_crew.specs.Runs.{IsPutOf};
ghost use Rattle.sb_crew.specs.Sharing.{
  seen_by,
  MayCall,
  PassTurn,
  PassFetch,
  PassStore,
  IsOpenGet,
  IsOpenPut,
  caller_of,
  ended_put,
};

use crate::calls::{CallFault, FlushFault};
use crate::desk::Desk;
use crate::disk::Disk;
use crate::requests::{STALE_PAUSE, fault_for, is_late};
use sb_base::Digest;
use sb_core::{Core, GetDone, GetJob, PutJob, put_digest};
use sb_names::MAX_NAME;
use sb_turn::Pass;
use sb_world::{Clock, Link, LinkFault};
use std::sync::Wait;

impl Disk {
    /// Makes a GET, and gives its answer to the core. A stale answer is asked for anew behind a pause.
    pub(crate) fn fetch<R: Wait, L: Link, C: Clock>(
        &self,
        rt: &R,
        pass: &mut Pass<Core>,
        desk: &mut Desk<L, C>,
        job: GetJob,
    ) -> Result<(), CallFault>
        requires ready { MayCall self.now.turn self.now.fixed pass.old }
        requires job { IsOpenGet (seen_by pass.old) (number pass.old) job }
        requires unverified { job.verify ≡ None }
        requires room { vec_len desk.old.room ≡ self.now.fixed.geometry.block_size }
        ensures did { let scene = caller_of L.Link C.Clock in PassFetch self.now.names self.now.fixed
            (scene pass.old desk.old) (scene pass.new desk.new) job result }
        ensures ready { MayCall self.now.turn self.now.fixed pass.new }
        ensures room { vec_len desk.new.room ≡ vec_len desk.old.room }
    {
        let block = job.block();
        let verify = job.verify();
        let expect = job.expect();
        let begun = job.begun();
        let mut placed = [0; MAX_NAME];
        let name = self.names.place(job.block(), &mut placed);
        let room = desk.room.as_mut_slice();
        let got = desk.link.get(name, verify, room);
        let now = desk.clock.now();
        let done = self.end_get(rt, pass, now, room, job, got);
        self.bell.ring(rt);
        match done {
            GetDone::Taken => Ok(()),
            GetDone::Failed => match got {
                Ok(_) => unreachable!(),
                Err(fault) => Err(CallFault::from(fault_for(fault))),
            },
            GetDone::Stale { expected, shown } => {
                if is_late(expect, begun, self.fixed.settings.stale_limit) {
                    Err(CallFault::StaleRead {
                        block,
                        expected,
                        shown,
                        begun,
                    })
                } else {
                    desk.clock.pause(STALE_PAUSE);
                    Ok(())
                }
            }
        }
    }

    /// Puts the block in the buffer, a delete where it is zeros, and tells the core how that ended.
    pub(crate) fn store<R: Wait, L: Link, C: Clock>(
        &self,
        rt: &R,
        pass: &mut Pass<Core>,
        desk: &mut Desk<L, C>,
        job: PutJob,
    ) -> Result<(), FlushFault>
        requires ready { MayCall self.now.turn self.now.fixed pass.old }
        requires job { IsOpenPut (seen_by pass.old) (number pass.old) job }
        requires zeros { job.zeros ≡ is_zeros desk.old.room.items }
        requires content { IsPutOf job.block desk.old.room.items (seen_by pass.old) }
        ensures did { let scene = caller_of L.Link C.Clock in PassStore self.now.names self.now.fixed
            (scene pass.old desk.old) (scene pass.new desk.new) job.block desk.old.room.items result }
        ensures ready { MayCall self.now.turn self.now.fixed pass.new }
        ensures room { desk.new.room ≡ desk.old.room }
    {
        let sent = self.names.send(
            &mut desk.link,
            desk.room.as_slice(),
            job.block(),
            job.zeros(),
        );
        let digest = put_digest(&self.fixed.settings, desk.room.as_slice());
        self.end_store(rt, pass, &mut desk.clock, job, sent, digest)
    }

    /// Tells the core how a PUT ended, at the caller's next reading. Its content was hashed before.
    pub(crate) fn end_store<R: Wait, C: Clock>(
        &self,
        rt: &R,
        pass: &mut Pass<Core>,
        clock: &mut C,
        job: PutJob,
        sent: Result<(), LinkFault>,
        digest: Digest,
    ) -> Result<(), FlushFault>
        requires ready { MayCall self.now.turn self.now.fixed pass.old }
        requires job { IsOpenPut (seen_by pass.old) (number pass.old) job }
        requires digest { IsPutDigest self.now.fixed.settings (seen_by pass.old) job.block digest }
        ensures turn { (later reading : ℕ)
            × PassTurn pass.old pass.new later (ended_put (number pass.old) job.block reading sent)
            × Gains (C.ticks clock.old) (C.ticks clock.new) (Taken later ∷ []) }
        ensures ready { MayCall self.now.turn self.now.fixed pass.new }
        ensures answer { result ≡ put_result sent }
    {
        let now = clock.now();
        self.end_put(rt, pass, now, job, sent, digest);
        self.bell.ring(rt);
        match sent {
            Ok(()) => Ok(()),
            Err(fault) => Err(fault_for(fault)),
        }
    }
}
