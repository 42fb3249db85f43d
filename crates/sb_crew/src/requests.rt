//! The requests to the store that a core asks for.

ghost use Rattle.std.specs.Prelude.{◌≡◌, ◌≤◌, ◌<◌, ◌^◌, ◌∷◌, [], length, vec_len, IfOk, IsOk};
ghost use Rattle.sb_base.specs.Lines.{shown_of};
ghost use Rattle.sb_core.specs.Judging.{judged, is_taken};
ghost use Rattle.sb_history.specs.ClockTrace.{is_late};
ghost use Rattle.sb_crew.specs.Answers.{shown_for, fault_for};

use crate::alone::{Alone, PASS};
use crate::calls::{CallFault, FlushFault};
use crate::desk::Desk;
use crate::names::Names;
use crate::pauses::pause;
use sb_base::{Answer, Expect, Kind};
use sb_core::{GetDone, GetJob, PutJob, put_digest};
use sb_names::MAX_NAME;
use sb_world::{Clock, Got, Link, LinkFault, Tape};

/// The pause before a stale GET is asked anew, in milliseconds.
pub(crate) const STALE_PAUSE: u64 = 100;

/// What a GET showed, with the bytes in its buffer.
pub(crate) fn answer_of<'a>(got: Result<Got, LinkFault>, room: &'a [u8]) -> Answer<'a>
    ensures { shown_of result ≡ shown_for got room.now }
{
    match got {
        Ok(Got::Absent) => Answer::Absent,
        Ok(Got::Bytes) => Answer::Bytes(room),
        Ok(Got::Same) => Answer::Same,
        Err(_) => Answer::Failed,
    }
}

/// Whether an answer was taken.
pub(crate) fn is_taken(done: GetDone) -> bool
    ensures { result ≡ is_taken done }
{
    matches!(done, GetDone::Taken)
}

/// The fault of a call whose request failed so.
pub(crate) fn fault_for(fault: LinkFault) -> FlushFault
    ensures { result ≡ fault_for fault }
{
    match fault {
        LinkFault::Failed { status } => FlushFault::StoreFault { status },
        LinkFault::Memory => FlushFault::Memory,
    }
}

/// Whether a GET that began at a reading and has to show a digest began at least so many milliseconds after the end of
/// the put that left it.
pub(crate) fn is_late(expect: Option<Expect>, begun: u64, limit: u32) -> bool
    ensures { result ≡ is_late limit begun expect }
{
    match expect {
        Some(expect) => begun as u128 >= expect.since as u128 + limit as u128,
        None => true,
    }
}

impl<T: Tape> Alone<T> {
    ghost use Rattle.std.specs.Prelude.{None};
    ghost use Rattle.sb_world.specs.Calls.{IsAsked};
    ghost use Rattle.sb_history.specs.Contents.{is_zeros};
    ghost use Rattle.sb_history.specs.Window.{answer_digest};
    ghost use Rattle.sb_core.specs.Cores.{geometry_of, settings_of, reading_of};
    ghost use Rattle.sb_core.specs.Leads.{IsIdleBut, IsCloser, LeavesNothing, steps_left};
    ghost use Rattle.sb_core.specs.Steps.{HasGet, HasPut, get_end_entry};
    ghost use Rattle.sb_crew.specs.Ready.{IsReady};
    ghost use Rattle.sb_crew.specs.Disks.{disk_of, scene_of};
    ghost use Rattle.sb_crew.specs.Runs.{Event, EventWhere, IsPutOf};
    ghost use Rattle.sb_crew.specs.Turns.{FetchDoes, StoreDoes, GoesOn, IsLatest, put_ended};

    /// Makes a GET, gives its answer to the core, and takes the next reading: behind a pause where the answer is stale,
    /// so that it is asked anew.
    pub(crate) fn fetch<L: Link, C: Clock>(
        &mut self,
        desk: &mut Desk<L, C>,
        job: GetJob,
    ) -> Result<u64, CallFault>
        requires job { HasGet self.old.core 1 job }
        requires idle { IsIdleBut job.block self.old.core }
        requires unverified { job.verify ≡ None }
        requires current { self.old.reading ≡ reading_of self.old.core }
        requires room { vec_len desk.old.room ≡ (geometry_of self.old.core).block_size }
        ensures did { let scene = scene_of T.Tape L.Link C.Clock in
            FetchDoes (scene self.old desk.old) (scene self.new desk.new) job result }
        ensures ready { IsReady self.new.core self.new.reading (vec_len desk.new.room) }
        ensures leads { IfOk result (GoesOn self.old.core self.new.core job.block (C.latest desk.old.clock)) }
        ensures next { IfOk result (IsLatest (C.latest desk.new.clock)) }
    {
        let link = &mut desk.link;
        let clock = &mut desk.clock;
        let room = desk.room.as_mut_slice();
        let block = job.block();
        let verify = job.verify();
        let expect = job.expect();
        let begun = job.begun();
        let mut placed = [0; MAX_NAME];
        let name = self.names.place(job.block(), &mut placed);
        let got = link.get(name, verify, room);
        let now = clock.now();
        match self.end_fetch(now, room, job, got) {
            GetDone::Taken => Ok(clock.now()),
            GetDone::Failed => match got {
                Ok(_) => unreachable!(),
                Err(fault) => Err(CallFault::from(fault_for(fault))),
            },
            GetDone::Stale { expected, shown } => {
                if is_late(expect, begun, self.core.settings().stale_limit) {
                    Err(CallFault::StaleRead {
                        block,
                        expected,
                        shown,
                        begun,
                    })
                } else {
                    match pause(clock, now, STALE_PAUSE) {
                        Ok(next) => Ok(next),
                        Err(fault) => Err(CallFault::from(fault)),
                    }
                }
            }
        }
    }

    /// Gives the answer to a GET to the core at a reading, with its bytes in the buffer.
    fn end_fetch(
        &mut self,
        now: u64,
        room: &[u8],
        job: GetJob,
        got: Result<Got, LinkFault>,
    ) -> GetDone
        requires now { now ≤ 2 ^ 62 }
        requires job { HasGet self.old.core 1 job }
        requires idle { IsIdleBut job.block self.old.core }
        requires unverified { job.verify ≡ None }
        requires asked { IsAsked got job.verify }
        requires current { self.old.reading ≡ reading_of self.old.core }
        requires room { length room.now ≡ (geometry_of self.old.core).block_size }
        ensures event { Event (disk_of T.Tape self.old) (disk_of T.Tape self.new) now
            (get_end_entry 1 self.new.reading job (shown_for got room.now) result) }
        ensures answer { result ≡ judged job.expect
            (answer_digest (geometry_of self.old.core).block_size job.verify (shown_for got room.now)) }
        ensures ready { IsReady self.new.core self.new.reading (length room.now) }
        ensures closer { result ≡ GetDone.Taken
            → steps_left self.new.core job.block < steps_left self.old.core job.block }
        ensures nothing { LeavesNothing self.old.core self.new.core job.block result }
    {
        let verify = job.verify();
        let block = job.block();
        let answer = answer_of(got, room);
        let digest = job.digest_of(&answer);
        let done = self.core.get_end(now, PASS, job, answer, digest);
        let taken = is_taken(done);
        self.note(
            now,
            Kind::GetEnd {
                block,
                answer,
                verify,
                taken,
            },
        );
        done
    }

    /// Puts the block in the buffer, a delete where it is zeros, tells the core how that ended, and takes the next
    /// reading.
    pub(crate) fn store<L: Link, C: Clock>(
        &mut self,
        desk: &mut Desk<L, C>,
        job: PutJob,
    ) -> Result<u64, FlushFault>
        requires job { HasPut self.old.core 1 job }
        requires idle { IsIdleBut job.block self.old.core }
        requires zeros { job.zeros ≡ is_zeros desk.old.room.items }
        requires current { self.old.reading ≡ reading_of self.old.core }
        requires room { vec_len desk.old.room ≡ (geometry_of self.old.core).block_size }
        ensures did { let scene = scene_of T.Tape L.Link C.Clock in
            StoreDoes (scene self.old desk.old) (scene self.new desk.new) job.block desk.old.room.items result }
        ensures ready { IsReady self.new.core self.new.reading (vec_len desk.new.room) }
        ensures closer { IfOk result (λ next. IsCloser self.old.core self.new.core) }
        ensures next { IfOk result (IsLatest (C.latest desk.new.clock)) }
    {
        let link = &mut desk.link;
        let clock = &mut desk.clock;
        let room = desk.room.as_slice();
        let block = job.block();
        let sent = self.names.send(link, room, block, job.zeros());
        let now = clock.now();
        self.end_store(now, room, job, sent);
        match sent {
            Ok(()) => Ok(clock.now()),
            Err(fault) => Err(fault_for(fault)),
        }
    }

    /// Tells the core at a reading how a put of the buffer ended.
    fn end_store(&mut self, now: u64, room: &[u8], job: PutJob, sent: Result<(), LinkFault>)
        requires now { now ≤ 2 ^ 62 }
        requires job { HasPut self.old.core 1 job }
        requires idle { IsIdleBut job.block self.old.core }
        requires current { self.old.reading ≡ reading_of self.old.core }
        requires room { length room.now ≡ (geometry_of self.old.core).block_size }
        ensures event { EventWhere (IsPutOf job.block room.now) (disk_of T.Tape self.old) (disk_of T.Tape self.new) now
            (put_ended job.block self.new.reading sent) }
        ensures ready { IsReady self.new.core self.new.reading (length room.now) }
        ensures closer { IsOk sent → IsCloser self.old.core self.new.core }
    {
        let block = job.block();
        let settings = self.core.settings();
        let digest = put_digest(&settings, room);
        self.core.put_end(now, PASS, job, sent.is_ok(), digest);
        self.note(now, Kind::PutEnd(block, sent.is_ok()));
    }
}

impl Names {
    ghost use Rattle.std.specs.Prelude.{Some};
    ghost use Rattle.sb_names.specs.declared.names.TheConstants.{MAX_PREFIX};
    ghost use Rattle.sb_world.specs.Calls.{fault_of, HasFailed};
    ghost use Rattle.sb_world.specs.Told.{Gains, CountsFaults};
    ghost use Rattle.sb_history.specs.Contents.{is_zeros};
    ghost use Rattle.sb_history.specs.Requests.{meta_of, put_call};
    ghost use Rattle.sb_crew.specs.Names.{name_of};

    /// Asks the store to keep a block.
    pub(crate) fn send<L: Link>(
        &self,
        link: &mut L,
        content: &[u8],
        block: u32,
        zeros: bool,
    ) -> Result<(), LinkFault>
        requires prefix { length self.now.prefix ≤ MAX_PREFIX }
        requires zeros { zeros ≡ is_zeros content.now }
        ensures told { Gains (L.log link.old) (L.log link.new) (put_call (name_of self.now block)
            (meta_of (Some self.now.meta) block) content.now (fault_of result) ∷ []) }
        ensures cause { CountsFaults (L.faults link.old) (L.faults link.new) (HasFailed result) }
    {
        let mut placed = [0; MAX_NAME];
        let name = self.place(block, &mut placed);
        if zeros {
            link.delete(name)
        } else {
            link.put(name, content, self.carried(block))
        }
    }
}
