//! A link whose requests are tried again.

ghost use Rattle.std.specs.Prelude.{◌≡◌, ◌≢◌, ◌⊎◌, Ok, Some, [], ◌∷◌, IfSome, IfErr};
ghost use Rattle.sb_world.specs.Told.{Gains, CountsFaults};
ghost use Rattle.sb_world.specs.Calls.{get_reply, head_reply, list_reply, fault_of};
ghost use Rattle.sb_world.specs.Calls.{HasFailed, IsAsked};
ghost use Rattle.sb_world.specs.declared.link.Call.TheVariants as call;
ghost use Rattle.sb_retry.specs.Schedules.{Begins};
ghost use Rattle.sb_retry.specs.Transient.{
  get_fault,
  head_fault,
  is_transient,
  list_fault,
  may_pass,
  own_fault,
};
ghost use Rattle.sb_retry.specs.Attempts.{
  Decides,
  Tries,
  asked_of,
  clock_of,
  link_of,
  log_of,
  schedule_of,
};

use crate::schedule::Schedule;
use sb_base::Digest;
use sb_log::GhostLog;
use sb_world::{Clock, Got, HeadText, Link, LinkFault, Meta, Page};

/// A link each of whose requests is tried again, after the next pause, while it fails in a way that may pass and a pause
/// is left. A call answers what its last attempt answered, and is one call of the log; each attempt is one of the inner
/// link's. Its count of faults is the inner link's.
#[derive(Drop)]
pub struct Retry<L, C> {
    link: L,
    clock: C,
    /// All pauses of a request.
    schedule: Schedule,
    log: GhostLog,
}

impl<L, C> Retry<L, C> {
    /// Tries the requests of a link again, after pauses of a clock in milliseconds: the first, doubled each time, the
    /// last one cut so that the sum of all is the total.
    pub fn new(link: L, clock: C, first: u32, total: u32) -> Retry<L, C>
        requires { (first ≢ 0) ⊎ (total ≡ 0) }
        ensures pauses { Begins first total (schedule_of result) }
        ensures given { (link_of result ≡ link) × (clock_of result ≡ clock) }
        ensures log { log_of result ≡ [] }
    {
        Retry {
            link,
            clock,
            schedule: Schedule::new(first, total),
            log: GhostLog::new(),
        }
    }

    /// The link.
    pub fn link(&self) -> &L
        ensures { result.now ≡ link_of self.now }
    {
        &self.link
    }

    /// The clock.
    pub fn clock(&self) -> &C
        ensures { result.now ≡ clock_of self.now }
    {
        &self.clock
    }
}

impl<L, C: Clock> Retry<L, C> {
    /// Answers whether another attempt follows this answer, and lets the pause before it pass.
    fn tries_again<T>(&mut self, schedule: &mut Schedule, answer: &Result<T, LinkFault>) -> bool
        ensures decides { Decides result (fault_of answer.now) schedule.old schedule.new
            (C.ticks self.old.clock) (C.ticks self.new.clock) }
        ensures stays { (self.new.link ≡ self.old.link) × (self.new.schedule ≡ self.old.schedule)
            × (self.new.log ≡ self.old.log) }
    {
        if !may_pass(answer) {
            return false;
        }
        match schedule.next() {
            None => false,
            Some(pause) => {
                self.clock.pause(pause);
                true
            }
        }
    }
}

/// Whether an answer is a failure that may pass.
fn may_pass<T>(answer: &Result<T, LinkFault>) -> bool
    ensures { result ≡ may_pass (fault_of answer.now) }
{
    match answer {
        Err(LinkFault::Failed { status }) => is_transient(*status),
        Ok(_) | Err(LinkFault::Memory) => false,
    }
}

/// Whether a failure of a status may pass.
fn is_transient(status: u16) -> bool
    ensures { result ≡ is_transient status }
{
    matches!(status, 408 | 429 | 500..=599 | 601 | 602)
}

impl<L: Link, C: Clock> Link for Retry<L, C> {
    ghost log = { λ retry. Some (log_of retry) };

    ghost faults = { λ retry. L.faults (link_of retry) };

    fn get(&mut self, name: &[u8], verify: Option<Digest>, out: &mut [u8]) -> Result<Got, LinkFault>
        ensures asked { IsAsked result verify }
        ensures unchanged { result ≡ Ok (Got.Same) → out.new ≡ out.old }
        ensures spared { IfSome verify (λ digest. IfErr result (λ fault. out.new ≡ out.old)) }
        ensures told { Gains (Some (log_of self.old)) (Some (log_of self.new))
            (call.Get name.now verify (get_reply result out.new) ∷ []) }
        ensures cause { CountsFaults (L.faults (link_of self.old)) (L.faults (link_of self.new)) (HasFailed result) }
        ensures tries { Tries (call.Get name.now verify) get_fault (schedule_of self.old)
            (asked_of L.log C.ticks self.old) (asked_of L.log C.ticks self.new) (get_reply result out.new) }
        ensures stays { schedule_of self.new ≡ schedule_of self.old }
    {
        let mut schedule = self.schedule;
        'attempts: loop {
            let answer = self.link.get(name, verify, out);
            if !self.tries_again(&mut schedule, &answer) {
                self.log.get(name, verify, answer, out);
                return answer;
            }
        }
    }

    fn put(&mut self, name: &[u8], body: &[u8], meta: Option<Meta>) -> Result<(), LinkFault>
        ensures told { Gains (Some (log_of self.old)) (Some (log_of self.new))
            (call.Put name.now body.now meta (fault_of result) ∷ []) }
        ensures cause { CountsFaults (L.faults (link_of self.old)) (L.faults (link_of self.new)) (HasFailed result) }
        ensures tries { Tries (call.Put name.now body.now meta) own_fault (schedule_of self.old)
            (asked_of L.log C.ticks self.old) (asked_of L.log C.ticks self.new) (fault_of result) }
        ensures stays { schedule_of self.new ≡ schedule_of self.old }
    {
        let mut schedule = self.schedule;
        'attempts: loop {
            let answer = self.link.put(name, body, meta);
            if !self.tries_again(&mut schedule, &answer) {
                self.log.put(name, body, meta, answer);
                return answer;
            }
        }
    }

    fn delete(&mut self, name: &[u8]) -> Result<(), LinkFault>
        ensures told { Gains (Some (log_of self.old)) (Some (log_of self.new))
            (call.Delete name.now (fault_of result) ∷ []) }
        ensures cause { CountsFaults (L.faults (link_of self.old)) (L.faults (link_of self.new)) (HasFailed result) }
        ensures tries { Tries (call.Delete name.now) own_fault (schedule_of self.old)
            (asked_of L.log C.ticks self.old) (asked_of L.log C.ticks self.new) (fault_of result) }
        ensures stays { schedule_of self.new ≡ schedule_of self.old }
    {
        let mut schedule = self.schedule;
        'attempts: loop {
            let answer = self.link.delete(name);
            if !self.tries_again(&mut schedule, &answer) {
                self.log.delete(name, answer);
                return answer;
            }
        }
    }

    fn head(&mut self, name: &[u8]) -> Result<Option<HeadText>, LinkFault>
        ensures told { Gains (Some (log_of self.old)) (Some (log_of self.new))
            (call.Head name.now (head_reply result) ∷ []) }
        ensures cause { CountsFaults (L.faults (link_of self.old)) (L.faults (link_of self.new)) (HasFailed result) }
        ensures tries { Tries (call.Head name.now) head_fault (schedule_of self.old)
            (asked_of L.log C.ticks self.old) (asked_of L.log C.ticks self.new) (head_reply result) }
        ensures stays { schedule_of self.new ≡ schedule_of self.old }
    {
        let mut schedule = self.schedule;
        'attempts: loop {
            let answer = self.link.head(name);
            if !self.tries_again(&mut schedule, &answer) {
                self.log.head(name, &answer);
                return answer;
            }
        }
    }

    fn list(&mut self, prefix: &[u8], marker: &[u8], page: &mut Page) -> Result<bool, LinkFault>
        ensures told { Gains (Some (log_of self.old)) (Some (log_of self.new))
            (call.List prefix.now marker.now (list_reply result page.new) ∷ []) }
        ensures cause { CountsFaults (L.faults (link_of self.old)) (L.faults (link_of self.new)) (HasFailed result) }
        ensures tries { Tries (call.List prefix.now marker.now) list_fault (schedule_of self.old)
            (asked_of L.log C.ticks self.old) (asked_of L.log C.ticks self.new) (list_reply result page.new) }
        ensures stays { schedule_of self.new ≡ schedule_of self.old }
    {
        let mut schedule = self.schedule;
        'attempts: loop {
            let answer = self.link.list(prefix, marker, page);
            if !self.tries_again(&mut schedule, &answer) {
                self.log.list(prefix, marker, answer, page);
                return answer;
            }
        }
    }
}
