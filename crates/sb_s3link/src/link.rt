//! A bucket as a link.

ghost use Rattle.std.specs.Prelude.{◌≡◌, ◌↔◌, Ok, Err, Some, [], ◌∷◌, IfSome, IfErr, IsErrOf, length};
ghost use Rattle.sb_world.specs.Told.{Gains, CountsFaults, CountsJust};
ghost use Rattle.sb_world.specs.Calls.{get_reply, head_reply, list_reply, fault_of};
ghost use Rattle.sb_world.specs.Calls.{HasFailed, IsAsked, has_failed};
ghost use Rattle.sb_world.specs.declared.link.Call.TheVariants as call;
ghost use Rattle.sb_world.specs.declared.link.LinkFault.TheVariants as link_fault;
ghost use Rattle.sb_http.specs.declared.fault.HttpFault.TheVariants as http;
ghost use Rattle.sb_s3request.specs.Operations.{
  asked_of,
  delete_asked,
  get_asked,
  head_asked,
  list_asked,
  put_asked,
};
ghost use Rattle.sb_s3link.specs.Courses.{
  Asks,
  Runs,
  Sends,
  bucket_of,
  clock_of,
  faults_of,
  log_of,
  told,
  wire_of,
};
ghost use Rattle.sb_s3link.specs.Statuses.{
  IsDeleteAnswer,
  IsGetAnswer,
  IsHeadAnswer,
  IsListAnswer,
  IsPutAnswer,
};
ghost use Rattle.sb_s3link.specs.declared.asking.AskFault.TheVariants as ask;

use crate::answers::{delete_answer, fill, get_answer, head_answer, list_answer, put_answer};
use crate::asking::AskFault;
use sb_base::{Digest, Text};
use sb_http::{Response, exchange};
use sb_log::GhostLog;
use sb_s3request::{Operation, Site, write_request};
use sb_sign::{SignFault, Signer};
use sb_world::{Clock, Got, HeadText, Link, LinkFault, Meta, Page, Wire};
use std::alloc::Global;

/// The most bytes of the text of a listing.
const LISTING_LIMIT: u64 = 4_194_304;

/// The most bytes of a body that is passed over.
const OTHER_LIMIT: u64 = 65_536;

/// A link to the objects of an S3 bucket. Each call is at most one HTTP exchange over a connection of its own, signed at
/// the moment that the clock gives for it. A fault is counted where it is no want of memory.
#[derive(Drop)]
pub struct S3Link<W, C> {
    alloc: Global,
    site: Site,
    signer: Signer,
    wire: W,
    clock: C,
    /// The head of the newest request, in a buffer that is kept.
    head: Vec<u8>,
    /// The body of the newest response, in a buffer that is kept.
    room: Vec<u8>,
    faults: u64,
    log: GhostLog,
}

impl<W, C> S3Link<W, C> {
    /// A link to a bucket at a host and a TCP port; with `vhost` the bucket is named in the host, else in the path. It
    /// takes no memory before its first request.
    pub fn new(
        alloc: Global,
        signer: Signer,
        host: Text,
        port: u16,
        bucket: Text,
        vhost: bool,
        wire: W,
        clock: C,
    ) -> S3Link<W, C>
        ensures bucket { bucket_of result ≡ record {
          site = record { host = host; port = port; bucket = bucket; vhost = vhost };
          credentials = signer;
        } }
        ensures given { (wire_of result ≡ wire) × (clock_of result ≡ clock) }
        ensures faults { faults_of result ≡ 0 }
        ensures log { log_of result ≡ [] }
    {
        S3Link {
            alloc,
            site: Site {
                host,
                port,
                bucket,
                vhost,
            },
            signer,
            wire,
            clock,
            head: Vec::new(alloc),
            room: Vec::new(alloc),
            faults: 0,
            log: GhostLog::new(),
        }
    }

    /// The wire.
    pub fn wire(&self) -> &W
        ensures { result.now ≡ wire_of self.now }
    {
        &self.wire
    }

    /// Counts the fault of an answer.
    fn count<T>(&mut self, answer: &Result<T, LinkFault>)
        ensures cause { CountsFaults self.old.faults self.new.faults (HasFailed answer.now) }
        ensures count { CountsJust self.old.faults self.new.faults (has_failed answer.now) }
        ensures stays { (self.new.wire ≡ self.old.wire) × (self.new.clock ≡ self.old.clock)
            × (bucket_of self.new ≡ bucket_of self.old) × (self.new.log ≡ self.old.log) }
    {
        if let Err(LinkFault::Failed { .. }) = answer {
            self.faults = self.faults.saturating_add(1);
        }
    }
}

impl<W: Wire, C: Clock> S3Link<W, C> {
    /// Sends the head that was made and the body of an operation, and reads the response, with its body in the room.
    fn send(&mut self, operation: &Operation<'_>, limit: u64) -> Result<Response, AskFault>
        requires { self.now.room.items ≡ [] }
        ensures sent { Sends (asked_of operation.now) limit (W.connections self.old.wire)
            (W.connections self.new.wire) self.old.head.items self.new.room.items result }
        ensures cause { CountsFaults (W.faults self.old.wire) (W.faults self.new.wire)
            (IsErrOf result (ask.Http http.WireFault)) }
        ensures stays { (self.new.clock ≡ self.old.clock) × (bucket_of self.new ≡ bucket_of self.old)
            × (self.new.log ≡ self.old.log) × (self.new.faults ≡ self.old.faults) }
    {
        match exchange(
            self.alloc,
            &mut self.wire,
            &self.head,
            operation.body(),
            operation.is_bodiless(),
            limit,
            &mut self.room,
        ) {
            Ok(response) => Ok(response),
            Err(fault) => Err(AskFault::Http(fault)),
        }
    }

    /// Asks the bucket once, at the moment that the clock gives. The body that comes is in the room.
    fn ask(&mut self, operation: &Operation<'_>, limit: u64) -> Result<Response, AskFault>
        ensures asks { Asks (bucket_of self.old) (asked_of operation.now) limit
            (told (C.moments self.old.clock) (W.connections self.old.wire))
            (told (C.moments self.new.clock) (W.connections self.new.wire)) self.new.room.items result }
        ensures cause { CountsFaults (W.faults self.old.wire) (W.faults self.new.wire)
            (IsErrOf result (ask.Http http.WireFault)) }
        ensures stays { (bucket_of self.new ≡ bucket_of self.old) × (self.new.log ≡ self.old.log)
            × (self.new.faults ≡ self.old.faults) }
    {
        let moment = self.clock.moment();
        self.room.clear();
        match write_request(
            self.alloc,
            &self.site,
            &mut self.signer,
            operation,
            moment,
            &mut self.head,
        ) {
            Ok(()) => self.send(operation, limit),
            Err(SignFault::MomentOutOfRange(_)) => Err(AskFault::NoDate),
            Err(SignFault::Memory) => Err(AskFault::Memory),
        }
    }

    /// Reads an object into `out`.
    fn fetch(
        &mut self,
        name: &[u8],
        verify: Option<Digest>,
        out: &mut [u8],
    ) -> Result<Got, LinkFault>
        ensures runs { Runs (bucket_of self.old) (get_asked name.now verify) (length out.old)
            (told (C.moments self.old.clock) (W.connections self.old.wire))
            (told (C.moments self.new.clock) (W.connections self.new.wire))
            (IsGetAnswer verify out.old out.new result) }
        ensures wire { CountsFaults (W.faults self.old.wire) (W.faults self.new.wire)
            (IsErrOf result (link_fault.Failed 601)) }
        ensures asked { IsAsked result verify }
        ensures unchanged { result ≡ Ok (Got.Same) → out.new ≡ out.old }
        ensures spared { IfSome verify (λ digest. IfErr result (λ fault. out.new ≡ out.old)) }
        ensures stays { (bucket_of self.new ≡ bucket_of self.old) × (self.new.log ≡ self.old.log)
            × (self.new.faults ≡ self.old.faults) }
    {
        let ending = self.ask(&Operation::get(name, verify), out.len() as u64);
        let answer = get_answer(verify, out.len(), &ending, self.room.len());
        fill(answer, &self.room, out);
        answer
    }
}

impl<W: Wire, C: Clock> Link for S3Link<W, C> {
    ghost log = { λ link. Some (log_of link) };

    ghost faults = { faults_of };

    fn get(&mut self, name: &[u8], verify: Option<Digest>, out: &mut [u8]) -> Result<Got, LinkFault>
        ensures told { Gains (Some (log_of self.old)) (Some (log_of self.new))
            (call.Get name.now verify (get_reply result out.new) ∷ []) }
        ensures runs { Runs (bucket_of self.old) (get_asked name.now verify) (length out.old)
            (told (C.moments (clock_of self.old)) (W.connections (wire_of self.old)))
            (told (C.moments (clock_of self.new)) (W.connections (wire_of self.new)))
            (IsGetAnswer verify out.old out.new result) }
        ensures wire { CountsFaults (W.faults (wire_of self.old)) (W.faults (wire_of self.new))
            (IsErrOf result (link_fault.Failed 601)) }
        ensures asked { IsAsked result verify }
        ensures unchanged { result ≡ Ok (Got.Same) → out.new ≡ out.old }
        ensures spared { IfSome verify (λ digest. IfErr result (λ fault. out.new ≡ out.old)) }
        ensures cause { CountsFaults (faults_of self.old) (faults_of self.new) (HasFailed result) }
        ensures count { CountsJust (faults_of self.old) (faults_of self.new) (has_failed result) }
        ensures bucket { bucket_of self.new ≡ bucket_of self.old }
    {
        let answer = self.fetch(name, verify, out);
        self.count(&answer);
        self.log.get(name, verify, answer, out);
        answer
    }

    fn put(&mut self, name: &[u8], body: &[u8], meta: Option<Meta>) -> Result<(), LinkFault>
        ensures told { Gains (Some (log_of self.old)) (Some (log_of self.new))
            (call.Put name.now body.now meta (fault_of result) ∷ []) }
        ensures runs { Runs (bucket_of self.old) (put_asked name.now body.now meta) 65536
            (told (C.moments (clock_of self.old)) (W.connections (wire_of self.old)))
            (told (C.moments (clock_of self.new)) (W.connections (wire_of self.new)))
            (IsPutAnswer result) }
        ensures wire { CountsFaults (W.faults (wire_of self.old)) (W.faults (wire_of self.new))
            (IsErrOf result (link_fault.Failed 601)) }
        ensures cause { CountsFaults (faults_of self.old) (faults_of self.new) (HasFailed result) }
        ensures count { CountsJust (faults_of self.old) (faults_of self.new) (has_failed result) }
        ensures bucket { bucket_of self.new ≡ bucket_of self.old }
    {
        let ending = self.ask(&Operation::put(name, body, meta), OTHER_LIMIT);
        let answer = put_answer(&ending);
        self.count(&answer);
        self.log.put(name, body, meta, answer);
        answer
    }

    fn delete(&mut self, name: &[u8]) -> Result<(), LinkFault>
        ensures told { Gains (Some (log_of self.old)) (Some (log_of self.new))
            (call.Delete name.now (fault_of result) ∷ []) }
        ensures runs { Runs (bucket_of self.old) (delete_asked name.now) 65536
            (told (C.moments (clock_of self.old)) (W.connections (wire_of self.old)))
            (told (C.moments (clock_of self.new)) (W.connections (wire_of self.new)))
            (IsDeleteAnswer result) }
        ensures wire { CountsFaults (W.faults (wire_of self.old)) (W.faults (wire_of self.new))
            (IsErrOf result (link_fault.Failed 601)) }
        ensures cause { CountsFaults (faults_of self.old) (faults_of self.new) (HasFailed result) }
        ensures count { CountsJust (faults_of self.old) (faults_of self.new) (has_failed result) }
        ensures bucket { bucket_of self.new ≡ bucket_of self.old }
    {
        let ending = self.ask(&Operation::delete(name), OTHER_LIMIT);
        let answer = delete_answer(&ending);
        self.count(&answer);
        self.log.delete(name, answer);
        answer
    }

    fn head(&mut self, name: &[u8]) -> Result<Option<HeadText>, LinkFault>
        ensures told { Gains (Some (log_of self.old)) (Some (log_of self.new))
            (call.Head name.now (head_reply result) ∷ []) }
        ensures runs { Runs (bucket_of self.old) (head_asked name.now) 65536
            (told (C.moments (clock_of self.old)) (W.connections (wire_of self.old)))
            (told (C.moments (clock_of self.new)) (W.connections (wire_of self.new)))
            (IsHeadAnswer result) }
        ensures wire { CountsFaults (W.faults (wire_of self.old)) (W.faults (wire_of self.new))
            (IsErrOf result (link_fault.Failed 601)) }
        ensures cause { CountsFaults (faults_of self.old) (faults_of self.new) (HasFailed result) }
        ensures count { CountsJust (faults_of self.old) (faults_of self.new) (has_failed result) }
        ensures bucket { bucket_of self.new ≡ bucket_of self.old }
    {
        let ending = self.ask(&Operation::head(name), OTHER_LIMIT);
        let answer = head_answer(self.alloc, &ending);
        self.count(&answer);
        self.log.head(name, &answer);
        answer
    }

    fn list(&mut self, prefix: &[u8], marker: &[u8], page: &mut Page) -> Result<bool, LinkFault>
        ensures told { Gains (Some (log_of self.old)) (Some (log_of self.new))
            (call.List prefix.now marker.now (list_reply result page.new) ∷ []) }
        ensures runs { Runs (bucket_of self.old) (list_asked prefix.now marker.now) 4194304
            (told (C.moments (clock_of self.old)) (W.connections (wire_of self.old)))
            (told (C.moments (clock_of self.new)) (W.connections (wire_of self.new)))
            (IsListAnswer page.new result) }
        ensures wire { CountsFaults (W.faults (wire_of self.old)) (W.faults (wire_of self.new))
            (IsErrOf result (link_fault.Failed 601)) }
        ensures cause { CountsFaults (faults_of self.old) (faults_of self.new) (HasFailed result) }
        ensures count { CountsJust (faults_of self.old) (faults_of self.new) (has_failed result) }
        ensures bucket { bucket_of self.new ≡ bucket_of self.old }
    {
        let ending = self.ask(&Operation::list(prefix, marker), LISTING_LIMIT);
        let answer = list_answer(self.alloc, &ending, &self.room, page);
        self.count(&answer);
        self.log.list(prefix, marker, answer, page);
        answer
    }
}
