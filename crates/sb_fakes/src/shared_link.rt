//! Links over one store that threads share.

ghost use Rattle.std.specs.Prelude.{◌≡◌, Ok, Some, [], ◌∷◌, IfOk, IfErr, IfSome};
ghost use Rattle.sb_world.specs.Told.{Gains, CountsFaults};
ghost use Rattle.sb_world.specs.Calls as calls;
ghost use Rattle.sb_world.specs.Calls.{get_reply, head_reply, list_reply, fault_of, HasFailed, IsAsked};
ghost use Rattle.sb_world.specs.declared.link.Call.TheVariants as call;
ghost use Rattle.sb_fakes.specs.Failing.{counted};

use crate::faults::has_failed;
use crate::log::Log;
use crate::timed::TimedStore;
use sb_base::Digest;
use sb_world::{Got, HeadText, Link, LinkFault, Meta, Page};
use std::alloc::{AllocError, Global};
use std::sync::{Arc, Mutex, Wait};

/// A link over a store behind a lock, which other links over the same store take too, each in a thread of its own. Its
/// calls take the lock, so they may wait, and it borrows the handle for that. It tells the log and the count of its own
/// calls alone. No clause knows what the store has, since another link may have changed it.
#[derive(Drop)]
pub struct SharedLink<'a, H> {
    rt: &'a H,
    alloc: Global,
    store: Arc<Mutex<TimedStore>>,
    log: Log,
    faults: u64,
}

impl<'a, H: Wait> SharedLink<'a, H> {
    /// The first link over a store.
    pub fn new(rt: &'a H, alloc: Global, store: TimedStore) -> Result<SharedLink<'a, H>, AllocError>
        ensures unused { IfOk result (λ link. (link.log ≡ Some []) × (link.faults ≡ 0)) }
    {
        Ok(SharedLink {
            rt,
            alloc,
            store: Arc::new(alloc, Mutex::new(store))?,
            log: Log::new(alloc),
            faults: 0,
        })
    }

    /// Another link over the same store.
    pub fn again(&self) -> Result<SharedLink<'a, H>, AllocError>
        ensures unused { IfOk result (λ link. (link.log ≡ Some []) × (link.faults ≡ 0)) }
    {
        Ok(SharedLink {
            rt: self.rt,
            alloc: self.alloc,
            store: Arc::try_clone(&self.store)?,
            log: Log::new(self.alloc),
            faults: 0,
        })
    }

    /// Counts the fault of an answer.
    fn count<T>(&mut self, answer: &Result<T, LinkFault>)
        ensures faults { self.new.faults ≡ counted (calls.has_failed answer.now) self.old.faults }
        ensures cause { CountsFaults self.old.faults self.new.faults (HasFailed answer.now) }
        ensures log { self.new.log ≡ self.old.log }
    {
        if has_failed(answer) {
            self.faults = self.faults.saturating_add(1);
        }
    }
}

impl<'a, H: Wait> Link for SharedLink<'a, H> {
    ghost log = { λ link. link.log };

    ghost faults = { λ link. link.faults };

    fn get(&mut self, name: &[u8], verify: Option<Digest>, out: &mut [u8]) -> Result<Got, LinkFault>
        ensures asked { IsAsked result verify }
        ensures unchanged { result ≡ Ok (Got.Same) → out.new ≡ out.old }
        ensures spared { IfSome verify (λ digest. IfErr result (λ fault. out.new ≡ out.old)) }
        ensures told { Gains self.old.log self.new.log
            (call.Get name.now verify (get_reply result out.new) ∷ []) }
        ensures cause { CountsFaults self.old.faults self.new.faults (HasFailed result) }
        ensures faults { self.new.faults ≡ counted (calls.has_failed result) self.old.faults }
    {
        let answer = self.store.lock(self.rt).get(name, verify, out);
        self.count(&answer);
        self.log.get(name, verify, answer, out);
        answer
    }

    fn put(&mut self, name: &[u8], body: &[u8], meta: Option<Meta>) -> Result<(), LinkFault>
        ensures told { Gains self.old.log self.new.log
            (call.Put name.now body.now meta (fault_of result) ∷ []) }
        ensures cause { CountsFaults self.old.faults self.new.faults (HasFailed result) }
        ensures faults { self.new.faults ≡ counted (calls.has_failed result) self.old.faults }
    {
        let answer = self.store.lock(self.rt).put(name, body, meta);
        self.count(&answer);
        self.log.put(name, body, meta, answer);
        answer
    }

    fn delete(&mut self, name: &[u8]) -> Result<(), LinkFault>
        ensures told { Gains self.old.log self.new.log (call.Delete name.now (fault_of result) ∷ []) }
        ensures cause { CountsFaults self.old.faults self.new.faults (HasFailed result) }
        ensures faults { self.new.faults ≡ counted (calls.has_failed result) self.old.faults }
    {
        let answer = self.store.lock(self.rt).delete(name);
        self.count(&answer);
        self.log.delete(name, answer);
        answer
    }

    fn head(&mut self, name: &[u8]) -> Result<Option<HeadText>, LinkFault>
        ensures told { Gains self.old.log self.new.log (call.Head name.now (head_reply result) ∷ []) }
        ensures cause { CountsFaults self.old.faults self.new.faults (HasFailed result) }
        ensures faults { self.new.faults ≡ counted (calls.has_failed result) self.old.faults }
    {
        let answer = self.store.lock(self.rt).head(name);
        self.count(&answer);
        self.log.head(name, &answer);
        answer
    }

    fn list(&mut self, prefix: &[u8], marker: &[u8], page: &mut Page) -> Result<bool, LinkFault>
        ensures told { Gains self.old.log self.new.log
            (call.List prefix.now marker.now (list_reply result page.new) ∷ []) }
        ensures cause { CountsFaults self.old.faults self.new.faults (HasFailed result) }
        ensures faults { self.new.faults ≡ counted (calls.has_failed result) self.old.faults }
    {
        let answer = self.store.lock(self.rt).list(prefix, marker, page);
        self.count(&answer);
        self.log.list(prefix, marker, answer, page);
        answer
    }
}
