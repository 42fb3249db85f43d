//! A store in memory.

ghost use Rattle.std.specs.Prelude.{◌≡◌, ◌≢◌, Ok, Some, [], ◌∷◌, IfOk, IfErr, IfSome, MatchResult};
ghost use Rattle.std.specs.Option.{option_copied, option_map};
ghost use Rattle.sb_world.specs.Told.{Gains, CountsFaults};
ghost use Rattle.sb_world.specs.Calls as calls;
ghost use Rattle.sb_world.specs.Calls.{get_reply, head_reply, list_reply, fault_of, HasFailed, IsAsked};
ghost use Rattle.sb_world.specs.declared.link.Call.TheVariants as call;
ghost use Rattle.sb_pages.specs.Listings.{IsPage};
ghost use Rattle.sb_fakes.specs.Failing.{counted};
ghost use Rattle.sb_fakes.specs.Objects.{bodies_of, body_in, texts_of, HasBody, HasNoBody, Heads, Lists, Puts, Shows};

use crate::content::{Content, fetch};
use crate::faults::has_failed;
use crate::log::Log;
use crate::names::names_of;
use crate::object::{Object, body_of, put, take_away};
use sb_base::{Digest, Text};
use sb_pages::next_page;
use sb_world::{Got, HeadText, Link, LinkFault, Meta, Page};
use std::alloc::{AllocError, Global};

/// A store that shows the newest of each object, and the log of its calls.
#[derive(Drop)]
pub struct PlainStore {
    alloc: Global,
    objects: Vec<Object<Content>>,
    log: Log,
    faults: u64,
}

impl PlainStore {
    /// A store with no object.
    pub fn new(alloc: Global) -> PlainStore
        ensures log { result.log ≡ Some [] }
        ensures faults { result.faults ≡ 0 }
        ensures empty { result.objects.items ≡ [] }
    {
        PlainStore {
            alloc,
            objects: Vec::new(alloc),
            log: Log::new(alloc),
            faults: 0,
        }
    }

    /// Puts an object in the place of the one that has the name.
    fn store(&mut self, name: &[u8], body: &[u8], meta: Option<Meta>) -> Result<(), LinkFault>
        ensures puts { Puts name.now (record { body = body.now; meta = meta }) result
            (bodies_of self.old.objects.items) (bodies_of self.new.objects.items) }
        ensures stays { (self.new.log ≡ self.old.log) × (self.new.faults ≡ self.old.faults) }
    {
        match self.add(name, body, meta) {
            Ok(()) => Ok(()),
            Err(_) => Err(LinkFault::Memory),
        }
    }

    /// Adds an object in front of those of its name.
    fn add(&mut self, name: &[u8], body: &[u8], meta: Option<Meta>) -> Result<(), AllocError>
        ensures put { MatchResult result
            (λ _. HasBody name.now (record { body = body.now; meta = meta }) (bodies_of self.old.objects.items)
            (bodies_of self.new.objects.items))
            (λ _. self.new.objects.items ≡ self.old.objects.items) }
        ensures stays { (self.new.log ≡ self.old.log) × (self.new.faults ≡ self.old.faults) }
    {
        let content = Content::of(self.alloc, body, meta)?;
        put(&mut self.objects, Text::of(self.alloc, name)?, content)
    }

    /// The names of a page, and whether more follow.
    fn names_after(&self, prefix: &[u8], marker: &[u8], page: &mut Page) -> Result<bool, AllocError>
        ensures { IfOk result (λ more. IsPage prefix.now marker.now page.new more
            (λ name. body_in (bodies_of self.now.objects.items name))) }
    {
        page.keys = names_of(self.alloc, &self.objects)?;
        Ok(next_page(prefix, marker, page))
    }

    /// The texts of the sizes that an object carries.
    fn texts(&self, name: &[u8]) -> Result<Option<HeadText>, AllocError>
        ensures { IfOk result (λ texts. texts
            ≡ option_map (λ content. texts_of content.meta) (bodies_of self.now.objects.items name.now)) }
    {
        match body_of(&self.objects, name) {
            Some(content) => Ok(Some(content.texts(self.alloc)?)),
            None => Ok(None),
        }
    }

    /// Counts the fault of an answer.
    fn count<T>(&mut self, answer: &Result<T, LinkFault>)
        ensures faults { self.new.faults ≡ counted (calls.has_failed answer.now) self.old.faults }
        ensures cause { CountsFaults self.old.faults self.new.faults (HasFailed answer.now) }
        ensures stays { (self.new.objects ≡ self.old.objects) × (self.new.log ≡ self.old.log) }
    {
        if has_failed(answer) {
            self.faults = self.faults.saturating_add(1);
        }
    }
}

impl Link for PlainStore {
    ghost log = { λ store. store.log };

    ghost faults = { λ store. store.faults };

    fn get(&mut self, name: &[u8], verify: Option<Digest>, out: &mut [u8]) -> Result<Got, LinkFault>
        ensures asked { IsAsked result verify }
        ensures unchanged { result ≡ Ok (Got.Same) → out.new ≡ out.old }
        ensures spared { IfSome verify (λ digest. IfErr result (λ fault. out.new ≡ out.old)) }
        ensures told { Gains self.old.log self.new.log
            (call.Get name.now verify (get_reply result out.new) ∷ []) }
        ensures cause { CountsFaults self.old.faults self.new.faults (HasFailed result) }
        ensures shows { Shows verify (body_in (bodies_of self.old.objects.items name.now)) result out.new }
        ensures faults { self.new.faults ≡ counted (calls.has_failed result) self.old.faults }
        ensures objects { self.new.objects ≡ self.old.objects }
    {
        let content = body_of(&self.objects, name);
        let answer = fetch(content.map(|content| content.body.bytes()), verify, out);
        self.count(&answer);
        self.log.get(name, verify, answer, out);
        answer
    }

    fn put(&mut self, name: &[u8], body: &[u8], meta: Option<Meta>) -> Result<(), LinkFault>
        ensures told { Gains self.old.log self.new.log
            (call.Put name.now body.now meta (fault_of result) ∷ []) }
        ensures cause { CountsFaults self.old.faults self.new.faults (HasFailed result) }
        ensures puts { Puts name.now (record { body = body.now; meta = meta }) result
            (bodies_of self.old.objects.items) (bodies_of self.new.objects.items) }
        ensures faults { self.new.faults ≡ self.old.faults }
    {
        let answer = self.store(name, body, meta);
        self.log.put(name, body, meta, answer);
        answer
    }

    fn delete(&mut self, name: &[u8]) -> Result<(), LinkFault>
        ensures told { Gains self.old.log self.new.log (call.Delete name.now (fault_of result) ∷ []) }
        ensures cause { CountsFaults self.old.faults self.new.faults (HasFailed result) }
        ensures done { result ≡ Ok tt }
        ensures gone { HasNoBody name.now (bodies_of self.old.objects.items) (bodies_of self.new.objects.items) }
        ensures faults { self.new.faults ≡ self.old.faults }
    {
        take_away(&mut self.objects, name);
        self.log.delete(name, Ok(()));
        Ok(())
    }

    fn head(&mut self, name: &[u8]) -> Result<Option<HeadText>, LinkFault>
        ensures told { Gains self.old.log self.new.log (call.Head name.now (head_reply result) ∷ []) }
        ensures cause { CountsFaults self.old.faults self.new.faults (HasFailed result) }
        ensures found { Heads (option_map (λ content. texts_of content.meta)
            (bodies_of self.old.objects.items name.now)) result }
        ensures faults { self.new.faults ≡ self.old.faults }
        ensures objects { self.new.objects ≡ self.old.objects }
    {
        let answer = match self.texts(name) {
            Ok(texts) => Ok(texts),
            Err(_) => Err(LinkFault::Memory),
        };
        self.log.head(name, &answer);
        answer
    }

    fn list(&mut self, prefix: &[u8], marker: &[u8], page: &mut Page) -> Result<bool, LinkFault>
        ensures told { Gains self.old.log self.new.log
            (call.List prefix.now marker.now (list_reply result page.new) ∷ []) }
        ensures cause { CountsFaults self.old.faults self.new.faults (HasFailed result) }
        ensures listed { Lists prefix.now marker.now page.new result
            (λ name. body_in (bodies_of self.old.objects.items name)) }
        ensures faults { self.new.faults ≡ self.old.faults }
        ensures objects { self.new.objects ≡ self.old.objects }
    {
        let answer = match self.names_after(prefix, marker, page) {
            Ok(more) => Ok(more),
            Err(_) => Err(LinkFault::Memory),
        };
        self.log.list(prefix, marker, answer, page);
        answer
    }
}
