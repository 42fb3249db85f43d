//! A store in memory whose GETs may show older versions.

ghost use Rattle.std.specs.Prelude.{◌≡◌, false, Ok, Some, None, [], ◌∷◌, IfOk, IfErr, IfSome, OnOk, OnErr};
ghost use Rattle.std.specs.Option.{option_copied, is_some};
ghost use Rattle.sb_world.specs.Folders.{HasNames};
ghost use Rattle.sb_pages.specs.Listings.{IsPage};
ghost use Rattle.sb_fakes.specs.Names.{AddsName};
ghost use Rattle.sb_world.specs.Told.{Gains, CountsFaults};
ghost use Rattle.sb_world.specs.Calls as calls;
ghost use Rattle.sb_world.specs.Calls.{get_reply, head_reply, list_reply, fault_of, HasFailed, IsAsked};
ghost use Rattle.sb_world.specs.declared.link.Call.TheVariants as call;
ghost use Rattle.sb_fakes.specs.Failing.{fails_next, answered, counted, one_more};
ghost use Rattle.sb_fakes.specs.Versions as versions;
ghost use Rattle.sb_fakes.specs.Versions.{versions_of, chosen_of, shown_version, newest_body, Answers, Changes};
ghost use Rattle.sb_fakes.specs.Versions.{HeadAnswers, ListAnswers, KeepsChoices, KeepsObjects};

use crate::content::{Content, fetch, no_texts};
use crate::faults::{Faults, has_failed};
use crate::history::{History, add_version, body_shown, history_of};
use crate::log::Log;
use crate::names::is_among;
use crate::object::{Object, body_of};
use sb_base::{Digest, Text};
use sb_pages::next_page;
use sb_world::{Got, HeadText, Link, LinkFault, Meta, Page};
use std::alloc::{AllocError, Global};

/// What a call that is to fail answers.
const UNAVAILABLE: LinkFault = LinkFault::Failed { status: 503 };

/// That GET number `get`, counted from 1 over all GETs, shows version `version` of its name.
#[derive(Drop, Clone, Copy, PartialEq, Eq, Debug)]
pub struct Show {
    pub get: u64,
    pub version: u32,
}

/// A store that keeps the versions of its objects. Version 0 is the object that the store begins with, and then comes
/// each put and delete of the name, in order. A GET that no `Show` speaks of, and one that is to show a version that
/// the name doesn't have, shows the newest that ended ok, and so do `head` and `list`.
///
/// The calls in `fails`, counted from 1, fail with status 503. A put or a delete that fails so is a version too, which
/// didn't end ok.
#[derive(Drop)]
pub struct TimedStore {
    alloc: Global,
    start: Vec<Object>,
    shows: Vec<Show>,
    histories: Vec<History>,
    gets: u64,
    log: Log,
    faults: Faults,
}

impl TimedStore {
    /// A store of these objects, with no call yet. Of two objects of one name it has the first.
    pub fn new(alloc: Global, start: Vec<Object>, shows: Vec<Show>, fails: Vec<u64>) -> TimedStore
        ensures log { result.log ≡ Some [] }
        ensures faults { result.faults.count ≡ 0 }
        ensures given { (result.start ≡ start) × (result.shows ≡ shows) × (result.faults.planned ≡ fails) }
        ensures fresh { (result.gets ≡ 0) × (result.faults.calls ≡ 0) × (result.histories.items ≡ []) }
    {
        TimedStore {
            alloc,
            start,
            shows,
            histories: Vec::new(alloc),
            gets: 0,
            log: Log::new(alloc),
            faults: Faults::new(fails),
        }
    }

    /// Chooses what a GET shows from now on, whatever was chosen for it before. An `Err` changes nothing.
    pub fn choose(&mut self, show: Show) -> Result<(), AllocError>
        ensures chosen { OnOk result (self.new.shows.items ≡ show ∷ self.old.shows.items) }
        ensures err { OnErr result (self.new.shows.items ≡ self.old.shows.items) }
        ensures content { (self.new.start ≡ self.old.start) × (self.new.histories ≡ self.old.histories) }
        ensures calls { (self.new.gets ≡ self.old.gets) × (self.new.log ≡ self.old.log) }
        ensures faults { self.new.faults ≡ self.old.faults }
    {
        self.shows.insert(0, show)?;
        Ok(())
    }

    /// Answers a GET.
    fn show(
        &mut self,
        name: &[u8],
        verify: Option<Digest>,
        out: &mut [u8],
    ) -> Result<Got, LinkFault>
        ensures shows { Answers (fails_next self.old.faults) verify (shown_version self.old name.now) result out.new }
        ensures unchanged { result ≡ Ok (Got.Same) → out.new ≡ out.old }
        ensures spared { IfSome verify (λ digest. IfErr result (λ fault. out.new ≡ out.old)) }
        ensures stays { KeepsObjects self.old self.new × (self.new.log ≡ self.old.log) }
        ensures calls { (self.new.gets ≡ one_more self.old.gets)
            × (self.new.faults ≡ answered false self.old.faults) }
    {
        self.gets = self.gets.saturating_add(1);
        if self.faults.next_call_fails() {
            return Err(UNAVAILABLE);
        }
        let start = body_of(&self.start, name).map(Text::bytes);
        let chosen = chosen_of(&self.shows, self.gets);
        fetch(
            body_shown(&self.histories, start, name, chosen),
            verify,
            out,
        )
    }

    /// Answers a put or a delete, which makes the object this, none for a delete.
    fn change(&mut self, name: &[u8], content: Option<Content>) -> Result<(), LinkFault>
        ensures kept { Changes (fails_next self.old.faults) name.now content result
            (versions_of self.old.histories.items) (versions_of self.new.histories.items) }
        ensures stays { KeepsChoices self.old self.new × (self.new.log ≡ self.old.log) }
        ensures calls { (self.new.gets ≡ self.old.gets) × (self.new.faults ≡ answered false self.old.faults) }
    {
        let fails = self.faults.next_call_fails();
        match add_version(self.alloc, &mut self.histories, name, content, !fails) {
            Err(_) => Err(LinkFault::Memory),
            Ok(()) if fails => Err(UNAVAILABLE),
            Ok(()) => Ok(()),
        }
    }

    /// Answers a put.
    fn store(&mut self, name: &[u8], body: &[u8], meta: Option<Meta>) -> Result<(), LinkFault>
        ensures kept { Changes (fails_next self.old.faults) name.now (Some (record { body = body.now; meta = meta }))
            result (versions_of self.old.histories.items) (versions_of self.new.histories.items) }
        ensures stays { KeepsChoices self.old self.new × (self.new.log ≡ self.old.log) }
        ensures calls { (self.new.gets ≡ self.old.gets) × (self.new.faults ≡ answered false self.old.faults) }
    {
        match Content::of(self.alloc, body, meta) {
            Ok(content) => self.change(name, Some(content)),
            Err(_) => {
                self.faults.next_call_fails();
                Err(LinkFault::Memory)
            }
        }
    }

    /// Answers a HEAD.
    fn texts(&mut self, name: &[u8]) -> Result<Option<HeadText>, LinkFault>
        ensures found { HeadAnswers (fails_next self.old.faults) (versions.newest_texts self.old name.now) result }
        ensures stays { KeepsObjects self.old self.new × (self.new.log ≡ self.old.log) }
        ensures calls { (self.new.gets ≡ self.old.gets) × (self.new.faults ≡ answered false self.old.faults) }
    {
        if self.faults.next_call_fails() {
            return Err(UNAVAILABLE);
        }
        match self.newest_texts(name) {
            Ok(texts) => Ok(texts),
            Err(_) => Err(LinkFault::Memory),
        }
    }

    /// The texts of the newest version that ended ok.
    fn newest_texts(&self, name: &[u8]) -> Result<Option<HeadText>, AllocError>
        ensures { IfOk result (λ texts. texts ≡ versions.newest_texts self.now name.now) }
    {
        match history_of(&self.histories, name).and_then(History::newest) {
            Some(Some(content)) => Ok(Some(content.texts(self.alloc)?)),
            Some(None) => Ok(None),
            None => Ok(body_of(&self.start, name).map(|_| no_texts())),
        }
    }

    /// Answers a listing.
    fn names(&mut self, prefix: &[u8], marker: &[u8], page: &mut Page) -> Result<bool, LinkFault>
        ensures listed { ListAnswers (fails_next self.old.faults) prefix.now marker.now page.new result
            (newest_body self.old) }
        ensures stays { KeepsObjects self.old self.new × (self.new.log ≡ self.old.log) }
        ensures calls { (self.new.gets ≡ self.old.gets) × (self.new.faults ≡ answered false self.old.faults) }
    {
        if self.faults.next_call_fails() {
            return Err(UNAVAILABLE);
        }
        match self.names_after(prefix, marker, page) {
            Ok(more) => Ok(more),
            Err(_) => Err(LinkFault::Memory),
        }
    }

    /// The names of a page, and whether more follow.
    fn names_after(&self, prefix: &[u8], marker: &[u8], page: &mut Page) -> Result<bool, AllocError>
        ensures { IfOk result (λ more. IsPage prefix.now marker.now page.new more (newest_body self.now)) }
    {
        page.keys = self.all_names()?;
        Ok(next_page(prefix, marker, page))
    }

    /// The names of all objects that are there, each once.
    fn all_names(&self) -> Result<Vec<Text>, AllocError>
        ensures { IfOk result (λ names. HasNames names.items (newest_body self.now)) }
    {
        let mut names = Vec::new(self.alloc);
        for object in &self.start {
            self.add_name(&object.name, &mut names)?;
        }
        for history in &self.histories {
            self.add_name(&history.name, &mut names)?;
        }
        Ok(names)
    }

    /// Adds a name, if the object is there and the name isn't among them.
    fn add_name(&self, name: &Text, names: &mut Vec<Text>) -> Result<(), AllocError>
        ensures { IfOk result (λ _. AddsName name.now (newest_body self.now) names.old.items names.new.items) }
    {
        if self.is_there(name.bytes()) && !is_among(name.bytes(), names) {
            names.push(name.copy(self.alloc)?)?;
        }
        Ok(())
    }

    /// Whether there is an object of a name, at its newest version that ended ok.
    fn is_there(&self, name: &[u8]) -> bool
        ensures { result ≡ is_some (newest_body self.now name.now) }
    {
        let start = body_of(&self.start, name).map(Text::bytes);
        body_shown(&self.histories, start, name, None).is_some()
    }

    /// Counts the fault of an answer.
    fn count<T>(&mut self, answer: &Result<T, LinkFault>)
        ensures faults { self.new.faults ≡ record {
          planned = self.old.faults.planned;
          calls = self.old.faults.calls;
          count = counted (calls.has_failed answer.now) self.old.faults.count;
        } }
        ensures cause { CountsFaults self.old.faults.count self.new.faults.count (HasFailed answer.now) }
        ensures stays { KeepsObjects self.old self.new × (self.new.log ≡ self.old.log) × (self.new.gets ≡ self.old.gets) }
    {
        if has_failed(answer) {
            self.faults.add();
        }
    }
}

/// The number of the version that a GET shows, where one is chosen for it.
fn chosen_of(shows: &[Show], get: u64) -> Option<u32>
    ensures { result ≡ chosen_of shows.now get }
{
    for show in shows {
        if show.get == get {
            return Some(show.version);
        }
    }
    None
}

impl Link for TimedStore {
    ghost log = { λ store. store.log };

    ghost faults = { λ store. store.faults.count };

    fn get(&mut self, name: &[u8], verify: Option<Digest>, out: &mut [u8]) -> Result<Got, LinkFault>
        ensures asked { IsAsked result verify }
        ensures unchanged { result ≡ Ok (Got.Same) → out.new ≡ out.old }
        ensures spared { IfSome verify (λ digest. IfErr result (λ fault. out.new ≡ out.old)) }
        ensures told { Gains self.old.log self.new.log
            (call.Get name.now verify (get_reply result out.new) ∷ []) }
        ensures cause { CountsFaults self.old.faults.count self.new.faults.count (HasFailed result) }
        ensures shows { Answers (fails_next self.old.faults) verify (shown_version self.old name.now) result out.new }
        ensures faults { self.new.faults ≡ answered (calls.has_failed result) self.old.faults }
        ensures stays { KeepsObjects self.old self.new × (self.new.gets ≡ one_more self.old.gets) }
    {
        let answer = self.show(name, verify, out);
        self.count(&answer);
        self.log.get(name, verify, answer, out);
        answer
    }

    fn put(&mut self, name: &[u8], body: &[u8], meta: Option<Meta>) -> Result<(), LinkFault>
        ensures told { Gains self.old.log self.new.log
            (call.Put name.now body.now meta (fault_of result) ∷ []) }
        ensures cause { CountsFaults self.old.faults.count self.new.faults.count (HasFailed result) }
        ensures kept { Changes (fails_next self.old.faults) name.now (Some (record { body = body.now; meta = meta }))
            result (versions_of self.old.histories.items) (versions_of self.new.histories.items) }
        ensures faults { self.new.faults ≡ answered (calls.has_failed result) self.old.faults }
        ensures stays { KeepsChoices self.old self.new × (self.new.gets ≡ self.old.gets) }
    {
        let answer = self.store(name, body, meta);
        self.count(&answer);
        self.log.put(name, body, meta, answer);
        answer
    }

    fn delete(&mut self, name: &[u8]) -> Result<(), LinkFault>
        ensures told { Gains self.old.log self.new.log (call.Delete name.now (fault_of result) ∷ []) }
        ensures cause { CountsFaults self.old.faults.count self.new.faults.count (HasFailed result) }
        ensures kept { Changes (fails_next self.old.faults) name.now None result
            (versions_of self.old.histories.items) (versions_of self.new.histories.items) }
        ensures faults { self.new.faults ≡ answered (calls.has_failed result) self.old.faults }
        ensures stays { KeepsChoices self.old self.new × (self.new.gets ≡ self.old.gets) }
    {
        let answer = self.change(name, None);
        self.count(&answer);
        self.log.delete(name, answer);
        answer
    }

    fn head(&mut self, name: &[u8]) -> Result<Option<HeadText>, LinkFault>
        ensures told { Gains self.old.log self.new.log (call.Head name.now (head_reply result) ∷ []) }
        ensures cause { CountsFaults self.old.faults.count self.new.faults.count (HasFailed result) }
        ensures found { HeadAnswers (fails_next self.old.faults) (versions.newest_texts self.old name.now) result }
        ensures faults { self.new.faults ≡ answered (calls.has_failed result) self.old.faults }
        ensures stays { KeepsObjects self.old self.new × (self.new.gets ≡ self.old.gets) }
    {
        let answer = self.texts(name);
        self.count(&answer);
        self.log.head(name, &answer);
        answer
    }

    fn list(&mut self, prefix: &[u8], marker: &[u8], page: &mut Page) -> Result<bool, LinkFault>
        ensures told { Gains self.old.log self.new.log
            (call.List prefix.now marker.now (list_reply result page.new) ∷ []) }
        ensures cause { CountsFaults self.old.faults.count self.new.faults.count (HasFailed result) }
        ensures listed { ListAnswers (fails_next self.old.faults) prefix.now marker.now page.new result
            (newest_body self.old) }
        ensures faults { self.new.faults ≡ answered (calls.has_failed result) self.old.faults }
        ensures stays { KeepsObjects self.old self.new × (self.new.gets ≡ self.old.gets) }
    {
        let answer = self.names(prefix, marker, page);
        self.count(&answer);
        self.log.list(prefix, marker, answer, page);
        answer
    }
}
