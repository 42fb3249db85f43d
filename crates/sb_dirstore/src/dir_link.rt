//! A folder as a link.

ghost use Rattle.std.specs.Prelude.{◌≡◌, ◌⊎◌, Ok, Some, [], ◌∷◌, IfSome, IfOk, IfErr};
ghost use Rattle.sb_world.specs.Told.{Gains, CountsFaults, CountsJust};
ghost use Rattle.sb_world.specs.Folders.{Becomes};
ghost use Rattle.sb_world.specs.Calls.{get_reply, head_reply, list_reply, fault_of};
ghost use Rattle.sb_world.specs.Calls.{HasFailed, IsAsked, has_failed};
ghost use Rattle.sb_world.specs.declared.link.Call.TheVariants as call;
ghost use Rattle.sb_pages.specs.Listings.{IsPage};
ghost use Rattle.sb_dirstore.specs.Objects.{folder_of, faults_of, log_of, IsObjectName, objects_of, IfFailed, Finds};
ghost use Rattle.sb_dirstore.specs.Objects.{FindsHead, Puts, PutsObject, DeletesObject, has_folder_failed};

use crate::files::{head, list, read, read_unless_same, remove, replace};
use crate::names::place_temporary;
use sb_base::Digest;
use sb_log::GhostLog;
use sb_world::{Folder, Got, HeadText, Link, LinkFault, Meta, Page};
use std::alloc::Global;

/// A link to the objects in a folder. An object carries no texts of sizes. A fault is counted where it is no want of
/// memory.
#[derive(Drop)]
pub struct DirLink<F> {
    folder: F,
    /// The name of the temporary file.
    temporary: Vec<u8>,
    /// Where an object is read to be compared.
    room: Vec<u8>,
    faults: u64,
    log: GhostLog,
}

impl<F> DirLink<F> {
    /// A link to the objects in a folder. It takes no memory before its first request.
    pub fn new(alloc: Global, folder: F) -> DirLink<F>
        ensures folder { folder_of result ≡ folder }
        ensures faults { faults_of result ≡ 0 }
        ensures log { log_of result ≡ [] }
    {
        DirLink {
            folder,
            temporary: Vec::new(alloc),
            room: Vec::new(alloc),
            faults: 0,
            log: GhostLog::new(),
        }
    }

    /// The folder.
    pub fn folder(&self) -> &F
        ensures { result.now ≡ folder_of self.now }
    {
        &self.folder
    }

    /// Counts the fault of an answer.
    fn count<T>(&mut self, answer: &Result<T, LinkFault>)
        ensures cause { CountsFaults self.old.faults self.new.faults (HasFailed answer.now) }
        ensures count { CountsJust self.old.faults self.new.faults (has_failed answer.now) }
        ensures stays { (self.new.folder ≡ self.old.folder) × (self.new.log ≡ self.old.log) }
    {
        if let Err(LinkFault::Failed { .. }) = answer {
            self.faults = self.faults.saturating_add(1);
        }
    }
}

impl<F: Folder> DirLink<F> {
    /// Reads an object of the length of `out`, and copies it to `out` unless it has the digest that is asked about.
    fn fetch(
        &mut self,
        name: &[u8],
        verify: Option<Digest>,
        out: &mut [u8],
    ) -> Result<Got, LinkFault>
        ensures read { IfSome (F.files self.old.folder) (λ files. Finds verify result out.new (files name.now)) }
        ensures asked { IsAsked result verify }
        ensures unchanged { result ≡ Ok (Got.Same) → out.new ≡ out.old }
        ensures spared { IfSome verify (λ digest. IfErr result (λ fault. out.new ≡ out.old)) }
        ensures files { F.files self.new.folder ≡ F.files self.old.folder }
        ensures cause { CountsJust (F.faults self.old.folder) (F.faults self.new.folder) (has_folder_failed result) }
        ensures status { IfFailed result (λ status. (status ≡ 600) ⊎ (status ≡ 605)) }
        ensures stays { (self.new.faults ≡ self.old.faults) × (self.new.log ≡ self.old.log) }
    {
        match verify {
            None => read(&mut self.folder, name, out),
            Some(digest) => {
                let length = out.len();
                if self.room.len() < length && self.room.resize(length, 0).is_err() {
                    return Err(LinkFault::Memory);
                }
                read_unless_same(
                    &mut self.folder,
                    name,
                    digest,
                    &mut self.room[..length],
                    out,
                )
            }
        }
    }

    /// Writes an object's temporary file and gives it the object's name.
    fn store(&mut self, name: &[u8], body: &[u8]) -> Result<(), LinkFault>
        ensures told { Becomes (F.files self.old.folder) (F.files self.new.folder)
            (Puts name.now body.now result) }
        ensures cause { CountsJust (F.faults self.old.folder) (F.faults self.new.folder) (has_folder_failed result) }
        ensures status { IfFailed result (λ status. status ≡ 605) }
        ensures stays { (self.new.faults ≡ self.old.faults) × (self.new.log ≡ self.old.log) }
    {
        match place_temporary(name, &mut self.temporary) {
            Ok(()) => replace(&mut self.folder, self.temporary.as_slice(), name, body),
            Err(_) => Err(LinkFault::Memory),
        }
    }
}

impl<F: Folder> Link for DirLink<F> {
    ghost log = { λ link. Some (log_of link) };

    ghost faults = { faults_of };

    fn get(&mut self, name: &[u8], verify: Option<Digest>, out: &mut [u8]) -> Result<Got, LinkFault>
        ensures told { Gains (Some (log_of self.old)) (Some (log_of self.new))
            (call.Get name.now verify (get_reply result out.new) ∷ []) }
        ensures found { IsObjectName name.now → IfSome (F.files (folder_of self.old))
            (λ files. Finds verify result out.new (objects_of files name.now)) }
        ensures asked { IsAsked result verify }
        ensures unchanged { result ≡ Ok (Got.Same) → out.new ≡ out.old }
        ensures spared { IfSome verify (λ digest. IfErr result (λ fault. out.new ≡ out.old)) }
        ensures files { F.files (folder_of self.new) ≡ F.files (folder_of self.old) }
        ensures cause { CountsFaults (faults_of self.old) (faults_of self.new) (HasFailed result) }
        ensures count { CountsJust (faults_of self.old) (faults_of self.new) (has_failed result) }
        ensures folder { CountsJust (F.faults (folder_of self.old)) (F.faults (folder_of self.new))
            (has_folder_failed result) }
        ensures status { IfFailed result (λ status. (status ≡ 600) ⊎ (status ≡ 605)) }
    {
        let answer = self.fetch(name, verify, out);
        self.count(&answer);
        self.log.get(name, verify, answer, out);
        answer
    }

    fn put(&mut self, name: &[u8], body: &[u8], meta: Option<Meta>) -> Result<(), LinkFault>
        ensures told { Gains (Some (log_of self.old)) (Some (log_of self.new))
            (call.Put name.now body.now meta (fault_of result) ∷ []) }
        ensures files { Becomes (F.files (folder_of self.old)) (F.files (folder_of self.new))
            (Puts name.now body.now result) }
        ensures object { IsObjectName name.now → Becomes (F.files (folder_of self.old))
            (F.files (folder_of self.new)) (PutsObject name.now body.now result) }
        ensures cause { CountsFaults (faults_of self.old) (faults_of self.new) (HasFailed result) }
        ensures count { CountsJust (faults_of self.old) (faults_of self.new) (has_failed result) }
        ensures folder { CountsJust (F.faults (folder_of self.old)) (F.faults (folder_of self.new))
            (has_folder_failed result) }
        ensures status { IfFailed result (λ status. status ≡ 605) }
    {
        let answer = self.store(name, body);
        self.count(&answer);
        self.log.put(name, body, meta, answer);
        answer
    }

    fn delete(&mut self, name: &[u8]) -> Result<(), LinkFault>
        ensures told { Gains (Some (log_of self.old)) (Some (log_of self.new))
            (call.Delete name.now (fault_of result) ∷ []) }
        ensures object { Becomes (F.files (folder_of self.old)) (F.files (folder_of self.new))
            (DeletesObject name.now result) }
        ensures cause { CountsFaults (faults_of self.old) (faults_of self.new) (HasFailed result) }
        ensures count { CountsJust (faults_of self.old) (faults_of self.new) (has_failed result) }
        ensures folder { CountsJust (F.faults (folder_of self.old)) (F.faults (folder_of self.new))
            (has_folder_failed result) }
        ensures status { IfFailed result (λ status. status ≡ 605) }
    {
        let answer = remove(&mut self.folder, name);
        self.count(&answer);
        self.log.delete(name, answer);
        answer
    }

    fn head(&mut self, name: &[u8]) -> Result<Option<HeadText>, LinkFault>
        ensures told { Gains (Some (log_of self.old)) (Some (log_of self.new))
            (call.Head name.now (head_reply result) ∷ []) }
        ensures found { IsObjectName name.now → IfSome (F.files (folder_of self.old))
            (λ files. FindsHead result (objects_of files name.now)) }
        ensures files { F.files (folder_of self.new) ≡ F.files (folder_of self.old) }
        ensures cause { CountsFaults (faults_of self.old) (faults_of self.new) (HasFailed result) }
        ensures count { CountsJust (faults_of self.old) (faults_of self.new) (has_failed result) }
        ensures folder { CountsJust (F.faults (folder_of self.old)) (F.faults (folder_of self.new))
            (has_folder_failed result) }
        ensures status { IfFailed result (λ status. status ≡ 605) }
    {
        let answer = head(&mut self.folder, name);
        self.count(&answer);
        self.log.head(name, &answer);
        answer
    }

    fn list(&mut self, prefix: &[u8], marker: &[u8], page: &mut Page) -> Result<bool, LinkFault>
        ensures told { Gains (Some (log_of self.old)) (Some (log_of self.new))
            (call.List prefix.now marker.now (list_reply result page.new) ∷ []) }
        ensures listed { IfSome (F.files (folder_of self.old))
            (λ files. IfOk result (λ more. IsPage prefix.now marker.now page.new more (objects_of files))) }
        ensures files { F.files (folder_of self.new) ≡ F.files (folder_of self.old) }
        ensures cause { CountsFaults (faults_of self.old) (faults_of self.new) (HasFailed result) }
        ensures count { CountsJust (faults_of self.old) (faults_of self.new) (has_failed result) }
        ensures folder { CountsJust (F.faults (folder_of self.old)) (F.faults (folder_of self.new))
            (has_folder_failed result) }
        ensures status { IfFailed result (λ status. status ≡ 605) }
    {
        let answer = list(&mut self.folder, prefix, marker, page);
        self.count(&answer);
        self.log.list(prefix, marker, answer, page);
        answer
    }
}
