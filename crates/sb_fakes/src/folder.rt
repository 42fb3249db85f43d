//! A folder in memory.

ghost use Rattle.std.specs.Prelude.{◌≡◌, ◌/◌, true, Ok, Some, IfOk, MatchResult, length};
ghost use Rattle.std.specs.Option.{option_copied};
ghost use Rattle.sb_world.specs.Told.{CountsJust};
ghost use Rattle.sb_world.specs.Folders.{Becomes, Reads, Writes, Renames, Removes, Lists, folder_failed};
ghost use Rattle.sb_world.specs.declared.folder.FolderFault.{FolderFault};
ghost use Rattle.sb_fakes.specs.Objects.{bodies_of, count_of};
ghost use Rattle.sb_fakes.specs.Failing.{fails_next, answered, one_more};
ghost use Rattle.sb_fakes.specs.Folders.{left_of, MayHaveBody, Moves, MayMove, WritesOrLeaves, RenamesOrLeaves};
ghost use Rattle.sb_fakes.specs.Folders.{RemovesOrFails, FailsAsPlanned};

use crate::faults::Faults;
use crate::names::names_of;
use crate::object::{Object, body_of, put, take_away};
use sb_base::Text;
use sb_world::{FileGot, Folder, FolderFault, Page};
use std::alloc::{AllocError, Global};

/// What a write or a rename that is to fail leaves under the name that it was to change.
#[derive(Drop, Clone, Copy, PartialEq, Eq, Debug)]
pub enum Left {
    /// What was there, and a rename's file under its first name.
    Old,
    /// The whole new file.
    New,
    /// The first half of the new file's bytes.
    Cut,
}

/// A folder that keeps its files in a list and tells them always. Of two files of one name in the list it is given, it
/// has the first. The calls in `fails`, counted from 1, fail. A write or a rename that fails so leaves what `left` says,
/// and each other call that fails changes nothing.
#[derive(Drop)]
pub struct MemoryFolder {
    alloc: Global,
    files: Vec<Object>,
    left: Left,
    faults: Faults,
}

impl MemoryFolder {
    /// A folder of these files, whose calls that fail change nothing.
    pub fn new(alloc: Global, files: Vec<Object>, fails: Vec<u64>) -> MemoryFolder
        ensures given { (result.files ≡ files) × (result.faults.planned ≡ fails) × (result.faults.calls ≡ 0) }
        ensures left { result.left ≡ Left.Old }
        ensures faults { result.faults.count ≡ 0 }
    {
        MemoryFolder {
            alloc,
            files,
            left: Left::Old,
            faults: Faults::new(fails),
        }
    }

    /// Chooses what the writes and renames that are to fail leave from now on.
    pub fn leave(&mut self, left: Left)
        ensures left { self.new.left ≡ left }
        ensures stays { (self.new.files ≡ self.old.files) × (self.new.faults ≡ self.old.faults) }
    {
        self.left = left;
    }

    /// What a file has, if it is there.
    pub fn body(&self, name: &[u8]) -> Option<&[u8]>
        ensures { option_copied result ≡ bodies_of self.now.files.items name.now }
    {
        body_of(&self.files, name).map(Text::bytes)
    }

    /// How many files there are.
    pub fn count(&self) -> usize
        ensures { result ≡ count_of self.now.files.items }
    {
        let mut count = 0;
        for index in 0..self.files.len() {
            if body_of(&self.files[index + 1..], self.files[index].name.bytes()).is_none() {
                count += 1;
            }
        }
        count
    }

    /// Counts a fault.
    fn fail(&mut self) -> FolderFault
        ensures fault { result ≡ FolderFault.Failed }
        ensures faults { self.new.faults ≡ record {
          planned = self.old.faults.planned;
          calls = self.old.faults.calls;
          count = one_more self.old.faults.count;
        } }
        ensures cause { CountsJust self.old.faults.count self.new.faults.count true }
        ensures stays { (self.new.files ≡ self.old.files) × (self.new.left ≡ self.old.left) }
    {
        self.faults.add();
        FolderFault::Failed
    }
}

impl Left {
    /// The bytes that take the place of a file, if any do.
    fn of(self, body: &[u8]) -> Option<&[u8]>
        ensures { option_copied result ≡ left_of self body.now }
    {
        match self {
            Left::Old => None,
            Left::New => Some(body),
            Left::Cut => Some(&body[..body.len() / 2]),
        }
    }
}

/// Reads a file into a buffer of its length.
fn fetch(files: &[Object], name: &[u8], out: &mut [u8]) -> FileGot
    ensures { Reads {E = FolderFault} name.now (Ok result) out.new (bodies_of files.now) }
{
    match body_of(files, name).map(Text::bytes) {
        None => FileGot::Absent,
        Some(body) if body.len() == out.len() => {
            out.copy_from_slice(body);
            FileGot::Bytes
        }
        Some(body) => FileGot::OtherLength(body.len() as u64),
    }
}

/// Makes a file just these bytes, if there are any.
fn place(
    alloc: Global,
    files: &mut Vec<Object>,
    name: &[u8],
    body: Option<&[u8]>,
) -> Result<(), AllocError>
    ensures { MatchResult result
        (λ _. MayHaveBody name.now (option_copied body.entry) (bodies_of files.old.items) (bodies_of files.new.items))
        (λ _. files.new.items ≡ files.old.items) }
{
    match body {
        Some(body) => put(files, Text::of(alloc, name)?, Text::of(alloc, body)?),
        None => Ok(()),
    }
}

/// Gives bytes, if there are any, another name.
fn move_file(
    alloc: Global,
    files: &mut Vec<Object>,
    from: &[u8],
    to: &[u8],
    body: Option<&[u8]>,
) -> Result<(), AllocError>
    ensures { MatchResult result
        (λ _. MayMove from.now to.now (option_copied body.entry) (bodies_of files.old.items)
        (bodies_of files.new.items))
        (λ _. files.new.items ≡ files.old.items) }
{
    let Some(body) = body else {
        return Ok(());
    };
    put(files, Text::of(alloc, to)?, Text::of(alloc, body)?)?;
    if from != to {
        take_away(files, from);
    }
    Ok(())
}

/// A copy of a file's body, if it is there.
fn copy_of(alloc: Global, files: &[Object], name: &[u8]) -> Result<Option<Text>, AllocError>
    ensures { IfOk result (λ copy. copy ≡ bodies_of files.now name.now) }
{
    match body_of(files, name) {
        Some(body) => Ok(Some(body.copy(alloc)?)),
        None => Ok(None),
    }
}

impl Folder for MemoryFolder {
    ghost files = { λ folder. Some (bodies_of folder.files.items) };

    ghost faults = { λ folder. folder.faults.count };

    fn read(&mut self, name: &[u8], out: &mut [u8]) -> Result<FileGot, FolderFault>
        ensures length { length out.new ≡ length out.old }
        ensures told { Reads name.now result out.new (bodies_of self.old.files.items) }
        ensures files { self.new.files ≡ self.old.files }
        ensures cause { CountsJust self.old.faults.count self.new.faults.count (folder_failed result) }
        ensures planned { FailsAsPlanned (fails_next self.old.faults) result }
        ensures faults { self.new.faults ≡ answered (folder_failed result) self.old.faults }
        ensures left { self.new.left ≡ self.old.left }
    {
        if self.faults.next_call_fails() {
            return Err(self.fail());
        }
        Ok(fetch(&self.files, name, out))
    }

    fn write(&mut self, name: &[u8], body: &[u8]) -> Result<(), FolderFault>
        ensures told { Becomes (Some (bodies_of self.old.files.items)) (Some (bodies_of self.new.files.items))
            (Writes name.now body.now result) }
        ensures cause { CountsJust self.old.faults.count self.new.faults.count (folder_failed result) }
        ensures files { WritesOrLeaves (fails_next self.old.faults) self.old.left name.now body.now result
            (bodies_of self.old.files.items) (bodies_of self.new.files.items) }
        ensures faults { self.new.faults ≡ answered (folder_failed result) self.old.faults }
        ensures left { self.new.left ≡ self.old.left }
    {
        let fails = self.faults.next_call_fails();
        let body = if fails {
            self.left.of(body)
        } else {
            Some(body)
        };
        if place(self.alloc, &mut self.files, name, body).is_err() {
            return Err(FolderFault::Memory);
        }
        if fails { Err(self.fail()) } else { Ok(()) }
    }

    fn rename(&mut self, from: &[u8], to: &[u8]) -> Result<(), FolderFault>
        ensures told { Becomes (Some (bodies_of self.old.files.items)) (Some (bodies_of self.new.files.items))
            (Renames from.now to.now result) }
        ensures cause { CountsJust self.old.faults.count self.new.faults.count (folder_failed result) }
        ensures files { RenamesOrLeaves (fails_next self.old.faults) self.old.left from.now to.now result
            (bodies_of self.old.files.items) (bodies_of self.new.files.items) }
        ensures faults { self.new.faults ≡ answered (folder_failed result) self.old.faults }
        ensures left { self.new.left ≡ self.old.left }
    {
        let fails = self.faults.next_call_fails();
        let body = match copy_of(self.alloc, &self.files, from) {
            Ok(Some(body)) => body,
            Ok(None) => return Err(self.fail()),
            Err(_) => return Err(FolderFault::Memory),
        };
        let moved = if fails {
            self.left.of(body.bytes())
        } else {
            Some(body.bytes())
        };
        if move_file(self.alloc, &mut self.files, from, to, moved).is_err() {
            return Err(FolderFault::Memory);
        }
        if fails { Err(self.fail()) } else { Ok(()) }
    }

    fn remove(&mut self, name: &[u8]) -> Result<bool, FolderFault>
        ensures told { Becomes (Some (bodies_of self.old.files.items)) (Some (bodies_of self.new.files.items))
            (Removes name.now result) }
        ensures cause { CountsJust self.old.faults.count self.new.faults.count (folder_failed result) }
        ensures files { RemovesOrFails (fails_next self.old.faults) name.now result
            (bodies_of self.old.files.items) (bodies_of self.new.files.items) }
        ensures faults { self.new.faults ≡ answered (folder_failed result) self.old.faults }
        ensures left { self.new.left ≡ self.old.left }
    {
        if self.faults.next_call_fails() {
            return Err(self.fail());
        }
        let there = self.body(name).is_some();
        take_away(&mut self.files, name);
        Ok(there)
    }

    fn list(&mut self, page: &mut Page) -> Result<(), FolderFault>
        ensures told { Lists page.new result (bodies_of self.old.files.items) }
        ensures files { self.new.files ≡ self.old.files }
        ensures cause { CountsJust self.old.faults.count self.new.faults.count (folder_failed result) }
        ensures planned { FailsAsPlanned (fails_next self.old.faults) result }
        ensures faults { self.new.faults ≡ answered (folder_failed result) self.old.faults }
        ensures left { self.new.left ≡ self.old.left }
    {
        if self.faults.next_call_fails() {
            return Err(self.fail());
        }
        match names_of(self.alloc, &self.files) {
            Ok(names) => {
                page.keys = names;
                Ok(())
            }
            Err(_) => Err(FolderFault::Memory),
        }
    }
}
