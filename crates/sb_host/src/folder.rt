//! A directory of the file system.
//!
//! What it decides of an outcome stands in small functions, whose clauses are exact.

ghost use Rattle.std.specs.Prelude.{◌≡◌, None};
ghost use Rattle.sb_world.specs.Told.{CountsJust};
ghost use Rattle.sb_world.specs.Folders.{folder_failed};
ghost use Rattle.sb_host.specs.Outcomes.{IsFound, IsSettled, fault_of_kind, count_after};

use sb_base::Text;
use sb_world::{FileGot, Folder, FolderFault, Page};
use std::alloc::AllocError;
use std::fs::{self, File, Files, Metadata, OpenOptions};
use std::io::{self, Read, Write};
use std::os::unix::fs::MetadataExt;
use std::path::Path;
use std::rt::HostRuntime;
use std::str;

/// A file that is open.
type HostFile = <HostRuntime as Files>::File;

/// Which directory it is: its device, and its number there.
#[derive(Drop, Clone, Copy, PartialEq, Eq, Debug)]
struct Place {
    device: u64,
    inode: u64,
}

/// A directory of the file system. What was written is synced before the call answers: a file's bytes after a write,
/// and the directory after a rename and after a remove.
///
/// A call fails where the path names another directory by then, or none: one that was moved, removed or unmounted has
/// no more files, and isn't a disk of zeros. A name that stands for anything but a file is a fault; it is never opened, and
/// a link isn't followed.
#[derive(Drop)]
pub struct HostFolder {
    rt: HostRuntime,
    /// The path of the directory with a slash behind it, and nothing where there is none.
    root: String,
    directory: Option<HostFile>,
    /// The directory that was opened.
    place: Option<Place>,
    /// Whether a name has changed since the directory was synced.
    unsynced: bool,
    /// The paths of the files in work.
    path: String,
    other: String,
    faults: u64,
}

impl HostFolder {
    /// The directory of a path. It is made where there is none, with those above it.
    pub fn open(rt: HostRuntime, path: &str) -> io::Result<HostFolder> {
        make_directory(&rt, Path::new(path))?;
        let directory = File::open(&rt, path)?;
        let metadata = directory.metadata()?;
        if !metadata.is_dir() {
            return Err(io::Error::from(io::ErrorKind::NotADirectory));
        }
        let mut root = String::from_str(rt.alloc(), path)?;
        root.push('/')?;
        Ok(HostFolder {
            rt,
            root,
            directory: Some(directory),
            place: Some(place_of(&metadata)),
            unsynced: false,
            path: String::new(rt.alloc()),
            other: String::new(rt.alloc()),
            faults: 0,
        })
    }

    /// A folder of no directory: each call fails. It takes no memory.
    pub fn nowhere(rt: HostRuntime) -> HostFolder {
        HostFolder {
            rt,
            root: String::new(rt.alloc()),
            directory: None,
            place: None,
            unsynced: false,
            path: String::new(rt.alloc()),
            other: String::new(rt.alloc()),
            faults: 0,
        }
    }

    /// Reads a file of the length of `out`.
    fn read_file(&mut self, name: &[u8], out: &mut [u8]) -> io::Result<FileGot>
        ensures { self.new.faults ≡ self.old.faults }
    {
        set_path(&mut self.path, &self.root, name)?;
        if !found(fs::symlink_metadata(&self.rt, &self.path))? {
            return Ok(FileGot::Absent);
        }
        let mut file = File::open(&self.rt, &self.path)?;
        let length = file.metadata()?.len();
        if length != out.len() as u64 {
            return Ok(FileGot::OtherLength(length));
        }
        file.read_exact(out)?;
        Ok(FileGot::Bytes)
    }

    /// Writes a new file in the place of the one that has the name, and syncs it.
    fn write_file(&mut self, name: &[u8], body: &[u8]) -> io::Result<()>
        ensures { self.new.faults ≡ self.old.faults }
    {
        set_path(&mut self.path, &self.root, name)?;
        if found(fs::symlink_metadata(&self.rt, &self.path))? {
            fs::remove_file(&self.rt, &self.path)?;
        }
        let mut file = OpenOptions::new()
            .write(true)
            .create_new(true)
            .open(&self.rt, &self.path)?;
        file.write_all(body)?;
        file.sync_all()
    }

    /// Gives a file another name, and syncs the directory.
    fn rename_file(&mut self, from: &[u8], to: &[u8]) -> io::Result<()>
        ensures { self.new.faults ≡ self.old.faults }
    {
        set_path(&mut self.path, &self.root, from)?;
        set_path(&mut self.other, &self.root, to)?;
        self.unsynced = true;
        fs::rename(&self.rt, &self.path, &self.other)?;
        self.sync()
    }

    /// Removes a file where it is there, and syncs the directory.
    fn remove_file(&mut self, name: &[u8]) -> io::Result<bool>
        ensures { self.new.faults ≡ self.old.faults }
    {
        set_path(&mut self.path, &self.root, name)?;
        let there = match fs::remove_file(&self.rt, &self.path) {
            Ok(()) => {
                self.unsynced = true;
                true
            }
            Err(error) if error.kind() == io::ErrorKind::NotFound => false,
            Err(error) => {
                self.unsynced = true;
                return Err(error);
            }
        };
        self.sync()?;
        Ok(there)
    }

    /// Syncs the directory, if a name in it has changed.
    fn sync(&mut self) -> io::Result<()>
        ensures { self.new.faults ≡ self.old.faults }
    {
        if self.unsynced {
            if let Some(directory) = &self.directory {
                directory.sync_all()?;
            }
            self.unsynced = false;
        }
        Ok(())
    }

    /// Gives the names in the directory. One that isn't UTF-8 is none of a disk's.
    fn names(&self, page: &mut Page) -> io::Result<()> {
        let mut names = Vec::new(self.rt.alloc());
        for entry in fs::read_dir(&self.rt, &self.root)? {
            match entry {
                Ok(entry) => names.push(Text::of(self.rt.alloc(), entry.file_name().as_bytes())?)?,
                Err(error) if error.kind() == io::ErrorKind::InvalidFilename => {}
                Err(error) => return Err(error),
            }
        }
        page.keys = names;
        Ok(())
    }

    /// Fails where the path names another directory than the one that was opened, or none.
    fn check_place(&self) -> io::Result<()> {
        if Some(place_of(&fs::metadata(&self.rt, &self.root)?)) == self.place {
            Ok(())
        } else {
            Err(io::Error::from(io::ErrorKind::StaleNetworkFileHandle))
        }
    }

    /// Answers a call that ended so, if the directory is still in its place. A failure is counted, unless it is want of
    /// memory.
    fn answer<T: Drop>(&mut self, outcome: io::Result<T>) -> Result<T, FolderFault>
        ensures faults { self.new.faults ≡ count_after (folder_failed result) self.old.faults }
        ensures cause { CountsJust self.old.faults self.new.faults (folder_failed result) }
    {
        let answer = settled(outcome, self.check_place());
        if matches!(answer, Err(FolderFault::Failed)) {
            self.faults = self.faults.saturating_add(1);
        }
        answer
    }
}

/// The directory that metadata are of.
fn place_of(metadata: &Metadata) -> Place {
    Place {
        device: metadata.dev(),
        inode: metadata.ino(),
    }
}

/// Whether a file stands under a name, by what was found there without opening it. Anything else under it is a fault, and
/// so is each failure but that nothing is there.
fn found(seen: io::Result<Metadata>) -> io::Result<bool>
    ensures { IsFound seen result }
{
    match seen {
        Ok(metadata) if metadata.is_file() => Ok(true),
        Ok(_) => Err(io::Error::from(io::ErrorKind::InvalidInput)),
        Err(error) if error.kind() == io::ErrorKind::NotFound => Ok(false),
        Err(error) => Err(error),
    }
}

/// What a call answers that ended so, where the directory was found in its place or wasn't.
fn settled<T: Drop>(outcome: io::Result<T>, place: io::Result<()>) -> Result<T, FolderFault>
    ensures { IsSettled outcome place result }
{
    match (outcome, place) {
        (Ok(value), Ok(())) => Ok(value),
        (Ok(_), Err(error)) => Err(fault_of(error.kind())),
        (Err(error), _) => Err(fault_of(error.kind())),
    }
}

/// The fault of a kind of error.
fn fault_of(kind: io::ErrorKind) -> FolderFault
    ensures { result ≡ fault_of_kind kind }
{
    match kind {
        io::ErrorKind::OutOfMemory => FolderFault::Memory,
        _ => FolderFault::Failed,
    }
}

/// Makes a directory and those above it where there are none, and syncs the one above each that was made.
fn make_directory(rt: &HostRuntime, path: Path<'_>) -> io::Result<()> {
    let missing = path
        .ancestors()
        .take_while(|above| !above.is_dir(rt))
        .count();
    fs::create_dir_all(rt, path)?;
    for above in path.ancestors().skip(1).take(missing) {
        let above = if above.as_str().is_empty() {
            "."
        } else {
            above.as_str()
        };
        File::open(rt, above)?.sync_all()?;
    }
    Ok(())
}

/// Makes a path of the directory's and a file's name.
fn set_path(path: &mut String, root: &str, name: &[u8]) -> io::Result<()> {
    if root.is_empty() {
        return Err(io::Error::from(io::ErrorKind::NotADirectory));
    }
    let name = match str::from_utf8(name) {
        Ok(name) => name,
        Err(_) => return Err(io::Error::from(io::ErrorKind::InvalidFilename)),
    };
    path.clear();
    path.push_str(root)?;
    path.push_str(name)?;
    Ok(())
}

impl Folder for HostFolder {
    ghost files = { λ _. None };

    ghost faults = { λ folder. folder.faults };

    fn read(&mut self, name: &[u8], out: &mut [u8]) -> Result<FileGot, FolderFault> {
        let outcome = self.read_file(name, out);
        self.answer(outcome)
    }

    fn write(&mut self, name: &[u8], body: &[u8]) -> Result<(), FolderFault> {
        let outcome = self.write_file(name, body);
        self.answer(outcome)
    }

    fn rename(&mut self, from: &[u8], to: &[u8]) -> Result<(), FolderFault> {
        let outcome = self.rename_file(from, to);
        self.answer(outcome)
    }

    fn remove(&mut self, name: &[u8]) -> Result<bool, FolderFault> {
        let outcome = self.remove_file(name);
        self.answer(outcome)
    }

    fn list(&mut self, page: &mut Page) -> Result<(), FolderFault> {
        let outcome = self.names(page);
        self.answer(outcome)
    }
}
