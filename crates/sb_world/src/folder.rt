//! A folder of files.

ghost use Rattle.std.specs.Prelude.{◌≡◌, ℕ, List, Option, IfSome, length};
ghost use Rattle.sb_world.specs.Told.{CountsJust};
ghost use Rattle.sb_world.specs.Folders.{Files, Becomes, Reads, Writes, Renames, Removes, Lists, folder_failed};

use crate::link::Page;

/// What a folder has under a name.
#[derive(Drop, Clone, Copy, PartialEq, Eq, Debug)]
pub enum FileGot {
    /// There is no such file.
    Absent,
    /// The file is in the buffer.
    Bytes,
    /// The file has so many bytes, and the buffer has room for another number.
    OtherLength(u64),
}

/// Why a folder's call failed.
#[derive(Drop, Clone, Copy, PartialEq, Eq, Debug)]
pub enum FolderFault {
    Failed,
    Memory,
}

/// A folder of files, each by its name.
pub trait Folder {
    /// The bytes of each file, where it tells them.
    ghost files: { Self → Option Files };

    /// How often it has failed, for another cause than memory.
    ghost faults: { Self → ℕ };

    /// Reads a file of the length of `out`. After another answer than `Bytes` `out` is unspecified.
    fn read(&mut self, name: &[u8], out: &mut [u8]) -> Result<FileGot, FolderFault>
        ensures length { length out.new ≡ length out.old }
        ensures told { IfSome (files self.old) (λ files. Reads name.now result out.new files) }
        ensures files { files self.new ≡ files self.old }
        ensures cause { CountsJust (faults self.old) (faults self.new) (folder_failed result) };

    /// Writes a file, in the place of the one that has the name. A write that fails leaves that file unknown.
    fn write(&mut self, name: &[u8], body: &[u8]) -> Result<(), FolderFault>
        ensures told { Becomes (files self.old) (files self.new) (Writes name.now body.now result) }
        ensures cause { CountsJust (faults self.old) (faults self.new) (folder_failed result) };

    /// Gives a file another name, in the place of the one that has it; it fails where there is no such file. A rename
    /// that fails leaves both files unknown.
    fn rename(&mut self, from: &[u8], to: &[u8]) -> Result<(), FolderFault>
        ensures told { Becomes (files self.old) (files self.new) (Renames from.now to.now result) }
        ensures cause { CountsJust (faults self.old) (faults self.new) (folder_failed result) };

    /// Removes a file, and answers whether it was there. A remove that fails leaves that file unknown.
    fn remove(&mut self, name: &[u8]) -> Result<bool, FolderFault>
        ensures told { Becomes (files self.old) (files self.new) (Removes name.now result) }
        ensures cause { CountsJust (faults self.old) (faults self.new) (folder_failed result) };

    /// Lists the names of all files, each once and in any order. After a fault the page is unspecified.
    fn list(&mut self, page: &mut Page) -> Result<(), FolderFault>
        ensures told { IfSome (files self.old) (λ files. Lists page.new result files) }
        ensures files { files self.new ≡ files self.old }
        ensures cause { CountsJust (faults self.old) (faults self.new) (folder_failed result) };
}
