//! What a request does to the files of a folder.

ghost use Rattle.std.specs.Prelude.{◌≡◌, ◌≢◌, ◌⊎◌, Ok, Some, None, IfSome, IfOk, IfErr, length};
ghost use Rattle.md5.specs.Md5.{md5};
ghost use Rattle.sb_world.specs.Told.{CountsJust};
ghost use Rattle.sb_world.specs.Folders.{Becomes};
ghost use Rattle.sb_dirstore.specs.Objects.{fault_at_link, IfFailed, objects_of, temporary_of, Finds, FindsHead};
ghost use Rattle.sb_dirstore.specs.Objects.{Puts, DeletesObject, has_folder_failed};
ghost use Rattle.sb_pages.specs.Listings.{IsPage};

use crate::listing::keep_page;
use md5::Md5;
use sb_base::Digest;
use sb_world::{FileGot, Folder, FolderFault, Got, HeadText, LinkFault, Page};

/// The status where an object has another length than was asked for.
pub const OTHER_LENGTH: u16 = 600;

/// The status where the folder failed.
pub const FOLDER_FAILED: u16 = 605;

/// What a folder's fault is at its link.
fn link_fault(fault: FolderFault) -> LinkFault
    ensures { result ≡ fault_at_link fault }
{
    match fault {
        FolderFault::Failed => LinkFault::Failed {
            status: FOLDER_FAILED,
        },
        FolderFault::Memory => LinkFault::Memory,
    }
}

/// Reads a file of the length of `out`.
pub(crate) fn read<F: Folder>(folder: &mut F, name: &[u8], out: &mut [u8]) -> Result<Got, LinkFault>
    ensures read { IfSome (F.files folder.old) (λ files. Finds None result out.new (files name.now)) }
    ensures unasked { result ≢ Ok (Got.Same) }
    ensures files { F.files folder.new ≡ F.files folder.old }
    ensures cause { CountsJust (F.faults folder.old) (F.faults folder.new) (has_folder_failed result) }
    ensures status { IfFailed result (λ status. (status ≡ 600) ⊎ (status ≡ 605)) }
{
    match folder.read(name, out) {
        Ok(FileGot::Absent) => Ok(Got::Absent),
        Ok(FileGot::Bytes) => Ok(Got::Bytes),
        Ok(FileGot::OtherLength(_)) => Err(LinkFault::Failed {
            status: OTHER_LENGTH,
        }),
        Err(fault) => Err(link_fault(fault)),
    }
}

/// Reads a file of the length of `out` into `room`, and copies it from there where it has another digest.
pub(crate) fn read_unless_same<F: Folder>(
    folder: &mut F,
    name: &[u8],
    digest: Digest,
    room: &mut [u8],
    out: &mut [u8],
) -> Result<Got, LinkFault>
    requires { length room.old ≡ length out.old }
    ensures read { IfSome (F.files folder.old) (λ files. Finds (Some digest) result out.new (files name.now)) }
    ensures unchanged { result ≡ Ok (Got.Same) → out.new ≡ out.old }
    ensures spared { IfErr result (λ fault. out.new ≡ out.old) }
    ensures files { F.files folder.new ≡ F.files folder.old }
    ensures cause { CountsJust (F.faults folder.old) (F.faults folder.new) (has_folder_failed result) }
    ensures status { IfFailed result (λ status. (status ≡ 600) ⊎ (status ≡ 605)) }
{
    match read(folder, name, room) {
        Ok(Got::Bytes) => Ok(copy_unless_same(room, digest, out)),
        Ok(got) => Ok(got),
        Err(fault) => Err(fault),
    }
}

/// Copies bytes where they have another digest.
fn copy_unless_same(bytes: &[u8], digest: Digest, out: &mut [u8]) -> Got
    requires { length bytes.now ≡ length out.old }
    ensures found { Finds (Some digest) (Ok result) out.new (Some bytes.now) }
    ensures unchanged { result ≡ Got.Same → out.new ≡ out.old }
{
    if digest_of(bytes) == digest {
        return Got::Same;
    }
    out.copy_from_slice(bytes);
    Got::Bytes
}

/// The MD5 of bytes.
fn digest_of(bytes: &[u8]) -> Digest
    ensures { result ≡ md5 bytes.now }
{
    use md5::Digest;
    Md5::digest(bytes)
}

/// Tells whether a file is there.
pub(crate) fn head<F: Folder>(folder: &mut F, name: &[u8]) -> Result<Option<HeadText>, LinkFault>
    ensures read { IfSome (F.files folder.old) (λ files. FindsHead result (files name.now)) }
    ensures files { F.files folder.new ≡ F.files folder.old }
    ensures cause { CountsJust (F.faults folder.old) (F.faults folder.new) (has_folder_failed result) }
    ensures status { IfFailed result (λ status. status ≡ 605) }
{
    match folder.read(name, &mut []) {
        Ok(FileGot::Absent) => Ok(None),
        Ok(_) => Ok(Some(HeadText {
            size: None,
            block_size: None,
        })),
        Err(fault) => Err(link_fault(fault)),
    }
}

/// Writes an object's temporary file and gives it the object's name.
pub(crate) fn replace<F: Folder>(
    folder: &mut F,
    temporary: &[u8],
    name: &[u8],
    body: &[u8],
) -> Result<(), LinkFault>
    requires { temporary.now ≡ temporary_of name.now }
    ensures told { Becomes (F.files folder.old) (F.files folder.new) (Puts name.now body.now result) }
    ensures cause { CountsJust (F.faults folder.old) (F.faults folder.new) (has_folder_failed result) }
    ensures status { IfFailed result (λ status. status ≡ 605) }
{
    if let Err(fault) = folder.write(temporary, body) {
        return Err(link_fault(fault));
    }
    match folder.rename(temporary, name) {
        Ok(()) => Ok(()),
        Err(fault) => Err(link_fault(fault)),
    }
}

/// Removes a file, if it is there.
pub(crate) fn remove<F: Folder>(folder: &mut F, name: &[u8]) -> Result<(), LinkFault>
    ensures told { Becomes (F.files folder.old) (F.files folder.new) (DeletesObject name.now result) }
    ensures cause { CountsJust (F.faults folder.old) (F.faults folder.new) (has_folder_failed result) }
    ensures status { IfFailed result (λ status. status ≡ 605) }
{
    match folder.remove(name) {
        Ok(_) => Ok(()),
        Err(fault) => Err(link_fault(fault)),
    }
}

/// Lists the next page of objects.
pub(crate) fn list<F: Folder>(
    folder: &mut F,
    prefix: &[u8],
    marker: &[u8],
    page: &mut Page,
) -> Result<bool, LinkFault>
    ensures listed { IfSome (F.files folder.old)
        (λ files. IfOk result (λ more. IsPage prefix.now marker.now page.new more (objects_of files))) }
    ensures files { F.files folder.new ≡ F.files folder.old }
    ensures cause { CountsJust (F.faults folder.old) (F.faults folder.new) (has_folder_failed result) }
    ensures status { IfFailed result (λ status. status ≡ 605) }
{
    match folder.list(page) {
        Ok(()) => Ok(keep_page(prefix, marker, page)),
        Err(fault) => Err(link_fault(fault)),
    }
}
