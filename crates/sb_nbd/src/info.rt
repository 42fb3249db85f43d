//! What INFO and GO ask for.
//!
//! | Offset | Bytes | Field |
//! |---|---|---|
//! | 0 | 4 | length of the name |
//! | 4 | length | name of the export |
//! | 4 + length | 2 | count of kinds |
//! | 6 + length | 2 each | kinds of information that are wanted |

ghost use Rattle.std.specs.Prelude.{◌≡◌, ◌≤◌, ◌<◌, ◌*◌, ◌^◌, ◌++◌, length};
ghost use Rattle.std.specs.Int.{w16, w32, to_be_bytes};
ghost use Rattle.sb_nbd.specs.InfoRequests.{ReadsInfo, ReadsKinds, with_kind};

use crate::wanted::{u16_of, u32_of};

/// The kind of information that has the block sizes.
pub const BLOCK_SIZE_KIND: u16 = 3;

/// What a client wants to know of the disk.
#[derive(Drop, Clone, Copy, PartialEq, Eq, Debug)]
pub enum Details {
    /// Its size and flags.
    Export,
    /// These, and its block sizes.
    ExportAndBlockSize,
}

/// Why an option is refused.
#[derive(Drop, Clone, Copy, PartialEq, Eq, Debug)]
pub enum OptionRefusal {
    /// This server doesn't know it.
    Unsupported,
    /// This server never takes it.
    Policy,
    /// It carries other bytes than it has to.
    Invalid,
    /// It names another export than the one with the empty name.
    Unknown,
}

/// What the bytes of INFO or GO ask for. Kinds that aren't known are passed over.
pub fn read_info(bytes: &[u8]) -> Result<Details, OptionRefusal>
    ensures { ReadsInfo bytes.now result }
{
    if bytes.len() < 6 {
        Err(OptionRefusal::Invalid)
    } else {
        let (size, behind) = bytes.split_at(4);
        read_named(u32_of(size), behind)
    }
}

/// The same, behind the length of the name.
fn read_named(size: u32, bytes: &[u8]) -> Result<Details, OptionRefusal>
    requires { 2 ≤ length bytes.now }
    ensures { ReadsInfo (to_be_bytes w32 size ++ bytes.now) result }
{
    if bytes.len() - 2 < size as usize {
        Err(OptionRefusal::Invalid)
    } else {
        let (name, behind) = bytes.split_at(size as usize);
        read_unnamed(name, behind)
    }
}

/// The same, behind the name.
fn read_unnamed(name: &[u8], bytes: &[u8]) -> Result<Details, OptionRefusal>
    requires name { length name.now < 2 ^ 32 }
    requires count { 2 ≤ length bytes.now }
    ensures { ReadsInfo (to_be_bytes w32 (length name.now) ++ (name.now ++ bytes.now)) result }
{
    let (size, kinds) = bytes.split_at(2);
    let count = u16_of(size);
    if kinds.len() == 2 * count as usize {
        read_details(name, count, kinds)
    } else {
        Err(OptionRefusal::Invalid)
    }
}

/// What is asked of the export of this name.
fn read_details(name: &[u8], count: u16, kinds: &[u8]) -> Result<Details, OptionRefusal>
    requires name { length name.now < 2 ^ 32 }
    requires count { length kinds.now ≡ 2 * count }
    ensures { ReadsInfo (to_be_bytes w32 (length name.now) ++ (name.now ++ (to_be_bytes w16 count ++ kinds.now))) result }
{
    let wanted = details_of(count, kinds);
    if name.is_empty() {
        Ok(wanted)
    } else {
        Err(OptionRefusal::Unknown)
    }
}

/// What so many kinds ask for.
fn details_of(count: u16, kinds: &[u8]) -> Details
    requires { length kinds.now ≡ 2 * count }
    ensures { ReadsKinds kinds.now count result }
{
    let mut wanted = Details::Export;
    for i in 0..count as usize {
        let at = 2 * i;
        wanted = with_kind(wanted, u16_of(&kinds[at..at + 2]));
    }
    wanted
}

/// What is wanted, where one more kind is.
fn with_kind(wanted: Details, kind: u16) -> Details
    ensures { result ≡ with_kind wanted kind }
{
    if kind == BLOCK_SIZE_KIND {
        Details::ExportAndBlockSize
    } else {
        wanted
    }
}
