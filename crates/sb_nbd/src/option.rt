//! Reading options, the requests of the handshake.
//!
//! | Offset | Bytes | Field |
//! |---|---|---|
//! | 0 | 8 | magic `IHAVEOPT` |
//! | 8 | 4 | option |
//! | 12 | 4 | length |
//! | 16 | length | its bytes |

ghost use Rattle.std.specs.Prelude.{◌≡◌, ◌≤◌, length, IsErrOf};
ghost use Rattle.sb_world.specs.Told.{CountsFaults};
ghost use Rattle.sb_nbd.specs.Options.{head_bytes, FitsHead};
ghost use Rattle.sb_nbd.specs.OptionReading.{ReadsOptionMagic, ReadsHead, ReadsOptionPayload, ReadsOption};

use crate::end::NbdEnd;
use crate::filling::take_part;
use crate::wanted::{u32_of, u64_of};
use sb_world::Source;

/// What an option begins with, `IHAVEOPT`.
pub const OPTION_MAGIC: u64 = 0x49484156454f5054;

/// The most bytes that an option carries.
pub const MAX_OPTION: u32 = 65_536;

/// The option that names an export and ends the handshake.
pub const EXPORT_NAME: u32 = 1;

/// The option that ends the session.
pub const ABORT: u32 = 2;

/// The option that asks for the names of all exports.
pub const LIST: u32 = 3;

/// The option that asks for TLS.
pub const STARTTLS: u32 = 5;

/// The option that asks about an export.
pub const INFO: u32 = 6;

/// The option that asks about an export, and ends the handshake.
pub const GO: u32 = 7;

/// An option, and how many bytes it carries.
#[derive(Drop, Clone, Copy, PartialEq, Eq, Debug)]
pub struct Asked {
    pub option: u32,
    pub length: u32,
}

/// Reads one option, with its bytes at the front of a buffer. One longer than `MAX_OPTION` is `TooBig` before its bytes
/// are taken.
pub fn read_option<R: Source>(source: &mut R, room: &mut [u8]) -> Result<Asked, NbdEnd>
    requires { MAX_OPTION ≤ length room.old }
    ensures length { length room.new ≡ length room.old }
    ensures told { ReadsOption (R.left source.old) (R.left source.new) result room.new }
    ensures cause { CountsFaults (R.faults source.old) (R.faults source.new) (IsErrOf result NbdEnd.ReadFault) }
{
    match read_magic(source) {
        Ok(()) => {}
        Err(end) => return Err(end),
    }
    let asked = match read_head(source) {
        Ok(asked) => asked,
        Err(end) => return Err(end),
    };
    match read_payload(source, asked, room) {
        Ok(()) => Ok(asked),
        Err(end) => Err(end),
    }
}

#[tactic(auto, unfolding(crate::specs::Options::option_magic_bytes))]
fn read_magic<R: Source>(source: &mut R) -> Result<(), NbdEnd>
    ensures told { ReadsOptionMagic (R.left source.old) (R.left source.new) result }
    ensures cause { CountsFaults (R.faults source.old) (R.faults source.new) (IsErrOf result NbdEnd.ReadFault) }
{
    let mut bytes = [0; 8];
    match take_part(source, 0, &mut bytes) {
        Ok(()) => {
            let magic = u64_of(&bytes);
            if magic == OPTION_MAGIC {
                Ok(())
            } else {
                Err(NbdEnd::BadMagic(magic))
            }
        }
        Err(NbdEnd::Cut { got: 0 }) => Err(NbdEnd::Ended),
        Err(end) => Err(end),
    }
}

fn read_head<R: Source>(source: &mut R) -> Result<Asked, NbdEnd>
    ensures told { ReadsHead (R.left source.old) (R.left source.new) result }
    ensures cause { CountsFaults (R.faults source.old) (R.faults source.new) (IsErrOf result NbdEnd.ReadFault) }
{
    let mut bytes = [0; 8];
    match take_part(source, 8, &mut bytes) {
        Ok(()) => Ok(asked_of(&bytes)),
        Err(end) => Err(end),
    }
}

#[tactic(auto, unfolding(crate::specs::Options::head_bytes))]
fn asked_of(bytes: &[u8]) -> Asked
    requires { length bytes.now ≡ 8 }
    ensures bytes { head_bytes result ≡ bytes.now }
    ensures fits { FitsHead result }
{
    let (option, length) = bytes.split_at(4);
    Asked {
        option: u32_of(option),
        length: u32_of(length),
    }
}

fn read_payload<R: Source>(source: &mut R, asked: Asked, room: &mut [u8]) -> Result<(), NbdEnd>
    requires { MAX_OPTION ≤ length room.old }
    ensures length { length room.new ≡ length room.old }
    ensures told { ReadsOptionPayload (R.left source.old) (R.left source.new) asked result room.new }
    ensures cause { CountsFaults (R.faults source.old) (R.faults source.new) (IsErrOf result NbdEnd.ReadFault) }
{
    if asked.length > MAX_OPTION {
        return Err(NbdEnd::TooBig {
            length: asked.length,
        });
    }
    take_part(source, 16, &mut room[..asked.length as usize])
}
