//! Reading requests.
//!
//! | Offset | Bytes | Field |
//! |---|---|---|
//! | 0 | 4 | magic `25609513` |
//! | 4 | 24 | the fields of `Wanted` |
//! | 28 | length | of a WRITE, its bytes |

ghost use Rattle.std.specs.Prelude.{◌≡◌, ◌≤◌, length, IsErrOf};
ghost use Rattle.sb_world.specs.Told.{CountsFaults};
ghost use Rattle.sb_nbd.specs.RequestReading.{ReadsMagic, ReadsFields, ReadsPayload, ReadsRequest};

use crate::command::WRITE;
use crate::end::NbdEnd;
use crate::filling::take_part;
use crate::wanted::{Wanted, u32_of, wanted_of};
use sb_world::Source;

/// What a request begins with.
pub const REQUEST_MAGIC: u32 = 0x25609513;

/// The most bytes that a WRITE carries, 32 MiB.
pub const MAX_PAYLOAD: u32 = 33_554_432;

/// Reads one request, with the bytes of a WRITE at the front of a buffer. A WRITE longer than `MAX_PAYLOAD` is `TooBig`
/// before its bytes are taken.
pub fn read_request<R: Source>(source: &mut R, room: &mut [u8]) -> Result<Wanted, NbdEnd>
    requires { MAX_PAYLOAD ≤ length room.old }
    ensures length { length room.new ≡ length room.old }
    ensures told { ReadsRequest (R.left source.old) (R.left source.new) result room.new }
    ensures cause { CountsFaults (R.faults source.old) (R.faults source.new) (IsErrOf result NbdEnd.ReadFault) }
{
    match read_magic(source) {
        Ok(()) => {}
        Err(end) => return Err(end),
    }
    let wanted = match read_fields(source) {
        Ok(wanted) => wanted,
        Err(end) => return Err(end),
    };
    match read_payload(source, wanted, room) {
        Ok(()) => Ok(wanted),
        Err(end) => Err(end),
    }
}

#[tactic(auto, unfolding(crate::specs::Requests::magic_bytes))]
fn read_magic<R: Source>(source: &mut R) -> Result<(), NbdEnd>
    ensures told { ReadsMagic (R.left source.old) (R.left source.new) result }
    ensures cause { CountsFaults (R.faults source.old) (R.faults source.new) (IsErrOf result NbdEnd.ReadFault) }
{
    let mut bytes = [0; 4];
    match take_part(source, 0, &mut bytes) {
        Ok(()) => {
            let magic = u32_of(&bytes);
            if magic == REQUEST_MAGIC {
                Ok(())
            } else {
                Err(NbdEnd::BadMagic(magic as u64))
            }
        }
        Err(NbdEnd::Cut { got: 0 }) => Err(NbdEnd::Ended),
        Err(end) => Err(end),
    }
}

fn read_fields<R: Source>(source: &mut R) -> Result<Wanted, NbdEnd>
    ensures told { ReadsFields (R.left source.old) (R.left source.new) result }
    ensures cause { CountsFaults (R.faults source.old) (R.faults source.new) (IsErrOf result NbdEnd.ReadFault) }
{
    let mut bytes = [0; 24];
    match take_part(source, 4, &mut bytes) {
        Ok(()) => Ok(wanted_of(&bytes)),
        Err(end) => Err(end),
    }
}

fn read_payload<R: Source>(source: &mut R, wanted: Wanted, room: &mut [u8]) -> Result<(), NbdEnd>
    requires { MAX_PAYLOAD ≤ length room.old }
    ensures length { length room.new ≡ length room.old }
    ensures told { ReadsPayload (R.left source.old) (R.left source.new) wanted result room.new }
    ensures cause { CountsFaults (R.faults source.old) (R.faults source.new) (IsErrOf result NbdEnd.ReadFault) }
{
    if wanted.kind != WRITE {
        return Ok(());
    }
    if wanted.length > MAX_PAYLOAD {
        return Err(NbdEnd::TooBig {
            length: wanted.length,
        });
    }
    take_part(source, 28, &mut room[..wanted.length as usize])
}
