//! The greeting, the client's flags, and the export that ends the handshake.
//!
//! | Message | Offset | Bytes | Field |
//! |---|---|---|---|
//! | greeting | 0 | 16 | `NBDMAGIC`, `IHAVEOPT` |
//! | | 16 | 2 | flags: 1 fixed newstyle, 2 no zeroes |
//! | the client's flags | 0 | 4 | the same two bits |
//! | export | 0 | 8 | the disk's size |
//! | | 8 | 2 | transmission flags |
//! | | 10 | 124 | zeros, unless the client's flags have 2 |

ghost use Rattle.std.specs.Prelude.{◌≡◌, IsErr, IsErrOf, IsOkUnless};
ghost use Rattle.sb_world.specs.Told.{CountsFaults};
ghost use Rattle.sb_world.specs.Streams.{WriteHolds};
ghost use Rattle.sb_nbd.specs.Greetings.{greeting_bytes, export_head, padding, export_bytes, ReadsFlags};

use crate::end::NbdEnd;
use crate::filling::take_part;
use crate::sending::send;
use crate::wanted::u32_of;
use sb_world::{Sink, Source};

/// Both bits that a client may set.
pub const MAX_FLAGS: u32 = 3;

/// Writes the greeting.
#[tactic(auto, unfolding(crate::specs::Greetings::greeting_bytes))]
pub fn write_greeting<S: Sink>(sink: &mut S) -> Result<(), NbdEnd>
    ensures told { WriteHolds (S.held sink.old) (S.held sink.new) result greeting_bytes }
    ensures fault { IsOkUnless result NbdEnd.WriteFault }
    ensures cause { CountsFaults (S.faults sink.old) (S.faults sink.new) (IsErr result) }
{
    send(sink, b"NBDMAGICIHAVEOPT\x00\x03")
}

/// Reads the client's flags.
pub fn read_flags<R: Source>(source: &mut R) -> Result<u32, NbdEnd>
    ensures told { ReadsFlags (R.left source.old) (R.left source.new) result }
    ensures cause { CountsFaults (R.faults source.old) (R.faults source.new) (IsErrOf result NbdEnd.ReadFault) }
{
    let mut bytes = [0; 4];
    match take_part(source, 0, &mut bytes) {
        Ok(()) => {
            let flags = u32_of(&bytes);
            if flags > MAX_FLAGS {
                Err(NbdEnd::BadFlags(flags))
            } else {
                Ok(flags)
            }
        }
        Err(NbdEnd::Cut { got: 0 }) => Err(NbdEnd::Ended),
        Err(end) => Err(end),
    }
}

/// Writes the export of a disk of `size` bytes, the answer to EXPORT_NAME, with its zeros where they are wanted.
pub fn write_export<S: Sink>(
    sink: &mut S,
    size: u64,
    flags: u16,
    zeroes: bool,
) -> Result<(), NbdEnd>
    ensures told { WriteHolds (S.held sink.old) (S.held sink.new) result (export_bytes size flags zeroes) }
    ensures fault { IsOkUnless result NbdEnd.WriteFault }
    ensures cause { CountsFaults (S.faults sink.old) (S.faults sink.new) (IsErr result) }
{
    let head = head_of(size, flags);
    match send(sink, &head) {
        Ok(()) => write_padding(sink, zeroes),
        Err(end) => Err(end),
    }
}

#[tactic(auto, unfolding(crate::specs::Greetings::export_head))]
fn head_of(size: u64, flags: u16) -> [u8; 10]
    ensures { result ≡ export_head size flags }
{
    let s = size.to_be_bytes();
    let f = flags.to_be_bytes();
    [s[0], s[1], s[2], s[3], s[4], s[5], s[6], s[7], f[0], f[1]]
}

fn write_padding<S: Sink>(sink: &mut S, zeroes: bool) -> Result<(), NbdEnd>
    ensures told { WriteHolds (S.held sink.old) (S.held sink.new) result (padding zeroes) }
    ensures fault { IsOkUnless result NbdEnd.WriteFault }
    ensures cause { CountsFaults (S.faults sink.old) (S.faults sink.new) (IsErr result) }
{
    if zeroes {
        send(sink, &[0; 124])
    } else {
        send(sink, &[])
    }
}
