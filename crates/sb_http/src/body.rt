//! Reading bodies.

ghost use Rattle.std.specs.Prelude.{◌≡◌, IsErrOf};
ghost use Rattle.sb_world.specs.Told.{CountsFaults};
ghost use Rattle.sb_http.specs.Bodies.{ReadsBody};
ghost use Rattle.sb_http.specs.Windows.{pending};

use crate::chunked::read_chunked;
use crate::fault::HttpFault;
use crate::framing::Framing;
use crate::incoming::{take_byte, take_into};
use crate::window::Window;
use sb_world::Wire;

/// Reads a body of at most `limit` bytes behind those of `room`, and answers its length.
pub(crate) fn read_body<W: Wire>(
    wire: &mut W,
    window: &mut Window,
    framing: Framing,
    limit: u64,
    room: &mut Vec<u8>,
) -> Result<u64, HttpFault>
    ensures told { ReadsBody framing limit (W.connections wire.old) (W.connections wire.new)
        (pending window.old) room.old.items room.new.items result }
    ensures cause { CountsFaults (W.faults wire.old) (W.faults wire.new) (IsErrOf result HttpFault.WireFault) }
{
    match framing {
        Framing::Empty => Ok(0),
        Framing::Sized(size) => read_sized(wire, window, size, limit, room),
        Framing::Chunked => read_chunked(wire, window, limit, room),
        Framing::ToEnd => read_to_end(wire, window, limit, room),
    }
}

/// Reads a body of a length that was declared.
fn read_sized<W: Wire>(
    wire: &mut W,
    window: &mut Window,
    size: u64,
    limit: u64,
    room: &mut Vec<u8>,
) -> Result<u64, HttpFault>
    ensures told { ReadsBody (Framing.Sized size) limit (W.connections wire.old) (W.connections wire.new)
        (pending window.old) room.old.items room.new.items result }
    ensures cause { CountsFaults (W.faults wire.old) (W.faults wire.new) (IsErrOf result HttpFault.WireFault) }
{
    if size > limit {
        return Err(HttpFault::TooLong { limit });
    }
    match take_into(wire, window, room, size as usize) {
        Ok(came) => {
            let got = came as u64;
            if got < size {
                Err(HttpFault::BodyCut {
                    want: Some(size),
                    got,
                })
            } else {
                Ok(size)
            }
        }
        Err(fault) => Err(fault),
    }
}

/// Reads a body to the end of the input.
fn read_to_end<W: Wire>(
    wire: &mut W,
    window: &mut Window,
    limit: u64,
    room: &mut Vec<u8>,
) -> Result<u64, HttpFault>
    ensures told { ReadsBody Framing.ToEnd limit (W.connections wire.old) (W.connections wire.new)
        (pending window.old) room.old.items room.new.items result }
    ensures cause { CountsFaults (W.faults wire.old) (W.faults wire.new) (IsErrOf result HttpFault.WireFault) }
{
    let got = match take_into(wire, window, room, limit as usize) {
        Ok(came) => came as u64,
        Err(fault) => return Err(fault),
    };
    if got < limit {
        return Ok(got);
    }
    match take_byte(wire, window) {
        Ok(None) => Ok(got),
        Ok(Some(_)) => Err(HttpFault::TooLong { limit }),
        Err(fault) => Err(fault),
    }
}
