//! Bodies in chunks (RFC 9112, section 7.1).

ghost use Rattle.std.specs.Prelude.{◌≡◌, ◌≤◌, IsErrOf};
ghost use Rattle.sb_world.specs.Told.{CountsFaults};
ghost use Rattle.sb_http.specs.Bodies.{ReadsBody};
ghost use Rattle.sb_http.specs.Chunks.{ReadsChunk};
ghost use Rattle.sb_http.specs.Windows.{pending};

use crate::fault::HttpFault;
use crate::framing::Framing;
use crate::incoming::take_into;
use crate::line::Line;
use crate::reading::read_line;
use crate::window::Window;
use sb_world::Wire;

/// Reads one chunk behind `got` bytes of the body, and answers its size, or none for the last one, of which the size
/// line alone is read.
fn read_chunk<W: Wire>(
    wire: &mut W,
    window: &mut Window,
    limit: u64,
    got: u64,
    room: &mut Vec<u8>,
) -> Result<Option<u64>, HttpFault>
    requires { got ≤ limit }
    ensures told { ReadsChunk (W.connections wire.old) (W.connections wire.new) (pending window.old)
        (pending window.new) room.old.items room.new.items limit got result }
    ensures cause { CountsFaults (W.faults wire.old) (W.faults wire.new) (IsErrOf result HttpFault.WireFault) }
{
    let size = match read_line(wire, window, Line::Size, got) {
        Ok(size) => size,
        Err(fault) => return Err(fault),
    };
    if size == 0 {
        return Ok(None);
    }
    if size > limit - got {
        return Err(HttpFault::TooLong { limit });
    }
    let came = match take_into(wire, window, room, size as usize) {
        Ok(came) => came as u64,
        Err(fault) => return Err(fault),
    };
    if came < size {
        return Err(HttpFault::BodyCut {
            want: None,
            got: got + came,
        });
    }
    match read_line(wire, window, Line::ChunkEnd, got + size) {
        Ok(_) => Ok(Some(size)),
        Err(fault) => Err(fault),
    }
}

/// Reads the chunks of a body, and its trailer, which is passed over.
pub(crate) fn read_chunked<W: Wire>(
    wire: &mut W,
    window: &mut Window,
    limit: u64,
    room: &mut Vec<u8>,
) -> Result<u64, HttpFault>
    ensures told { ReadsBody Framing.Chunked limit (W.connections wire.old) (W.connections wire.new)
        (pending window.old) room.old.items room.new.items result }
    ensures cause { CountsFaults (W.faults wire.old) (W.faults wire.new) (IsErrOf result HttpFault.WireFault) }
{
    let mut got = 0;
    'chunks: loop {
        match read_chunk(wire, window, limit, got, room) {
            Ok(Some(size)) => got += size,
            Ok(None) => {
                return match read_line(wire, window, Line::TrailerLine, got) {
                    Ok(_) => Ok(got),
                    Err(fault) => Err(fault),
                };
            }
            Err(fault) => return Err(fault),
        }
    }
}
