//! Taking bytes of a response: those that wait in a window, and then those that the wire receives.

ghost use Rattle.std.specs.Prelude.{◌≡◌, ◌<◌, IsErrOf};
ghost use Rattle.sb_world.specs.Told.{CountsFaults};
ghost use Rattle.sb_http.specs.Takings.{ReceivesInto, TakesByte, TakesInto};
ghost use Rattle.sb_http.specs.Windows.{pending};

use crate::fault::HttpFault;
use crate::receiving::receive_into;
use crate::window::Window;
use sb_world::Wire;

/// The most bytes that one receive asks for.
pub(crate) const PIECE: usize = 16_384;

/// Takes one byte, or none at the end.
pub(crate) fn take_byte<W: Wire>(wire: &mut W, window: &mut Window) -> Result<Option<u8>, HttpFault>
    ensures told { TakesByte (W.connections wire.old) (W.connections wire.new) (pending window.old)
        (pending window.new) result }
    ensures cause { CountsFaults (W.faults wire.old) (W.faults wire.new) (IsErrOf result HttpFault.WireFault) }
{
    match window.pop() {
        Some(byte) => Ok(Some(byte)),
        None => {
            window.clear();
            match receive_into(wire, &mut window.bytes, PIECE) {
                Ok(_) => Ok(window.pop()),
                Err(fault) => Err(fault),
            }
        }
    }
}

/// Takes so many bytes behind those of `room`, fewer only at the end, and answers how many. Those that the wire
/// receives are written where they stay.
pub(crate) fn take_into<W: Wire>(
    wire: &mut W,
    window: &mut Window,
    room: &mut Vec<u8>,
    want: usize,
) -> Result<usize, HttpFault>
    ensures told { TakesInto (W.connections wire.old) (W.connections wire.new) (pending window.old)
        (pending window.new) room.old.items room.new.items want result }
    ensures cause { CountsFaults (W.faults wire.old) (W.faults wire.new) (IsErrOf result HttpFault.WireFault) }
{
    let mut got = match window.pour(room, want) {
        Ok(count) => count,
        Err(_) => return Err(HttpFault::Memory),
    };
    while got < want {
        match receive_into(wire, room, (want - got).min(PIECE)) {
            Ok(0) => return Ok(got),
            Ok(count) => got += count,
            Err(fault) => return Err(fault),
        }
    }
    Ok(got)
}

/// Receives at most so many bytes behind those that wait, and answers how many came: none only at the end.
pub(crate) fn receive_more<W: Wire>(
    wire: &mut W,
    window: &mut Window,
    most: usize,
) -> Result<usize, HttpFault>
    requires { 0 < most }
    ensures told { ReceivesInto (W.connections wire.old) (W.connections wire.new) (pending window.old)
        (pending window.new) most result }
    ensures cause { CountsFaults (W.faults wire.old) (W.faults wire.new) (IsErrOf result HttpFault.WireFault) }
{
    receive_into(wire, &mut window.bytes, most)
}
