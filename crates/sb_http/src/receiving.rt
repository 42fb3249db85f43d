//! Receiving into a vector.

ghost use Rattle.std.specs.Prelude.{◌≡◌, ◌<◌, Err, length, take, IsErr, IsErrOf};
ghost use Rattle.sb_world.specs.Told.{CountsFaults};
ghost use Rattle.sb_http.specs.Takings.{ReceivesBehind, ReceivesInto};

use crate::fault::HttpFault;
use sb_world::{Wire, WireFault};

/// Receives at most so many bytes behind those of a vector, and answers how many came: none only at the end.
pub(crate) fn receive_into<W: Wire>(
    wire: &mut W,
    out: &mut Vec<u8>,
    most: usize,
) -> Result<usize, HttpFault>
    requires { 0 < most }
    ensures told { ReceivesInto (W.connections wire.old)
        (W.connections wire.new) out.old.items out.new.items most result }
    ensures unasked { result ≡ Err HttpFault.Memory → wire.new ≡ wire.old }
    ensures cause { CountsFaults (W.faults wire.old) (W.faults wire.new) (IsErrOf result HttpFault.WireFault) }
{
    let old = out.len();
    let Some(whole) = old.checked_add(most) else {
        return Err(HttpFault::Memory);
    };
    if out.resize(whole, 0).is_err() {
        return Err(HttpFault::Memory);
    }
    match receive_behind(wire, out.as_mut_slice(), old) {
        Ok(count) => {
            out.truncate(old + count);
            Ok(count)
        }
        Err(_) => {
            out.truncate(old);
            Err(HttpFault::WireFault)
        }
    }
}

/// Receives behind the first bytes of a buffer.
fn receive_behind<W: Wire>(wire: &mut W, out: &mut [u8], start: usize) -> Result<usize, WireFault>
    requires { start < length out.old }
    ensures length { length out.new ≡ length out.old }
    ensures told { ReceivesBehind (W.connections wire.old) (W.connections wire.new) start out.old out.new result }
    ensures cause { CountsFaults (W.faults wire.old) (W.faults wire.new) (IsErr result) }
{
    wire.receive(&mut out[start..])
}
