//! One exchange over a wire.

ghost use Rattle.std.specs.Prelude.{◌≡◌, ◌++◌, [], IsErr, IsErrOf};
ghost use Rattle.sb_world.specs.Told.{CountsFaults};
ghost use Rattle.sb_world.specs.Wires.{Sends};
ghost use Rattle.sb_http.specs.Responses.{Exchanges, SendsRequest};

use crate::fault::HttpFault;
use crate::response::{Response, read_response};
use crate::window::Window;
use sb_world::{Wire, WireFault};
use std::alloc::Global;

/// Sends a request over a new connection, and reads its response, with the body behind the bytes of `room`.
///
/// `bodiless` says that the request is one whose response has no body, as HEAD. `limit` is the most bytes of a body at
/// a status of 200 to 299; at another status they are 65,536. What a response is, and which fault is told,
/// docs/FORMATS.md says. After a fault `room` has its old bytes and a front of the body.
pub fn exchange<W: Wire>(
    alloc: Global,
    wire: &mut W,
    head: &[u8],
    body: &[u8],
    bodiless: bool,
    limit: u64,
    room: &mut Vec<u8>,
) -> Result<Response, HttpFault>
    ensures told { Exchanges bodiless limit (W.connections wire.old) (W.connections wire.new)
        (head.now ++ body.now) room.old.items room.new.items result }
    ensures cause { CountsFaults (W.faults wire.old) (W.faults wire.new) (IsErrOf result HttpFault.WireFault) }
{
    match send_request(wire, head, body) {
        Ok(()) => {}
        Err(_) => return Err(HttpFault::WireFault),
    }
    let mut window = Window::new(alloc);
    read_response(alloc, wire, &mut window, bodiless, limit, room)
}

/// Begins a connection and sends a request.
fn send_request<W: Wire>(wire: &mut W, head: &[u8], body: &[u8]) -> Result<(), WireFault>
    ensures told { SendsRequest (W.connections wire.old) (W.connections wire.new) (head.now ++ body.now) result }
    ensures cause { CountsFaults (W.faults wire.old) (W.faults wire.new) (IsErr result) }
{
    match wire.connect() {
        Ok(()) => {}
        Err(fault) => return Err(fault),
    }
    match send_some(wire, head) {
        Ok(()) => {}
        Err(fault) => return Err(fault),
    }
    match send_some(wire, body) {
        Ok(()) => Ok(()),
        Err(fault) => Err(fault),
    }
}

/// Sends bytes, and asks the wire for nothing where there are none.
fn send_some<W: Wire>(wire: &mut W, bytes: &[u8]) -> Result<(), WireFault>
    ensures told { Sends (W.connections wire.old) (W.connections wire.new) result bytes.now }
    ensures cause { CountsFaults (W.faults wire.old) (W.faults wire.new) (IsErr result) }
    ensures none { bytes.now ≡ [] → wire.new ≡ wire.old }
{
    if bytes.is_empty() {
        return Ok(());
    }
    match wire.send(bytes) {
        Ok(()) => Ok(()),
        Err(fault) => Err(fault),
    }
}
