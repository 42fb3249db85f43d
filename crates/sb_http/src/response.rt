//! Reading responses.

ghost use Rattle.std.specs.Prelude.{◌≡◌, ◌≤◌, length, IsErrOf};
ghost use Rattle.sb_world.specs.Told.{CountsFaults};
ghost use Rattle.sb_http.specs.Responses.{ReadsResponse, bound_of};
ghost use Rattle.sb_http.specs.Windows.{pending};

use crate::body::read_body;
use crate::fault::HttpFault;
use crate::framing::framing_of;
use crate::head::{MAX_HEAD, read_head};
use crate::window::Window;
use sb_sign::Pair;
use sb_world::Wire;
use std::alloc::Global;

/// The most bytes of a body whose status isn't 200 to 299.
pub const OTHER_LIMIT: u64 = 65_536;

/// A response, but for its body.
#[derive(Drop)]
pub struct Response {
    pub status: u16,
    /// The fields in the order of the head, with their names in lower case.
    pub headers: Vec<Pair>,
    /// How many bytes the body has.
    pub length: u64,
}

/// Reads a response, with its body behind the bytes of `room`.
pub(crate) fn read_response<W: Wire>(
    alloc: Global,
    wire: &mut W,
    window: &mut Window,
    bodiless: bool,
    limit: u64,
    room: &mut Vec<u8>,
) -> Result<Response, HttpFault>
    requires { length (pending window.old) ≤ MAX_HEAD }
    ensures told { ReadsResponse bodiless limit (W.connections wire.old) (W.connections wire.new)
        (pending window.old) room.old.items room.new.items result }
    ensures cause { CountsFaults (W.faults wire.old) (W.faults wire.new) (IsErrOf result HttpFault.WireFault) }
{
    let head = match read_head(alloc, wire, window) {
        Ok(head) => head,
        Err(fault) => return Err(fault),
    };
    let framing = match framing_of(alloc, bodiless, head.status, &head.headers) {
        Ok(framing) => framing,
        Err(fault) => return Err(fault),
    };
    let bound = bound_of(head.status, limit);
    match read_body(wire, window, framing, bound, room) {
        Ok(length) => Ok(Response {
            status: head.status,
            headers: head.headers,
            length,
        }),
        Err(fault) => Err(fault),
    }
}

/// The most bytes of a body at a status, where the call's limit is this.
fn bound_of(status: u16, limit: u64) -> u64
    ensures { result ≡ bound_of status limit }
{
    if 200 <= status && status < 300 {
        limit
    } else {
        OTHER_LIMIT
    }
}
