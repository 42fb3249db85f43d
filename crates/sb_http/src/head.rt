//! Reading heads of responses.

ghost use Rattle.std.specs.Prelude.{◌≡◌, ◌≤◌, length, IsErrOf};
ghost use Rattle.sb_world.specs.Told.{CountsFaults};
ghost use Rattle.sb_http.specs.Heads.{FindsHead, Parses, ReadsHead, TakesHead, is_interim};
ghost use Rattle.sb_http.specs.Windows.{pending};

use crate::fault::HttpFault;
use crate::fields::fields_of;
use crate::incoming::receive_more;
use crate::window::Window;
use httparse::spans::{EMPTY_HEADER_SPAN, HeaderSpan, ResponseSpans, parse_response};
use httparse::{Error, Status};
use sb_sign::Pair;
use sb_world::Wire;
use std::alloc::Global;

/// The most bytes of a head.
pub const MAX_HEAD: usize = 16_384;

/// The most lines of fields in a head.
pub const MAX_HEADERS: usize = 64;

/// The most interim responses, of status 100 to 199, that are passed over.
pub const MAX_INTERIM: usize = 8;

/// What is kept of a head.
#[derive(Drop)]
pub(crate) struct Head {
    pub(crate) status: u16,
    pub(crate) headers: Vec<Pair>,
}

/// Reads the head of the response that counts, behind those of interim responses.
pub(crate) fn read_head<W: Wire>(
    alloc: Global,
    wire: &mut W,
    window: &mut Window,
) -> Result<Head, HttpFault>
    requires { length (pending window.old) ≤ MAX_HEAD }
    ensures told { ReadsHead (W.connections wire.old) (W.connections wire.new) (pending window.old)
        (pending window.new) result }
    ensures cause { CountsFaults (W.faults wire.old) (W.faults wire.new) (IsErrOf result HttpFault.WireFault) }
{
    for passed in 0..MAX_INTERIM + 1 {
        match take_head(alloc, wire, window) {
            Ok(Some(head)) => return Ok(head),
            Ok(None) => {}
            Err(fault) => return Err(fault),
        }
    }
    Err(HttpFault::BadHead)
}

/// Takes one head, and answers what is kept of it, or none for an interim response.
fn take_head<W: Wire>(
    alloc: Global,
    wire: &mut W,
    window: &mut Window,
) -> Result<Option<Head>, HttpFault>
    requires { length (pending window.old) ≤ MAX_HEAD }
    ensures told { TakesHead (W.connections wire.old) (W.connections wire.new) (pending window.old)
        (pending window.new) result }
    ensures cause { CountsFaults (W.faults wire.old) (W.faults wire.new) (IsErrOf result HttpFault.WireFault) }
{
    let mut spans = [EMPTY_HEADER_SPAN; MAX_HEADERS];
    let found = match find_head(wire, window, &mut spans) {
        Ok(found) => found,
        Err(fault) => return Err(fault),
    };
    if is_interim(found.code) {
        window.skip(found.len);
        return Ok(None);
    }
    match fields_of(alloc, window.waiting(), &spans[..found.headers]) {
        Ok(headers) => {
            window.skip(found.len);
            Ok(Some(Head {
                status: found.code,
                headers,
            }))
        }
        Err(_) => Err(HttpFault::Memory),
    }
}

/// Tells whether a response with this status is an interim one.
fn is_interim(status: u16) -> bool
    ensures { result ≡ is_interim status }
{
    100 <= status && status < 200
}

/// Receives until a head waits, which is parsed once for each arrival of bytes.
fn find_head<W: Wire>(
    wire: &mut W,
    window: &mut Window,
    spans: &mut [HeaderSpan],
) -> Result<ResponseSpans, HttpFault>
    requires small { length (pending window.old) ≤ MAX_HEAD }
    requires room { length spans.old ≡ MAX_HEADERS }
    ensures told { FindsHead (W.connections wire.old) (W.connections wire.new) (pending window.old)
        (pending window.new) spans.new result }
    ensures cause { CountsFaults (W.faults wire.old) (W.faults wire.new) (IsErrOf result HttpFault.WireFault) }
{
    'arrivals: loop {
        match parse_head(window.waiting(), spans) {
            Ok(Some(found)) => return Ok(found),
            Ok(None) => {}
            Err(fault) => return Err(fault),
        }
        let came = window.waiting().len();
        if came == MAX_HEAD {
            return Err(HttpFault::HeadTooLong);
        }
        match receive_more(wire, window, MAX_HEAD - came) {
            Ok(0) => return Err(HttpFault::HeadCut { got: came as u64 }),
            Ok(_) => {}
            Err(fault) => return Err(fault),
        }
    }
}

/// The head at the front, or none yet.
fn parse_head(bytes: &[u8], spans: &mut [HeaderSpan]) -> Result<Option<ResponseSpans>, HttpFault>
    requires { length spans.old ≡ MAX_HEADERS }
    ensures length { length spans.new ≡ length spans.old }
    ensures told { Parses bytes.now spans.new result }
{
    match parse_response(bytes, spans) {
        Ok(Status::Complete(found)) => Ok(Some(found)),
        Ok(Status::Partial) => Ok(None),
        Err(Error::TooManyHeaders) => Err(HttpFault::TooManyHeaders),
        Err(_) => Err(HttpFault::BadHead),
    }
}
