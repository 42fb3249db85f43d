//! How a response's body is delimited (RFC 9112, section 6.3).

ghost use Rattle.std.specs.Prelude.{◌≡◌};
ghost use Rattle.std.specs.List.{list_any};
ghost use Rattle.sb_http.specs.Fields.{
  IsFraming,
  IsRefused,
  TellsLength,
  differing,
  first_length,
  framing_by,
  gives,
  has_no_body,
  is_chunked,
  is_length,
  length_in,
  refused_length,
  unread,
  with_digit,
};

use crate::fault::HttpFault;
use sb_base::Text;
use sb_sign::Pair;
use std::alloc::Global;

/// The greatest length that a response may declare.
pub const MAX_LENGTH: u64 = 0x7fff_ffff_ffff_ffff;

/// How a body is delimited.
#[derive(Drop, Clone, Copy)]
pub(crate) enum Framing {
    /// There is none.
    Empty,
    /// It has this length.
    Sized(u64),
    Chunked,
    /// It goes to the end of the input.
    ToEnd,
}

/// How the body of a response is delimited, with this status and these headers, to a request whose response has one or
/// not.
pub(crate) fn framing_of(
    alloc: Global,
    bodiless: bool,
    status: u16,
    headers: &[Pair],
) -> Result<Framing, HttpFault>
    ensures { IsFraming bodiless status headers.now result }
{
    if has_no_body(bodiless, status) {
        return Ok(Framing::Empty);
    }
    if any_chunked(headers) {
        return Ok(Framing::Chunked);
    }
    framing_by_length(alloc, headers)
}

/// Tells whether a response has no body, to this request or with this status.
fn has_no_body(bodiless: bool, status: u16) -> bool
    ensures { result ≡ has_no_body bodiless status }
{
    bodiless || status == 204 || status == 304
}

/// Tells whether a header declares chunks.
fn any_chunked(headers: &[Pair]) -> bool
    ensures { result ≡ list_any is_chunked headers.now }
{
    headers.iter().any(|header| is_chunked(header))
}

/// How a body is delimited that isn't in chunks.
fn framing_by_length(alloc: Global, headers: &[Pair]) -> Result<Framing, HttpFault>
    ensures { IsRefused (refused_length headers.now) result (λ framing. framing ≡ framing_by
        (first_length headers.now)) }
{
    match refuse_unread(alloc, headers) {
        Ok(()) => {}
        Err(fault) => return Err(fault),
    }
    match first_length(headers) {
        Some(size) => match refuse_differing(alloc, headers, size) {
            Ok(()) => Ok(Framing::Sized(size)),
            Err(fault) => Err(fault),
        },
        None => Ok(Framing::ToEnd),
    }
}

/// Refuses a declared length that is none.
fn refuse_unread(alloc: Global, headers: &[Pair]) -> Result<(), HttpFault>
    ensures { IsRefused (unread headers.now) result (λ _. Unit {0}) }
{
    for header in headers {
        if is_length(header) && read_length(header.value.bytes()).is_none() {
            return Err(bad_length(alloc, header.value.bytes()));
        }
    }
    Ok(())
}

/// The first length that is declared.
fn first_length(headers: &[Pair]) -> Option<u64>
    ensures { result ≡ first_length headers.now }
{
    for header in headers {
        if is_length(header) {
            return read_length(header.value.bytes());
        }
    }
    None
}

/// Refuses a declared length that is another one than `size`.
fn refuse_differing(alloc: Global, headers: &[Pair], size: u64) -> Result<(), HttpFault>
    ensures { IsRefused (differing size headers.now) result (λ _. Unit {0}) }
{
    for header in headers {
        if is_length(header) && !gives(read_length(header.value.bytes()), size) {
            return Err(bad_length(alloc, header.value.bytes()));
        }
    }
    Ok(())
}

/// The fault that tells a text.
fn bad_length(alloc: Global, text: &[u8]) -> HttpFault
    ensures { TellsLength text.now result }
{
    match Text::of(alloc, text) {
        Ok(text) => HttpFault::BadLength(text),
        Err(_) => HttpFault::Memory,
    }
}

/// Tells whether the length that was read is this one.
fn gives(length: Option<u64>, size: u64) -> bool
    ensures { result ≡ gives length size }
{
    match length {
        Some(other) => other == size,
        None => false,
    }
}

/// Tells whether a header declares a length.
fn is_length(header: &Pair) -> bool
    ensures { result ≡ is_length header.now }
{
    header.name.bytes() == b"content-length".as_slice()
}

/// Tells whether a header declares chunks.
fn is_chunked(header: &Pair) -> bool
    ensures { result ≡ is_chunked header.now }
{
    header.name.bytes() == b"transfer-encoding".as_slice()
        && header.value.bytes().eq_ignore_ascii_case(b"chunked")
}

/// The length that a text of digits gives.
fn read_length(text: &[u8]) -> Option<u64>
    ensures { result ≡ length_in text.now }
{
    if text.is_empty() {
        return None;
    }
    let mut length = 0;
    for byte in text {
        match with_digit(length, *byte) {
            Some(longer) => length = longer,
            None => return None,
        }
    }
    Some(length)
}

/// A length with one more digit.
fn with_digit(length: u64, byte: u8) -> Option<u64>
    ensures { result ≡ with_digit length byte }
{
    if !byte.is_ascii_digit() {
        return None;
    }
    let digit = u64::from(byte) - 48;
    if length <= (MAX_LENGTH - digit) / 10 {
        Some(length * 10 + digit)
    } else {
        None
    }
}
