//! The base URL of a store: `http://host/` or `http://host:port/`.

ghost use Rattle.std.specs.Prelude.{◌≡◌};
ghost use Rattle.std.specs.Char.{is_ascii_digit};
ghost use Rattle.std.specs.List.{list_all, prefix_len};
ghost use Rattle.std.specs.Option.{option_map};
ghost use Rattle.s3backer.specs.Urls.{
  is_host_byte,
  place_behind,
  place_of,
  port_before_slash,
  port_behind,
  port_by,
  port_of,
};

use sb_base::{SizeFault, read_size};
use std::str;

/// The host and the port of a base URL.
pub(crate) fn place_of(url: &[u8]) -> Option<(&[u8], u16)>
    ensures { option_map (λ place. (place.0.now, place.1)) result ≡ place_of url.now }
{
    match url.strip_prefix(b"http://") {
        Some(behind) => place_behind(behind),
        None => None,
    }
}

/// The host and the port behind the scheme.
fn place_behind(text: &[u8]) -> Option<(&[u8], u16)>
    ensures { option_map (λ place. (place.0.now, place.1)) result ≡ place_behind text.now }
{
    let (host, behind) = text.split_at(host_length(text));
    match port_behind(behind) {
        Some(port) if !host.is_empty() => Some((host, port)),
        _ => None,
    }
}

/// How many bytes of a host's name stand at the front.
pub(crate) fn host_length(text: &[u8]) -> usize
    ensures { result ≡ prefix_len is_host_byte text.now }
{
    text.iter().take_while(|byte| is_host_byte(**byte)).count()
}

/// Whether a byte is a letter, a digit, `.` or `-`.
fn is_host_byte(byte: u8) -> bool
    ensures { result ≡ is_host_byte byte }
{
    byte.is_ascii_alphanumeric() || byte == b'.' || byte == b'-'
}

/// The port behind a host, 80 where none is given.
fn port_behind(behind: &[u8]) -> Option<u16>
    ensures { result ≡ port_behind behind.now }
{
    match behind {
        [b':', behind @ ..] => port_before_slash(behind),
        [b'/'] => Some(80),
        _ => None,
    }
}

/// The port before a slash.
fn port_before_slash(text: &[u8]) -> Option<u16>
    ensures { result ≡ port_before_slash text.now }
{
    match text.strip_suffix(b"/") {
        Some(digits) => port_of(digits),
        None => None,
    }
}

/// The port of some digits.
fn port_of(digits: &[u8]) -> Option<u16>
    ensures { result ≡ port_of digits.now }
{
    if !are_digits(digits) {
        return None;
    }
    match str::from_utf8(digits) {
        Ok(digits) => port_by(read_size(digits)),
        Err(_) => None,
    }
}

/// Whether all bytes are digits.
pub(crate) fn are_digits(bytes: &[u8]) -> bool
    ensures { result ≡ list_all is_ascii_digit bytes.now }
{
    bytes.iter().all(|byte| byte.is_ascii_digit())
}

/// The port of a number.
fn port_by(number: Result<u64, SizeFault>) -> Option<u16>
    ensures { result ≡ port_by number }
{
    match number {
        Ok(number) if number > 0 => u16::try_from(number).ok(),
        _ => None,
    }
}
