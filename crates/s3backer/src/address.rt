//! Where a disk is served: `HOST:PORT`.

ghost use Rattle.std.specs.Prelude.{◌≡◌};
ghost use Rattle.s3backer.specs.Addresses.{is_address, is_port, is_port_behind, is_port_number};

use crate::url::{are_digits, host_length};
use sb_base::{SizeFault, read_size};
use std::str;

/// Whether a text is a host of letters, digits, `.` and `-`, a colon, and a port of 0 to 65,535.
pub(crate) fn is_address(text: &[u8]) -> bool
    ensures { result ≡ is_address text.now }
{
    let (host, behind) = text.split_at(host_length(text));
    !host.is_empty() && is_port_behind(behind)
}

/// Whether a colon and a port stand behind a host.
fn is_port_behind(behind: &[u8]) -> bool
    ensures { result ≡ is_port_behind behind.now }
{
    match behind {
        [b':', digits @ ..] => is_port(digits),
        _ => false,
    }
}

/// Whether some bytes are the digits of a port.
fn is_port(digits: &[u8]) -> bool
    ensures { result ≡ is_port digits.now }
{
    if !are_digits(digits) {
        return false;
    }
    match str::from_utf8(digits) {
        Ok(digits) => is_port_number(read_size(digits)),
        Err(_) => false,
    }
}

/// Whether a number is that of a port.
fn is_port_number(number: Result<u64, SizeFault>) -> bool
    ensures { result ≡ is_port_number number }
{
    match number {
        Ok(number) => number < 65_536,
        Err(_) => false,
    }
}
