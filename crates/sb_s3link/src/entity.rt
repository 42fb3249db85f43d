//! The bytes of a name as a listing writes them.

ghost use Rattle.std.specs.Prelude.{◌≡◌, ◌≤◌, ◌+◌, Some, IfSome, length};
ghost use Rattle.sb_s3link.specs.Entities.{byte_at, entity_at, named_at, number_after, with_digit};

/// A byte, and how many bytes write it.
#[derive(Drop, Clone, Copy)]
pub(crate) struct Written {
    pub(crate) byte: u8,
    pub(crate) length: usize,
}

/// The byte that is written at the begin of a text.
pub(crate) fn byte_at(text: &[u8]) -> Option<Written>
    ensures is { result ≡ byte_at text.now }
    ensures within { IfSome result (λ at. (1 ≤ at.length) × (at.length ≤ length text.now)) }
{
    match text {
        [] => None,
        [b'<', ..] => None,
        [b'&', behind @ ..] => entity_at(named_at(text), behind),
        [byte, ..] => Some(Written {
            byte: *byte,
            length: 1,
        }),
    }
}

/// The entity behind its ampersand, where it is one that has a name, or else by its number.
fn entity_at(named: Option<Written>, behind: &[u8]) -> Option<Written>
    requires { IfSome named (λ at. (1 ≤ at.length) × (at.length ≤ length behind.now + 1)) }
    ensures is { result ≡ entity_at named behind.now }
    ensures within { IfSome result (λ at. (1 ≤ at.length) × (at.length ≤ length behind.now + 1)) }
{
    match named {
        Some(named) => Some(named),
        None if behind.starts_with(b"#") => number_at(&behind[1..]),
        None => None,
    }
}

/// The entity that has a name.
fn named_at(text: &[u8]) -> Option<Written>
    ensures is { result ≡ named_at text.now }
    ensures within { IfSome result (λ at. (1 ≤ at.length) × (at.length ≤ length text.now)) }
{
    if text.starts_with(b"&amp;") {
        Some(made(b'&', 5))
    } else if text.starts_with(b"&lt;") {
        Some(made(b'<', 4))
    } else if text.starts_with(b"&gt;") {
        Some(made(b'>', 4))
    } else if text.starts_with(b"&quot;") {
        Some(made(b'"', 6))
    } else if text.starts_with(b"&apos;") {
        Some(made(b'\'', 6))
    } else {
        None
    }
}

/// A byte that so many bytes write.
fn made(byte: u8, length: usize) -> Written
    ensures { result ≡ record { byte = byte; length = length } }
{
    Written { byte, length }
}

/// The byte whose number stands behind `&#`: one to three digits, and a semicolon.
fn number_at(text: &[u8]) -> Option<Written>
    ensures is { result ≡ number_after 0 (Some 0) text.now }
    ensures within { IfSome result (λ at. (1 ≤ at.length) × (at.length ≤ length text.now + 2)) }
{
    let mut value = 0;
    let mut digits = 0;
    for byte in text {
        if *byte == b';' {
            return if value >= 1 {
                Some(made(value, digits + 3))
            } else {
                None
            };
        }
        if digits >= 3 {
            return None;
        }
        match with_digit(value, *byte) {
            Some(more) => value = more,
            None => return None,
        }
        digits += 1;
    }
    None
}

/// A number with one more digit, at most 127.
fn with_digit(value: u8, byte: u8) -> Option<u8>
    requires { value ≤ 127 }
    ensures is { result ≡ with_digit value byte }
    ensures small { IfSome result (λ more. more ≤ 127) }
{
    if !byte.is_ascii_digit() {
        return None;
    }
    let more = u32::from(value) * 10 + (u32::from(byte) - 48);
    if more <= 127 { Some(more as u8) } else { None }
}
