//! Values in messages: on one line, in printable ASCII, and not at length.
#![tactic(auto)]

ghost use Rattle.std.specs.Prelude.{◌≡◌, ◌<◌, ◌++◌, IfOk};
ghost use Rattle.sb_shown.specs.Shown.{
  is_plain,
  hex_digit,
  shown_byte,
  shown_bytes,
  length_note,
  shown,
};

use std::alloc::AllocError;

/// The most bytes of a value that are shown.
pub const MAX_SHOWN: usize = 128;

/// Adds a value to a message as it is shown. A byte that is no printable ASCII, or a backslash, is shown as `\x` and its
/// two digits; of a value of more than 128 bytes only these many, and its length. Without memory the message has the
/// old text and some of the new.
pub fn show(message: &mut Vec<u8>, value: &[u8]) -> Result<(), AllocError>
    ensures { IfOk result (λ _. message.new.items ≡ message.old.items ++ shown value.now) }
{
    if value.len() > MAX_SHOWN {
        show_bytes(message, &value[..MAX_SHOWN])?;
        show_length(message, value.len())
    } else {
        show_bytes(message, value)
    }
}

/// Adds all bytes of a value.
fn show_bytes(message: &mut Vec<u8>, value: &[u8]) -> Result<(), AllocError>
    ensures { IfOk result (λ _. message.new.items ≡ message.old.items ++ shown_bytes value.now) }
{
    for byte in value {
        show_byte(message, *byte)?;
    }
    Ok(())
}

/// Adds a byte.
fn show_byte(message: &mut Vec<u8>, byte: u8) -> Result<(), AllocError>
    ensures { IfOk result (λ _. message.new.items ≡ message.old.items ++ shown_byte byte) }
{
    if is_plain(byte) {
        message.extend_from_slice(&[byte])
    } else {
        message.extend_from_slice(&[b'\\', b'x', hex_digit(byte / 16), hex_digit(byte % 16)])
    }
}

/// Adds what follows a value that isn't shown whole.
fn show_length(message: &mut Vec<u8>, size: usize) -> Result<(), AllocError>
    ensures { IfOk result (λ _. message.new.items ≡ message.old.items ++ length_note size) }
{
    let mut digits = itoa::Buffer::new();
    message.extend_from_slice(b".. (")?;
    message.extend_from_slice(digits.format(size).as_bytes())?;
    message.extend_from_slice(b" bytes)")
}

/// Whether a byte is shown as itself.
fn is_plain(byte: u8) -> bool
    ensures { result ≡ is_plain byte }
{
    (0x20..=0x7e).contains(&byte) && byte != b'\\'
}

/// The digit of a number below 16.
fn hex_digit(number: u8) -> u8
    requires { number < 16 }
    ensures { result ≡ hex_digit number }
{
    if number < 10 {
        b'0' + number
    } else {
        b'a' + (number - 10)
    }
}

#[cfg(test)]
mod tests;
