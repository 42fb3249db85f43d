//! Sizes as a person writes them.

ghost use Rattle.std.specs.Prelude.{◌≡◌, ◌≤◌, ◌+◌, ◌*◌, ◌^◌, MatchOption, All, IsTrue, length};
ghost use Rattle.std.specs.List.{prefix_len};
ghost use Rattle.std.specs.Char.{digit_value, is_ascii_digit};
ghost use Rattle.std.specs.Str.Parse.{digits_value};
ghost use Rattle.sb_base.specs.Sizes.{scaled, size_of, suffix_unit, unit_of};

use thiserror::Error;

/// Why a text is no size.
#[derive(Drop, Clone, Copy, PartialEq, Eq, Debug, Error)]
pub enum SizeFault {
    #[error("it does not begin with a digit")]
    NoDigits,
    #[error("unexpected character at place {0}")]
    BadCharacter(usize),
    #[error("it is above 18446744073709551615")]
    Overflow,
}

/// Reads a size: one or more digits, and at most one of `k`, `m`, `g` and `t` in either case for a power of 1,024.
///
/// `NoDigits` comes where the text doesn't begin with a digit, `BadCharacter` with the place of the first byte that
/// such a text doesn't have, and `Overflow` where a text of this form stands for more than 2^64 - 1. It takes no
/// memory.
pub fn read_size(text: &str) -> Result<u64, SizeFault>
    ensures { result ≡ size_of text.now }
{
    let bytes = text.as_bytes();
    let (digits, suffix) = bytes.split_at(digit_count(bytes));
    if digits.is_empty() {
        return Err(SizeFault::NoDigits);
    }
    let unit = match read_suffix(suffix) {
        Ok(unit) => unit,
        Err(place) => return Err(SizeFault::BadCharacter(digits.len() + place)),
    };
    match decimal(digits) {
        Some(number) => scaled(number, unit),
        None => Err(SizeFault::Overflow),
    }
}

/// How many digits stand at the front.
fn digit_count(bytes: &[u8]) -> usize
    ensures { result ≡ prefix_len is_ascii_digit bytes.now }
{
    bytes
        .iter()
        .take_while(|byte| byte.is_ascii_digit())
        .count()
}

/// The unit of the text behind the digits, or the place of the byte that spoils it.
fn read_suffix(suffix: &[u8]) -> Result<u64, usize>
    ensures { result ≡ suffix_unit suffix.now }
{
    match suffix {
        [] => Ok(1),
        [letter, behind @ ..] => match unit(*letter) {
            None => Err(0),
            Some(unit) => { if behind.is_empty() { Ok(unit) } else { Err(1) } }
        },
    }
}

/// The unit that a letter stands for.
fn unit(letter: u8) -> Option<u64>
    ensures { result ≡ unit_of letter }
{
    match letter {
        b'k' | b'K' => Some(1 << 10),
        b'm' | b'M' => Some(1 << 20),
        b'g' | b'G' => Some(1 << 30),
        b't' | b'T' => Some(1 << 40),
        _ => None,
    }
}

/// The number that digits stand for, if 64 bits have room for it.
fn decimal(digits: &[u8]) -> Option<u64>
    requires { All (λ digit. IsTrue (is_ascii_digit digit)) digits.now }
    ensures { MatchOption result (2 ^ 64 ≤ digits_value 10 digits.now) (λ n. n ≡ digits_value 10 digits.now) }
{
    let mut number = 0;
    for digit in digits {
        match with_digit(number, *digit) {
            Some(longer) => number = longer,
            None => return None,
        }
    }
    Some(number)
}

/// A number with one more digit, if 64 bits have room for it.
fn with_digit(number: u64, digit: u8) -> Option<u64>
    requires { IsTrue (is_ascii_digit digit) }
    ensures { MatchOption result (2 ^ 64 ≤ number * 10 + digit_value digit) (λ n. n ≡ number * 10 + digit_value digit) }
{
    number.checked_mul(10)?.checked_add((digit - b'0') as u64)
}

/// So many units.
fn scaled(number: u64, unit: u64) -> Result<u64, SizeFault>
    ensures { result ≡ scaled number unit }
{
    number.checked_mul(unit).ok_or(SizeFault::Overflow)
}
