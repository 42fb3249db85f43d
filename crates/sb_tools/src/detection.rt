//! The size of a disk, read off the object of its first block.

ghost use Rattle.std.specs.Prelude.{◌≡◌, ◌≤◌, ◌<◌, ◌+◌, ◌*◌, ◌⊎◌, ◌^◌, true, All, IsTrue, IfSome, MatchOption};
ghost use Rattle.std.specs.List.{list_all};
ghost use Rattle.std.specs.Char.{digit_value, is_ascii_digit};
ghost use Rattle.std.specs.Str.Parse.{digits_value};
ghost use Rattle.sb_world.specs.Told.{CountsFaults};
ghost use Rattle.sb_names.specs.Names.{object_name_of};
ghost use Rattle.sb_tools.specs.Asking.{Asks, LacksMemory};
ghost use Rattle.sb_tools.specs.Faults.{IsStoreFault};
ghost use Rattle.sb_tools.specs.Detection.{Detects, geometry_in, geometry_of_texts, is_number, number_below};

use crate::fault::{ToolFault, fault_by};
use sb_base::{Geometry, Text};
use sb_names::object_name;
use sb_world::{HeadText, Link};
use std::alloc::Global;

/// The most digits of a number.
const MAX_DIGITS: usize = 20;

/// Reads the size of a disk off its first block's object, with one HEAD.
///
/// `NoGeometry` comes where the object or one of its two texts isn't there, `BadGeometry` with the texts where one of
/// them isn't 1 to 20 digits, or is past 64 or 32 bits, or where no disk has this size and block size, and `StoreFault`
/// where the HEAD fails.
pub fn detect<L: Link>(
    alloc: Global,
    link: &mut L,
    prefix: &str,
    hashed: bool,
) -> Result<Geometry, ToolFault>
    ensures told { Asks (L.log link.old) (L.log link.new) (λ calls.
        LacksMemory result calls ⊎ Detects (object_name_of prefix.now 0 hashed) result calls) }
    ensures cause { CountsFaults (L.faults link.old) (L.faults link.new) (IsStoreFault result) }
{
    match object_name(alloc, prefix, 0, hashed) {
        Ok(name) => detect_named(link, name.bytes()),
        Err(_) => Err(ToolFault::Memory),
    }
}

/// Reads the size of a disk off the object of this name.
fn detect_named<L: Link>(link: &mut L, name: &[u8]) -> Result<Geometry, ToolFault>
    ensures told { Asks (L.log link.old) (L.log link.new) (Detects name.now result) }
    ensures cause { CountsFaults (L.faults link.old) (L.faults link.new) (IsStoreFault result) }
{
    match link.head(name) {
        Ok(Some(texts)) => read_texts(texts),
        Ok(None) => Err(ToolFault::NoGeometry),
        Err(failure) => Err(fault_by(failure)),
    }
}

/// The disk of the texts that an object carries.
fn read_texts(texts: HeadText) -> Result<Geometry, ToolFault>
    ensures { result ≡ geometry_of_texts texts.size texts.block_size }
{
    let HeadText { size, block_size } = texts;
    match (size, block_size) {
        (Some(size), Some(block_size)) => match read_geometry(size.bytes(), block_size.bytes()) {
            Some(geometry) => Ok(geometry),
            None => Err(ToolFault::BadGeometry { size, block_size }),
        },
        _ => Err(ToolFault::NoGeometry),
    }
}

/// The disk of a size and a block size, if they read and there is one.
fn read_geometry(size: &[u8], block_size: &[u8]) -> Option<Geometry>
    ensures { result ≡ geometry_in size.now block_size.now }
{
    let size = read_number(size)?;
    let block_size = u32::try_from(read_number(block_size)?).ok()?;
    Geometry::make(size, block_size).ok()
}

/// The number of a text of 1 to 20 digits, if 64 bits have room for it.
fn read_number(text: &[u8]) -> Option<u64>
    ensures { result ≡ number_below (2 ^ 64) text.now }
{
    if is_number(text) { decimal(text) } else { None }
}

/// Whether a text is 1 to 20 digits.
fn is_number(text: &[u8]) -> bool
    ensures number { result ≡ is_number text.now }
    ensures digits { result ≡ true → All (λ digit. IsTrue (is_ascii_digit digit)) text.now }
{
    if text.is_empty() || text.len() > MAX_DIGITS {
        return false;
    }
    are_digits(text)
}

/// Whether all bytes are digits.
fn are_digits(text: &[u8]) -> bool
    ensures each { result ≡ list_all is_ascii_digit text.now }
    ensures digits { result ≡ true → All (λ digit. IsTrue (is_ascii_digit digit)) text.now }
{
    text.iter().all(|byte| byte.is_ascii_digit())
}

/// The number that digits stand for, if 64 bits have room for it.
fn decimal(digits: &[u8]) -> Option<u64>
    requires { All (λ digit. IsTrue (is_ascii_digit digit)) digits.now }
    ensures value { MatchOption result (2 ^ 64 ≤ digits_value 10 digits.now) (λ n. n ≡ digits_value 10 digits.now) }
    ensures fits { IfSome result (λ n. n < 2 ^ 64) }
{
    let mut number = 0;
    for digit in digits {
        match with_digit(number, *digit) {
            Some(longer) => number = longer,
            None => return None,
        }
    }
    Some(number)
}

/// A number with one more digit, if 64 bits have room for it.
fn with_digit(number: u64, digit: u8) -> Option<u64>
    requires { IsTrue (is_ascii_digit digit) }
    ensures { MatchOption result (2 ^ 64 ≤ number * 10 + digit_value digit) (λ n. n ≡ number * 10 + digit_value digit) }
{
    number.checked_mul(10)?.checked_add((digit - b'0') as u64)
}
