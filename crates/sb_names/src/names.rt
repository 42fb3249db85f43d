//! The names of objects, written and read.

ghost use Rattle.std.specs.Prelude.{◌≡◌, ◌↔◌, ◌≤◌, ◌+◌, ℕ, ◌++◌, IfOk, Some, true, [], length, take, drop};
ghost use Rattle.sb_names.specs.Names.{object_name_of, token_name_of, IsNameOf};

use crate::digits::{digits, hash, read_digits};
use sb_base::Text;
use std::alloc::{AllocError, Global};

/// The most bytes of a prefix whose names are placed.
pub const MAX_PREFIX: usize = 200;

/// The most bytes of such a name: the prefix, eight digits of the hash, a dash and eight digits.
pub const MAX_NAME: usize = 217;

/// The name of a block's object.
pub fn object_name(
    alloc: Global,
    prefix: &str,
    block: u32,
    hashed: bool,
) -> Result<Text, AllocError>
    ensures { IfOk result (λ name. name ≡ object_name_of prefix.now block hashed) }
{
    let mut name = Vec::from_slice(alloc, prefix.as_bytes())?;
    if hashed {
        name.extend_from_slice(&hash(block))?;
        name.extend_from_slice(b"-")?;
    }
    name.extend_from_slice(&digits(block))?;
    Ok(Text::from_vec(name))
}

/// Puts the name of a block's object at the front of `out`, and answers how many bytes it has. It takes no memory.
pub fn place_name(prefix: &str, block: u32, hashed: bool, out: &mut [u8; MAX_NAME]) -> usize
    requires { length prefix.now ≤ MAX_PREFIX }
    ensures placed { out.new ≡ object_name_of prefix.now block hashed ++ drop result out.old }
    ensures length { result ≡ length (object_name_of prefix.now block hashed) }
    ensures room { result ≤ MAX_NAME }
{
    let mut end = put(out, 0, prefix.as_bytes());
    if hashed {
        end = put(out, end, &hash(block));
        end = put(out, end, b"-");
    }
    put(out, end, &digits(block))
}

/// Puts `text` into `out` from `at` on, and answers where it ends.
fn put(out: &mut [u8], at: usize, text: &[u8]) -> usize
    requires { at + length text.now ≤ length out.old }
    ensures text { out.new ≡ take at out.old ++ text.now ++ drop result out.old }
    ensures end { result ≡ at + length text.now }
{
    let end = at + text.len();
    out[at..end].copy_from_slice(text);
    end
}

/// The block whose object has this name. It takes no memory.
///
/// A name whose digits or hash are in upper case is none, as are a longer text and one with another prefix.
pub fn read_name(prefix: &str, hashed: bool, name: &[u8]) -> Option<u32>
    ensures { (block : ℕ) → (result ≡ Some block) ↔ IsNameOf prefix.now hashed name.now block }
{
    let rest = name.strip_prefix(prefix.as_bytes())?;
    if hashed {
        read_hashed(rest)
    } else {
        read_digits(rest)
    }
}

/// The block whose hash, dash and digits these are.
fn read_hashed(text: &[u8]) -> Option<u32>
    ensures { (block : ℕ) → (result ≡ Some block) ↔ IsNameOf [] true text.now block }
{
    let (front, behind) = text.split_at_checked(8)?;
    let block = read_digits(behind.strip_prefix(b"-")?)?;
    if front == hash(block).as_slice() {
        Some(block)
    } else {
        None
    }
}

/// The name of the token, which is there while the disk is mounted.
pub fn token_name(alloc: Global, prefix: &str) -> Result<Text, AllocError>
    ensures { IfOk result (λ name. name ≡ token_name_of prefix.now) }
{
    let mut name = Vec::from_slice(alloc, prefix.as_bytes())?;
    name.extend_from_slice(b"s3backer-mounted")?;
    Ok(Text::from_vec(name))
}
