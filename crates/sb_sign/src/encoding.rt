//! How bytes are written in a request.

ghost use Rattle.std.specs.Prelude.{◌≡◌, ℕ, ◌<◌, ◌||◌, ◌==◌, not, IfOk, OnOk, ◌++◌};
ghost use Rattle.percent_encoding.specs.AsciiSet.{contains};
ghost use Rattle.sb_sign.specs.Encoding.{
  content_md5_of,
  encoded_pair_of,
  encoded_path_of,
  encoded_query_of,
  is_unreserved,
};
ghost use Rattle.std.specs.String.{string_bytes};

use crate::request::Pair;
use base64::engine::general_purpose::STANDARD;
use md5::{Digest, Md5};
use percent_encoding::{AsciiSet, NON_ALPHANUMERIC, percent_encode};
use sb_base::Text;
use std::alloc::{AllocError, Global};

/// A path as it is sent and signed: every byte but letters, digits, `-`, `.`, `_`, `~` and `/` is `%` and two
/// upper-case hex digits.
pub fn encoded_path(alloc: Global, path: &[u8]) -> Result<Text, AllocError>
    ensures { IfOk result (λ text. text ≡ encoded_path_of path.now) }
{
    let mut text = String::new(alloc);
    percent_encode(path, path_set()).append_to(&mut text)?;
    Ok(Text::from_vec(text.into_bytes()))
}

/// A query as it is sent and signed, in the order of its pairs: names and values as a path, but with `/` encoded too.
pub fn encoded_query(alloc: Global, query: &[Pair]) -> Result<Text, AllocError>
    ensures { IfOk result (λ text. text ≡ encoded_query_of query.now) }
{
    let mut text = String::new(alloc);
    for (i, pair) in query.iter().enumerate() {
        if i > 0 {
            text.push_str("&")?;
        }
        add_pair(&mut text, pair)?;
    }
    Ok(Text::from_vec(text.into_bytes()))
}

/// Appends one part of a query.
fn add_pair(text: &mut String, pair: &Pair) -> Result<(), AllocError>
    ensures { OnOk result (string_bytes text.new ≡ string_bytes text.old ++ encoded_pair_of pair.now) }
{
    percent_encode(pair.name.bytes(), value_set()).append_to(text)?;
    text.push_str("=")?;
    percent_encode(pair.value.bytes(), value_set()).append_to(text)?;
    Ok(())
}

/// The ASCII bytes that are encoded in a value.
fn value_set() -> AsciiSet
    ensures { (b : ℕ) → b < 128 → contains result b ≡ not (is_unreserved b) }
{
    NON_ALPHANUMERIC
        .remove(b'-')
        .remove(b'.')
        .remove(b'_')
        .remove(b'~')
}

/// The ASCII bytes that are encoded in a path.
fn path_set() -> AsciiSet
    ensures { (b : ℕ) → b < 128 → contains result b ≡ not (is_unreserved b || (b == 47)) }
{
    value_set().remove(b'/')
}

/// The value of a `content-md5` header.
pub fn content_md5(alloc: Global, body: &[u8]) -> Result<Text, AllocError>
    ensures { IfOk result (λ text. text ≡ content_md5_of body.now) }
{
    let text = STANDARD.encode(alloc, &Md5::digest(body))?;
    Ok(Text::from_vec(text.into_bytes()))
}
