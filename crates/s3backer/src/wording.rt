//! What is said of words that are not taken. A word of the user's is shown on one line, in printable ASCII, and cut where
//! it is long.

ghost use Rattle.std.specs.Prelude.{◌≡◌, ◌++◌, IfOk};
ghost use Rattle.sb_shown.specs.Shown.{shown};
ghost use Rattle.s3backer.specs.Wordings.{IsUsageLine, IsWording};

use crate::words::Usage;
use sb_shown::show;
use std::alloc::{AllocError, Global};

/// The line of words that are not taken.
pub(crate) fn usage_line(alloc: Global, usage: &Usage) -> Result<Vec<u8>, AllocError>
    ensures { IfOk result (λ line. IsUsageLine usage.now line.items) }
{
    let wording = wording(alloc, usage)?;
    let mut line = Vec::new(alloc);
    line.extend_from_slice(b"s3backer: usage: ")?;
    line.extend_from_slice(&wording)?;
    line.extend_from_slice(b"\n")?;
    Ok(line)
}

/// What is said of words that are not taken.
fn wording(alloc: Global, usage: &Usage) -> Result<Vec<u8>, AllocError>
    ensures { IfOk result (λ text. IsWording usage.now text.items) }
{
    match usage {
        Usage::NotBuilt => forms(alloc),
        Usage::BadSize { name, word } => {
            with_values(alloc, name.bytes(), b": not a size: ", word.bytes())
        }
        Usage::Geometry(fault) => {
            let told = format!(in alloc; "{fault}")?;
            with_value(alloc, b"", told.as_bytes())
        }
        Usage::BadPrefix(prefix) => {
            with_value(alloc, b"--prefix: not a prefix: ", prefix.bytes())
        }
        Usage::PrefixSlash => Vec::from_slice(alloc, b"--prefix: a slash, with --test"),
        Usage::BadBucket(name) => {
            with_value(
                alloc,
                b"not the name of a bucket or directory: ",
                name.bytes(),
            )
        }
        Usage::HttpsRefused => Vec::from_slice(alloc, b"--baseURL: https is not supported"),
        Usage::BadAddress(address) => with_value(alloc, b"not HOST:PORT: ", address.bytes()),
        Usage::BadUrl(url) => with_value(
            alloc,
            b"--baseURL: not http://host/ or http://host:port/: ",
            url.bytes(),
        ),
    }
}

/// The forms of the words.
fn forms(alloc: Global) -> Result<Vec<u8>, AllocError>
    ensures { IfOk result (λ text. IsWording Usage.NotBuilt text.items) }
{
    let mut text = Vec::from_slice(
        alloc,
        b"s3backer --stdio --test [--prefix=TEXT] [--blockHashPrefix] --size=SIZE DIR",
    )?;
    text.extend_from_slice(
        b", or s3backer --test [--prefix=TEXT] [--blockHashPrefix] --size=SIZE DIR HOST:PORT",
    )?;
    text.extend_from_slice(
        b", or s3backer --stdio --baseURL=URL --accessId=ID --accessKey=KEY --size=SIZE BUCKET",
    )?;
    Ok(text)
}

/// A text, and a value behind it.
fn with_value(alloc: Global, text: &[u8], value: &[u8]) -> Result<Vec<u8>, AllocError>
    ensures { IfOk result (λ whole. whole.items ≡ text.now ++ shown value.now) }
{
    let mut whole = Vec::from_slice(alloc, text)?;
    show(&mut whole, value)?;
    Ok(whole)
}

/// A value, a text, and another value.
fn with_values(
    alloc: Global,
    first: &[u8],
    text: &[u8],
    second: &[u8],
) -> Result<Vec<u8>, AllocError>
    ensures { IfOk result (λ whole. whole.items ≡ shown first.now ++ text.now ++ shown second.now) }
{
    let mut whole = with_value(alloc, b"", first)?;
    whole.extend_from_slice(text)?;
    show(&mut whole, second)?;
    Ok(whole)
}
