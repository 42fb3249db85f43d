//! What a store in memory keeps of an object.

ghost use Rattle.std.specs.Prelude.{◌≡◌, IfOk, IfErr, IfSome, Some, length, decimal};
ghost use Rattle.std.specs.Option.{option_copied};
ghost use Rattle.md5.specs.Md5.{md5};
ghost use Rattle.sb_fakes.specs.Objects as objects;
ghost use Rattle.sb_fakes.specs.Objects.{Shows, texts_of};

use md5::Md5;
use sb_base::{Digest, Text};
use sb_world::{Got, HeadText, LinkFault, Meta};
use std::alloc::{AllocError, Global};

/// The status of an object of another length than was asked for.
const OTHER_LENGTH: u16 = 600;

/// The bytes of an object, and the sizes that it carries.
#[derive(Drop)]
pub(crate) struct Content {
    pub(crate) body: Text,
    pub(crate) meta: Option<Meta>,
}

impl Content {
    /// A content of these bytes.
    pub(crate) fn of(alloc: Global, body: &[u8], meta: Option<Meta>) -> Result<Content, AllocError>
        ensures { IfOk result (λ content. content ≡ record { body = body.now; meta = meta }) }
    {
        Ok(Content {
            body: Text::of(alloc, body)?,
            meta,
        })
    }

    /// The texts of its sizes.
    pub(crate) fn texts(&self, alloc: Global) -> Result<HeadText, AllocError>
        ensures { IfOk result (λ texts. texts ≡ texts_of self.now.meta) }
    {
        match self.meta {
            None => Ok(no_texts()),
            Some(Meta { size, block_size }) => Ok(HeadText {
                size: Some(decimal_text(alloc, size)?),
                block_size: Some(decimal_text(alloc, u64::from(block_size))?),
            }),
        }
    }
}

/// The texts of an object that carries no sizes.
pub(crate) fn no_texts() -> HeadText
    ensures { result ≡ objects.no_texts }
{
    HeadText {
        size: None,
        block_size: None,
    }
}

/// A number as decimal text.
fn decimal_text(alloc: Global, number: u64) -> Result<Text, AllocError>
    ensures { IfOk result (λ text. text ≡ decimal number) }
{
    let text = format!(in alloc; "{number}")?;
    Text::of(alloc, text.as_bytes())
}

/// Answers a GET with an object, if it is there, into a buffer of its length.
pub(crate) fn fetch(
    body: Option<&[u8]>,
    verify: Option<Digest>,
    out: &mut [u8],
) -> Result<Got, LinkFault>
    ensures shows { Shows verify (option_copied body.entry) result out.new }
    ensures unchanged { result ≡ Ok (Got.Same) → out.new ≡ out.old }
    ensures spared { IfSome verify (λ digest. IfErr result (λ fault. out.new ≡ out.old)) }
{
    match body {
        None => Ok(Got::Absent),
        Some(body) if body.len() == out.len() => Ok(copy_unless_same(body, verify, out)),
        Some(_) => Err(LinkFault::Failed {
            status: OTHER_LENGTH,
        }),
    }
}

/// Copies bytes, unless they have the digest that is asked about.
fn copy_unless_same(bytes: &[u8], verify: Option<Digest>, out: &mut [u8]) -> Got
    requires { length bytes.now ≡ length out.old }
    ensures shows { Shows verify (Some bytes.now) (Ok result) out.new }
    ensures unchanged { result ≡ Got.Same → out.new ≡ out.old }
{
    if let Some(digest) = verify {
        if digest_of(bytes) == digest {
            return Got::Same;
        }
    }
    out.copy_from_slice(bytes);
    Got::Bytes
}

/// The MD5 of bytes.
fn digest_of(bytes: &[u8]) -> Digest
    ensures { result ≡ md5 bytes.now }
{
    use md5::Digest;
    Md5::digest(bytes)
}
