//! What is measured, so many times.

use sb_base::Text;
use sb_sign::{Authorization, Method, Pair, Request, SignFault, Signer, content_md5};
use sha2::{Digest, Sha256};
use std::alloc::{AllocError, Global};

/// The `authorization` of a PUT of this body at the last of these seconds.
pub fn last_header(alloc: Global, body: &[u8], rounds: u32) -> anyhow::Result<String> {
    let mut signer = Signer::new(
        alloc,
        b"AKIDEXAMPLE",
        b"loopback/test+only=key",
        b"us-east-1",
    )?;
    let request = put(alloc, body)?;
    let mut last = Text::from_vec(Vec::new(alloc));
    for second in 0..rounds {
        last = signer.sign(alloc, &request, i64::from(second))?.header;
    }
    Ok(String::from_utf8(last.into_vec())?)
}

/// The last SHA-256, in hex.
pub fn last_sha256(alloc: Global, body: &mut [u8], rounds: u32) -> Result<String, AllocError> {
    let mut last = [0; 32];
    for _ in 0..rounds {
        last = Sha256::digest(&*body);
        put_first(body, last[0]);
    }
    hex::encode(alloc, last)
}

/// The last MD5, as the value of a `content-md5` header.
pub fn last_md5(alloc: Global, body: &mut [u8], rounds: u32) -> anyhow::Result<String> {
    let mut last = Text::from_vec(Vec::new(alloc));
    for _ in 0..rounds {
        last = content_md5(alloc, body)?;
        if let Some(byte) = last.bytes().first() {
            put_first(body, *byte);
        }
    }
    Ok(String::from_utf8(last.into_vec())?)
}

/// Puts a byte at the front of a body that has any.
fn put_first(body: &mut [u8], byte: u8) {
    if let Some(first) = body.first_mut() {
        *first = byte;
    }
}

/// The PUT of a block with this body.
fn put(alloc: Global, body: &[u8]) -> Result<Request, AllocError> {
    let digest = content_md5(alloc, body)?;
    let mut signed = Vec::new(alloc);
    signed.push(pair(alloc, b"host", b"127.0.0.1:9000")?)?;
    signed.push(pair(alloc, b"content-md5", digest.bytes())?)?;
    Ok(Request {
        method: Method::Put,
        path: Text::of(alloc, b"/disk/0000001f")?,
        query: Vec::new(alloc),
        signed,
        payload: Sha256::digest(body),
    })
}

/// A header.
fn pair(alloc: Global, name: &[u8], value: &[u8]) -> Result<Pair, AllocError> {
    let name = Text::of(alloc, name)?;
    let value = Text::of(alloc, value)?;
    Ok(Pair { name, value })
}
