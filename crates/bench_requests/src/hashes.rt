//! The hashes of a body that a PUT takes.

use md5::Md5;
use sha2::{Digest, Sha256};
use std::alloc::{AllocError, Global};

/// The last digests of a body of so many bytes, in hex. A byte of each goes into the next body.
pub fn last_digests(alloc: Global, size: u32, rounds: u32) -> Result<String, AllocError> {
    let mut body = vec![in alloc; 0; size as usize]?;
    let mut payload = [0; 32];
    let mut content = [0; 16];
    for _ in 0..rounds {
        payload = Sha256::digest(&body);
        content = md5_of(&body);
        put_first(&mut body, payload[0] ^ content[0]);
    }
    let mut text = hex::encode(alloc, payload)?;
    text.push_str(" ")?;
    text.push_str(hex::encode(alloc, content)?.as_str())?;
    Ok(text)
}

/// The MD5 of a body.
fn md5_of(body: &[u8]) -> [u8; 16] {
    use md5::Digest;
    Md5::digest(body)
}

/// Puts a byte at the front of a body that has any.
fn put_first(body: &mut [u8], byte: u8) {
    if let Some(first) = body.first_mut() {
        *first = byte;
    }
}
