//! HMAC-SHA256 (RFC 2104), which takes no memory.

ghost use Rattle.std.specs.Prelude.{◌≡◌, ◌≤◌, ℕ, List, length};
ghost use Rattle.sha2.specs.Hashers.{Holds256};
ghost use Rattle.sb_sign.specs.Hmac.{IsKeyed, filled, hmac_of, padded, short_key};

use sha2::{Digest, Sha256};

/// How many bytes a block of SHA-256 has.
const BLOCK: usize = 64;

/// The pad of the first hash.
const INNER: u8 = 0x36;

/// The pad of the second hash, which is over the first.
const OUTER: u8 = 0x5c;

/// The hashers of an HMAC that have taken in its key, to be used for several messages.
#[derive(Drop)]
pub(crate) struct Keyed {
    pub(crate) inner: Sha256,
    pub(crate) outer: Sha256,
}

/// The HMAC of a message.
pub fn hmac_sha256(key: &[u8], message: &[u8]) -> [u8; 32]
    ensures { result ≡ hmac_of key.now message.now }
{
    take_key(key).hmac(message)
}

/// The hashers of a key of any length.
pub(crate) fn take_key(key: &[u8]) -> Keyed
    ensures { IsKeyed result key.now }
{
    if key.len() > BLOCK {
        take_block(&Sha256::digest(key))
    } else {
        take_block(key)
    }
}

/// The hashers of a key that has room in a block.
fn take_block(key: &[u8]) -> Keyed
    requires { length key.now ≤ BLOCK }
    ensures inner { Holds256 result.inner (padded INNER (filled key.now)) }
    ensures outer { Holds256 result.outer (padded OUTER (filled key.now)) }
{
    Keyed {
        inner: hasher(key, INNER),
        outer: hasher(key, OUTER),
    }
}

/// A hasher that has taken in a key's block under a pad.
fn hasher(key: &[u8], pad: u8) -> Sha256
    requires { length key.now ≤ BLOCK }
    ensures { Holds256 result (padded pad (filled key.now)) }
{
    let mut hasher = Sha256::new();
    for byte in key {
        hasher.update([*byte ^ pad]);
    }
    hasher.update(&[pad; BLOCK][key.len()..]);
    hasher
}

impl Keyed {
    /// The HMAC of a message under the key.
    pub(crate) fn hmac(&self, message: &[u8]) -> [u8; 32]
        ensures { (key : List ℕ) → IsKeyed self.now key → result ≡ hmac_of key message.now }
    {
        let mut inner = self.inner.clone().unwrap();
        inner.update(message);
        let mut outer = self.outer.clone().unwrap();
        outer.update(inner.finalize());
        outer.finalize()
    }
}
