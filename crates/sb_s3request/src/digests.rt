//! The digests of a body.

ghost use Rattle.std.specs.Prelude.{◌≡◌, IfOk};
ghost use Rattle.sb_s3request.specs.Heads.{AreDigests, content_digest};

use sb_base::Text;
use sb_sign::{Method, content_md5};
use sha2::{Digest, Sha256};
use std::alloc::{AllocError, Global};

/// What a request tells of its body, taken once.
#[derive(Drop)]
pub(crate) struct Digests {
    /// How many bytes it has.
    pub(crate) length: usize,
    /// The SHA-256.
    pub(crate) payload: [u8; 32],
    /// The MD5 in base64, of a body that is put.
    pub(crate) content: Option<Text>,
}

/// The digests of the body of a request.
pub(crate) fn digests_of(alloc: Global, method: Method, body: &[u8]) -> Result<Digests, AllocError>
    ensures { IfOk result (AreDigests method body.now) }
{
    Ok(Digests {
        length: body.len(),
        payload: Sha256::digest(body),
        content: content_digest(alloc, method, body)?,
    })
}

/// The MD5 of a body that is put.
fn content_digest(alloc: Global, method: Method, body: &[u8]) -> Result<Option<Text>, AllocError>
    ensures { IfOk result (λ digest. digest ≡ content_digest method body.now) }
{
    match method {
        Method::Put => Ok(Some(content_md5(alloc, body)?)),
        Method::Get => Ok(None),
        Method::Head => Ok(None),
        Method::Delete => Ok(None),
    }
}
