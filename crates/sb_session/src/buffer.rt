//! The buffer of a session.

ghost use Rattle.std.specs.Prelude.{◌≡◌, IfOk, length, vec_len};
ghost use Rattle.sb_nbd.specs.declared.request.TheConstants.{MAX_PAYLOAD};

use sb_nbd::MAX_PAYLOAD;
use std::alloc::{AllocError, Global};

/// Room for the bytes of one request, which a session takes before it starts.
#[derive(Drop)]
pub struct Buffer {
    pub(crate) bytes: Vec<u8>,
    ghost whole: { vec_len bytes ≡ MAX_PAYLOAD },
}

impl Buffer {
    /// A buffer of 32 MiB.
    pub fn new(alloc: Global) -> Result<Buffer, AllocError> {
        Ok(Buffer {
            bytes: vec![in alloc; 0; MAX_PAYLOAD as usize]?,
        })
    }
}
