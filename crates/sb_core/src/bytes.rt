//! Bytes of parts and blocks.

ghost use Rattle.std.specs.Prelude.{◌≡◌, length};
ghost use Rattle.md5.specs.Md5.{md5};
ghost use Rattle.sb_history.specs.Contents.{zeros, is_zeros};

use md5::Md5;
use sb_base::{Digest, Part};

/// What a write writes to its part.
#[derive(Drop, Clone, Copy)]
pub(crate) enum Bytes<'a> {
    /// These bytes, as many as the part has.
    Given(&'a [u8]),
    Zeros,
}

impl Bytes<'_> {
    ghost use Rattle.sb_core.specs.Writing.{bytes_of};

    /// Whether all are zeros.
    pub(crate) fn are_zeros(self, part: Part) -> bool
        ensures { result ≡ is_zeros (bytes_of part self.entry) }
    {
        match self {
            Bytes::Given(bytes) => is_zeros(bytes),
            Bytes::Zeros => true,
        }
    }
}

/// Whether all bytes are zeros.
pub(crate) fn is_zeros(bytes: &[u8]) -> bool
    ensures { result ≡ is_zeros bytes.now }
{
    bytes.iter().all(|byte| *byte == 0)
}

/// The MD5 of a content.
pub(crate) fn digest_of(content: &[u8]) -> Digest
    ensures { result ≡ md5 content.now }
{
    <Md5 as md5::Digest>::digest(content)
}

/// Makes all bytes zeros.
pub(crate) fn fill_zeros(out: &mut [u8])
    ensures { out.new ≡ zeros (length out.old) }
{
    out.fill(0);
}
