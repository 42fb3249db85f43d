//! What an answer shows.

ghost use Rattle.std.specs.Prelude.{◌≡◌, ◌&&◌, nat_eq, length};
ghost use Rattle.md5.specs.Md5.{md5};
ghost use Rattle.sb_history.specs.Contents.{is_zeros};
ghost use Rattle.sb_staleness.specs.Showing.{shows};

use md5::Md5;
use sb_base::{Digest, Shown};

/// An answer shows this content: its bytes, or its digest where the GET asked about one. A failure shows any.
pub(crate) fn shows(block_size: u32, verify: Option<Digest>, answer: &Shown, content: &[u8]) -> bool
    ensures { result ≡ shows block_size verify answer.now content.now }
{
    match answer {
        Shown::Absent => is_zero_block(block_size, content),
        Shown::Bytes(bytes) => content == bytes.bytes(),
        Shown::Same => match verify {
            Some(digest) => digest_of(content) == digest,
            None => false,
        },
        Shown::Failed => true,
    }
}

/// A content is a block of zeros.
pub(crate) fn is_zero_block(block_size: u32, content: &[u8]) -> bool
    ensures { result ≡ (nat_eq (length content.now) block_size && is_zeros content.now) }
{
    content.len() == block_size as usize && is_zeros(content)
}

/// All bytes are zero.
fn is_zeros(content: &[u8]) -> bool
    ensures { result ≡ is_zeros content.now }
{
    content.iter().all(|byte| *byte == 0)
}

/// The MD5 of a content.
fn digest_of(content: &[u8]) -> Digest
    ensures { result ≡ md5 content.now }
{
    use md5::Digest;
    Md5::digest(content)
}
