//! The headers that are signed.

ghost use Rattle.std.specs.Prelude.{◌≡◌, ◌++◌, ◌∷◌, [], IfOk, OnOk, decimal};
ghost use Rattle.sb_s3request.specs.Heads.{
  block_size_pairs,
  content_pairs,
  digest_pairs,
  disk_size_pairs,
  meta_pairs,
  signed_pairs,
  size_pairs,
};
ghost use Rattle.sb_s3request.specs.Operations.{pair};

use crate::target::add_pair;
use sb_base::Text;
use sb_sign::Pair;
use sb_world::Meta;
use std::alloc::{AllocError, Global};

/// The headers that are signed, but for the payload's hash and the date.
pub(crate) fn signed_of(
    alloc: Global,
    host: &[u8],
    content: &Option<Text>,
    meta: Option<Meta>,
) -> Result<Vec<Pair>, AllocError>
    ensures { IfOk result (λ headers. headers.items ≡ signed_pairs host.now content.now meta) }
{
    let mut headers = Vec::new(alloc);
    add_pair(alloc, &mut headers, b"host", host)?;
    add_content(alloc, &mut headers, content)?;
    add_sizes(alloc, &mut headers, meta)?;
    Ok(headers)
}

/// Adds the MD5 of a body that is put.
fn add_content(
    alloc: Global,
    headers: &mut Vec<Pair>,
    content: &Option<Text>,
) -> Result<(), AllocError>
    ensures { OnOk result (headers.new.items ≡ headers.old.items ++ content_pairs content.now) }
{
    match content {
        Some(digest) => add_digest(alloc, headers, digest.bytes()),
        None => Ok(()),
    }
}

/// Adds this MD5 of a body.
fn add_digest(alloc: Global, headers: &mut Vec<Pair>, digest: &[u8]) -> Result<(), AllocError>
    ensures { OnOk result (headers.new.items ≡ headers.old.items ++ digest_pairs digest.now) }
{
    add_pair(alloc, headers, b"content-md5", digest)
}

/// Adds the sizes, where they are told.
fn add_sizes(alloc: Global, headers: &mut Vec<Pair>, meta: Option<Meta>) -> Result<(), AllocError>
    ensures { OnOk result (headers.new.items ≡ headers.old.items ++ size_pairs meta) }
{
    match meta {
        Some(meta) => add_meta(alloc, headers, meta),
        None => Ok(()),
    }
}

/// Adds these sizes.
fn add_meta(alloc: Global, headers: &mut Vec<Pair>, meta: Meta) -> Result<(), AllocError>
    ensures { OnOk result (headers.new.items ≡ headers.old.items ++ meta_pairs meta) }
{
    add_block_size(alloc, headers, u64::from(meta.block_size))?;
    add_disk_size(alloc, headers, meta.size)
}

/// Adds the size of a block.
#[tactic(auto, unfolding(crate::specs::Heads::block_size_pairs))]
fn add_block_size(alloc: Global, headers: &mut Vec<Pair>, size: u64) -> Result<(), AllocError>
    ensures { OnOk result (headers.new.items ≡ headers.old.items ++ block_size_pairs size) }
{
    add_number(alloc, headers, b"x-amz-meta-s3backer-blocksize", size)
}

/// Adds the size of a disk.
#[tactic(auto, unfolding(crate::specs::Heads::disk_size_pairs))]
fn add_disk_size(alloc: Global, headers: &mut Vec<Pair>, size: u64) -> Result<(), AllocError>
    ensures { OnOk result (headers.new.items ≡ headers.old.items ++ disk_size_pairs size) }
{
    add_number(alloc, headers, b"x-amz-meta-s3backer-filesize", size)
}

/// Adds a header whose value is a number in decimal.
fn add_number(
    alloc: Global,
    headers: &mut Vec<Pair>,
    name: &[u8],
    number: u64,
) -> Result<(), AllocError>
    ensures { OnOk result (headers.new.items ≡ headers.old.items ++ pair name.now (decimal number) ∷ []) }
{
    let mut digits = itoa::Buffer::new();
    add_pair(alloc, headers, name, digits.format(number).as_bytes())
}
