//! The lines of headers.

ghost use Rattle.std.specs.Prelude.{◌≡◌, ◌++◌, OnOk, codes, decimal};
ghost use Rattle.hex.specs.Hex.{encode_lower};
ghost use Rattle.sb_s3request.specs.Heads.{
  body_lines,
  content_lines,
  header_line,
  meta_lines,
  quoted,
  size_lines,
  tag_line,
  tag_lines,
};

use sb_base::{Digest, Text};
use sb_world::Meta;
use std::alloc::AllocError;

/// Writes the line of a header behind the bytes of `out`.
pub(crate) fn write_header(out: &mut Vec<u8>, name: &[u8], value: &[u8]) -> Result<(), AllocError>
    ensures { OnOk result (out.new.items ≡ out.old.items ++ header_line name.now value.now) }
{
    out.extend_from_slice(name)?;
    out.extend_from_slice(b": ")?;
    out.extend_from_slice(value)?;
    out.extend_from_slice(b"\r\n")
}

/// Writes the line of a header whose value is a number in decimal.
fn write_number(out: &mut Vec<u8>, name: &[u8], number: u64) -> Result<(), AllocError>
    ensures { OnOk result (out.new.items ≡ out.old.items ++ header_line name.now (decimal number)) }
{
    let mut digits = itoa::Buffer::new();
    write_header(out, name, digits.format(number).as_bytes())
}

/// Writes the line of the payload's hash.
pub(crate) fn write_payload(out: &mut Vec<u8>, payload: &[u8; 32]) -> Result<(), AllocError>
    ensures { OnOk result (out.new.items ≡ out.old.items ++ header_line (codes "x-amz-content-sha256")
        (encode_lower payload.now)) }
{
    let mut digits = [0; 64];
    match hex::encode_to_slice(payload, &mut digits) {
        Ok(()) => write_header(out, b"x-amz-content-sha256", &digits),
        Err(_) => unreachable!(),
    }
}

/// Writes the lines of a body that is put: how many bytes it has, and its MD5.
pub(crate) fn write_content(
    out: &mut Vec<u8>,
    length: usize,
    digest: &Option<Text>,
) -> Result<(), AllocError>
    ensures { OnOk result (out.new.items ≡ out.old.items ++ content_lines length digest.now) }
{
    match digest {
        Some(digest) => write_body(out, length, digest.bytes()),
        None => Ok(()),
    }
}

/// Writes the lines of a body of which this is the MD5.
fn write_body(out: &mut Vec<u8>, length: usize, digest: &[u8]) -> Result<(), AllocError>
    ensures { OnOk result (out.new.items ≡ out.old.items ++ body_lines length digest.now) }
{
    write_number(out, b"content-length", length as u64)?;
    write_header(out, b"content-md5", digest)
}

/// Writes the line of a GET that verifies.
pub(crate) fn write_tag(out: &mut Vec<u8>, verify: Option<Digest>) -> Result<(), AllocError>
    ensures { OnOk result (out.new.items ≡ out.old.items ++ tag_lines verify) }
{
    match verify {
        Some(digest) => write_digest(out, digest),
        None => Ok(()),
    }
}

/// Writes the line that asks about an MD5: in hex, in quotation marks.
fn write_digest(out: &mut Vec<u8>, digest: Digest) -> Result<(), AllocError>
    ensures { OnOk result (out.new.items ≡ out.old.items ++ tag_line digest) }
{
    let mut digits = [0; 32];
    match hex::encode_to_slice(digest, &mut digits) {
        Ok(()) => write_quoted(out, b"if-none-match", &digits),
        Err(_) => unreachable!(),
    }
}

/// Writes the line of a header whose value is in quotation marks.
fn write_quoted(out: &mut Vec<u8>, name: &[u8], value: &[u8]) -> Result<(), AllocError>
    ensures { OnOk result (out.new.items ≡ out.old.items ++ header_line name.now (quoted value.now)) }
{
    out.extend_from_slice(name)?;
    out.extend_from_slice(b": ")?;
    quote(out, value)?;
    out.extend_from_slice(b"\r\n")
}

/// Writes bytes in quotation marks.
#[tactic(auto, unfolding(crate::specs::Heads::quoted))]
fn quote(out: &mut Vec<u8>, bytes: &[u8]) -> Result<(), AllocError>
    ensures { OnOk result (out.new.items ≡ out.old.items ++ quoted bytes.now) }
{
    out.extend_from_slice(b"\"")?;
    out.extend_from_slice(bytes)?;
    out.extend_from_slice(b"\"")
}

/// Writes the lines of a disk's sizes.
pub(crate) fn write_sizes(out: &mut Vec<u8>, meta: Option<Meta>) -> Result<(), AllocError>
    ensures { OnOk result (out.new.items ≡ out.old.items ++ size_lines meta) }
{
    match meta {
        Some(meta) => write_meta(out, meta),
        None => Ok(()),
    }
}

/// Writes the lines of these sizes.
fn write_meta(out: &mut Vec<u8>, meta: Meta) -> Result<(), AllocError>
    ensures { OnOk result (out.new.items ≡ out.old.items ++ meta_lines meta) }
{
    let block_size = u64::from(meta.block_size);
    write_number(out, b"x-amz-meta-s3backer-blocksize", block_size)?;
    write_number(out, b"x-amz-meta-s3backer-filesize", meta.size)
}
