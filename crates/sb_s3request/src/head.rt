//! Heads of requests.

ghost use Rattle.std.specs.Prelude.{◌≡◌, ◌++◌, OnOk};
ghost use Rattle.sb_s3request.specs.Heads.{AreDigests, first_lines, head_of, header_lines, last_lines};
ghost use Rattle.sb_s3request.specs.Operations.{asked_of};

use crate::digests::Digests;
use crate::headers::{write_content, write_header, write_payload, write_sizes, write_tag};
use crate::operation::Operation;
use crate::parts::Parts;
use crate::target::write_request_line;
use sb_sign::Authorization;
use std::alloc::{AllocError, Global};

/// Writes the head of a request behind the bytes of `out`.
#[tactic(auto, unfolding(crate::specs::Heads::head_of))]
pub(crate) fn write_head(
    alloc: Global,
    out: &mut Vec<u8>,
    operation: &Operation<'_>,
    parts: &Parts,
    signed: &Authorization,
) -> Result<(), AllocError>
    requires query { parts.now.request.query.items ≡ (asked_of operation.now).query }
    requires digests { AreDigests operation.now.method operation.now.body.now parts.now.digests }
    ensures { OnOk result (out.new.items ≡ out.old.items
        ++ head_of parts.now.host parts.now.request.path (asked_of operation.now) signed.now) }
{
    let request = &parts.request;
    write_request_line(
        alloc,
        out,
        operation.method,
        request.path.bytes(),
        &request.query,
    )?;
    write_headers(out, parts.host.bytes(), operation, &parts.digests, signed)?;
    out.extend_from_slice(b"\r\n")
}

/// Writes the lines of the headers behind the bytes of `out`.
#[tactic(auto, unfolding(crate::specs::Heads::header_lines))]
fn write_headers(
    out: &mut Vec<u8>,
    host: &[u8],
    operation: &Operation<'_>,
    digests: &Digests,
    signed: &Authorization,
) -> Result<(), AllocError>
    requires { AreDigests operation.now.method operation.now.body.now digests.now }
    ensures { OnOk result (out.new.items ≡ out.old.items
        ++ header_lines host.now (asked_of operation.now) signed.now) }
{
    write_first(out, host, signed.header.bytes())?;
    write_content(out, digests.length, &digests.content)?;
    write_last(out, operation, &digests.payload, &signed.date)
}

/// Writes the lines before those of a body.
#[tactic(auto, unfolding(crate::specs::Heads::first_lines))]
fn write_first(out: &mut Vec<u8>, host: &[u8], authorization: &[u8]) -> Result<(), AllocError>
    ensures { OnOk result (out.new.items ≡ out.old.items ++ first_lines host.now authorization.now) }
{
    write_header(out, b"host", host)?;
    write_header(out, b"authorization", authorization)?;
    write_header(out, b"connection", b"close")
}

/// Writes the lines behind those of a body.
#[tactic(auto, unfolding(crate::specs::Heads::last_lines))]
fn write_last(
    out: &mut Vec<u8>,
    operation: &Operation<'_>,
    payload: &[u8; 32],
    date: &[u8; 16],
) -> Result<(), AllocError>
    ensures { OnOk result (out.new.items ≡ out.old.items
        ++ last_lines operation.now.verify payload.now date.now operation.now.meta) }
{
    write_tag(out, operation.verify)?;
    write_payload(out, payload)?;
    write_header(out, b"x-amz-date", date)?;
    write_sizes(out, operation.meta)
}
