//! What is printed of a case and its request.

ghost use Rattle.std.specs.Prelude.{◌≡◌, OnOk, ◌++◌, ◌∷◌, [], codes};

use crate::cases::{Case, Kind};
use sb_base::Text;
use sb_world::Meta;
use std::alloc::{AllocError, Global};

/// The lines of a case and its request, each a word, `: ` and a value, and an empty line after them. The request is in
/// hex.
pub fn lines_of(alloc: Global, case: &Case, sent: &Text) -> Result<Vec<u8>, AllocError> {
    let mut lines = Vec::new(alloc);
    add_credentials(alloc, &mut lines, case)?;
    add_site(alloc, &mut lines, case)?;
    add_call(alloc, &mut lines, case)?;
    let bytes = hex::encode(alloc, sent.bytes())?;
    add_line(&mut lines, b"sent", bytes.as_bytes())?;
    lines.extend_from_slice(b"\n")?;
    Ok(lines)
}

/// Adds what signs a request.
fn add_credentials(alloc: Global, lines: &mut Vec<u8>, case: &Case) -> Result<(), AllocError> {
    let moment = format!(in alloc; "{}", case.moment)?;
    add_line(lines, b"id", case.id.bytes())?;
    add_line(lines, b"secret", case.secret.bytes())?;
    add_line(lines, b"region", case.region.bytes())?;
    add_line(lines, b"moment", moment.as_bytes())
}

/// Adds where the bucket is.
fn add_site(alloc: Global, lines: &mut Vec<u8>, case: &Case) -> Result<(), AllocError> {
    let port = format!(in alloc; "{}", case.port)?;
    let style = if case.vhost {
        b"virtual".as_slice()
    } else {
        b"path"
    };
    add_line(lines, b"host", case.host.bytes())?;
    add_line(lines, b"port", port.as_bytes())?;
    add_line(lines, b"bucket", case.bucket.bytes())?;
    add_line(lines, b"style", style)
}

/// The word of a kind.
fn word_of(kind: Kind) -> &'static [u8] {
    match kind {
        Kind::Get => b"get",
        Kind::Verify => b"verify",
        Kind::Put => b"put",
        Kind::Delete => b"delete",
        Kind::Head => b"head",
        Kind::List => b"list",
        Kind::ListOn => b"list on",
    }
}

/// Adds a call.
fn add_call(alloc: Global, lines: &mut Vec<u8>, case: &Case) -> Result<(), AllocError> {
    add_line(lines, b"call", word_of(case.kind))?;
    add_line(lines, b"name", case.name.bytes())?;
    add_line(lines, b"prefix", case.prefix.bytes())?;
    add_line(lines, b"body", case.body.bytes())?;
    match case.meta {
        Some(meta) => add_meta(alloc, lines, meta),
        None => Ok(()),
    }
}

/// Adds the sizes that a PUT carries.
fn add_meta(alloc: Global, lines: &mut Vec<u8>, meta: Meta) -> Result<(), AllocError> {
    let size = format!(in alloc; "{}", meta.size)?;
    let block_size = format!(in alloc; "{}", meta.block_size)?;
    add_line(lines, b"size", size.as_bytes())?;
    add_line(lines, b"block size", block_size.as_bytes())
}

/// Adds a line.
fn add_line(lines: &mut Vec<u8>, word: &[u8], value: &[u8]) -> Result<(), AllocError>
    ensures { OnOk result (lines.new.items ≡ lines.old.items ++ word.now ++ codes ": " ++ value.now ++ 10 ∷ []) }
{
    lines.extend_from_slice(word)?;
    lines.extend_from_slice(b": ")?;
    lines.extend_from_slice(value)?;
    lines.extend_from_slice(b"\n")
}
