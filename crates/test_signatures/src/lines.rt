//! What is printed of a request and its signature.

ghost use Rattle.std.specs.Prelude.{◌≡◌, IfOk, OnOk, ◌++◌};
ghost use Rattle.std.specs.List.{flat_map};
ghost use Rattle.test_signatures.specs.Lines.{case_lines, credential_lines, line_of, pair_line, request_lines, target_lines};

use crate::cases::Case;
use sb_sign::{Authorization, Pair, Request, encoded_path, encoded_query};
use std::alloc::{AllocError, Global};

/// The lines of a case and its signature, each a word, `: ` and a value, and an empty line after them.
#[tactic(auto, unfolding(crate::specs::Lines::case_lines))]
pub fn lines_of(alloc: Global, case: &Case, signed: &Authorization) -> Result<Vec<u8>, AllocError>
    ensures { IfOk result (λ lines. lines.items ≡ case_lines case.now signed.now) }
{
    let mut lines = Vec::new(alloc);
    add_credentials(alloc, &mut lines, case)?;
    add_request(&mut lines, &case.request)?;
    add_target(alloc, &mut lines, &case.request)?;
    add_line(&mut lines, b"body", case.body.bytes())?;
    add_line(&mut lines, b"date", &signed.date)?;
    add_line(&mut lines, b"authorization", signed.header.bytes())?;
    lines.extend_from_slice(b"\n")?;
    Ok(lines)
}

/// Adds what signs a request.
#[tactic(auto, unfolding(crate::specs::Lines::credential_lines))]
fn add_credentials(alloc: Global, lines: &mut Vec<u8>, case: &Case) -> Result<(), AllocError>
    ensures { OnOk result (lines.new.items ≡ lines.old.items ++ credential_lines case.now) }
{
    let moment = format!(in alloc; "{}", case.moment)?;
    add_line(lines, b"id", case.id.bytes())?;
    add_line(lines, b"secret", case.secret.bytes())?;
    add_line(lines, b"region", case.region.bytes())?;
    add_line(lines, b"moment", moment.as_bytes())
}

/// Adds a request before it is encoded.
#[tactic(auto, unfolding(crate::specs::Lines::request_lines))]
fn add_request(lines: &mut Vec<u8>, request: &Request) -> Result<(), AllocError>
    ensures { OnOk result (lines.new.items ≡ lines.old.items ++ request_lines request.now) }
{
    add_line(lines, b"method", request.method.text())?;
    add_line(lines, b"path", request.path.bytes())?;
    add_pairs(lines, b"query", &request.query)?;
    add_pairs(lines, b"header", &request.signed)
}

/// Adds the target that is sent.
#[tactic(auto, unfolding(crate::specs::Lines::target_lines))]
fn add_target(alloc: Global, lines: &mut Vec<u8>, request: &Request) -> Result<(), AllocError>
    ensures { OnOk result (lines.new.items ≡ lines.old.items ++ target_lines request.now) }
{
    let path = encoded_path(alloc, request.path.bytes())?;
    let query = encoded_query(alloc, &request.query)?;
    add_line(lines, b"encoded path", path.bytes())?;
    add_line(lines, b"encoded query", query.bytes())
}

/// Adds a line for each pair.
fn add_pairs(lines: &mut Vec<u8>, word: &[u8], pairs: &[Pair]) -> Result<(), AllocError>
    ensures { OnOk result (lines.new.items ≡ lines.old.items ++ flat_map (pair_line word.now) pairs.now) }
{
    for pair in pairs {
        add_pair(lines, word, pair)?;
    }
    Ok(())
}

/// Adds the line of a pair.
fn add_pair(lines: &mut Vec<u8>, word: &[u8], pair: &Pair) -> Result<(), AllocError>
    ensures { OnOk result (lines.new.items ≡ lines.old.items ++ pair_line word.now pair.now) }
{
    lines.extend_from_slice(word)?;
    lines.extend_from_slice(b": ")?;
    lines.extend_from_slice(pair.name.bytes())?;
    lines.extend_from_slice(b"=")?;
    lines.extend_from_slice(pair.value.bytes())?;
    lines.extend_from_slice(b"\n")
}

/// Adds a line.
fn add_line(lines: &mut Vec<u8>, word: &[u8], value: &[u8]) -> Result<(), AllocError>
    ensures { OnOk result (lines.new.items ≡ lines.old.items ++ line_of word.now value.now) }
{
    lines.extend_from_slice(word)?;
    lines.extend_from_slice(b": ")?;
    lines.extend_from_slice(value)?;
    lines.extend_from_slice(b"\n")
}
