//! The canonical form of a request.

ghost use Rattle.std.specs.Prelude.{◌≡◌, IfOk, OnOk, ◌++◌, ◌∷◌, []};
ghost use Rattle.std.specs.List.{flat_map};
ghost use Rattle.sb_sign.specs.Requests.{
  canonical_request_of,
  header_line,
  names_of,
  place_of_name,
  signed_headers_of,
  with_header,
};

use crate::encoding::{encoded_path, encoded_query};
use crate::request::{Pair, Request};
use sb_base::Text;
use std::alloc::{AllocError, Global};

/// The headers that are signed, in byte order of their names.
pub(crate) fn signed_headers(
    alloc: Global,
    request: &Request,
    date: &[u8],
) -> Result<Vec<Pair>, AllocError>
    ensures { IfOk result (λ headers. headers.items ≡ signed_headers_of request.now.signed.items request.now.payload
        date.now) }
{
    let mut headers = Vec::new(alloc);
    for header in &request.signed {
        add_header(
            alloc,
            &mut headers,
            header.name.bytes(),
            header.value.bytes(),
        )?;
    }
    let payload = hex::encode(alloc, request.payload)?;
    add_header(
        alloc,
        &mut headers,
        b"x-amz-content-sha256",
        payload.as_bytes(),
    )?;
    add_header(alloc, &mut headers, b"x-amz-date", date)?;
    Ok(headers)
}

/// Puts a header where it belongs.
fn add_header(
    alloc: Global,
    headers: &mut Vec<Pair>,
    name: &[u8],
    value: &[u8],
) -> Result<(), AllocError>
    ensures { OnOk result (headers.new.items ≡ with_header headers.old.items
        (record { name = name.now; value = value.now })) }
{
    let header = Pair {
        name: Text::of(alloc, name)?,
        value: Text::of(alloc, value)?,
    };
    headers.insert(place_of(headers, name), header)?;
    Ok(())
}

/// Where a header of this name belongs: behind those whose names are not after it.
fn place_of(headers: &[Pair], name: &[u8]) -> usize
    ensures { result ≡ place_of_name headers.now name.now }
{
    headers
        .iter()
        .take_while(|other| other.name.bytes().cmp(&name).is_le())
        .count()
}

/// The names of headers, with `;` between each two.
pub(crate) fn names(alloc: Global, headers: &[Pair]) -> Result<Vec<u8>, AllocError>
    ensures { IfOk result (λ names. names.items ≡ names_of headers.now) }
{
    let mut names = Vec::new(alloc);
    for (i, header) in headers.iter().enumerate() {
        if i > 0 {
            names.push(b';')?;
        }
        names.extend_from_slice(header.name.bytes())?;
    }
    Ok(names)
}

/// The lines of headers.
fn lines(alloc: Global, headers: &[Pair]) -> Result<Vec<u8>, AllocError>
    ensures { IfOk result (λ lines. lines.items ≡ flat_map header_line headers.now) }
{
    let mut lines = Vec::new(alloc);
    for header in headers {
        lines.extend_from_slice(header.name.bytes())?;
        lines.extend_from_slice(b":")?;
        lines.extend_from_slice(header.value.bytes())?;
        lines.extend_from_slice(b"\n")?;
    }
    Ok(lines)
}

/// The canonical request, with these signed headers and their names.
#[tactic(auto, unfolding(crate::specs::Requests::canonical_request_of))]
pub(crate) fn canonical_request(
    alloc: Global,
    request: &Request,
    headers: &[Pair],
    names: &[u8],
) -> Result<Vec<u8>, AllocError>
    requires { names.now ≡ names_of headers.now }
    ensures { IfOk result (λ text. text.items ≡ canonical_request_of request.now headers.now) }
{
    let path = encoded_path(alloc, request.path.bytes())?;
    let query = encoded_query(alloc, &request.query)?;
    let lines = lines(alloc, headers)?;
    let payload = hex::encode(alloc, request.payload)?;
    let mut text = Vec::new(alloc);
    add_line(&mut text, request.method.text())?;
    add_line(&mut text, path.bytes())?;
    add_line(&mut text, query.bytes())?;
    add_line(&mut text, &lines)?;
    add_line(&mut text, names)?;
    text.extend_from_slice(payload.as_bytes())?;
    Ok(text)
}

/// Appends a line and the byte that ends it.
pub(crate) fn add_line(text: &mut Vec<u8>, line: &[u8]) -> Result<(), AllocError>
    ensures { OnOk result (text.new.items ≡ text.old.items ++ line.now ++ 10 ∷ []) }
{
    text.extend_from_slice(line)?;
    text.extend_from_slice(b"\n")?;
    Ok(())
}
