//! What a request line asks for.

ghost use Rattle.std.specs.Prelude.{◌≡◌, ◌++◌, ◌∷◌, [], IfOk, OnOk};
ghost use Rattle.sb_s3request.specs.Heads.{query_text, request_line};
ghost use Rattle.sb_s3request.specs.Operations.{listing_query, pair, query_of};

use crate::operation::Listing;
use sb_base::Text;
use sb_sign::{Method, Pair, encoded_path, encoded_query};
use std::alloc::{AllocError, Global};

/// Writes a request line behind the bytes of `out`.
#[tactic(auto, unfolding(crate::specs::Heads::request_line))]
pub(crate) fn write_request_line(
    alloc: Global,
    out: &mut Vec<u8>,
    method: Method,
    path: &[u8],
    query: &[Pair],
) -> Result<(), AllocError>
    ensures { OnOk result (out.new.items ≡ out.old.items ++ request_line method path.now query.now) }
{
    out.extend_from_slice(method.text())?;
    out.extend_from_slice(b" ")?;
    out.extend_from_slice(encoded_path(alloc, path)?.bytes())?;
    write_query(alloc, out, query)?;
    out.extend_from_slice(b" HTTP/1.1\r\n")
}

/// Writes a query with its question mark behind the bytes of `out`, nothing for an empty one.
fn write_query(alloc: Global, out: &mut Vec<u8>, query: &[Pair]) -> Result<(), AllocError>
    ensures { OnOk result (out.new.items ≡ out.old.items ++ query_text query.now) }
{
    if query.is_empty() {
        return Ok(());
    }
    out.extend_from_slice(b"?")?;
    out.extend_from_slice(encoded_query(alloc, query)?.bytes())
}

/// The query of a listing, or none.
pub(crate) fn query_of(alloc: Global, listing: Option<Listing<'_>>) -> Result<Vec<Pair>, AllocError>
    ensures { IfOk result (λ query. query.items ≡ query_of listing.entry) }
{
    match listing {
        Some(listing) => listing_query(alloc, listing.prefix, listing.marker),
        None => Ok(Vec::new(alloc)),
    }
}

/// The query of a listing.
fn listing_query(alloc: Global, prefix: &[u8], marker: &[u8]) -> Result<Vec<Pair>, AllocError>
    ensures { IfOk result (λ query. query.items ≡ listing_query prefix.now marker.now) }
{
    let mut query = Vec::new(alloc);
    if !marker.is_empty() {
        add_pair(alloc, &mut query, b"marker", marker)?;
    }
    add_pair(alloc, &mut query, b"max-keys", b"1000")?;
    add_pair(alloc, &mut query, b"prefix", prefix)?;
    Ok(query)
}

/// Adds a name with a value.
pub(crate) fn add_pair(
    alloc: Global,
    pairs: &mut Vec<Pair>,
    name: &[u8],
    value: &[u8],
) -> Result<(), AllocError>
    ensures { OnOk result (pairs.new.items ≡ pairs.old.items ++ pair name.now value.now ∷ []) }
{
    let name = Text::of(alloc, name)?;
    let value = Text::of(alloc, value)?;
    pairs.push(Pair { name, value })?;
    Ok(())
}
