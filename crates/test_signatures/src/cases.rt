//! Requests of the kinds that a disk makes.

ghost use Rattle.std.specs.Prelude.{◌≡◌, OnOk, ◌++◌, ◌∷◌, []};

use crate::draws::Draws;
use sb_base::Text;
use sb_sign::{Method, Pair, Request, content_md5};
use sha2::{Digest, Sha256};
use std::alloc::{AllocError, Global};

/// The bytes of a region, a host and a bucket.
const NAME: &'static [u8] = b"abcdefghijklmnopqrstuvwxyz0123456789-";

/// The bytes that a prefix may have, which also make secrets and bodies.
const PREFIX: &'static [u8] =
    b" !#$%()*+,-./0123456789:;=?@ABCDEFGHIJKLMNOPQRSTUVWXYZ[\\]^_`abcdefghijklmnopqrstuvwxyz{|}~";

/// The digits of a block's name.
const HEX_DIGITS: &'static [u8] = b"0123456789abcdef";

/// The digits of a size.
const DIGITS: &'static [u8] = b"123456789";

/// The first moment, in seconds since the beginning of 1970, that has no date.
const END_OF_DATES: u64 = 253_370_764_800;

/// A request with its body, and with what signs it.
#[derive(Drop)]
pub struct Case {
    pub id: Text,
    pub secret: Text,
    pub region: Text,
    pub moment: i64,
    pub request: Request,
    pub body: Text,
}

impl Case {
    /// The next case.
    pub fn drawn(alloc: Global, draws: &mut Draws) -> Result<Case, AllocError> {
        let body = draws.text(alloc, PREFIX, 0, 200)?;
        Ok(Case {
            id: draws.text(alloc, NAME, 16, 20)?,
            secret: draws.text(alloc, PREFIX, 1, 100)?,
            region: draws.text(alloc, NAME, 3, 14)?,
            moment: draws.below(END_OF_DATES) as i64,
            request: request(alloc, draws, body.bytes())?,
            body,
        })
    }
}

/// A request with this body.
fn request(alloc: Global, draws: &mut Draws, body: &[u8]) -> Result<Request, AllocError> {
    Ok(Request {
        method: method(draws),
        path: path(alloc, draws)?,
        query: query(alloc, draws)?,
        signed: headers(alloc, draws, body)?,
        payload: Sha256::digest(body),
    })
}

/// Any method.
fn method(draws: &mut Draws) -> Method {
    match draws.below(4) {
        0 => Method::Get,
        1 => Method::Put,
        2 => Method::Head,
        _ => Method::Delete,
    }
}

/// The path of a block.
fn path(alloc: Global, draws: &mut Draws) -> Result<Text, AllocError> {
    let bucket = draws.text(alloc, NAME, 1, 20)?;
    let prefix = draws.text(alloc, PREFIX, 0, 200)?;
    let name = draws.text(alloc, HEX_DIGITS, 8, 8)?;
    let mut path = Vec::new(alloc);
    for part in [b"/", bucket.bytes(), b"/", prefix.bytes(), name.bytes()] {
        path.extend_from_slice(part)?;
    }
    Ok(Text::from_vec(path))
}

/// The query of a listing, or none.
fn query(alloc: Global, draws: &mut Draws) -> Result<Vec<Pair>, AllocError> {
    let mut query = Vec::new(alloc);
    if draws.below(2) == 0 {
        let marker = draws.text(alloc, PREFIX, 1, 200)?;
        let prefix = draws.text(alloc, PREFIX, 0, 200)?;
        add_pair(alloc, &mut query, b"marker", marker.bytes())?;
        add_pair(alloc, &mut query, b"max-keys", b"1000")?;
        add_pair(alloc, &mut query, b"prefix", prefix.bytes())?;
    }
    Ok(query)
}

/// The headers that are signed, in an order that isn't that of their names.
fn headers(alloc: Global, draws: &mut Draws, body: &[u8]) -> Result<Vec<Pair>, AllocError> {
    let mut headers = Vec::new(alloc);
    if draws.below(2) == 0 {
        add_geometry(alloc, draws, &mut headers)?;
    }
    let host = draws.text(alloc, NAME, 1, 20)?;
    add_pair(alloc, &mut headers, b"host", host.bytes())?;
    if draws.below(2) == 0 {
        let digest = content_md5(alloc, body)?;
        add_pair(alloc, &mut headers, b"content-md5", digest.bytes())?;
    }
    Ok(headers)
}

/// Adds the headers of a disk's size and the size of its blocks.
fn add_geometry(
    alloc: Global,
    draws: &mut Draws,
    headers: &mut Vec<Pair>,
) -> Result<(), AllocError> {
    let size = draws.text(alloc, DIGITS, 1, 20)?;
    let block = draws.text(alloc, DIGITS, 1, 10)?;
    add_pair(
        alloc,
        headers,
        b"x-amz-meta-s3backer-filesize",
        size.bytes(),
    )?;
    add_pair(
        alloc,
        headers,
        b"x-amz-meta-s3backer-blocksize",
        block.bytes(),
    )
}

/// Adds a name with its value.
fn add_pair(
    alloc: Global,
    pairs: &mut Vec<Pair>,
    name: &[u8],
    value: &[u8],
) -> Result<(), AllocError>
    ensures { OnOk result (pairs.new.items
        ≡ pairs.old.items ++ record { name = name.now; value = value.now } ∷ []) }
{
    let name = Text::of(alloc, name)?;
    let value = Text::of(alloc, value)?;
    pairs.push(Pair { name, value })?;
    Ok(())
}
