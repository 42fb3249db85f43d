//! Calls of the kinds that a disk makes, at any bucket.

use crate::draws::Draws;
use sb_base::Text;
use sb_world::Meta;
use std::alloc::{AllocError, Global};

/// The bytes of a region and a host.
const LETTERS: &'static [u8] = b"abcdefghijklmnopqrstuvwxyz";

/// The bytes of an id and a bucket.
const NAME: &'static [u8] = b"abcdefghijklmnopqrstuvwxyz0123456789";

/// The bytes that a prefix may have, which also make secrets and bodies.
const PREFIX: &'static [u8] =
    b" !#$%()*+,-./0123456789:;=?@ABCDEFGHIJKLMNOPQRSTUVWXYZ[\\]^_`abcdefghijklmnopqrstuvwxyz{|}~";

/// The digits of a block's name.
const HEX_DIGITS: &'static [u8] = b"0123456789abcdef";

/// What a bucket is asked for.
#[derive(Drop, Clone, Copy, PartialEq, Eq, Debug)]
pub enum Kind {
    Get,
    /// A GET that asks about an MD5.
    Verify,
    Put,
    Delete,
    Head,
    /// The first page of a listing.
    List,
    /// A page behind a marker.
    ListOn,
}

/// A call, its bucket, and what signs its request.
#[derive(Drop)]
pub struct Case {
    pub id: Text,
    pub secret: Text,
    pub region: Text,
    /// In seconds since the begin of 1970.
    pub moment: i64,
    pub host: Text,
    pub port: u16,
    pub bucket: Text,
    pub vhost: bool,
    pub kind: Kind,
    /// A prefix and eight digits.
    pub name: Text,
    pub prefix: Text,
    pub body: Text,
    /// The sizes that a PUT carries.
    pub meta: Option<Meta>,
}

impl Case {
    /// The next case.
    pub fn drawn(alloc: Global, draws: &mut Draws) -> Result<Case, AllocError> {
        let prefix = draws.text(alloc, PREFIX, 0, 100)?;
        Ok(Case {
            id: draws.text(alloc, NAME, 16, 20)?,
            secret: draws.text(alloc, PREFIX, 1, 40)?,
            region: draws.text(alloc, LETTERS, 3, 14)?,
            moment: i64::from(draws.below(4_000_000_000)),
            host: draws.text(alloc, LETTERS, 3, 20)?,
            port: drawn_port(draws),
            bucket: draws.text(alloc, NAME, 3, 20)?,
            vhost: draws.below(2) == 0,
            kind: drawn_kind(draws),
            name: drawn_name(alloc, draws, prefix.bytes())?,
            prefix,
            body: draws.text(alloc, PREFIX, 0, 200)?,
            meta: drawn_meta(draws),
        })
    }
}

/// That of HTTP, or any other.
fn drawn_port(draws: &mut Draws) -> u16 {
    match draws.below(2) {
        0 => 80,
        _ => (1 + draws.below(65_535)) as u16,
    }
}

/// Any kind.
fn drawn_kind(draws: &mut Draws) -> Kind {
    match draws.below(7) {
        0 => Kind::Get,
        1 => Kind::Verify,
        2 => Kind::Put,
        3 => Kind::Delete,
        4 => Kind::Head,
        5 => Kind::List,
        _ => Kind::ListOn,
    }
}

/// The name of a block under a prefix.
fn drawn_name(alloc: Global, draws: &mut Draws, prefix: &[u8]) -> Result<Text, AllocError> {
    let digits = draws.text(alloc, HEX_DIGITS, 8, 8)?;
    let mut name = Vec::from_slice(alloc, prefix)?;
    name.extend_from_slice(digits.bytes())?;
    Ok(Text::from_vec(name))
}

/// The sizes of a disk, or none.
fn drawn_meta(draws: &mut Draws) -> Option<Meta> {
    match draws.below(2) {
        0 => None,
        _ => Some(Meta {
            size: u64::from(draws.below(4_000_000_000)),
            block_size: draws.below(4_000_000_000),
        }),
    }
}
