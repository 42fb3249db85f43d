//! What a link sends.

use crate::cases::{Case, Kind};
use md5::{Digest, Md5};
use sb_base::Text;
use sb_fakes::{HandClock, MemoryWire};
use sb_s3link::S3Link;
use sb_sign::Signer;
use sb_world::{Link, Page};
use std::alloc::{AllocError, Global};

/// What a link sends for a case. No response comes.
pub fn sent_by(alloc: Global, case: &Case) -> Result<Text, AllocError> {
    let mut link = link_of(alloc, case)?;
    match case.kind {
        Kind::Get => get(alloc, &mut link, case)?,
        Kind::Verify => verify(alloc, &mut link, case)?,
        Kind::Put => put(&mut link, case),
        Kind::Delete => delete(&mut link, case),
        Kind::Head => head(&mut link, case),
        Kind::List => list(alloc, &mut link, case, b""),
        Kind::ListOn => list(alloc, &mut link, case, case.name.bytes()),
    }
    Text::of(alloc, link.wire().sent())
}

/// The link of a case, over a wire that gives nothing.
fn link_of(alloc: Global, case: &Case) -> Result<S3Link<MemoryWire, HandClock>, AllocError> {
    let signer = Signer::new(
        alloc,
        case.id.bytes(),
        case.secret.bytes(),
        case.region.bytes(),
    )?;
    let wire = MemoryWire::new(alloc, Vec::new(alloc), 1, Vec::new(alloc));
    let clock = HandClock::new(alloc, 0, case.moment, false);
    let (host, bucket) = (case.host.copy(alloc)?, case.bucket.copy(alloc)?);
    Ok(S3Link::new(
        alloc, signer, host, case.port, bucket, case.vhost, wire, clock,
    ))
}

/// Reads an object of the length of the case's body.
fn get<L: Link>(alloc: Global, link: &mut L, case: &Case) -> Result<(), AllocError> {
    let mut out = vec![in alloc; 0; case.body.bytes().len()]?;
    let _answer = link.get(case.name.bytes(), None, &mut out);
    Ok(())
}

/// Reads the same, unless it has the MD5 of the body.
fn verify<L: Link>(alloc: Global, link: &mut L, case: &Case) -> Result<(), AllocError> {
    let mut out = vec![in alloc; 0; case.body.bytes().len()]?;
    let digest = Md5::digest(case.body.bytes());
    let _answer = link.get(case.name.bytes(), Some(digest), &mut out);
    Ok(())
}

/// Puts the body.
fn put<L: Link>(link: &mut L, case: &Case) {
    let _answer = link.put(case.name.bytes(), case.body.bytes(), case.meta);
}

/// Deletes the object.
fn delete<L: Link>(link: &mut L, case: &Case) {
    let _answer = link.delete(case.name.bytes());
}

/// Looks at the object.
fn head<L: Link>(link: &mut L, case: &Case) {
    let _answer = link.head(case.name.bytes());
}

/// Lists the names behind a marker.
fn list<L: Link>(alloc: Global, link: &mut L, case: &Case, marker: &[u8]) {
    let mut page = Page {
        keys: Vec::new(alloc),
    };
    let _answer = link.list(case.prefix.bytes(), marker, &mut page);
}
