//! Requests through a link.

use crate::replay::Replay;
use anyhow::bail;
use sb_base::Text;
use sb_fakes::{HandClock, MemoryWire};
use sb_s3link::S3Link;
use sb_sign::Signer;
use sb_world::{Link, Page, Wire};
use std::alloc::{AllocError, Global};

/// How many requests a wire in memory keeps.
const KEPT: u32 = 100;

/// Puts a body of so many bytes, and tells how many requests were made. The wire keeps what was sent, of at most a hundred
/// requests.
pub fn put(alloc: Global, answer: &[u8], size: u32, rounds: u32) -> anyhow::Result<String> {
    let body = vec![in alloc; 0; size as usize]?;
    for done in (0..rounds).step_by(KEPT as usize) {
        put_some(alloc, answer, &body, KEPT.min(rounds - done))?;
    }
    Ok(format!(in alloc; "{rounds} puts")?)
}

/// Puts a body so often, over one wire.
fn put_some(alloc: Global, answer: &[u8], body: &[u8], count: u32) -> anyhow::Result<()> {
    let mut answers = Vec::new(alloc);
    for _ in 0..count {
        answers.push(Text::of(alloc, answer)?)?;
    }
    let wire = MemoryWire::new(alloc, answers, u32::MAX, Vec::new(alloc));
    let mut link = link_over(alloc, wire)?;
    for _ in 0..count {
        if link.put(b"0000001f", body, None).is_err() {
            bail!("a put failed");
        }
    }
    Ok(())
}

/// Lists names, and tells how many the last page had.
pub fn listed(alloc: Global, answer: Vec<u8>, rounds: u32) -> anyhow::Result<String> {
    let mut link = link_over(alloc, Replay::new(answer))?;
    let mut page = Page {
        keys: Vec::new(alloc),
    };
    for _ in 0..rounds {
        match link.list(b"", b"0000001f", &mut page) {
            Ok(true) => {}
            _ => bail!("a listing with more behind it is wanted"),
        }
    }
    Ok(format!(in alloc; "{} names", page.keys.len())?)
}

/// A link to a bucket over a wire.
fn link_over<W: Wire + Drop>(alloc: Global, wire: W) -> Result<S3Link<W, HandClock>, AllocError> {
    let signer = Signer::new(
        alloc,
        b"AKIDEXAMPLE",
        b"loopback/test+only=key",
        b"us-east-1",
    )?;
    let host = Text::of(alloc, b"127.0.0.1")?;
    let bucket = Text::of(alloc, b"disk")?;
    let clock = HandClock::new(alloc, 0, 1_700_000_000, false);
    Ok(S3Link::new(alloc, signer, host, 9_000, bucket, false, wire, clock))
}
