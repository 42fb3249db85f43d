//! Sends a request to a bucket again and again, for a measurement of the time that it takes.
//!
//! The three words are the work, which is `put`, `hash` or `list`, its size, and how often it is done. The size is the
//! bytes of the body that is put or hashed. A hash is the SHA-256 and the MD5 of the body, the two that a PUT takes. The
//! response to each request comes from standard input. What is printed is what the last round gave.
#![tactic(auto)]

mod hashes;
mod link;
mod replay;

use anyhow::{Context, bail};
use hashes::last_digests;
use link::{listed, put};
use std::env;
use std::io::Read;

fn main(rt: HostRuntime) -> anyhow::Result<()> {
    let mut words = env::args(&rt)?.skip(1);
    let work = words.next().context("the work is wanted")?;
    let size = number(words.next())?;
    let rounds = number(words.next())?;
    let mut answer = Vec::new(rt.alloc());
    rt.stdin().read_to_end(&mut answer)?;
    let last = match work.as_str() {
        "put" => put(rt.alloc(), &answer, size, rounds)?,
        "hash" => last_digests(rt.alloc(), size, rounds)?,
        "list" => listed(rt.alloc(), answer, rounds)?,
        _ => bail!("put, hash or list is wanted"),
    };
    println!(rt; "{last}")?;
    Ok(())
}

/// The number of a word.
fn number(word: Option<String>) -> anyhow::Result<u32> {
    let word = word.context("two numbers are wanted: SIZE ROUNDS")?;
    Ok(word.parse()?)
}
