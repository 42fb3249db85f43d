//! Signs a request or hashes a body again and again, for a measurement of the time that it takes.
//!
//! The three words are the work, which is `sign`, `sha256` or `md5`, the bytes of the body, and how often it is done.
//! What is printed is the last header or the last digest. A byte of each digest goes into the body of the next, and
//! each signature is of another second, so that none can be left out.
#![tactic(auto)]

mod rounds;

use anyhow::{Context, bail};
use rounds::{last_header, last_md5, last_sha256};
use std::env;

fn main(rt: HostRuntime) -> anyhow::Result<()> {
    let mut words = env::args(&rt)?.skip(1);
    let work = words.next().context("the work is wanted")?;
    let size = number(words.next())?;
    let rounds = number(words.next())?;
    let mut body = vec![in rt.alloc(); 0; size as usize]?;
    let last = match work.as_str() {
        "sign" => last_header(rt.alloc(), &body, rounds)?,
        "sha256" => last_sha256(rt.alloc(), &mut body, rounds)?,
        "md5" => last_md5(rt.alloc(), &mut body, rounds)?,
        _ => bail!("sign, sha256 or md5 is wanted"),
    };
    println!(rt; "{last}")?;
    Ok(())
}

/// The number of a word.
fn number(word: Option<String>) -> anyhow::Result<u32> {
    let word = word.context("two numbers are wanted: SIZE ROUNDS")?;
    Ok(word.parse()?)
}
