//! Prints calls drawn from a seed, with the requests that a link to a bucket sends for them, for a comparison with
//! another client.
//!
//! The two words are the seed and how many calls there are.
#![tactic(auto)]

mod cases;
mod draws;
mod lines;
mod requests;

use anyhow::Context;
use cases::Case;
use draws::Draws;
use lines::lines_of;
use requests::sent_by;
use std::env;
use std::io::Write;

fn main(rt: HostRuntime) -> anyhow::Result<()> {
    let mut words = env::args(&rt)?.skip(1);
    let mut draws = Draws::new(number(words.next())?);
    let count = number(words.next())?;
    let mut out = rt.stdout();
    for _ in 0..count {
        let case = Case::drawn(rt.alloc(), &mut draws)?;
        let sent = sent_by(rt.alloc(), &case)?;
        out.write_all(&lines_of(rt.alloc(), &case, &sent)?)?;
    }
    Ok(())
}

/// The number of a word.
fn number(word: Option<String>) -> anyhow::Result<u64> {
    let word = word.context("two numbers are wanted: SEED COUNT")?;
    Ok(word.parse()?)
}
