//! Reads a listing again and again, for a measurement of the time that it takes.
//!
//! The two words are how many names the listing has and how often it is read. What is printed is how many names the last
//! reading gave.
#![tactic(auto)]

mod page;

use anyhow::{Context, bail};
use page::page_of;
use sb_s3link::read_listing;
use sb_world::Page;
use std::env;

fn main(rt: HostRuntime) -> anyhow::Result<()> {
    let mut words = env::args(&rt)?.skip(1);
    let names = number(words.next())?;
    let rounds = number(words.next())?;
    let body = page_of(rt.alloc(), names)?;
    let mut page = Page {
        keys: Vec::new(rt.alloc()),
    };
    for _ in 0..rounds {
        match read_listing(rt.alloc(), &body, &mut page) {
            Ok(true) => {}
            _ => bail!("a listing with more behind it is wanted"),
        }
    }
    println!(rt; "{} names of {} bytes", page.keys.len(), body.len())?;
    Ok(())
}

/// The number of a word.
fn number(word: Option<String>) -> anyhow::Result<u32> {
    let word = word.context("two numbers are wanted: NAMES ROUNDS")?;
    Ok(word.parse()?)
}
