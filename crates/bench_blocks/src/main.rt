//! Calls a table of cached blocks again and again, for a measurement of what a call costs.
//!
//! The three words are the work, which is `read`, `write`, `victim` or `replace`, how many blocks of 4,096 bytes are
//! cached, and how often it is done. What is printed is a sum over what the calls gave, so that none can be left out.
#![tactic(auto)]

mod works;

use anyhow::{Context, bail};
use sb_base::Geometry;
use sb_blocks::Blocks;
use std::env;
use works::{fill, reads, replaces, victims, writes};

/// The most blocks that are cached.
const MOST: u32 = 1_000_000;

fn main(rt: HostRuntime) -> anyhow::Result<()> {
    let mut words = env::args(&rt)?.skip(1);
    let work = words.next().context("the work is wanted")?;
    let entries = number(words.next())?;
    let rounds = number(words.next())?;
    if entries == 0 || entries > MOST {
        bail!("from 1 to 1000000 entries are wanted");
    }
    let geometry = Geometry {
        block_size: 4096,
        blocks: 2 * entries,
    };
    let mut blocks = Blocks::new(rt.alloc(), &geometry, entries)?;
    let mut body = vec![in rt.alloc(); 0; 4096]?;
    fill(&mut blocks, entries, &mut body);
    let sum = match work.as_str() {
        "read" => reads(&mut blocks, entries, rounds, &mut body),
        "write" => writes(&mut blocks, entries, rounds, &mut body),
        "victim" => victims(&blocks, rounds),
        "replace" => replaces(&mut blocks, entries, geometry.blocks, rounds, &mut body),
        _ => bail!("read, write, victim or replace is wanted"),
    };
    println!(rt; "{sum}")?;
    Ok(())
}

/// The number of a word.
fn number(word: Option<String>) -> anyhow::Result<u32> {
    let word = word.context("two numbers are wanted: ENTRIES ROUNDS")?;
    Ok(word.parse()?)
}
