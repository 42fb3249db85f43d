//! Callers of one disk, each in a thread of its own, for a measurement and for a trial of what they see.
//!
//! With the words `reads THREADS ROUNDS` each thread reads one cached block of 4,096 bytes so often, and what is printed
//! is how many reads went well. With `mixed THREADS ROUNDS SEED FAILS LAG` each reads, writes and flushes at random, over
//! a store which fails one request in so many (0 is none), and for so many milliseconds behind a put may show the object
//! before it. What is printed is each call, a line of its kind, block, value, begin, end and outcome, the times being
//! nanoseconds, and then each object of the store.
#![tactic(auto)]

mod callers;
mod disks;
mod mixed;
mod reads;
mod store;

use anyhow::{Context, bail};
use std::env;

fn main(rt: HostRuntime) -> anyhow::Result<()> {
    let mut words = env::args(&rt)?.skip(1);
    let work = words.next().context("the work is wanted")?;
    let threads = number(words.next())?;
    let rounds = number(words.next())?;
    match work.as_str() {
        "reads" => {
            let good = reads::count(&rt, rt, threads, rounds)?;
            println!(rt; "{good}")?;
        }
        "mixed" => {
            let trial = mixed::Trial {
                threads,
                rounds,
                seed: number(words.next())?,
                fails: number(words.next())?,
                lag: number(words.next())?,
            };
            mixed::run(&rt, rt, trial)?;
        }
        _ => bail!("reads or mixed is wanted"),
    }
    Ok(())
}

/// The number of a word.
fn number(word: Option<String>) -> anyhow::Result<u32> {
    let word = word.context(
        "numbers are wanted: reads THREADS ROUNDS, mixed THREADS ROUNDS SEED FAILS LAG",
    )?;
    Ok(word.parse()?)
}
