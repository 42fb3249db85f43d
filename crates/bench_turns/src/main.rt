//! Counts under the lock with several threads, for a measurement of how they wait.
//!
//! The three words are how often a waiter looks before it sleeps, the number of threads, up to 24,
//! and the turns that each takes.
#![tactic(auto)]

use anyhow::Context;
use sb_turn::Turn;
use std::alloc::{AllocError, Global};
use std::env;
use std::sync::Wait;
use std::thread::Threads;
use test_turns::{Counter, all_work, crew_of, read};

fn main(rt: HostRuntime) -> anyhow::Result<()> {
    let mut words = env::args(&rt)?.skip(1);
    let looks = number(words.next())?;
    let threads = number(words.next())?;
    let turns = number(words.next())?;
    let count = counted(&rt, rt.alloc(), looks, threads, turns)?;
    println!(rt; "{count}")?;
    Ok(())
}

fn number(word: Option<String>) -> anyhow::Result<u32> {
    let word = word.context("three numbers are wanted: LOOKS THREADS TURNS")?;
    Ok(word.parse()?)
}

// What the counter shows when all have taken their turns.
fn counted<R: Threads + Wait + Sync>(
    rt: &R,
    alloc: Global,
    looks: u32,
    threads: u32,
    turns: u32,
) -> Result<u64, AllocError> {
    let (turn, mut pass) = Turn::with_looks(alloc, Counter { count: 0 }, looks)?;
    let mut crew = crew_of(rt, alloc, &turn, &mut pass, threads, turns)?;
    all_work(rt, &turn, crew.as_mut_slice());
    Ok(read(rt, &turn, &mut pass))
}
