//! Many passes, each in a thread of its own.
ghost use Rattle.std.specs.Prelude.{◌≡◌, ℕ, ◌+◌, ◌<◌, All, IfOk, length, slice_index_or};
ghost use Rattle.sb_turn.specs.Passes.{mine, number, IsPassOf, IsFree, IsSamePass};
ghost use Rattle.test_turns.specs.Workers.{IsReady, HasTask, HasWorked};

use crate::adding::add;
use crate::counter::Counter;
use crate::worker::Worker;
use sb_turn::{Pass, Turn};
use std::alloc::{AllocError, Global};
use std::sync::Wait;
use std::thread;
use std::thread::Threads;

// How many workers take their turns side by side.
const MOST_THREADS: usize = 24;

/// So many workers, each with a pass split off this one, that are to add 1 in each of their turns.
pub fn crew_of<R: Wait>(
    rt: &R,
    alloc: Global,
    turn: &Turn<Counter>,
    pass: &mut Pass<Counter>,
    count: u32,
    turns: u32,
) -> Result<Vec<Worker>, AllocError>
    requires { IsPassOf turn.now pass.old × IsFree pass.old }
    ensures pass { IsPassOf turn.now pass.new × IsFree pass.new }
    ensures crew { IfOk result (λ v. All (IsReady turn.now) v.items × (length v.items ≡ count)) }
    ensures task { IfOk result (λ v. All (HasTask turns) v.items) }
{
    let mut crew = Vec::new(alloc);
    for _ in 0..count {
        let pass = turn.split(rt, pass);
        crew.push(Worker {
            pass,
            amount: 1,
            turns,
        })?;
    }
    Ok(crew)
}

/// Each worker takes its turns, up to 24 of them side by side.
pub fn all_work<R: Threads + Wait + Sync>(rt: &R, turn: &Turn<Counter>, crew: &mut [Worker])
    requires { All (IsReady turn.now) crew.old }
    ensures { (i : ℕ) (d : Worker) → i < length crew.old
        → HasWorked turn.now (slice_index_or crew.old i d) (slice_index_or crew.new i d) }
{
    thread::for_each_mut(rt, crew, MOST_THREADS, &|_, worker| work(rt, turn, worker));
}

fn work<R: Wait>(rt: &R, turn: &Turn<Counter>, worker: &mut Worker)
    requires { IsReady turn.now worker.old }
    ensures { HasWorked turn.now worker.old worker.new }
{
    let amount = worker.amount;
    for _ in 0..worker.turns {
        add(rt, turn, &mut worker.pass, amount);
    }
}
