//! Workers side by side, each in a thread of its own: they put what is dirty, until the disk is closed.

ghost use Rattle.std.specs.Prelude.{ℕ, ◌<◌, length, slice_index_or, All};
ghost use Rattle.std.specs.List.{AllByRecursion};
ghost use Rattle.sb_crew.specs.SharedDisks.{MayUse};
ghost use Rattle.sb_server.specs.Workers.{HasWorkDesk, MayWork, CallerWorked, WorkersDid};

use crate::caller::{Caller, give_passes, take_passes};
use sb_core::Core;
use sb_crew::{Desk, Disk, WorkEnd};
use sb_turn::Pass;
use sb_world::{Clock, Gate, Link};
use std::sync::Wait;
use std::thread::Threads;
use std::{thread, time};

/// What a worker works with, and its number. The desk was made for the disk that it works for.
#[derive(Drop)]
pub struct Worker<L, C> {
    pub desk: Desk<L, C>,
    pub number: u32,
}

/// Workers work side by side, each in a thread of its own, until the disk is closed.
pub fn work_side_by_side<
    H: Threads + Wait + time::Clock + Sync,
    L: Link + Send,
    C: Clock + Send,
    G: Gate + Sync,
>(rt: &H, disk: &Disk, gate: &G, pass: &mut Pass<Core>, workers: &mut [Caller<Worker<L, C>>])
    requires ready { MayUse disk.now pass.old }
    requires desks { AllByRecursion (HasWorkDesk disk.now) workers.old }
    ensures { WorkersDid L.Link C.Clock disk.now pass.old pass.new workers.old workers.new }
{
    give_passes(rt, disk, pass, workers);
    all_work(rt, disk, gate, workers);
    take_passes(disk, pass, workers);
}

/// Each worker works with its own pass, until it stops.
fn all_work<
    H: Threads + Wait + time::Clock + Sync,
    L: Link + Send,
    C: Clock + Send,
    G: Gate + Sync,
>(rt: &H, disk: &Disk, gate: &G, workers: &mut [Caller<Worker<L, C>>])
    requires ready { All (MayWork disk.now) workers.old }
    ensures { (i : ℕ) (d : Caller (Worker L C)) → i < length workers.old
        → CallerWorked L.Link C.Clock disk.now (slice_index_or workers.old i d) (slice_index_or workers.new i d) }
{
    let threads = workers.len().max(1);
    thread::for_each_mut(
        rt,
        workers,
        threads,
        &|_, worker: &mut Caller<Worker<L, C>>|
            requires { MayWork disk.now worker.old }
            ensures { CallerWorked L.Link C.Clock disk.entry.now worker.old worker.new }
        { work(rt, disk, gate, worker) },
    );
}

/// A worker works with its pass, until it stops.
fn work<H: Wait + time::Clock, L: Link, C: Clock, G: Gate>(
    rt: &H,
    disk: &Disk,
    gate: &G,
    worker: &mut Caller<Worker<L, C>>,
)
    requires { MayWork disk.now worker.old }
    ensures { CallerWorked L.Link C.Clock disk.now worker.old worker.new }
{
    match worker.pass.take() {
        Some(mut pass) => {
            let number = worker.tools.number;
            match disk.work(rt, &mut pass, &mut worker.tools.desk, gate, number) {
                WorkEnd::Closed => {}
            }
            worker.pass = Some(pass);
        }
        None => unreachable!(),
    }
}
