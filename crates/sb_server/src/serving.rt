//! Clients and workers of one disk, side by side.

ghost use Rattle.std.specs.Prelude.{◌≡◌};
ghost use Rattle.std.specs.List.{AllByRecursion};
ghost use Rattle.std.specs.Thread.{IsSend, IsSync};
ghost use Rattle.sb_base.specs.Shapes.{IsSound};
ghost use Rattle.sb_turn.specs.Passes.{number};
ghost use Rattle.sb_crew.specs.Desks.{HasRoom};
ghost use Rattle.sb_crew.specs.Safety.{IsSafe};
ghost use Rattle.sb_crew.specs.Sharing.{seen_by, caller_of};
ghost use Rattle.sb_crew.specs.SharedDisks.{fixed_of_disk, MayUse};
ghost use Rattle.sb_server.specs.Tellings.{telling};
ghost use Rattle.sb_server.specs.Clients.{HasDesk};
ghost use Rattle.sb_server.specs.Workers.{HasWorkDesk, WorkersDid};
ghost use Rattle.sb_server.specs.Endings.{AllServed, ClientsPart, FlushesLast, FlushesOr};

use crate::caller::Caller;
use crate::client::Client;
use crate::crowd::serve_clients;
use crate::worker::{Worker, work_side_by_side};
use sb_core::Core;
use sb_crew::{Desk, Disk, FlushFault};
use sb_turn::Pass;
use sb_world::{Clock, Gate, Link, Listener};
use std::sync::Wait;
use std::thread::{Threads, join};
use std::time;

/// Those who work with a disk at the same time, and what is kept for its end.
#[derive(Drop)]
pub struct Served<N, L, C> {
    /// The pass that knows all that happened.
    pub pass: Pass<Core>,
    /// Clients in their order, each with how it ended.
    pub clients: Vec<Caller<Client<N, L, C>>>,
    /// Workers in their order.
    pub workers: Vec<Caller<Worker<L, C>>>,
    /// What closes and flushes the disk.
    pub desk: Desk<L, C>,
}

/// Clients and workers, each in a thread of its own. When all clients have ended the disk is closed, so that the workers
/// end, and then flushed, unless it is read-only. What clients and workers did they did by one history, which is safe.
pub fn serve_all<
    H: Threads + Wait + time::Clock + Sync,
    N: Listener + Send + Drop,
    L: Link + Send + Drop,
    C: Clock + Send + Drop,
    G: Gate + Sync,
>(
    rt: &H,
    disk: &Disk,
    read_only: bool,
    gate: &G,
    all: Served<N, L, C>,
) -> (Served<N, L, C>, Result<(), FlushFault>)
    requires ready { MayUse disk.now all.pass }
    requires clients { AllByRecursion (HasDesk disk.now) all.clients.items }
    requires workers { AllByRecursion (HasWorkDesk disk.now) all.workers.items }
    requires room { HasRoom (fixed_of_disk disk.now).geometry all.desk }
    requires sound { IsSound (fixed_of_disk disk.now).geometry }
    ensures ready { MayUse disk.now result.0.pass }
    ensures number { number result.0.pass ≡ number all.pass }
    ensures served { AllServed (telling N.Listener L.Link C.Clock N.Source.Source N.Sink.Sink) L.Link C.Clock disk.now
        read_only all.pass result.0.pass all.clients.items result.0.clients.items all.workers.items
        result.0.workers.items }
    ensures flush { let scene = caller_of L.Link C.Clock in FlushesLast disk.now read_only
        (scene all.pass all.desk) (scene result.0.pass result.0.desk) result.1 }
    ensures safe { IsSafe (fixed_of_disk disk.now) (seen_by result.0.pass) }
{
    let Served {
        mut pass,
        clients,
        workers,
        desk,
    } = all;
    let theirs = disk.split(rt, &mut pass);
    let ((theirs, workers), (mut pass, clients, mut desk)) = join(
        rt,
        || -> (Pass<Core>, Vec<Caller<Worker<L, C>>>)
            requires ready { MayUse disk.now theirs }
            requires desks { AllByRecursion (HasWorkDesk disk.now) workers.items }
            ensures { WorkersDid L.Link C.Clock disk.entry.now theirs result.0 workers.items result.1.items }
        { workers_part(rt, disk, gate, theirs, workers) },
        || -> (Pass<Core>, Vec<Caller<Client<N, L, C>>>, Desk<L, C>)
            requires sends { IsSync H.row × IsSend N.row × IsSend L.row × IsSend C.row × IsSend N.Source.row
                × IsSend N.Sink.row }
            requires ready { MayUse disk.now pass }
            requires desks { AllByRecursion (HasDesk disk.now) clients.items }
            requires room { HasRoom (fixed_of_disk disk.now).geometry desk }
            requires sound { IsSound (fixed_of_disk disk.now).geometry }
            ensures ready { MayUse disk.entry.now result.0 }
            ensures did { ClientsPart (telling N.Listener L.Link C.Clock N.Source.Source N.Sink.Sink) L.Link C.Clock
                disk.entry.now read_only pass result.0 desk result.2 clients.items result.1.items }
        { clients_part(rt, disk, read_only, pass, clients, desk) },
    );
    disk.join(&mut pass, theirs);
    let flushed = flush_last(rt, disk, read_only, &mut pass, &mut desk);
    pass.outside_a_turn();
    disk.is_safe(&pass);
    (
        Served {
            pass,
            clients,
            workers,
            desk,
        },
        flushed,
    )
}

/// The part of the workers.
fn workers_part<
    H: Threads + Wait + time::Clock + Sync,
    L: Link + Send,
    C: Clock + Send,
    G: Gate + Sync,
>(
    rt: &H,
    disk: &Disk,
    gate: &G,
    mut pass: Pass<Core>,
    mut workers: Vec<Caller<Worker<L, C>>>,
) -> (Pass<Core>, Vec<Caller<Worker<L, C>>>)
    requires ready { MayUse disk.now pass }
    requires desks { AllByRecursion (HasWorkDesk disk.now) workers.items }
    ensures { WorkersDid L.Link C.Clock disk.now pass result.0 workers.items result.1.items }
{
    work_side_by_side(rt, disk, gate, &mut pass, workers.as_mut_slice());
    (pass, workers)
}

/// The part of the clients. At its end it closes the disk, so that workers end that run only then, too.
fn clients_part<
    H: Threads + Wait + time::Clock + Sync,
    N: Listener + Send,
    L: Link + Send,
    C: Clock + Send,
>(
    rt: &H,
    disk: &Disk,
    read_only: bool,
    mut pass: Pass<Core>,
    mut clients: Vec<Caller<Client<N, L, C>>>,
    mut desk: Desk<L, C>,
) -> (Pass<Core>, Vec<Caller<Client<N, L, C>>>, Desk<L, C>)
    requires ready { MayUse disk.now pass }
    requires desks { AllByRecursion (HasDesk disk.now) clients.items }
    requires room { HasRoom (fixed_of_disk disk.now).geometry desk }
    requires sound { IsSound (fixed_of_disk disk.now).geometry }
    ensures ready { MayUse disk.now result.0 }
    ensures did { ClientsPart (telling N.Listener L.Link C.Clock N.Source.Source N.Sink.Sink) L.Link C.Clock disk.now
        read_only pass result.0 desk result.2 clients.items result.1.items }
{
    serve_clients(rt, disk, read_only, &mut pass, clients.as_mut_slice());
    pass.outside_a_turn();
    disk.close(rt, &mut pass, &mut desk.clock);
    (pass, clients, desk)
}

/// Flushes a disk that isn't read-only.
fn flush_last<H: Wait + time::Clock, L: Link, C: Clock>(
    rt: &H,
    disk: &Disk,
    read_only: bool,
    pass: &mut Pass<Core>,
    desk: &mut Desk<L, C>,
) -> Result<(), FlushFault>
    requires ready { MayUse disk.now pass.old }
    requires room { HasRoom (fixed_of_disk disk.now).geometry desk.old }
    ensures ready { MayUse disk.now pass.new }
    ensures did { let scene = caller_of L.Link C.Clock in FlushesOr disk.now read_only
        (scene pass.old desk.old) (scene pass.new desk.new) result }
{
    if read_only {
        Ok(())
    } else {
        disk.flush(rt, pass, desk)
    }
}
