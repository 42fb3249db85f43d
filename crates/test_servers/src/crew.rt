//! What clients and workers of a disk of eight blocks work with.

ghost use Rattle.std.specs.Prelude.{◌≡◌, IfOk};
ghost use Rattle.sb_crew.specs.Desks.{HasRoom};
ghost use Rattle.sb_crew.specs.SharedDisks.{fixed_of_disk, MayUse};
ghost use Rattle.test_servers.specs.Crews.{IsReady};

use sb_base::Text;
use sb_core::Core;
use sb_crew::{Desk, Disk, FlushFault};
use sb_fakes::{HandClock, MemoryListener, PlainStore, StillGate};
use sb_server::{Caller, Client, Served, Worker, serve_all};
use sb_session::Buffer;
use sb_turn::Pass;
use std::alloc::{AllocError, Global};
use std::sync::{Mutex, Wait};
use std::thread::Threads;
use std::time;
use test_disks::{GEOMETRY, SharedStore};

/// Clients and workers whose links lead to one store.
pub type Crew<'a, R> = Served<MemoryListener, SharedStore<'a, R>, HandClock>;

/// Two clients, each with one connection, and two workers.
pub fn crew_over<'a, R: Wait>(
    rt: &'a R,
    alloc: Global,
    store: &'a Mutex<PlainStore>,
    disk: &Disk,
    pass: Pass<Core>,
    one: Text,
    two: Text,
) -> Result<Crew<'a, R>, AllocError>
    requires pass { MayUse disk.now pass }
    requires geometry { (fixed_of_disk disk.now).geometry ≡ record { block_size = 512; blocks = 8 } }
    ensures { IfOk result (IsReady disk.now) }
{
    let desk = desk_over(rt, alloc, store)?;
    let mut clients = Vec::new(alloc);
    clients.push(client_over(rt, alloc, store, one)?)?;
    clients.push(client_over(rt, alloc, store, two)?)?;
    let mut workers = Vec::new(alloc);
    workers.push(worker_over(rt, alloc, store, 0)?)?;
    workers.push(worker_over(rt, alloc, store, 1)?)?;
    Ok(Served {
        pass,
        clients,
        workers,
        desk,
    })
}

/// Clients and workers serve side by side, up to the last flush.
pub fn serve_crew<'a, R: Threads + Wait + time::Clock + Sync>(
    rt: &'a R,
    disk: &Disk,
    crew: Crew<'a, R>,
) -> (Crew<'a, R>, Result<(), FlushFault>)
    requires ready { IsReady disk.now crew }
    requires geometry { (fixed_of_disk disk.now).geometry ≡ record { block_size = 512; blocks = 8 } }
{
    serve_all(rt, disk, false, &StillGate, crew)
}

/// A client to which one connection comes.
fn client_over<'a, R: Wait>(
    rt: &'a R,
    alloc: Global,
    store: &'a Mutex<PlainStore>,
    input: Text,
) -> Result<Caller<Client<MemoryListener, SharedStore<'a, R>, HandClock>>, AllocError>
    ensures { IfOk result (λ client. HasRoom (record { block_size = 512; blocks = 8 }) client.tools.desk) }
{
    let desk = desk_over(rt, alloc, store)?;
    let mut inputs = Vec::new(alloc);
    inputs.push(input)?;
    let listener = MemoryListener::new(alloc, inputs);
    let buffer = Buffer::new(alloc)?;
    Ok(Caller::new(Client {
        listener,
        desk,
        buffer,
        ended: Ok(()),
    }))
}

/// A worker.
fn worker_over<'a, R: Wait>(
    rt: &'a R,
    alloc: Global,
    store: &'a Mutex<PlainStore>,
    number: u32,
) -> Result<Caller<Worker<SharedStore<'a, R>, HandClock>>, AllocError>
    ensures { IfOk result (λ worker. HasRoom (record { block_size = 512; blocks = 8 }) worker.tools.desk) }
{
    let desk = desk_over(rt, alloc, store)?;
    Ok(Caller::new(Worker { desk, number }))
}

/// A desk over the store.
fn desk_over<'a, R: Wait>(
    rt: &'a R,
    alloc: Global,
    store: &'a Mutex<PlainStore>,
) -> Result<Desk<SharedStore<'a, R>, HandClock>, AllocError>
    ensures { IfOk result (HasRoom (record { block_size = 512; blocks = 8 })) }
{
    let link = SharedStore { rt, store };
    let clock = HandClock::new(alloc, 1000, 0, false);
    match Desk::new(alloc, link, clock, &GEOMETRY) {
        Ok(desk) => Ok(desk),
        Err(_) => Err(AllocError),
    }
}
