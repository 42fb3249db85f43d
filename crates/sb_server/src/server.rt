//! A server: what it asks a world for, the disk that it makes and serves, and what it gives back.

ghost use Rattle.std.specs.Prelude.{◌≡◌, IfOk, length};
ghost use Rattle.sb_server.specs.Mounts.{CanBeServed};
ghost use Rattle.sb_server.specs.Tellings.{telling};
ghost use Rattle.sb_server.specs.Gatherings.{AsksFor};
ghost use Rattle.sb_server.specs.Servers.{
  asks_behind_bench,
  first_fault,
  serve_end,
  IsCrewAnew,
  LinkServes,
  ServerEnds,
  ServesBench,
};

use crate::caller::Caller;
use crate::client::Client;
use crate::gather::{gather_clients, gather_workers};
use crate::handing::hand_over;
use crate::mount::Mount;
use crate::serving::{Served, serve_all};
use crate::worker::Worker;
use sb_core::Core;
use sb_crew::{Desk, DeskRefused, FlushFault};
use sb_turn::Pass;
use sb_world::{Bench, ListenFault, MakeFault, World};
use std::alloc::Global;
use std::sync::Wait;
use std::thread::Threads;
use std::time;

/// Why a server that had a disk didn't end well.
#[derive(Drop, Clone, Copy)]
pub enum ServeFault {
    /// A client's listener failed.
    Listen,
    /// The last flush failed.
    Flush(FlushFault),
}

/// How a server ended.
#[derive(Drop)]
pub enum ServerEnd {
    /// No disk was made.
    Unmade(MakeFault),
    /// A disk was served. The pass knows all that happened to it.
    Served {
        pass: Pass<Core>,
        result: Result<(), ServeFault>,
    },
}

/// Clients and workers that wait for a disk.
#[derive(Drop)]
pub struct Crew<N, L, C> {
    pub clients: Vec<Caller<Client<N, L, C>>>,
    pub workers: Vec<Caller<Worker<L, C>>>,
}

/// Serves a disk. The world is asked for a bench with one link, whose desk closes and flushes the disk, and for the
/// listener and the desk of each client and the desk of each worker; where one of them isn't made the store was asked for
/// nothing. When all clients have ended the disk is closed and flushed, and what clients and workers worked with is
/// handed over. The first fault in the order of clients is told, and then that of the flush.
pub fn serve_mount<H: Threads + Wait + time::Clock + Sync, W: World>(
    rt: &H,
    alloc: Global,
    mount: &Mount,
    world: &mut W,
) -> ServerEnd
where
    W::Listener: Drop,
    W::Link: Drop,
    W::Clock: Drop,
    W::Source: Drop,
    W::Sink: Drop,
    W::Gate: Drop,
    requires { CanBeServed mount.now }
    ensures { ServerEnds (telling W.Listener.Listener W.Link.Link W.Clock.Clock W.Listener.Source.Source
        W.Listener.Sink.Sink) W.Listener.Listener W.Link.Link W.Clock.Clock mount.now (W.view world.old)
        (W.view world.new) result }
{
    let bench = match world.bench(Some(&mount.store), 1) {
        Ok(bench) => bench,
        Err(fault) => return ServerEnd::Unmade(fault),
    };
    match gather_crew(alloc, world, mount) {
        Ok(crew) => serve_bench(rt, alloc, mount, world, crew, bench),
        Err(fault) => {
            world.shut(bench);
            ServerEnd::Unmade(fault)
        }
    }
}

/// Asks for what clients and workers work with.
fn gather_crew<W: World>(
    alloc: Global,
    world: &mut W,
    mount: &Mount,
) -> Result<Crew<W::Listener, W::Link, W::Clock>, MakeFault>
where
    W::Listener: Drop,
    W::Link: Drop,
    W::Clock: Drop,
    requires { CanBeServed mount.now }
    ensures asks { AsksFor (asks_behind_bench mount.entry.now) (W.view world.old) (W.view world.new) result }
    ensures anew { IfOk result (IsCrewAnew W.Listener.Listener W.Link.Link mount.entry.now) }
{
    let settings = &mount.settings;
    let clients = match gather_clients(
        alloc,
        world,
        &mount.store,
        &mount.geometry,
        &mount.address,
        mount.connections,
        settings.clients,
    ) {
        Ok(clients) => clients,
        Err(fault) => return Err(fault),
    };
    match gather_workers(
        alloc,
        world,
        &mount.store,
        &mount.geometry,
        settings.threads,
    ) {
        Ok(workers) => Ok(Crew { clients, workers }),
        Err(fault) => Err(fault),
    }
}

/// Serves a disk with a bench, and gives the bench back.
fn serve_bench<H: Threads + Wait + time::Clock + Sync, W: World>(
    rt: &H,
    alloc: Global,
    mount: &Mount,
    world: &mut W,
    crew: Crew<W::Listener, W::Link, W::Clock>,
    bench: Bench<W::Link, W::Clock, W::Source, W::Sink>,
) -> ServerEnd
where
    W::Listener: Drop,
    W::Link: Drop,
    W::Clock: Drop,
    W::Gate: Drop,
    requires can { CanBeServed mount.now }
    requires crew { IsCrewAnew W.Listener.Listener W.Link.Link mount.now crew }
    requires link { length bench.links ≡ 1 }
    ensures { ServesBench (telling W.Listener.Listener W.Link.Link W.Clock.Clock W.Listener.Source.Source
        W.Listener.Sink.Sink) W.Link.Link W.Clock.Clock mount.now crew bench (W.view world.old)
        (W.view world.new) result }
{
    let Bench {
        mut links,
        clock,
        input,
        output,
        errors,
    } = bench;
    let link = match links.pop() {
        Some(link) => link,
        None => unreachable!(),
    };
    let (end, link, clock) = serve_link(rt, alloc, mount, world, crew, link, clock);
    match links.push(link) {
        Ok(()) => {}
        Err(_) => unreachable!(),
    }
    world.shut(Bench {
        links,
        clock,
        input,
        output,
        errors,
    });
    end
}

/// Serves a disk, which the link closes and flushes, and gives the link and the clock back.
fn serve_link<H: Threads + Wait + time::Clock + Sync, W: World>(
    rt: &H,
    alloc: Global,
    mount: &Mount,
    world: &mut W,
    crew: Crew<W::Listener, W::Link, W::Clock>,
    link: W::Link,
    clock: W::Clock,
) -> (ServerEnd, W::Link, W::Clock)
where
    W::Listener: Drop,
    W::Link: Drop,
    W::Clock: Drop,
    W::Gate: Drop,
    requires can { CanBeServed mount.now }
    requires crew { IsCrewAnew W.Listener.Listener W.Link.Link mount.now crew }
    ensures { LinkServes (telling W.Listener.Listener W.Link.Link W.Clock.Clock W.Listener.Source.Source
        W.Listener.Sink.Sink) W.Link.Link W.Clock.Clock mount.now crew (link, clock) (result.1, result.2)
        (W.view world.old) (W.view world.new) result.0 }
{
    let desk = match Desk::new(alloc, link, clock, &mount.geometry) {
        Ok(desk) => desk,
        Err(refused) => {
            let DeskRefused { link, clock } = refused;
            return (ServerEnd::Unmade(MakeFault::Memory), link, clock);
        }
    };
    match mount.make_disk(alloc) {
        Ok((disk, pass)) => {
            world.serving(&mount.geometry);
            let gate = world.gate();
            let Crew { clients, workers } = crew;
            let all = Served {
                pass,
                clients,
                workers,
                desk,
            };
            let (all, flushed) = serve_all(rt, &disk, mount.read_only, &gate, all);
            let Served {
                pass,
                clients,
                workers,
                desk,
            } = all;
            let result = serve_end(first_fault(&clients), flushed);
            hand_over(world, clients, workers);
            let (link, clock) = desk.into_parts();
            (ServerEnd::Served { pass, result }, link, clock)
        }
        Err(_) => {
            let (link, clock) = desk.into_parts();
            (ServerEnd::Unmade(MakeFault::Memory), link, clock)
        }
    }
}

/// How the first client ended that didn't end well.
fn first_fault<N, L, C>(clients: &[Caller<Client<N, L, C>>]) -> Result<(), ListenFault>
    ensures { result ≡ first_fault clients.now }
{
    match clients {
        [] => Ok(()),
        [client, others @ ..] => match client.tools.ended {
            Ok(()) => first_fault(others),
            Err(fault) => Err(fault),
        },
    }
}

/// How a server ended, by its clients and the last flush.
fn serve_end(
    clients: Result<(), ListenFault>,
    flushed: Result<(), FlushFault>,
) -> Result<(), ServeFault>
    ensures { result ≡ serve_end clients flushed }
{
    match clients {
        Ok(()) => match flushed {
            Ok(()) => Ok(()),
            Err(fault) => Err(ServeFault::Flush(fault)),
        },
        Err(ListenFault::Failed) => Err(ServeFault::Listen),
    }
}
