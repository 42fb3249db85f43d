//! Clients side by side, each in a thread of its own.

ghost use Rattle.std.specs.Prelude.{ℕ, ◌<◌, length, slice_index_or, All};
ghost use Rattle.std.specs.List.{AllByRecursion};
ghost use Rattle.sb_base.specs.Shapes.{IsSound};
ghost use Rattle.sb_crew.specs.SharedDisks.{fixed_of_disk, MayUse};
ghost use Rattle.sb_server.specs.Tellings.{telling};
ghost use Rattle.sb_server.specs.Clients.{HasDesk, MayBegin, CallerServed, CrowdDid};

use crate::caller::{Caller, give_passes, take_passes};
use crate::client::{Client, serve_client};
use sb_core::Core;
use sb_crew::Disk;
use sb_turn::Pass;
use sb_world::{Clock, Link, Listener};
use std::sync::Wait;
use std::thread::Threads;
use std::{thread, time};

/// Clients serve side by side, each in a thread of its own, until each has ended. A fault of one ends that one alone.
pub fn serve_clients<
    H: Threads + Wait + time::Clock + Sync,
    N: Listener + Send,
    L: Link + Send,
    C: Clock + Send,
>(
    rt: &H,
    disk: &Disk,
    read_only: bool,
    pass: &mut Pass<Core>,
    clients: &mut [Caller<Client<N, L, C>>],
)
    requires ready { MayUse disk.now pass.old }
    requires desks { AllByRecursion (HasDesk disk.now) clients.old }
    requires sound { IsSound (fixed_of_disk disk.now).geometry }
    ensures { CrowdDid (telling N.Listener L.Link C.Clock N.Source.Source N.Sink.Sink) disk.now read_only
        pass.old pass.new clients.old clients.new }
{
    give_passes(rt, disk, pass, clients);
    all_serve(rt, disk, read_only, clients);
    take_passes(disk, pass, clients);
}

/// Each client serves with its own pass, until it ends.
fn all_serve<
    H: Threads + Wait + time::Clock + Sync,
    N: Listener + Send,
    L: Link + Send,
    C: Clock + Send,
>(rt: &H, disk: &Disk, read_only: bool, clients: &mut [Caller<Client<N, L, C>>])
    requires ready { All (MayBegin disk.now) clients.old }
    requires sound { IsSound (fixed_of_disk disk.now).geometry }
    ensures { (i : ℕ) (d : Caller (Client N L C)) → i < length clients.old
        → CallerServed (telling N.Listener L.Link C.Clock N.Source.Source N.Sink.Sink) disk.now read_only
        (slice_index_or clients.old i d) (slice_index_or clients.new i d) }
{
    let threads = clients.len().max(1);
    thread::for_each_mut(
        rt,
        clients,
        threads,
        &|_, client: &mut Caller<Client<N, L, C>>|
            requires { MayBegin disk.now client.old × IsSound (fixed_of_disk disk.now).geometry }
            ensures { CallerServed (telling N.Listener L.Link C.Clock N.Source.Source N.Sink.Sink) disk.entry.now
                read_only client.old client.new }
        { serve_caller(rt, disk, read_only, client) },
    );
}

/// A client serves with its pass, until it ends.
fn serve_caller<H: Wait + time::Clock, N: Listener, L: Link, C: Clock>(
    rt: &H,
    disk: &Disk,
    read_only: bool,
    client: &mut Caller<Client<N, L, C>>,
)
    requires ready { MayBegin disk.now client.old }
    requires sound { IsSound (fixed_of_disk disk.now).geometry }
    ensures { CallerServed (telling N.Listener L.Link C.Clock N.Source.Source N.Sink.Sink) disk.now read_only
        client.old client.new }
{
    match client.pass.take() {
        Some(mut pass) => {
            client.tools.ended = serve_client(rt, disk, read_only, &mut pass, &mut client.tools);
            client.pass = Some(pass);
        }
        None => unreachable!(),
    }
}
