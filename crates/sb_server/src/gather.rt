//! What a world is asked for, for clients and workers.

ghost use Rattle.std.specs.Prelude.{◌∷◌, [], Some, IfOk};
ghost use Rattle.sb_base.specs.Shapes.{IsSound};
ghost use Rattle.sb_world.specs.Benches.{HasPauses};
ghost use Rattle.sb_world.specs.declared.world.Ask.TheVariants as ask;
ghost use Rattle.sb_server.specs.Gatherings.{
  client_asks,
  worker_asks,
  AsksFor,
  IsDeskAnew,
  IsClientAnew,
  AreClientsAnew,
  AreWorkersAnew,
};

use crate::caller::Caller;
use crate::client::Client;
use crate::worker::Worker;
use sb_base::{Geometry, StorePlan, Text};
use sb_crew::Desk;
use sb_session::Buffer;
use sb_world::{MakeFault, World};
use std::alloc::Global;

/// Asks for a listener and a desk of each client.
pub fn gather_clients<W: World>(
    alloc: Global,
    world: &mut W,
    store: &StorePlan,
    geometry: &Geometry,
    address: &Text,
    limit: u32,
    count: u32,
) -> Result<Vec<Caller<Client<W::Listener, W::Link, W::Clock>>>, MakeFault>
where
    W::Listener: Drop,
    W::Link: Drop,
    W::Clock: Drop,
    requires pauses { HasPauses (Some store.now) }
    requires sound { IsSound geometry.now }
    ensures asks { AsksFor (client_asks store.entry.now address.entry.now limit count) (W.view world.old)
        (W.view world.new) result }
    ensures anew { IfOk result (λ clients. AreClientsAnew W.Listener.Listener W.Link.Link geometry.entry.now count
        clients.items) }
{
    let mut clients = Vec::new(alloc);
    for _made in 0..count {
        match gather_client(alloc, world, store, geometry, address, limit) {
            Ok(client) => match clients.push(Caller::new(client)) {
                Ok(()) => {}
                Err(_) => return Err(MakeFault::Memory),
            },
            Err(fault) => return Err(fault),
        }
    }
    Ok(clients)
}

/// Asks for a listener and a desk of a client.
fn gather_client<W: World>(
    alloc: Global,
    world: &mut W,
    store: &StorePlan,
    geometry: &Geometry,
    address: &Text,
    limit: u32,
) -> Result<Client<W::Listener, W::Link, W::Clock>, MakeFault>
where
    W::Listener: Drop,
    W::Link: Drop,
    W::Clock: Drop,
    requires pauses { HasPauses (Some store.now) }
    requires sound { IsSound geometry.now }
    ensures asks { AsksFor (ask.Desk store.entry.now ∷ ask.Listener address.entry.now limit ∷ []) (W.view world.old)
        (W.view world.new) result }
    ensures anew { IfOk result (IsClientAnew W.Listener.Listener W.Link.Link geometry.entry.now) }
{
    let listener = match world.listener(address, limit) {
        Ok(listener) => listener,
        Err(fault) => return Err(fault),
    };
    let desk = match gather_desk(alloc, world, store, geometry) {
        Ok(desk) => desk,
        Err(fault) => return Err(fault),
    };
    match Buffer::new(alloc) {
        Ok(buffer) => Ok(Client {
            listener,
            desk,
            buffer,
            ended: Ok(()),
        }),
        Err(_) => Err(MakeFault::Memory),
    }
}

/// Asks for a desk of each worker.
pub fn gather_workers<W: World>(
    alloc: Global,
    world: &mut W,
    store: &StorePlan,
    geometry: &Geometry,
    count: u32,
) -> Result<Vec<Caller<Worker<W::Link, W::Clock>>>, MakeFault>
where
    W::Link: Drop,
    W::Clock: Drop,
    requires pauses { HasPauses (Some store.now) }
    requires sound { IsSound geometry.now }
    ensures asks { AsksFor (worker_asks store.entry.now count) (W.view world.old) (W.view world.new) result }
    ensures anew { IfOk result (λ workers. AreWorkersAnew W.Link.Link geometry.entry.now 0 count workers.items) }
{
    let mut workers = Vec::new(alloc);
    for number in 0..count {
        match gather_desk(alloc, world, store, geometry) {
            Ok(desk) => match workers.push(Caller::new(Worker { desk, number })) {
                Ok(()) => {}
                Err(_) => return Err(MakeFault::Memory),
            },
            Err(fault) => return Err(fault),
        }
    }
    Ok(workers)
}

/// Asks for a desk.
pub(crate) fn gather_desk<W: World>(
    alloc: Global,
    world: &mut W,
    store: &StorePlan,
    geometry: &Geometry,
) -> Result<Desk<W::Link, W::Clock>, MakeFault>
where
    W::Link: Drop,
    W::Clock: Drop,
    requires pauses { HasPauses (Some store.now) }
    requires sound { IsSound geometry.now }
    ensures asks { AsksFor (ask.Desk store.entry.now ∷ []) (W.view world.old) (W.view world.new) result }
    ensures anew { IfOk result (IsDeskAnew W.Link.Link geometry.entry.now) }
{
    let (link, clock) = match world.desk(store) {
        Ok(desk) => desk,
        Err(fault) => return Err(fault),
    };
    match Desk::new(alloc, link, clock, geometry) {
        Ok(desk) => Ok(desk),
        Err(_refused) => Err(MakeFault::Memory),
    }
}
