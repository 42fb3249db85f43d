//! What clients and workers hand over at the end.

ghost use Rattle.std.specs.Prelude.{◌++◌};
ghost use Rattle.sb_server.specs.Handings.{heard_of_clients, heard_of_workers, HandsOver};

use crate::caller::Caller;
use crate::client::Client;
use crate::worker::Worker;
use sb_world::World;

/// Hands over each client's listener, link and clock, and then each worker's link and clock.
pub fn hand_over<W: World>(
    world: &mut W,
    clients: Vec<Caller<Client<W::Listener, W::Link, W::Clock>>>,
    workers: Vec<Caller<Worker<W::Link, W::Clock>>>,
)
where
    W::Listener: Drop,
    W::Link: Drop,
    W::Clock: Drop,
    ensures { HandsOver (W.view world.old) (W.view world.new)
        (heard_of_workers workers.items ++ heard_of_clients clients.items) }
{
    hand_clients(world, clients);
    hand_workers(world, workers);
}

/// Hands over each client's listener, link and clock.
fn hand_clients<W: World>(
    world: &mut W,
    clients: Vec<Caller<Client<W::Listener, W::Link, W::Clock>>>,
)
where
    W::Listener: Drop,
    W::Link: Drop,
    W::Clock: Drop,
    ensures { HandsOver (W.view world.old) (W.view world.new) (heard_of_clients clients.items) }
{
    for client in clients {
        let Client {
            listener,
            desk,
            buffer: _,
            ended: _,
        } = client.into_tools();
        world.hang_up(Some(listener), Some(desk.into_parts()));
    }
}

/// Hands over each worker's link and clock.
fn hand_workers<W: World>(world: &mut W, workers: Vec<Caller<Worker<W::Link, W::Clock>>>)
where
    W::Link: Drop,
    W::Clock: Drop,
    ensures { HandsOver (W.view world.old) (W.view world.new) (heard_of_workers workers.items) }
{
    for worker in workers {
        let Worker { desk, number: _ } = worker.into_tools();
        world.hang_up(None, Some(desk.into_parts()));
    }
}
