//! What a program is given.

ghost use Rattle.std.specs.Prelude.{◌≡◌, Some, IfErr, IfOk};
ghost use Rattle.std.specs.List.{AllByRecursion};
ghost use Rattle.std.specs.Option.{option_copied};
ghost use Rattle.sb_world.specs.Benches.{shut_bench, HasPauses};
ghost use Rattle.sb_world.specs.Listeners.{ListensAnew};
ghost use Rattle.sb_world.specs.Told.{IsUnused};
ghost use Rattle.sb_world.specs.Worlds.{
  WorldView,
  IsOfAddress,
  IsOfStore,
  MakesBench,
  MakesDesk,
  MakesListener,
  HangsUp,
  SaysLine,
  with_last,
};

use crate::clock::Clock;
use crate::gate::Gate;
use crate::link::Link;
use crate::listener::Listener;
use crate::stream::{Sink, Source};
use sb_base::{Geometry, StorePlan, Text};
use std::marker::Model;

/// What a program works with: its links to the store, a clock, where bytes come from and go to, and where a line about
/// a fault goes. It is seen with its links as a list.
#[derive(Drop)]
pub struct Bench<L, C, R, S> {
    pub links: Vec<L>,
    pub clock: C,
    pub input: R,
    pub output: S,
    pub errors: S,
}

impl<L, C, R, S> Model for Bench<L, C, R, S> {
    ghost use Rattle.sb_world.specs.Benches.{BenchParts};

    ghost Value = { BenchParts L C R S };

    ghost view = { λ b. record {
      links = b.links.items;
      clock = b.clock;
      input = b.input;
      output = b.output;
      errors = b.errors;
    } };
}

/// Why a bench, a desk or a listener wasn't made: `Store` of a bench or a desk, `Listen` of a listener.
#[derive(Drop, Clone, Copy, PartialEq, Eq, Debug)]
pub enum MakeFault {
    /// The store can't be reached.
    Store,
    /// The address can't be listened on.
    Listen,
    Memory,
}

/// What a world was asked for.
#[derive(Drop)]
pub enum Ask {
    /// A bench over this store, with so many links.
    Bench {
        store: Option<StorePlan>,
        links: u32,
    },
    /// A link to this store, and a clock.
    Desk {
        store: StorePlan,
    },
    /// A listener at this address, of at most so many connections.
    Listener {
        address: Text,
        limit: u32,
    },
}

/// What a program is given. Its parts may be handed to other threads.
pub trait World {
    type Link: Link + Send;

    type Clock: Clock + Send;

    type Source: Source + Send;

    type Sink: Sink + Send;

    type Listener: Listener + Send;

    type Gate: Gate + Sync;

    /// What it tells.
    ghost view: { Self → WorldView Self.Listener Self.Link Self.Clock Self.Source Self.Sink };

    /// Makes a bench with so many links to a store, or with none where no store is given.
    fn bench(
        &mut self,
        store: Option<&StorePlan>,
        links: u32,
    ) -> Result<Bench<Self::Link, Self::Clock, Self::Source, Self::Sink>, MakeFault>
        requires pauses { HasPauses (option_copied store) }
        ensures makes { MakesBench (view self.old) (view self.new) (option_copied store.entry) links result }
        ensures unused { IfOk result (λ bench. AllByRecursion (λ link. IsUnused (Self.Link.log link)
            (Self.Link.faults link)) bench.links) }
        ensures fits { IfErr result IsOfStore };

    /// Takes a bench back.
    fn shut(&mut self, bench: Bench<Self::Link, Self::Clock, Self::Source, Self::Sink>)
        ensures { view self.new ≡ with_last (shut_bench (view self.old).tells bench) (view self.old) };

    /// A link to a store and a clock, for one thread.
    fn desk(&mut self, store: &StorePlan) -> Result<(Self::Link, Self::Clock), MakeFault>
        requires pauses { HasPauses (Some store.now) }
        ensures makes { MakesDesk (view self.old) (view self.new) store.entry.now result }
        ensures unused { IfOk result (λ desk. IsUnused (Self.Link.log desk.0) (Self.Link.faults desk.0)) }
        ensures fits { IfErr result IsOfStore };

    /// A listener at an address, `HOST:PORT` or a port alone. It accepts at most so many connections, any number where
    /// that is 0.
    fn listener(&mut self, address: &Text, limit: u32) -> Result<Self::Listener, MakeFault>
        ensures makes { MakesListener (view self.old) (view self.new) address.entry.now limit result }
        ensures anew { IfOk result (λ listener. ListensAnew (Self.Listener.came listener)
            (Self.Listener.over listener) (Self.Listener.gave listener) (Self.Listener.faults listener)) }
        ensures fits { IfErr result IsOfAddress };

    /// What stands round the store calls of workers.
    fn gate(&mut self) -> Self::Gate
        ensures { view self.new ≡ view self.old };

    /// Tells who waits for it that a disk of this size is served from now on. A fault of that is left unsaid, and it is no
    /// line about a fault.
    fn serving(&mut self, geometry: &Geometry)
        ensures { view self.new ≡ view self.old };

    /// A number that another mount doesn't have, but by chance.
    fn token(&mut self) -> u32
        ensures { view self.new ≡ view self.old };

    /// Takes a client's listener and desk back, or a worker's desk.
    fn hang_up(&mut self, listener: Option<Self::Listener>, desk: Option<(Self::Link, Self::Clock)>)
        ensures { HangsUp (view self.old) (view self.new) listener desk };

    /// Says a line on standard error. A fault of that is left unsaid, and isn't counted.
    fn say(&mut self, line: &[u8])
        ensures { SaysLine (view self.old) (view self.new) line.now };
}
