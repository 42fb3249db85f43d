//! A world in memory.

ghost use Rattle.std.specs.Prelude.{
  ◌≡◌,
  ◌≤◌,
  ◌<◌,
  Some,
  None,
  [],
  ◌∷◌,
  IfErr,
  IfOk,
  MatchResult,
  take,
  drop,
  slice_get,
  vec_len,
};
ghost use Rattle.std.specs.Option.{option_copied};
ghost use Rattle.sb_world.specs.Benches.{link_count};
ghost use Rattle.sb_world.specs.Told.{Gains};
ghost use Rattle.sb_world.specs.declared.world.Ask.TheVariants as ask;
ghost use Rattle.sb_fakes.specs.Fresh.{AreUnused, AreUntouched};

use crate::clock::HandClock;
use crate::conn::MemoryConn;
use crate::kept::Kept;
use crate::listener::MemoryListener;
use sb_base::{Geometry, StorePlan, Text};
use sb_world::{Ask, Bench, Gate, Link, MakeFault, World};
use std::alloc::{AllocError, Global};
use std::marker::Model;
use std::mem;

/// A bench of fakes over a link.
type MemoryBench<L> = Bench<L, HandClock, MemoryConn, MemoryConn>;

/// What was handed over: a client's listener, and the link and clock of a client or a worker.
#[derive(Drop)]
pub struct Heard<L> {
    pub listener: Option<MemoryListener>,
    pub desk: Option<(L, HandClock)>,
}

impl<L> Model for Heard<L> {
    ghost use Rattle.sb_world.specs.Worlds.{HeardParts};
    ghost use Rattle.sb_fakes.specs.declared.clock.HandClock.{HandClock};
    ghost use Rattle.sb_fakes.specs.declared.listener.MemoryListener.{MemoryListener};

    ghost Value = { HeardParts MemoryListener L HandClock };

    ghost view = { λ heard. record { listener = heard.listener; desk = heard.desk } };
}

/// A gate that does nothing.
#[derive(Drop)]
pub struct StillGate;

impl Gate for StillGate {
    fn before(&self, _worker: u32, _call: u64) {}

    fn after(&self, _worker: u32, _call: u64) {}
}

/// A world that hands out what it was given, each from the front, and keeps what it was asked for, the bench that was
/// shut last, the lines that were said and what was handed over. A bench takes its `output` before its `errors`, and no
/// link where it is over no store. A missing listener is `MakeFault::Listen`, and another missing part
/// `MakeFault::Store`.
#[derive(Drop)]
pub struct MemoryWorld<L: Link> {
    alloc: Global,
    links: Vec<L>,
    clocks: Vec<HandClock>,
    inputs: Vec<MemoryConn>,
    sinks: Vec<MemoryConn>,
    listeners: Vec<MemoryListener>,
    token: u32,
    faults: u64,
    asks: Kept<Ask>,
    /// The lines said, the oldest first.
    pub said: Vec<Text>,
    said_whole: bool,
    /// The bench that was shut last.
    pub last: Option<MemoryBench<L>>,
    /// What was handed over, the oldest first.
    pub heard: Vec<Heard<L>>,
    heard_whole: bool,
    ghost unused: { ∥ AreUnused L.log L.faults links.items ∥₁ },
    ghost untouched: { ∥ AreUntouched listeners.items ∥₁ },
}

impl<L: Link + Drop> MemoryWorld<L> {
    ghost use Rattle.std.specs.Prelude.{MatchOption, reverse};
    ghost use Rattle.sb_fakes.specs.Told as worlds;
    ghost use Rattle.sb_fakes.specs.Worlds.{told_list};

    /// A world of these links, clocks, ends of connections, listeners and token. No link was asked for anything, and no
    /// listener for a connection.
    pub fn new(
        alloc: Global,
        links: Vec<L>,
        clocks: Vec<HandClock>,
        inputs: Vec<MemoryConn>,
        sinks: Vec<MemoryConn>,
        listeners: Vec<MemoryListener>,
        token: u32,
    ) -> MemoryWorld<L>
        requires unused { AreUnused L.log L.faults links.items }
        requires untouched { AreUntouched listeners.items }
        ensures parts { (result.links ≡ links) × (result.clocks ≡ clocks) × (result.inputs ≡ inputs) ×
            (result.sinks ≡ sinks) × (result.listeners ≡ listeners) × (result.token ≡ token) }
        ensures last { result.last ≡ None }
        ensures faults { result.faults ≡ 0 }
        ensures asks { result.asks ≡ Some [] }
        ensures said { told_list result.said.items result.said_whole ≡ Some [] }
        ensures heard { told_list result.heard.items result.heard_whole ≡ Some [] }
    {
        MemoryWorld {
            alloc,
            links,
            clocks,
            inputs,
            sinks,
            listeners,
            token,
            faults: 0,
            asks: Kept::new(alloc),
            said: Vec::new(alloc),
            said_whole: true,
            last: None,
            heard: Vec::new(alloc),
            heard_whole: true,
        }
    }

    /// What it was asked for, the oldest first, and nothing after a growth was refused.
    pub fn asks(&self) -> Option<&[Ask]>
        ensures { MatchOption result ((worlds.world_view self.now).asks ≡ None)
            (λ asks. (worlds.world_view self.now).asks ≡ Some (reverse asks.now)) }
    {
        self.asks.items()
    }

    /// Whether there are the parts of a bench with so many links.
    fn has_parts(&self, links: usize) -> bool
        ensures { result ≡ worlds.has_parts links self.now }
    {
        self.links.len() >= links
            && !self.clocks.is_empty()
            && !self.inputs.is_empty()
            && self.sinks.len() >= 2
    }

    /// Whether there are a link and a clock.
    fn has_desk(&self) -> bool
        ensures { result ≡ worlds.has_desk self.now }
    {
        !self.links.is_empty() && !self.clocks.is_empty()
    }
}

/// How many links a bench has.
fn links_of(store: Option<&StorePlan>, links: u32) -> usize
    ensures { result ≡ link_count (option_copied store.entry) links }
{
    match store {
        Some(_) => links as usize,
        None => 0,
    }
}

/// The ask for a bench.
fn bench_ask(alloc: Global, store: Option<&StorePlan>, links: u32) -> Result<Ask, AllocError>
    ensures { IfOk result (λ made. made ≡ ask.Bench (option_copied store.entry) links) }
{
    let store = match store {
        Some(plan) => Some(plan.copy(alloc)?),
        None => None,
    };
    Ok(Ask::Bench { store, links })
}

/// Keeps the ask for a bench.
fn keep_ask(alloc: Global, asks: &mut Kept<Ask>, store: Option<&StorePlan>, links: u32)
    ensures { Gains asks.old asks.new (ask.Bench (option_copied store.entry) links ∷ []) }
{
    match bench_ask(alloc, store, links) {
        Ok(ask) => asks.add(ask),
        Err(_) => asks.forget(),
    }
}

/// Keeps the ask for a desk.
fn keep_desk_ask(alloc: Global, asks: &mut Kept<Ask>, store: &StorePlan)
    ensures { Gains asks.old asks.new (ask.Desk store.entry.now ∷ []) }
{
    match store.copy(alloc) {
        Ok(store) => asks.add(Ask::Desk { store }),
        Err(_) => asks.forget(),
    }
}

/// Keeps the ask for a listener.
fn keep_listener_ask(alloc: Global, asks: &mut Kept<Ask>, address: &Text, limit: u32)
    ensures { Gains asks.old asks.new (ask.Listener address.entry.now limit ∷ []) }
{
    match address.copy(alloc) {
        Ok(address) => asks.add(Ask::Listener { address, limit }),
        Err(_) => asks.forget(),
    }
}

/// The first item, taken out.
fn take_first<X>(items: &mut Vec<X>) -> X
    requires { 0 < vec_len items.old }
    ensures first { slice_get items.old.items 0 ≡ Some result }
    ensures others { items.new.items ≡ drop 1 items.old.items }
{
    items.remove(0)
}

/// So many of some items from the front, taken out.
fn take_front<X>(items: &mut Vec<X>, count: usize) -> Result<Vec<X>, AllocError>
    requires { count ≤ vec_len items.old }
    ensures { MatchResult result
        (λ front. (front.items ≡ take count items.old.items) × (items.new.items ≡ drop count items.old.items))
        (λ _. items.new.items ≡ items.old.items) }
{
    let rest = items.split_off(count)?;
    Ok(mem::replace(items, rest))
}

impl<L: Link + Drop + Send> World for MemoryWorld<L> {
    type Link = L;

    type Clock = HandClock;

    type Source = MemoryConn;

    type Sink = MemoryConn;

    type Listener = MemoryListener;

    type Gate = StillGate;

    ghost use Rattle.sb_world.specs.Benches.{HasPauses};
    ghost use Rattle.sb_world.specs.Listeners.{ListensAnew};
    ghost use Rattle.sb_world.specs.Told.{IsUnused};
    ghost use Rattle.sb_world.specs.Worlds.{make_failed, with_last, IsOfAddress, IsOfStore};
    ghost use Rattle.sb_world.specs.Worlds.{HangsUp, MakesBench, MakesDesk, MakesListener, SaysLine};
    ghost use Rattle.sb_fakes.specs.Failing.{counted};
    ghost use Rattle.sb_fakes.specs.Listeners.{came_at, gave_at};
    ghost use Rattle.sb_fakes.specs.Told.{world_view, Hands, HandsDesk, HandsListener, KeepsParts};

    ghost view = { world_view };

    fn bench(&mut self, store: Option<&StorePlan>, links: u32) -> Result<MemoryBench<L>, MakeFault>
        requires pauses { HasPauses (option_copied store) }
        ensures makes { MakesBench (world_view self.old) (world_view self.new) (option_copied store.entry) links result }
        ensures unused { IfOk result (λ bench. AreUnused L.log L.faults bench.links) }
        ensures fits { IfErr result IsOfStore }
        ensures hands { Hands (link_count (option_copied store.entry) links) result self.old self.new }
        ensures faults { self.new.faults ≡ counted (make_failed result) self.old.faults }
    {
        keep_ask(self.alloc, &mut self.asks, store, links);
        let count = links_of(store, links);
        if !self.has_parts(count) {
            self.faults = self.faults.saturating_add(1);
            return Err(MakeFault::Store);
        }
        match take_front(&mut self.links, count) {
            Ok(links) => Ok(Bench {
                links,
                clock: self.clocks.remove(0),
                input: self.inputs.remove(0),
                output: self.sinks.remove(0),
                errors: self.sinks.remove(0),
            }),
            Err(_) => Err(MakeFault::Memory),
        }
    }

    fn shut(&mut self, bench: MemoryBench<L>)
        ensures last { world_view self.new ≡ with_last (Some bench) (world_view self.old) }
        ensures parts { KeepsParts self.old self.new }
    {
        self.last = Some(bench);
    }

    fn desk(&mut self, store: &StorePlan) -> Result<(L, HandClock), MakeFault>
        requires pauses { HasPauses (Some store.now) }
        ensures makes { MakesDesk (world_view self.old) (world_view self.new) store.entry.now result }
        ensures unused { IfOk result (λ desk. IsUnused (L.log desk.0) (L.faults desk.0)) }
        ensures fits { IfErr result IsOfStore }
        ensures hands { HandsDesk result self.old self.new }
        ensures faults { self.new.faults ≡ counted (make_failed result) self.old.faults }
    {
        keep_desk_ask(self.alloc, &mut self.asks, store);
        if !self.has_desk() {
            self.faults = self.faults.saturating_add(1);
            return Err(MakeFault::Store);
        }
        Ok((take_first(&mut self.links), take_first(&mut self.clocks)))
    }

    fn listener(&mut self, address: &Text, limit: u32) -> Result<MemoryListener, MakeFault>
        ensures makes { MakesListener (world_view self.old) (world_view self.new) address.entry.now limit result }
        ensures anew { IfOk result (λ listener. ListensAnew (came_at listener) (Some listener.over)
            (gave_at listener) listener.faults) }
        ensures fits { IfErr result IsOfAddress }
        ensures hands { HandsListener result self.old self.new }
        ensures faults { self.new.faults ≡ counted (make_failed result) self.old.faults }
    {
        keep_listener_ask(self.alloc, &mut self.asks, address, limit);
        if self.listeners.is_empty() {
            self.faults = self.faults.saturating_add(1);
            return Err(MakeFault::Listen);
        }
        Ok(take_first(&mut self.listeners))
    }

    fn gate(&mut self) -> StillGate
        ensures { self.new ≡ self.old }
    {
        StillGate
    }

    fn serving(&mut self, _geometry: &Geometry)
        ensures { self.new ≡ self.old }
    {}

    fn token(&mut self) -> u32
        ensures token { result ≡ self.old.token }
        ensures stays { self.new ≡ self.old }
    {
        self.token
    }

    fn hang_up(&mut self, listener: Option<MemoryListener>, desk: Option<(L, HandClock)>)
        ensures hangs_up { HangsUp (world_view self.old) (world_view self.new) listener desk }
        ensures parts { KeepsParts self.old self.new }
    {
        if self.heard.push(Heard { listener, desk }).is_err() {
            self.heard_whole = false;
        }
    }

    fn say(&mut self, line: &[u8])
        ensures says { SaysLine (world_view self.old) (world_view self.new) line.now }
        ensures parts { KeepsParts self.old self.new }
    {
        match Text::of(self.alloc, line) {
            Ok(line) => {
                if self.said.push(line).is_err() {
                    self.said_whole = false;
                }
            }
            Err(_) => self.said_whole = false,
        }
    }
}
