//! A wire in memory.

ghost use Rattle.std.specs.Prelude.{◌≡◌, ◌≢◌, ◌<◌, ◌+◌, ◌-◌, ◌^◌, Some, Err, [], min, IfOk};

use crate::begun::{Begun, give_on, send_on};
use sb_base::Text;
use sb_world::{Wire, WireFault};
use std::alloc::Global;

/// A wire whose connections give some texts: the first the first one, and those behind the last nothing. At most
/// `piece` bytes come by a receive. The calls in `fails`, counted from 1, fail, and so does one that no memory is found
/// for, and a send or a receive before the first connection.
#[derive(Drop)]
pub struct MemoryWire {
    alloc: Global,
    answers: Vec<Text>,
    piece: u32,
    fails: Vec<u64>,
    calls: u64,
    faults: u64,
    /// The connections, the newest first.
    begun: Vec<Begun>,
    ghost some: { 0 < piece },
}

impl MemoryWire {
    ghost use Rattle.sb_world.specs.Told.{CountsFaults};
    ghost use Rattle.sb_fakes.specs.Connections.{sent_on};
    ghost use Rattle.sb_fakes.specs.Wires.{connections_of, fails_next, Keeps};

    /// A wire with no connection yet.
    pub fn new(alloc: Global, answers: Vec<Text>, piece: u32, fails: Vec<u64>) -> MemoryWire
        requires { piece ≢ 0 }
        ensures connections { connections_of result ≡ [] }
        ensures faults { (result.faults ≡ 0) × (result.calls ≡ 0) }
        ensures given { (result.answers ≡ answers) × (result.piece ≡ piece) × (result.fails ≡ fails) }
    {
        MemoryWire {
            alloc,
            answers,
            piece,
            fails,
            calls: 0,
            faults: 0,
            begun: Vec::new(alloc),
        }
    }

    /// What was sent on the newest connection, nothing before the first.
    pub fn sent(&self) -> &[u8]
        ensures { result.now ≡ sent_on (connections_of self.now) }
    {
        match self.begun.as_slice() {
            [newest, ..] => newest.sent(),
            [] => &[],
        }
    }

    /// Counts a call, and answers whether it is to fail.
    fn next_call_fails(&mut self) -> bool
        ensures planned { result ≡ fails_next self.old }
        ensures stays { (connections_of self.new ≡ connections_of self.old) × (self.new.faults ≡ self.old.faults) }
        ensures kept { Keeps self.old self.new }
    {
        self.calls = self.calls.saturating_add(1);
        self.fails.contains(&self.calls)
    }

    /// Counts a fault, and answers it.
    fn fail<T>(&mut self) -> Result<T, WireFault>
        ensures failed { result ≡ Err (WireFault.Failed) }
        ensures stays { connections_of self.new ≡ connections_of self.old }
        ensures kept { (self.new.answers ≡ self.old.answers) × (self.new.piece ≡ self.old.piece)
            × (self.new.fails ≡ self.old.fails) × (self.new.calls ≡ self.old.calls) }
        ensures counts { self.new.faults ≡ min (self.old.faults + 1) (2 ^ 64 - 1) }
        ensures cause { CountsFaults self.old.faults self.new.faults (Unit {0}) }
    {
        self.faults = self.faults.saturating_add(1);
        Err(WireFault::Failed)
    }
}

impl Wire for MemoryWire {
    ghost use Rattle.std.specs.Prelude.{IsErr, length};
    ghost use Rattle.sb_world.specs.Told.{CountsFaults};
    ghost use Rattle.sb_world.specs.Wires.{Connects, Sends, Receives};
    ghost use Rattle.sb_fakes.specs.Connections.{left_on, Gives};
    ghost use Rattle.sb_fakes.specs.Wires.{connections_of, fails_next, Counts, IsPlanned, Keeps};

    ghost connections = { λ wire. Some (connections_of wire) };

    ghost faults = { λ wire. wire.faults };

    fn connect(&mut self) -> Result<(), WireFault>
        ensures told { Connects (Some (connections_of self.old)) (Some (connections_of self.new)) result }
        ensures cause { CountsFaults self.old.faults self.new.faults (IsErr result) }
        ensures planned { IsPlanned (fails_next self.old) result }
        ensures counts { Counts result self.old.faults self.new.faults }
        ensures kept { Keeps self.old self.new }
    {
        if self.next_call_fails() {
            return self.fail();
        }
        match self.begun.insert(0, Begun::new(self.alloc)) {
            Ok(()) => Ok(()),
            Err(_) => self.fail(),
        }
    }

    fn send(&mut self, bytes: &[u8]) -> Result<(), WireFault>
        ensures told { Sends (Some (connections_of self.old)) (Some (connections_of self.new)) result bytes.now }
        ensures cause { CountsFaults self.old.faults self.new.faults (IsErr result) }
        ensures planned { IsPlanned (fails_next self.old) result }
        ensures counts { Counts result self.old.faults self.new.faults }
        ensures kept { Keeps self.old self.new }
    {
        if self.next_call_fails() {
            return self.fail();
        }
        match send_on(&mut self.begun, bytes) {
            Ok(()) => Ok(()),
            Err(_) => self.fail(),
        }
    }

    fn receive(&mut self, out: &mut [u8]) -> Result<usize, WireFault>
        ensures length { length out.new ≡ length out.old }
        ensures told { Receives (Some (connections_of self.old)) (Some (connections_of self.new)) result out.new }
        ensures cause { CountsFaults self.old.faults self.new.faults (IsErr result) }
        ensures planned { IsPlanned (fails_next self.old) result }
        ensures counts { Counts result self.old.faults self.new.faults }
        ensures kept { Keeps self.old self.new }
        ensures gives { IfOk result (λ count. Gives (left_on self.old.answers.items (connections_of self.old))
            self.old.piece out.new count) }
    {
        if self.next_call_fails() {
            return self.fail();
        }
        match give_on(&mut self.begun, &self.answers, self.piece, out) {
            Ok(count) => Ok(count),
            Err(_) => self.fail(),
        }
    }
}
