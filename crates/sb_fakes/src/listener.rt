//! A listener in memory.

ghost use Rattle.std.specs.Prelude.{◌≡◌, false, Some, [], ◌∷◌, IfOk, IfSome, IsErr};
ghost use Rattle.std.specs.Result.{is_err};
ghost use Rattle.sb_world.specs.Listeners.{Accepts, EndsAccepting, IsNew};
ghost use Rattle.sb_world.specs.Told.{CountsFaults, Gains};
ghost use Rattle.sb_fakes.specs.Failing.{counted};
ghost use Rattle.sb_fakes.specs.Fresh.{IsUntouched};
ghost use Rattle.sb_fakes.specs.Listeners.{came_at, gave_at, Comes, KeepsInputs, KeepsComing};
ghost use Rattle.sb_fakes.specs.Told.{bytes_of, faults_of};

use crate::conn::MemoryConn;
use sb_base::Text;
use sb_world::{ListenFault, Listener};
use std::alloc::Global;
use std::marker::Model;

/// A connection that was given back, with the number of the pass that served it.
#[derive(Drop)]
pub struct Given {
    pub number: u64,
    pub source: MemoryConn,
    pub sink: MemoryConn,
}

impl Model for Given {
    ghost use Rattle.sb_world.specs.Listeners.{Handed};
    ghost use Rattle.sb_fakes.specs.declared.conn.MemoryConn.{MemoryConn};

    ghost Value = { Handed MemoryConn MemoryConn };

    ghost view = { λ given. record { number = given.number; source = given.source; sink = given.sink } };
}

/// A listener at which a connection comes for each of some inputs, in order, and none behind the last. Its source has
/// the input in one piece, and its sink holds nothing. An accept for whose connection no memory is found fails, and the
/// next one has it.
#[derive(Drop)]
pub struct MemoryListener {
    alloc: Global,
    inputs: Vec<Text>,
    at: usize,
    over: bool,
    faults: u64,
    /// The connections given back, the oldest first.
    pub given: Vec<Given>,
    given_whole: bool,
}

impl MemoryListener {
    /// A listener at which nothing came yet.
    pub fn new(alloc: Global, inputs: Vec<Text>) -> MemoryListener
        ensures inputs { result.inputs ≡ inputs }
        ensures came { came_at result ≡ Some [] }
        ensures over { result.over ≡ false }
        ensures gave { gave_at result ≡ Some [] }
        ensures faults { result.faults ≡ 0 }
        ensures untouched { IsUntouched result }
    {
        MemoryListener {
            alloc,
            inputs,
            at: 0,
            over: false,
            faults: 0,
            given: Vec::new(alloc),
            given_whole: true,
        }
    }
}

impl Listener for MemoryListener {
    type Source = MemoryConn;

    type Sink = MemoryConn;

    ghost came = { came_at };

    ghost over = { λ listener. Some listener.over };

    ghost gave = { gave_at };

    ghost faults = { λ listener. listener.faults };

    fn accept(&mut self) -> Result<Option<(MemoryConn, MemoryConn)>, ListenFault>
        ensures came { Accepts bytes_of (came_at self.old) (came_at self.new) result }
        ensures over { EndsAccepting (Some self.old.over) (Some self.new.over) result }
        ensures new { IfOk result (λ found. IfSome found (λ connection. IsNew (bytes_of connection.1)
            (faults_of connection.0) (faults_of connection.1))) }
        ensures gave { gave_at self.new ≡ gave_at self.old }
        ensures cause { CountsFaults self.old.faults self.new.faults (IsErr result) }
        ensures comes { Comes self.old self.new result }
        ensures faults { self.new.faults ≡ counted (is_err result) self.old.faults }
        ensures inputs { KeepsInputs self.old self.new }
    {
        let Some(input) = self.inputs.get(self.at) else {
            self.over = true;
            return Ok(None);
        };
        match input.copy(self.alloc) {
            Ok(input) => {
                self.at += 1;
                let source = MemoryConn::source(input, u32::MAX, Vec::new(self.alloc));
                Ok(Some((source, MemoryConn::sink(self.alloc, Vec::new(self.alloc)))))
            }
            Err(_) => {
                self.faults = self.faults.saturating_add(1);
                Err(ListenFault::Failed)
            }
        }
    }

    fn back(&mut self, source: MemoryConn, sink: MemoryConn, number: u64)
        ensures gave { Gains (gave_at self.old) (gave_at self.new)
            (record { number = number; source = source; sink = sink } ∷ []) }
        ensures came { came_at self.new ≡ came_at self.old }
        ensures over { Some self.new.over ≡ Some self.old.over }
        ensures faults { self.new.faults ≡ self.old.faults }
        ensures comes { KeepsComing self.old self.new }
    {
        let given = Given {
            number,
            source,
            sink,
        };
        if self.given.push(given).is_err() {
            self.given_whole = false;
        }
    }
}
