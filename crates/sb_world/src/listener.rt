//! Where connections come from.

ghost use Rattle.std.specs.Prelude.{◌≡◌, ℕ, Bool, List, [], ◌∷◌, Option, Ok, Some, IfOk, IfSome, IsErr};
ghost use Rattle.sb_world.specs.Told.{Gains, CountsFaults};
ghost use Rattle.sb_world.specs.Listeners.{Handed, Accepts, EndsAccepting, IsNew};

use crate::stream::{Sink, Source};

/// A listener has failed.
#[derive(Drop, Clone, Copy, PartialEq, Eq, Debug)]
pub enum ListenFault {
    Failed,
}

/// Where connections come from. Each is given back when it has been served.
pub trait Listener {
    type Source: Source + Send;

    type Sink: Sink + Send;

    /// What each accepted source had left, where it tells that.
    ghost came: { Self → Option (List (Option (List ℕ))) };

    /// Whether an accept answered that no more come, where it tells that.
    ghost over: { Self → Option Bool };

    /// The connections given back, where it tells them.
    ghost gave: { Self → Option (List (Handed Self.Source Self.Sink)) };

    /// How often it has failed.
    ghost faults: { Self → ℕ };

    /// The next connection, `None` where no more come. Its sink is empty.
    fn accept(&mut self) -> Result<Option<(Self::Source, Self::Sink)>, ListenFault>
        ensures came { Accepts Self.Source.left (came self.old) (came self.new) result }
        ensures over { EndsAccepting (over self.old) (over self.new) result }
        ensures new { IfOk result (λ found. IfSome found (λ connection. IsNew (Self.Sink.held connection.1)
            (Self.Source.faults connection.0) (Self.Sink.faults connection.1))) }
        ensures gave { gave self.new ≡ gave self.old }
        ensures cause { CountsFaults (faults self.old) (faults self.new) (IsErr result) };

    /// Closes a connection that the pass of this number has served. It can't fail.
    fn back(&mut self, source: Self::Source, sink: Self::Sink, number: u64)
        ensures gave { Gains (gave self.old) (gave self.new)
            (record { number = number; source = source; sink = sink } ∷ []) }
        ensures came { came self.new ≡ came self.old }
        ensures over { over self.new ≡ over self.old }
        ensures faults { faults self.new ≡ faults self.old };
}
