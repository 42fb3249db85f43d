//! What happened in a turn.
ghost use Rattle.std.specs.Prelude.{ℕ, List, []};

use std::marker::Brand;

/// The entry that a turn adds to the history. A call at `Brand` picks it.
pub trait Event<E> {
    // One entry, with the number of the pass.
    ghost made: { List (ℕ × E) };
}

impl<E> Event<E> for Brand {
    ghost made = { [] };
}
