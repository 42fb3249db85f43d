//! One turn at the counter.
ghost use Rattle.std.specs.Prelude.{◌≡◌, ℕ, ◌%◌, ◌^◌, List, [], ◌∷◌, Some};
ghost use Rattle.sb_turn.specs.Histories.{IsPast};
ghost use Rattle.sb_turn.specs.Passes.{
  seen,
  mine,
  number,
  base_of,
  IsWholePass,
  IsPassOf,
  IsFree,
  HoldsTurn,
  IsSamePass,
};
ghost use Rattle.test_turns.specs.Amounts.{total_added};

use crate::counter::Counter;
use sb_turn::{Event, Held, Pass, Turn};
use std::marker::Brand;
use std::sync::Wait;

/// Adds the amount in a turn of its own.
pub fn add<R: Wait>(rt: &R, turn: &Turn<Counter>, pass: &mut Pass<Counter>, amount: u64)
    requires { IsPassOf turn.now pass.old × IsFree pass.old }
    ensures pass { IsSamePass pass.old pass.new × IsFree pass.new }
    ensures mine { mine pass.new ≡ (number pass.old, amount) ∷ mine pass.old }
    ensures seen { IsPast (seen pass.old) (seen pass.new) }
    ensures whole { IsWholePass pass.old
        → seen pass.new ≡ (number pass.old, amount) ∷ seen pass.old }
{
    let mut held = turn.enter(rt, pass);
    let counter = held.value();
    counter.count = counter.count.wrapping_add(amount);
    leave_with::<Brand>(turn, held, pass, amount);
}

// A call picks its event from its arguments alone, so the amount is one of them.
fn leave_with<M: Event<u64>>(
    turn: &Turn<Counter>,
    held: Held<Counter>,
    pass: &mut Pass<Counter>,
    amount: u64,
)
    requires pass { IsPassOf turn.now pass.old × HoldsTurn pass.old }
    requires event { M.made ≡ (number pass.old, amount) ∷ [] }
    requires count { held.value.count
        ≡ total_added ((number pass.old, amount) ∷ seen pass.old) % 2 ^ 64 }
    requires base { base_of pass.old ≡ Some tt }
    ensures pass { IsSamePass pass.old pass.new × IsFree pass.new }
    ensures seen { seen pass.new ≡ (number pass.old, amount) ∷ seen pass.old }
    ensures mine { mine pass.new ≡ (number pass.old, amount) ∷ mine pass.old }
{
    turn.leave::<M>(held, pass);
}

/// What the counter shows, in a turn without an entry.
pub fn read<R: Wait>(rt: &R, turn: &Turn<Counter>, pass: &mut Pass<Counter>) -> u64
    requires { IsPassOf turn.now pass.old × IsFree pass.old }
    ensures count { result ≡ total_added (seen pass.new) % 2 ^ 64 }
    ensures pass { IsSamePass pass.old pass.new × IsFree pass.new }
    ensures seen { IsPast (seen pass.old) (seen pass.new) }
    ensures mine { mine pass.new ≡ mine pass.old }
    ensures whole { IsWholePass pass.old → seen pass.new ≡ seen pass.old }
{
    let mut held = turn.enter(rt, pass);
    let count = held.value().count;
    turn.leave_without_entry(held, pass);
    count
}
