//! Two passes, each in a thread of its own.
ghost use Rattle.std.specs.Prelude.{◌≡◌, ℕ, ◌<◌, [], ◌∷◌, IfOk, length};
ghost use Rattle.sb_turn.specs.Histories.{IsPast};
ghost use Rattle.sb_turn.specs.Passes.{seen, mine, joined, number, IsPassOf, IsFree, IsSamePass};

use crate::adding::add;
use crate::counter::Counter;
use sb_turn::{Pass, Turn};
use std::alloc::{AllocError, Global};
use std::sync::Wait;
use std::thread::{Threads, join};

/// Pass 1 adds 3 and splits off another. Each adds 4, in a thread of its own. The passes are
/// joined.
pub fn counted_by_two<R: Threads + Wait + Sync>(
    rt: &R,
    alloc: Global,
) -> Result<(Turn<Counter>, Pass<Counter>), AllocError>
    ensures pass { IfOk result (λ r. IsPassOf r.0 r.1 × IsFree r.1) }
    ensures mine { IfOk result (λ r. mine r.1 ≡ (1, 4) ∷ (1, 3) ∷ []) }
    ensures joined { IfOk result (λ r. (n : ℕ) × (1 < n) × (joined r.1 ≡ (n, (n, 4) ∷ []) ∷ [])) }
    ensures three { IfOk result (λ r. length (seen r.1) ≡ 3) }
    ensures first { IfOk result (λ r. IsPast ((1, 3) ∷ []) (seen r.1)) }
{
    let (turn, mut one) = Turn::new(alloc, Counter { count: 0 })?;
    add(rt, &turn, &mut one, 3);
    let two = turn.split(rt, &mut one);
    let lock = &turn;
    let (mut one, two) = join(
        rt,
        || -> Pass<Counter>
            requires { IsPassOf lock.now one × IsFree one }
            ensures { IsFree result × IsSamePass one result
                × (mine result ≡ (number one, 4) ∷ mine one)
                × IsPast (seen one) (seen result) }
        { added_four(rt, lock, one) },
        || -> Pass<Counter>
            requires { IsPassOf lock.now two × IsFree two }
            ensures { IsFree result × IsSamePass two result
                × (mine result ≡ (number two, 4) ∷ mine two) }
        { added_four(rt, lock, two) },
    );
    turn.join(&mut one, two);
    Ok((turn, one))
}

fn added_four<R: Wait>(rt: &R, turn: &Turn<Counter>, mut pass: Pass<Counter>) -> Pass<Counter>
    requires { IsPassOf turn.now pass × IsFree pass }
    ensures pass { IsFree result × IsSamePass pass result }
    ensures mine { mine result ≡ (number pass, 4) ∷ mine pass }
    ensures seen { IsPast (seen pass) (seen result) }
{
    add(rt, turn, &mut pass, 4);
    pass
}
