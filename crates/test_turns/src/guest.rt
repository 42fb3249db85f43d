//! Passes that come and go at any lock, and make no entry.
ghost use Rattle.std.specs.Prelude.{◌≡◌};
ghost use Rattle.sb_turn.specs.Histories.{IsPast};
ghost use Rattle.sb_turn.specs.Passes.{seen, mine, IsPassOf, IsFree, IsSamePass};

use sb_turn::{Pass, Stands, Turn};
use std::sync::Wait;
use std::thread::{Threads, join};

/// Enters, and leaves without an entry.
fn visit<S: Stands, R: Wait>(rt: &R, turn: &Turn<S>, mut pass: Pass<S>) -> Pass<S>
    requires { IsPassOf turn.now pass × IsFree pass }
    ensures pass { IsFree result × IsSamePass pass result }
    ensures mine { mine result ≡ mine pass }
    ensures seen { IsPast (seen pass) (seen result) }
{
    let held = turn.enter(rt, &mut pass);
    turn.leave_without_entry(held, &mut pass);
    pass
}

/// Two visits, each in a thread of its own.
pub fn both_visit<S: Stands + Send, R: Threads + Wait + Sync>(
    rt: &R,
    turn: &Turn<S>,
    one: Pass<S>,
    two: Pass<S>,
) -> (Pass<S>, Pass<S>)
    requires one { IsPassOf turn.now one × IsFree one }
    requires two { IsPassOf turn.now two × IsFree two }
    ensures one { IsFree result.0 × IsSamePass one result.0 × (mine result.0 ≡ mine one) }
    ensures two { IsFree result.1 × IsSamePass two result.1 × (mine result.1 ≡ mine two) }
{
    join(
        rt,
        || -> Pass<S>
            requires { IsPassOf turn.now one × IsFree one }
            ensures { IsFree result × IsSamePass one result × (mine result ≡ mine one) }
        { visit(rt, turn, one) },
        || -> Pass<S>
            requires { IsPassOf turn.now two × IsFree two }
            ensures { IsFree result × IsSamePass two result × (mine result ≡ mine two) }
        { visit(rt, turn, two) },
    )
}
