//! The counter.
ghost use Rattle.std.specs.Prelude.{◌≡◌, ◌%◌, ◌^◌, []};
ghost use Rattle.test_turns.specs.Amounts.{total_added};

use sb_turn::Stands;

/// A counter that stands for the amounts added to it. It wraps at 2^64.
#[derive(Drop)]
pub struct Counter {
    pub count: u64,
}

impl Stands for Counter {
    type Entry = u64;

    type Base = ();

    ghost stands = { λ c history. c.count ≡ total_added history % 2 ^ 64 };

    ghost opening = { λ c. [] };

    ghost base = { λ c. tt };
}
