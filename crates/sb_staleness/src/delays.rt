//! The delays of a store.

ghost use Rattle.std.specs.Prelude.{◌≡◌, ◌+◌, nat_le};

/// How long a store may reorder puts, and how long it may show an old version, in milliseconds.
#[derive(Drop, Clone, Copy, PartialEq, Eq, Debug)]
pub struct Delays {
    pub order: u64,
    pub show: u64,
}

/// At a reading, the delay since another one is over.
pub(crate) fn is_over(delay: u64, since: u64, reading: u64) -> bool
    ensures { result ≡ nat_le (since + delay) reading }
{
    since <= reading && delay <= reading - since
}
