//! Bytes as only clauses read them.

ghost use Rattle.std.specs.Prelude.{◌≡◌};
ghost use Rattle.sb_log.specs.Shown.{bytes_in};

use std::snapshot::Snapshot;

/// Bytes, the last first, of which only clauses read those behind.
#[derive(Drop)]
pub(crate) enum Bytes {
    End,
    More(u8, Snapshot<Bytes>),
}

/// Shows bytes to clauses.
pub(crate) fn show(bytes: &[u8]) -> Snapshot<Bytes>
    ensures { bytes_in result.value ≡ bytes.now }
{
    let mut shown = Bytes::End;
    for byte in bytes {
        shown = Bytes::More(*byte, Snapshot::of(&shown));
    }
    Snapshot::of(&shown)
}
