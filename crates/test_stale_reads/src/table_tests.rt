//! Tables of random calls over random versions.

use crate::tests::{SETTINGS, is_within};
use crate::{Ended, Showing, Tally, fail_as_planned, play};
use sb_base::Settings;
use std::alloc::{AllocError, Global};
use std::test::Fail;

/// A cache of so many blocks, of which so many may be dirty, and a window of so many entries.
fn sized(cache_size: u32, max_dirty: u32, entries: u32) -> Settings {
    Settings {
        cache_size,
        max_dirty,
        md5_size: entries,
        ..SETTINGS
    }
}

/// A play of random calls.
fn played(alloc: Global, seed: u64, settings: Settings, showing: Showing) -> Result<Ended, Fail> {
    settings.check(Some(4))?;
    Ok(play(alloc, seed, settings, showing)?)
}

/// What came up in a play, and whether just the requests failed that were to fail.
fn tally(ended: &Ended) -> Result<(Tally, bool), AllocError> {
    match ended.tape.entries() {
        Some(entries) => Ok((Tally::of(entries), fail_as_planned(entries, &ended.planned))),
        None => Err(AllocError),
    }
}

// A store that is stale for 400 ms, which the spacing of 500 ms and the window of 10 s cover.
#[test]
fn reads_are_right_within_a_covered_delay(rt: HostRuntime) -> Result<(), Fail> {
    for (seed, entries) in [(1, 2), (2, 3), (3, 2), (4, 3)] {
        let ended = played(rt.alloc(), seed, sized(1, 0, entries), Showing::Within(400))?;
        let counts = ended.counts;
        let (tally, planned) = tally(&ended)?;
        assert_eq!(rt;
            (counts.wrong, counts.stale, counts.other),
            (0, 0, 0),
            "seed {seed}"
        );
        assert_eq!(rt;
            (counts.failed, planned),
            (tally.failed, true),
            "seed {seed}"
        );
        assert!(rt; counts.right > 0 && tally.refused > 0, "seed {seed}");
        assert!(rt;
            tally.failed_puts > 0 && tally.spaced > 0 && tally.full > 0,
            "seed {seed}"
        );
        let start = ended.start.bytes();
        assert!(rt;
            is_within(rt.alloc(), start, 400, &ended.tape)?,
            "seed {seed}"
        );
        assert!(rt;
            !is_within(rt.alloc(), start, 0, &ended.tape)?,
            "seed {seed}"
        );
    }
    Ok(())
}

// A store that may show any version.
#[test]
fn reads_beyond_the_delay_are_faults_or_outside_the_premise(rt: HostRuntime) -> Result<(), Fail> {
    for (seed, entries) in [(5, 2), (6, 3), (7, 2), (8, 3)] {
        let ended = played(rt.alloc(), seed, sized(1, 0, entries), Showing::Any)?;
        let counts = ended.counts;
        let (tally, planned) = tally(&ended)?;
        assert_eq!(rt;
            (counts.wrong_within, counts.other, planned),
            (0, 0, true),
            "seed {seed}"
        );
        assert_eq!(rt; counts.failed, tally.failed, "seed {seed}");
        assert!(rt;
            counts.right > 0 && counts.wrong > 0 && counts.stale > 0,
            "seed {seed}"
        );
    }
    Ok(())
}

/// Caches of several blocks, of which so many may be dirty, with windows of several entries.
const CACHES: [(u64, u32, u32, u32); 8] = [
    (9, 2, 0, 3),
    (10, 2, 1, 1),
    (11, 2, 2, 2),
    (12, 3, 0, 2),
    (13, 3, 1, 3),
    (14, 3, 2, 2),
    (15, 16, 1, 2),
    (16, 16, 0, 1),
];

// A store that is stale for 400 ms, under caches of several blocks.
#[test]
fn larger_caches_read_right_within_a_covered_delay(rt: HostRuntime) -> Result<(), Fail> {
    let mut refused: u64 = 0;
    for (seed, cache_size, max_dirty, entries) in CACHES {
        let settings = sized(cache_size, max_dirty, entries);
        let ended = played(rt.alloc(), seed, settings, Showing::Within(400))?;
        let counts = ended.counts;
        let (tally, planned) = tally(&ended)?;
        assert_eq!(rt;
            (counts.wrong, counts.stale, counts.other),
            (0, 0, 0),
            "seed {seed}"
        );
        assert_eq!(rt;
            (counts.failed, planned),
            (tally.failed, true),
            "seed {seed}"
        );
        assert!(rt; counts.right > 0 && tally.failed > 0, "seed {seed}");
        refused = refused.saturating_add(tally.refused);
        let start = ended.start.bytes();
        assert!(rt;
            is_within(rt.alloc(), start, 400, &ended.tape)?,
            "seed {seed}"
        );
    }
    assert!(rt; refused > 0);
    Ok(())
}

// A store that may show any version, under caches of several blocks.
#[test]
fn larger_caches_beyond_the_delay_are_faults_or_outside_the_premise(
    rt: HostRuntime,
) -> Result<(), Fail> {
    let mut beyond: u64 = 0;
    for (seed, cache_size, max_dirty, entries) in CACHES {
        let settings = sized(cache_size, max_dirty, entries);
        let ended = played(rt.alloc(), seed, settings, Showing::Any)?;
        let counts = ended.counts;
        let (tally, planned) = tally(&ended)?;
        assert_eq!(rt;
            (counts.wrong_within, counts.other, planned),
            (0, 0, true),
            "seed {seed}"
        );
        assert_eq!(rt; counts.failed, tally.failed, "seed {seed}");
        assert!(rt; counts.right > 0, "seed {seed}");
        beyond = beyond
            .saturating_add(counts.wrong)
            .saturating_add(counts.stale);
    }
    assert!(rt; beyond > 0);
    Ok(())
}
