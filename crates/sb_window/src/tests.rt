//! What no clause says: that memory is found, and values from outside.

ghost use Rattle.std.specs.Prelude.{◌≡◌, ◌≤◌, ◌^◌, IfOk};

use crate::{PutWhen, Window};
use sb_base::{Expect, Geometry, Settings};
use std::alloc::Global;
use std::test::Fail;

const SETTINGS: Settings = Settings {
    min_write_delay: 500,
    md5_time: 10_000,
    md5_size: 10_000,
    cache_size: 1000,
    write_delay: 250,
    clean_time: 0,
    max_dirty: 0,
    stale_limit: 5000,
    read_ahead: 4,
    read_ahead_trigger: 2,
    threads: 20,
    clients: 4,
};

/// The latest reading.
const LAST: u64 = 1 << 62;

/// The window of a disk of this size, in blocks of 4,096 bytes.
fn window_of(alloc: Global, size: u64, settings: &Settings) -> Result<Window, Fail>
    ensures { IfOk result (λ window. window.reading ≡ 0) }
{
    let geometry = Geometry::make(size, 4096)?;
    settings.check(Some(geometry.blocks))?;
    Ok(Window::new(alloc, &geometry, settings)?)
}

/// A put that begins, where it may.
fn begins(window: &mut Window, block: u8, now: u64) -> bool
    requires reading { window.old.reading ≤ now }
    requires limit { now ≤ 2 ^ 62 }
    ensures { window.new.reading ≤ now }
{
    let may = window.may_put(block as u32, now) == PutWhen::Now;
    if may {
        window.begin_put(block as u32, now);
    }
    may
}

/// A put that begins, where it may, and ends later.
fn puts(window: &mut Window, block: u8, begin: u64, end: u64, ok: bool) -> bool
    requires reading { window.old.reading ≤ begin }
    requires order { begin ≤ end }
    requires limit { end ≤ 2 ^ 62 }
    ensures { window.new.reading ≤ end }
{
    let may = window.may_put(block as u32, begin) == PutWhen::Now;
    if may {
        window.begin_put(block as u32, begin);
        window.end_put(block as u32, end, ok, [block; 16]);
    }
    may
}

/// What a GET has to show after such a put.
fn shows(block: u8, since: u64) -> Option<Expect> {
    Some(Expect {
        digest: [block; 16],
        since,
    })
}

#[test]
fn puts_of_a_block_are_spaced_from_an_end(rt: HostRuntime) -> Result<(), Fail> {
    let mut window = window_of(rt.alloc(), 65_536, &SETTINGS)?;
    assert!(rt; puts(&mut window, 5, 800, 1000, true));
    assert_eq!(rt; window.may_put(5, 1499), PutWhen::At(1500));
    assert_eq!(rt; window.may_put(5, 1500), PutWhen::Now);
    assert_eq!(rt; window.may_put(6, 1499), PutWhen::Now);
    assert!(rt; puts(&mut window, 5, 1500, 1600, false));
    assert_eq!(rt; window.may_put(5, 2099), PutWhen::At(2100));
    assert_eq!(rt; window.may_put(5, 2100), PutWhen::Now);
    Ok(())
}

#[test]
fn a_put_is_shown_until_it_is_past_its_time(rt: HostRuntime) -> Result<(), Fail> {
    let mut window = window_of(rt.alloc(), 65_536, &SETTINGS)?;
    assert!(rt; puts(&mut window, 5, 800, 1000, true));
    assert_eq!(rt; window.expected(5, 1000), shows(5, 1000));
    assert_eq!(rt; window.expected(5, 10_999), shows(5, 1000));
    assert_eq!(rt; window.expected(5, 11_000), None);
    assert_eq!(rt; window.expected(6, 1000), None);
    window.purge(10_999);
    assert_eq!(rt; window.expected(5, 10_999), shows(5, 1000));
    window.purge(11_000);
    assert_eq!(rt; window.expected(5, 11_000), None);
    Ok(())
}

#[test]
fn a_failed_or_open_put_is_not_shown(rt: HostRuntime) -> Result<(), Fail> {
    let mut window = window_of(rt.alloc(), 65_536, &SETTINGS)?;
    assert!(rt; puts(&mut window, 5, 800, 1000, true));
    assert!(rt; begins(&mut window, 5, 1500));
    assert_eq!(rt; window.expected(5, 1500), None);
    assert_eq!(rt; window.may_put(5, 1500), PutWhen::Busy);
    assert!(rt; puts(&mut window, 6, 1500, 1600, false));
    assert_eq!(rt; window.expected(6, 1600), None);
    Ok(())
}

#[test]
fn a_window_of_one_entry_serves_two_blocks_in_turn(rt: HostRuntime) -> Result<(), Fail> {
    let one = Settings {
        md5_size: 1,
        ..SETTINGS
    };
    let mut window = window_of(rt.alloc(), 65_536, &one)?;
    assert!(rt; puts(&mut window, 0, 1000, 1000, true));
    assert_eq!(rt; window.may_put(1, 1000), PutWhen::Full(11_000));
    assert_eq!(rt; window.may_put(1, 10_999), PutWhen::Full(11_000));
    assert!(rt; begins(&mut window, 1, 11_000));
    assert_eq!(rt; window.expected(0, 11_000), None);
    assert_eq!(rt; window.may_put(0, 11_000), PutWhen::Busy);
    Ok(())
}

#[test]
fn a_window_that_is_off_never_waits(rt: HostRuntime) -> Result<(), Fail> {
    let off = Settings {
        min_write_delay: 0,
        md5_time: 0,
        md5_size: 0,
        ..SETTINGS
    };
    let mut window = window_of(rt.alloc(), 65_536, &off)?;
    assert!(rt; begins(&mut window, 5, 1000));
    assert!(rt; puts(&mut window, 5, 1000, 1000, true));
    assert_eq!(rt; window.may_put(5, 1000), PutWhen::Now);
    assert_eq!(rt; window.expected(5, 1000), None);
    Ok(())
}

#[test]
fn a_window_for_ever_has_room_for_each_block(rt: HostRuntime) -> Result<(), Fail> {
    let for_ever = Settings {
        md5_time: 0,
        md5_size: 2,
        ..SETTINGS
    };
    let mut window = window_of(rt.alloc(), 8192, &for_ever)?;
    assert!(rt; puts(&mut window, 1, 0, 0, true));
    assert!(rt; puts(&mut window, 0, 0, 0, true));
    assert_eq!(rt; window.expected(0, LAST), shows(0, 0));
    assert_eq!(rt; window.expected(1, LAST), shows(1, 0));
    Ok(())
}

#[test]
fn the_latest_readings_are_taken(rt: HostRuntime) -> Result<(), Fail> {
    let long = Settings {
        min_write_delay: u32::MAX,
        md5_time: u32::MAX,
        md5_size: 1,
        ..SETTINGS
    };
    let mut window = window_of(rt.alloc(), 65_536, &long)?;
    assert!(rt; puts(&mut window, 5, LAST, LAST, true));
    assert_eq!(rt;
        window.may_put(5, LAST),
        PutWhen::At(4_611_686_022_722_355_199)
    );
    assert_eq!(rt;
        window.may_put(6, LAST),
        PutWhen::Full(4_611_686_022_722_355_199)
    );
    assert_eq!(rt; window.expected(5, LAST), shows(5, LAST));
    Ok(())
}
