//! Random calls of a disk over a store whose GETs show random versions.

ghost use Rattle.std.specs.Prelude.{◌≡◌, Some};
ghost use Rattle.sb_base.specs.SettingsTable.{IsChecked};
ghost use Rattle.sb_core.specs.Cores.{geometry_of};
ghost use Rattle.sb_crew.specs.Disks.{core_of, IsReadyWith};
ghost use Rattle.test_stale_reads.specs.declared.disks.TheConstants.{GEOMETRY};

use crate::choices::{Showing, choose_all, shows_for};
use crate::disks::{BLOCK, desk_over, disk_with};
use crate::draws::Draws;
use crate::image::Image;
use crate::shared::SharedTape;
use crate::stores::{store_of, to_fail};
use crate::tally::count;
use sb_base::Settings;
use sb_crew::{Alone, CallFault, Calls, Desk};
use sb_fakes::{HandClock, RecordTape, TimedStore};
use sb_staleness::{Delays, is_stale_within};
use sb_world::Clock;
use std::alloc::{AllocError, Global};
use std::cell::RefCell;

/// How many calls are made.
const CALLS: u32 = 200;

/// The pauses between calls, in milliseconds.
const PAUSES: [u64; 8] = [0, 0, 50, 150, 300, 600, 2500, 12_000];

/// What the calls answered.
#[derive(Drop, Clone, Copy, PartialEq, Eq, Debug)]
pub struct Counts {
    /// Reads of the bytes that were last written.
    pub right: u64,
    /// Reads of other bytes.
    pub wrong: u64,
    /// Those among them after which the store was still stale only within the delays that the settings cover.
    pub wrong_within: u64,
    /// Calls that failed with status 503.
    pub failed: u64,
    /// Reads and writes that a stale GET ended.
    pub stale: u64,
    /// Calls that failed in another way.
    pub other: u64,
}

/// What was played.
#[derive(Drop)]
pub struct Ended {
    pub counts: Counts,
    /// What the disk began with.
    pub start: Image,
    /// The numbers of the requests that were to fail.
    pub planned: Vec<u64>,
    pub tape: RecordTape,
}

/// What makes random calls, beside the bytes that the disk is to have.
#[derive(Drop)]
struct Player<'a> {
    draws: Draws,
    showing: Showing,
    /// How many blocks the cache has room for.
    cache_size: u32,
    /// The delays that the settings cover.
    covered: Delays,
    /// What the disk began with, and what it is to have.
    start: Image,
    image: Image,
    counts: Counts,
    tape: &'a RefCell<RecordTape>,
}

/// Whether the store was stale only within these delays, on a tape of a disk that began so.
fn is_within(
    alloc: Global,
    start: &Image,
    delays: Delays,
    tape: &RefCell<RecordTape>,
) -> Result<bool, AllocError> {
    match tape.try_borrow() {
        Ok(tape) => match tape.entries() {
            Some(entries) => is_stale_within(alloc, BLOCK, start.bytes(), delays, entries),
            None => Err(AllocError),
        },
        Err(_) => Err(AllocError),
    }
}

impl Counts {
    /// No call yet.
    fn new() -> Counts {
        Counts {
            right: 0,
            wrong: 0,
            wrong_within: 0,
            failed: 0,
            stale: 0,
            other: 0,
        }
    }

    /// Counts a call that failed.
    fn add(&mut self, fault: CallFault) {
        match fault {
            CallFault::StoreFault { status: 503 } => count(&mut self.failed),
            CallFault::StaleRead { .. } => count(&mut self.stale),
            _ => count(&mut self.other),
        }
    }
}

impl<'a> Player<'a> {
    /// Lets a random time pass.
    fn pause(&mut self, clock: &mut HandClock) {
        let place = self.draws.place(PAUSES.len());
        clock.pause(PAUSES[place]);
    }

    /// Chooses what the next GETs show, which are of a block.
    fn choose(
        &mut self,
        alloc: Global,
        link: &mut TimedStore,
        clock: &mut HandClock,
        block: u32,
    ) -> Result<(), AllocError> {
        let now = clock.now();
        let shows = match self.tape.try_borrow() {
            Ok(tape) => match tape.entries() {
                Some(entries) => {
                    shows_for(
                        alloc,
                        &mut self.draws,
                        self.showing,
                        entries,
                        self.cache_size,
                        block,
                        now,
                    )?
                }
                None => return Err(AllocError),
            },
            Err(_) => return Err(AllocError),
        };
        choose_all(link, &shows)
    }

    /// Writes a part.
    fn write(
        &mut self,
        alloc: Global,
        disk: &mut Alone<SharedTape<'a>>,
        desk: &mut Desk<TimedStore, HandClock>,
    ) -> Result<(), AllocError>
        requires ready { IsReadyWith disk.old desk.old }
        requires shape { geometry_of (core_of disk.old) ≡ GEOMETRY }
        ensures ready { IsReadyWith disk.new desk.new }
        ensures shape { geometry_of (core_of disk.new) ≡ GEOMETRY }
    {
        let part = self.draws.part();
        self.choose(alloc, &mut desk.link, &mut desk.clock, part.block)?;
        let mut room = [0; 512];
        let bytes = &mut room[..part.length as usize];
        self.draws.fill(bytes);
        match disk.write(desk, part, bytes) {
            Ok(()) => self.image.set(part, bytes),
            Err(fault) => self.counts.add(fault),
        }
        Ok(())
    }

    /// Writes zeros to a part.
    fn zero(
        &mut self,
        alloc: Global,
        disk: &mut Alone<SharedTape<'a>>,
        desk: &mut Desk<TimedStore, HandClock>,
    ) -> Result<(), AllocError>
        requires ready { IsReadyWith disk.old desk.old }
        requires shape { geometry_of (core_of disk.old) ≡ GEOMETRY }
        ensures ready { IsReadyWith disk.new desk.new }
        ensures shape { geometry_of (core_of disk.new) ≡ GEOMETRY }
    {
        let part = self.draws.part();
        self.choose(alloc, &mut desk.link, &mut desk.clock, part.block)?;
        match disk.zero(desk, part) {
            Ok(()) => self.image.set(part, &[0; 512][..part.length as usize]),
            Err(fault) => self.counts.add(fault),
        }
        Ok(())
    }

    /// Reads a part.
    fn read(
        &mut self,
        alloc: Global,
        disk: &mut Alone<SharedTape<'a>>,
        desk: &mut Desk<TimedStore, HandClock>,
    ) -> Result<(), AllocError>
        requires ready { IsReadyWith disk.old desk.old }
        requires shape { geometry_of (core_of disk.old) ≡ GEOMETRY }
        ensures ready { IsReadyWith disk.new desk.new }
        ensures shape { geometry_of (core_of disk.new) ≡ GEOMETRY }
    {
        let part = self.draws.part();
        self.choose(alloc, &mut desk.link, &mut desk.clock, part.block)?;
        let mut room = [0; 512];
        let out = &mut room[..part.length as usize];
        match disk.read(desk, part, out) {
            Ok(()) if self.image.has(part, out) => count(&mut self.counts.right),
            Ok(()) => self.count_wrong(alloc)?,
            Err(fault) => self.counts.add(fault),
        }
        Ok(())
    }

    /// Counts a read of other bytes than those that were last written.
    fn count_wrong(&mut self, alloc: Global) -> Result<(), AllocError> {
        count(&mut self.counts.wrong);
        if is_within(alloc, &self.start, self.covered, self.tape)? {
            count(&mut self.counts.wrong_within);
        }
        Ok(())
    }

    /// Flushes.
    fn flush(&mut self, disk: &mut Alone<SharedTape<'a>>, desk: &mut Desk<TimedStore, HandClock>)
        requires ready { IsReadyWith disk.old desk.old }
        requires shape { geometry_of (core_of disk.old) ≡ GEOMETRY }
        ensures ready { IsReadyWith disk.new desk.new }
        ensures shape { geometry_of (core_of disk.new) ≡ GEOMETRY }
    {
        if let Err(fault) = disk.flush(desk) {
            self.counts.add(CallFault::from(fault));
        }
    }

    /// Makes a call.
    fn call(
        &mut self,
        alloc: Global,
        disk: &mut Alone<SharedTape<'a>>,
        desk: &mut Desk<TimedStore, HandClock>,
    ) -> Result<(), AllocError>
        requires ready { IsReadyWith disk.old desk.old }
        requires shape { geometry_of (core_of disk.old) ≡ GEOMETRY }
        ensures ready { IsReadyWith disk.new desk.new }
        ensures shape { geometry_of (core_of disk.new) ≡ GEOMETRY }
    {
        match self.draws.below(9) {
            0 | 1 | 2 => self.write(alloc, disk, desk),
            3 => self.zero(alloc, disk, desk),
            4 | 5 | 6 => self.read(alloc, disk, desk),
            _ => {
                self.flush(disk, desk);
                Ok(())
            }
        }
    }

    /// Makes all calls.
    fn calls(
        &mut self,
        alloc: Global,
        disk: &mut Alone<SharedTape<'a>>,
        desk: &mut Desk<TimedStore, HandClock>,
    ) -> Result<(), AllocError>
        requires ready { IsReadyWith disk.old desk.old }
        requires shape { geometry_of (core_of disk.old) ≡ GEOMETRY }
    {
        for _call in 0..CALLS {
            self.pause(&mut desk.clock);
            self.call(alloc, disk, desk)?;
        }
        Ok(())
    }

    /// What the calls answered of a disk with these settings over a store.
    fn played(
        mut self,
        alloc: Global,
        settings: Settings,
        store: TimedStore,
    ) -> Result<Counts, AllocError>
        requires checked { IsChecked settings (Some 4) }
    {
        let mut desk = desk_over(alloc, store, HandClock::new(alloc, 1000, 0, false))?;
        let mut disk = disk_with(alloc, settings, SharedTape { kept: self.tape })?;
        let called = self.calls(alloc, &mut disk, &mut desk);
        disk.finish();
        called?;
        Ok(self.counts)
    }
}

/// Plays random calls, some of whose requests fail, on a disk with these settings.
pub fn play(
    alloc: Global,
    seed: u64,
    settings: Settings,
    showing: Showing,
) -> Result<Ended, AllocError>
    requires checked { IsChecked settings (Some 4) }
{
    let mut draws = Draws::new(seed);
    let start = Image::drawn(alloc, &mut draws)?;
    let planned = to_fail(alloc, &mut draws)?;
    let store = store_of(alloc, &start, planned.to_vec(alloc)?)?;
    let tape = RefCell::new(RecordTape::new(alloc));
    let player = Player {
        draws,
        showing,
        cache_size: settings.cache_size,
        covered: Delays {
            order: u64::from(settings.min_write_delay),
            show: u64::from(settings.md5_time),
        },
        start: start.copy(alloc)?,
        image: start.copy(alloc)?,
        counts: Counts::new(),
        tape: &tape,
    };
    let counts = player.played(alloc, settings, store)?;
    Ok(Ended {
        counts,
        start,
        planned,
        tape: tape.into_inner(),
    })
}
