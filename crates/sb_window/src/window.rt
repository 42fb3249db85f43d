//! When a put may begin, and which digest a GET has to show.

ghost use Rattle.std.specs.Prelude.{◌≡◌, ◌≢◌, ◌≤◌, ◌^◌, Option, Some, IfOk, IsTrue};
ghost use Rattle.std.specs.FinMap as map;
ghost use Rattle.sb_base.specs.Shapes.{IsSound};
ghost use Rattle.sb_base.specs.SettingsTable.{IsChecked};
ghost use Rattle.sb_window.specs.declared.window.PutWhen.TheVariants.{Now};
ghost use Rattle.sb_window.specs.LastPuts.{EndBy, end_of};
ghost use Rattle.sb_window.specs.Windows.{
  new_window,
  put_when,
  when_new,
  when_after,
  begun,
  ended,
  purged,
  is_open,
  expected,
};

use crate::last_put::{Ending, LastPut};
use crate::table::PutTable;
use sb_base::{Digest, Expect, Geometry, Settings};
use std::alloc::{AllocError, Global};
use std::marker::Model;

/// When a put of a block may begin.
#[derive(Drop, Clone, Copy, PartialEq, Eq, Debug)]
pub enum PutWhen {
    Now,
    /// Once an open put ended: that of the block, or one that has the room.
    Busy,
    /// Once the spacing since the end of the block's last put is over, at this reading.
    At(u64),
    /// Once there is room, at this reading.
    Full(u64),
}

/// The last puts of a disk's blocks: each one at least until `md5_time` after its end, and at most `md5_size` of them.
/// A window of size 0 is off.
#[derive(Drop)]
pub struct Window {
    min_write_delay: u32,
    md5_time: u32,
    /// The greatest reading that a change was given.
    reading: u64,
    table: PutTable,
}

impl Model for Window {
    ghost use Rattle.sb_window.specs.Windows.{WindowState, window_code, window_of, IsWindow};

    ghost Value = { WindowState };

    ghost coded = { window_code };

    ghost view = { λ w. window_of w.min_write_delay w.md5_time w.reading w.table };

    ghost invariant = { λ w. IsWindow w.reading w.table };
}

impl Window {
    /// A window without puts. It takes the memory of all that it will have, and no other call takes any.
    pub fn new(
        alloc: Global,
        geometry: &Geometry,
        settings: &Settings,
    ) -> Result<Window, AllocError>
        requires sound { IsSound geometry.now }
        requires checked { IsChecked settings.now (Some geometry.now.blocks) }
        ensures { IfOk result (λ window. window ≡ new_window settings.now) }
    {
        Ok(Window {
            min_write_delay: settings.min_write_delay,
            md5_time: settings.md5_time,
            reading: 0,
            table: PutTable::with_room(alloc, settings.md5_size)?,
        })
    }

    /// When a put of the block may begin.
    ///
    /// `Busy` where its last put is open. `At` where that ended, ok or not, less than `min_write_delay` ago. Where it
    /// has none, and those that are kept leave no room: `Full`, with the reading at which the first of these is past
    /// its time, or `Busy` where none of them has ended. `Now` in each other case, and where the window is off.
    pub fn may_put(&self, block: u32, now: u64) -> PutWhen
        requires reading { self.now.reading ≤ now }
        requires limit { now ≤ 2 ^ 62 }
        ensures { result ≡ put_when self.now block now }
    {
        if self.table.room() == 0 {
            return PutWhen::Now;
        }
        match self.table.get(block) {
            None => self.when_new(now),
            Some(put) => self.when_after(put.ending, now),
        }
    }

    /// When a put may begin of a block that has none.
    fn when_new(&self, now: u64) -> PutWhen
        ensures { result ≡ when_new self.now now }
    {
        if self.table.len() < self.table.room() as usize {
            return PutWhen::Now;
        }
        let Some(end) = self.table.earliest_end() else {
            return PutWhen::Busy;
        };
        let until = end + self.md5_time as u64;
        if self.md5_time != 0 && until <= now {
            PutWhen::Now
        } else {
            PutWhen::Full(until)
        }
    }

    /// When a put may begin of a block whose last put has this ending.
    fn when_after(&self, ending: Option<Ending>, now: u64) -> PutWhen
        requires ended { EndBy now (end_of ending) }
        requires limit { now ≤ 2 ^ 62 }
        ensures { result ≡ when_after self.now now ending }
    {
        match ending {
            None => PutWhen::Busy,
            Some(ending) => {
                let until = ending.reading + self.min_write_delay as u64;
                if now < until {
                    PutWhen::At(until)
                } else {
                    PutWhen::Now
                }
            }
        }
    }

    /// A put of the block begins.
    pub fn begin_put(&mut self, block: u32, now: u64)
        requires reading { self.old.reading ≤ now }
        requires limit { now ≤ 2 ^ 62 }
        requires ready { put_when self.old block now ≡ Now }
        ensures begun { self.new ≡ begun self.old block now }
        ensures open { self.new.md5_size ≢ 0 → IsTrue (is_open (map.get self.new.puts block)) }
        ensures fits { map.len self.new.puts ≤ self.new.md5_size }
    {
        self.reading = now;
        self.table.purge(self.md5_time, now);
        if self.table.room() != 0 {
            let ending = None;
            self.table.set(block, LastPut { ending });
        }
    }

    /// The put of the block ends, ok or not, with a content of this MD5. An entry is kept as long after a failed end as after an ok one.
    pub fn end_put(&mut self, block: u32, now: u64, ok: bool, digest: Digest)
        requires reading { self.old.reading ≤ now }
        requires limit { now ≤ 2 ^ 62 }
        requires open { self.old.md5_size ≢ 0 → IsTrue (is_open (map.get self.old.puts block)) }
        ensures { self.new ≡ ended self.old block now ok digest }
    {
        self.reading = now;
        if let Some(_put) = self.table.get(block) {
            let ending = Some(Ending {
                reading: now,
                ok,
                digest,
            });
            self.table.set(block, LastPut { ending });
        }
    }

    /// The digest that a GET of the block has to show, and since when: that of its last put, where that ended ok, less
    /// than `md5_time` ago, or that is 0.
    pub fn expected(&self, block: u32, now: u64) -> Option<Expect>
        requires reading { self.now.reading ≤ now }
        requires limit { now ≤ 2 ^ 62 }
        ensures { result ≡ expected self.now block now }
    {
        let put = self.table.get(block)?;
        match put.ending {
            Some(ending) if ending.ok && put.is_kept(self.md5_time, now) => {
                let digest = ending.digest;
                Some(Expect {
                    digest,
                    since: ending.reading,
                })
            }
            _ => None,
        }
    }

    /// Gives up the puts that are past their time.
    pub fn purge(&mut self, now: u64)
        requires reading { self.old.reading ≤ now }
        requires limit { now ≤ 2 ^ 62 }
        ensures { self.new ≡ purged self.old now }
    {
        self.reading = now;
        self.table.purge(self.md5_time, now);
    }
}
