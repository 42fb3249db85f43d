//! The last puts of some blocks, in a vector ordered by block.

ghost use Rattle.std.specs.Prelude.{◌≡◌, ◌≤◌, IfOk};
ghost use Rattle.std.specs.FinMap as map;
ghost use Rattle.sb_window.specs.LastPuts.{earlier, earliest_end, kept_puts};

use crate::last_put::LastPut;
use sb_rows::place_of;
use std::alloc::{AllocError, Global};
use std::marker::Model;

/// The last puts of at most `room` blocks. Contracts see the room and a finite map from blocks to their last puts.
#[derive(Drop)]
pub struct PutTable {
    room: u32,
    /// Their blocks rise.
    rows: Vec<(u32, LastPut)>,
}

impl Model for PutTable {
    ghost use Rattle.std.specs.FinMap as map;
    ghost use Rattle.std.specs.Vec.{vec_capacity};
    ghost use Rattle.std.specs.Prelude.{◌≤◌};
    ghost use Rattle.sb_window.specs.Tables.{Table, table_code, IsTable};

    ghost Value = { Table };

    ghost coded = { table_code };

    ghost view = { λ t. record { room = t.room; puts = map.from_sorted t.rows.items } };

    ghost invariant = { λ t. IsTable t.room t.rows.items × (t.room ≤ vec_capacity t.rows) };
}

impl PutTable {
    /// A table without puts. It takes the memory of all.
    pub fn with_room(alloc: Global, room: u32) -> Result<PutTable, AllocError>
        ensures { IfOk result (λ table. table ≡ record { room = room; puts = map.empty }) }
    {
        Ok(PutTable {
            room,
            rows: Vec::with_capacity(alloc, room as usize)?,
        })
    }

    /// For how many blocks there is room.
    pub fn room(&self) -> u32
        ensures { result ≡ self.now.room }
    {
        self.room
    }

    /// How many blocks have a put.
    pub fn len(&self) -> usize
        ensures { result ≡ map.len self.now.puts }
    {
        self.rows.len()
    }

    /// The last put of a block.
    pub fn get(&self, block: u32) -> Option<LastPut>
        ensures { result ≡ map.get self.now.puts block }
    {
        match place_of(&self.rows, block) {
            Ok(place) => Some(self.rows[place].1),
            Err(_) => None,
        }
    }

    /// Sets the last put of a block.
    pub fn set(&mut self, block: u32, put: LastPut)
        requires fits { map.len (map.insert self.old.puts block put) ≤ self.old.room }
        ensures { self.new ≡ record { room = self.old.room; puts = map.insert self.old.puts block put } }
    {
        match place_of(&self.rows, block) {
            Ok(place) => self.rows[place] = (block, put),
            Err(place) => match self.rows.insert(place, (block, put)) {
                Ok(()) => {}
                Err(_full) => unreachable!(),
            },
        }
    }

    /// Gives up the puts that are past their time.
    pub fn purge(&mut self, md5_time: u32, now: u64)
        ensures { self.new ≡ record { room = self.old.room; puts = kept_puts md5_time now self.old.puts } }
    {
        self.rows.retain(|row| row.1.is_kept(md5_time, now));
    }

    /// When the first of the puts ended, if any did.
    pub fn earliest_end(&self) -> Option<u64>
        ensures { result ≡ earliest_end (map.entries self.now.puts) }
    {
        earliest_end(&self.rows)
    }
}

/// When the first of some puts ended, if any did.
fn earliest_end(rows: &[(u32, LastPut)]) -> Option<u64>
    ensures { result ≡ earliest_end rows.now }
{
    let mut earliest = None;
    for row in rows {
        let end = row.1.ending.map(|ending| ending.reading);
        earliest = earlier(earliest, end);
    }
    earliest
}

/// The earlier of two ends, where there are two.
fn earlier(end: Option<u64>, other: Option<u64>) -> Option<u64>
    ensures { result ≡ earlier end other }
{
    match (end, other) {
        (Some(end), Some(other)) => Some(end.min(other)),
        (None, end) | (end, None) => end,
    }
}
