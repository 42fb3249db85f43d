//! A table with a slot for each block of the disk. Each search walks through all of them.

ghost use Rattle.std.specs.Prelude.{◌≡◌, ◌<◌, ◌≤◌, ◌+◌, length, is_some, IfOk, IfSome, MatchOption, Some, None, true};
ghost use Rattle.std.specs.List.{filter};
ghost use Rattle.std.specs.FinMap as map;
ghost use Rattle.sb_blocks.specs.Caches.{CacheState, new_cache, with_entry, without, count_in, after_write};
ghost use Rattle.sb_base.specs.Ranges.{IsPart};
ghost use Rattle.sb_blocks.specs.Cached.{is_dirty, passes};
ghost use Rattle.sb_blocks.specs.Orders.{FirstIs, rank_of};
ghost use Rattle.test_blocks.specs.Choices.{rank_by, better};

use crate::choice::Choice;
use crate::slot::Slot;
use crate::table::Table;
use sb_base::{Answer, Geometry, Part};
use sb_blocks::{Look, OpenGet, State, Use};
use std::alloc::{AllocError, Global};
use std::marker::Model;

/// The cached blocks of a small disk.
#[derive(Drop)]
pub struct Plain {
    alloc: Global,
    geometry: Geometry,
    room: u32,
    slots: Vec<Option<Slot>>,
}

impl Model for Plain {
    ghost use Rattle.sb_blocks.specs.Caches.{CacheState};
    ghost use Rattle.sb_blocks.specs.Tables.{cache_code};
    ghost use Rattle.test_blocks.specs.Slots.{cache_of, AreSlots};

    ghost Value = { CacheState };

    ghost coded = { cache_code };

    ghost view = { λ p. cache_of p.geometry p.room p.slots.items };

    ghost invariant = { λ p. AreSlots p.geometry p.room p.slots.items };
}

impl Plain {
    /// A table without entries.
    pub fn new(alloc: Global, geometry: &Geometry, room: u32) -> Result<Plain, AllocError>
        ensures { IfOk result (λ plain. plain ≡ new_cache geometry.now room) }
    {
        let mut slots = Vec::with_capacity(alloc, geometry.blocks as usize)?;
        for made in 0..geometry.blocks {
            slots.push(None)?;
        }
        Ok(Plain {
            alloc,
            geometry: *geometry,
            room,
            slots,
        })
    }

    /// The entry of a block.
    fn slot(&self, block: u32) -> Option<&Slot>
        ensures sized { IfSome result (λ slot. length slot.now.body ≡ self.now.geometry.block_size) }
        ensures entry { MatchOption result (map.get self.now.cached block ≡ None)
            (λ slot. map.get self.now.cached block ≡ Some slot.now) }
    {
        if block >= self.geometry.blocks {
            return None;
        }
        match &self.slots[block as usize] {
            Some(slot) => Some(slot),
            None => None,
        }
    }

    /// How many blocks have an entry.
    fn held(&self) -> usize
        ensures { result ≡ map.len self.now.cached }
    {
        count_held(&self.slots)
    }

    /// The first of the entries in a choice, with its rank.
    fn first(&self, choice: Choice) -> Option<(u64, u32)>
        ensures { FirstIs (rank_by choice) self.now.cached result }
    {
        let mut best = None;
        for block in 0..self.geometry.blocks {
            best = better(best, block, self.rank(choice, block));
        }
        best
    }

    /// The rank of a block in a choice.
    fn rank(&self, choice: Choice, block: u32) -> Option<u64>
        ensures { result ≡ rank_of (rank_by choice) block (map.get self.now.cached block) }
    {
        match self.slot(block) {
            Some(slot) => choice.rank(block, slot),
            None => None,
        }
    }

    /// Sets the entry of a block that has none.
    fn insert(&mut self, block: u32, slot: Slot)
        requires on_disk { block < self.old.geometry.blocks }
        requires sized { length slot.body ≡ self.old.geometry.block_size }
        requires missing { map.get self.old.cached block ≡ None }
        requires free { map.len self.old.cached < self.old.room }
        ensures { self.new ≡ with_entry self.old block slot }
    {
        self.slots[block as usize] = Some(slot);
    }

    /// Removes the entry of a block.
    fn remove(&mut self, block: u32)
        requires on_disk { block < self.old.geometry.blocks }
        ensures { self.new ≡ without self.old block }
    {
        self.slots[block as usize] = None;
    }

    /// Writes a part of a block that has an entry.
    fn write_held(
        &mut self,
        now: u64,
        place: u64,
        epoch: u64,
        part: Part,
        bytes: &[u8],
        known_zero: bool,
    )
        requires part { IsPart self.old.geometry part }
        requires bytes { length bytes.now ≡ part.length }
        requires held { is_some (map.get self.old.cached part.block) ≡ true }
        ensures { self.new ≡ after_write self.old known_zero now place epoch part bytes.now
            (map.get self.old.cached part.block) }
    {
        match &mut self.slots[part.block as usize] {
            Some(slot) => slot.write(now, place, epoch, part, bytes, known_zero),
            None => unreachable!(),
        }
    }

    /// Writes a part of a block that has none: a clean one of zeros is written, and kept where it isn't clean then.
    fn write_missing(
        &mut self,
        now: u64,
        place: u64,
        epoch: u64,
        part: Part,
        bytes: &[u8],
        known_zero: bool,
    ) -> Result<(), AllocError>
        requires part { IsPart self.old.geometry part }
        requires bytes { length bytes.now ≡ part.length }
        requires missing { map.get self.old.cached part.block ≡ None }
        requires free { map.len self.old.cached < self.old.room }
        ensures { IfOk result (λ _. self.new ≡ after_write self.old known_zero now place epoch part bytes.now None) }
    {
        let last = Use {
            place: 0,
            reading: 0,
        };
        let mut slot = Slot::zeros(self.alloc, self.geometry.block_size, State::Clean, last)?;
        slot.write(now, place, epoch, part, bytes, known_zero);
        if !slot.is_clean() {
            self.insert(part.block, slot);
        }
        Ok(())
    }
}

/// How many slots have an entry.
fn count_held(slots: &[Option<Slot>]) -> usize
    ensures count { result ≡ length (filter is_some slots.now) }
    ensures most { result ≤ length slots.now }
{
    let mut count = 0;
    for slot in slots {
        if slot.is_some() {
            count += 1;
        }
    }
    count
}

/// How many slots have a dirty entry.
fn count_dirty(slots: &[Option<Slot>]) -> usize
    ensures count { result ≡ length (filter (passes is_dirty) slots.now) }
    ensures most { result ≤ length slots.now }
{
    let mut count = 0;
    for slot in slots {
        if is_dirty(slot) {
            count += 1;
        }
    }
    count
}

/// The better of the best rank before a block and the block's own.
fn better(best: Option<(u64, u32)>, block: u32, rank: Option<u64>) -> Option<(u64, u32)>
    ensures { result ≡ better best block rank }
{
    match (best, rank) {
        (None, Some(rank)) => Some((rank, block)),
        (Some(best), Some(rank)) => {
            if best.0 <= rank {
                Some(best)
            } else {
                Some((rank, block))
            }
        }
        (best, None) => best,
    }
}

impl Table for Plain {
    ghost state = { λ plain. plain };

    fn look(&self, block: u32) -> Look {
        match self.slot(block) {
            Some(slot) => slot.look(),
            None => Look::Missing,
        }
    }

    fn free(&self) -> u32 {
        self.room - self.held() as u32
    }

    fn dirty(&self) -> u32 {
        // No more blocks are dirty than the disk has.
        let _blocks = self.geometry.blocks;
        count_dirty(&self.slots) as u32
    }

    fn used(&self, block: u32) -> Option<u64> {
        match self.slot(block) {
            Some(slot) => slot.used(),
            None => None,
        }
    }

    fn stamp(&self, block: u32) -> Option<u64> {
        match self.slot(block) {
            Some(slot) => slot.stamp(),
            None => None,
        }
    }

    fn victim(&self) -> Option<u32> {
        match self.first(Choice::Unused) {
            Some((_, block)) => Some(block),
            None => None,
        }
    }

    fn next_dirty(&self, after: Option<(u64, u32)>) -> Option<(u64, u32)> {
        self.first(Choice::Dirty(after))
    }

    fn lowest_writing(&self, mark: u64) -> Option<u32> {
        match self.first(Choice::Writing(mark)) {
            Some((_, block)) => Some(block),
            None => None,
        }
    }

    fn copy(&self, part: Part, out: &mut [u8]) {
        match self.slot(part.block) {
            Some(slot) => slot.copy(part, out),
            None => unreachable!(),
        }
    }

    fn touch(&mut self, now: u64, place: u64, block: u32) {
        match &mut self.slots[block as usize] {
            Some(slot) => slot.touch(now, place),
            None => unreachable!(),
        }
    }

    fn begin_read(&mut self, block: u32, get: OpenGet) -> Result<(), AllocError> {
        let last = Use {
            place: 0,
            reading: 0,
        };
        let slot = Slot::zeros(
            self.alloc,
            self.geometry.block_size,
            State::Reading { get },
            last,
        )?;
        self.insert(block, slot);
        Ok(())
    }

    fn end_read(&mut self, now: u64, place: u64, block: u32, answer: Answer<'_>, take: bool) {
        if !take {
            self.remove(block);
            return;
        }
        match &mut self.slots[block as usize] {
            Some(slot) => slot.take(now, place, answer),
            None => unreachable!(),
        }
    }

    fn drop_block(&mut self, block: u32) {
        self.remove(block);
    }

    fn write_part(
        &mut self,
        now: u64,
        place: u64,
        epoch: u64,
        part: Part,
        bytes: &[u8],
        known_zero: bool,
    ) -> Result<(), AllocError> {
        if self.slot(part.block).is_some() {
            self.write_held(now, place, epoch, part, bytes, known_zero);
            return Ok(());
        }
        self.write_missing(now, place, epoch, part, bytes, known_zero)
    }

    fn begin_write(&mut self, block: u32, pass: u64, out: &mut [u8]) -> bool {
        match &mut self.slots[block as usize] {
            Some(slot) => {
                slot.begin_put(pass);
                slot.read(out);
                slot.is_zeros()
            }
            None => unreachable!(),
        }
    }

    fn end_write(&mut self, block: u32, now: u64, ok: bool) {
        match &mut self.slots[block as usize] {
            Some(slot) => slot.end_put(now, ok),
            None => unreachable!(),
        }
    }
}

/// Whether a slot has a dirty entry.
fn is_dirty(slot: &Option<Slot>) -> bool
    ensures { result ≡ passes is_dirty slot.now }
{
    match slot {
        Some(slot) => slot.look() == Look::Dirty,
        None => false,
    }
}
