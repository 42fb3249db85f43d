//! Writes.

ghost use Rattle.std.specs.Prelude.{◌≡◌, ◌<◌, ◌≤◌, ◌^◌, ◌&&◌, ◌||◌, length, true, None, nat_eq};
ghost use Rattle.std.specs.FinMap.{get};
ghost use Rattle.sb_base.specs.Ranges.{IsPart};
ghost use Rattle.sb_history.specs.Contents.{zeros, is_zeros};
ghost use Rattle.sb_blocks.specs.Cached.{passes, is_held, is_clean, is_dirty};
ghost use Rattle.sb_blocks.specs.Calls.{MayWritePart};
ghost use Rattle.sb_core.specs.Rules.{PutRule};
ghost use Rattle.sb_core.specs.WriteSteps.{write_put, write_room};

use crate::bytes::{Bytes, fill_zeros};
use crate::job::PutJob;
use crate::machine::Core;
use crate::room::Room;
use crate::step::WriteStep;
use sb_base::{Part, Why};
use sb_blocks::Look;

impl Core {
    ghost use Rattle.sb_core.specs.Cores.{geometry_of, reading_of, reading_at, marks_of, put_block, Adds, AddsFrom, KeepsSignals};
    ghost use Rattle.sb_core.specs.Leads.{KeepsOpen, WriteLeads, DirtyLeads};
    ghost use Rattle.sb_core.specs.Requests.{SameBase, PutOpens, WriteOpens};
    ghost use Rattle.sb_core.specs.Writing.{
      is_too_dirty,
      is_dirtied,
      SaysDirtied,
      TellsDirtied,
      UnheldRule,
      DirtiesTooMany,
      bytes_of,
      AnswersWrite,
      CopiesWrite,
      CopiesPut,
      put_kind,
      write_kind,
      write_entry,
      AddsAt,
      WritesPart,
    };

    /// Writes a part of a block, whose `bytes` are as long as the part. `out` is one block long, and has the body where
    /// the answer is a PUT.
    pub fn write(
        &mut self,
        now: u64,
        pass: u64,
        part: Part,
        bytes: &[u8],
        out: &mut [u8],
    ) -> WriteStep
        requires now { now ≤ 2 ^ 62 }
        requires part { IsPart (geometry_of self.old) part }
        requires bytes { length bytes.now ≡ part.length }
        requires out { length out.old ≡ (geometry_of self.old).block_size }
        ensures represents { Adds self.old self.new
            (write_entry pass (reading_at now self.old) part bytes.now out.new result) }
        ensures answer { AnswersWrite self.old (reading_at now self.old) part bytes.now result }
        ensures dirtied { TellsDirtied self.old
            (write_entry pass (reading_at now self.old) part bytes.now out.new result) part.block result }
        ensures copies { CopiesWrite self.old out.new result }
        ensures opens { WriteOpens self.new pass result }
        ensures leads { WriteLeads self.old self.new pass part.block out.new result }
        ensures open { KeepsOpen self.old self.new }
        ensures base { SameBase self.old self.new }
        ensures reading { reading_of self.new ≡ reading_at now self.old }
        ensures signals { KeepsSignals self.old self.new }
    {
        self.write_bytes(now, pass, part, Bytes::Given(bytes), out)
    }

    /// Writes zeros to a part of a block. `out` is one block long, and has the body where the answer is a PUT. Where the
    /// block has no entry and is known to be zeros, no byte is written.
    pub fn zero(&mut self, now: u64, pass: u64, part: Part, out: &mut [u8]) -> WriteStep
        requires now { now ≤ 2 ^ 62 }
        requires part { IsPart (geometry_of self.old) part }
        requires out { length out.old ≡ (geometry_of self.old).block_size }
        ensures represents { Adds self.old self.new
            (write_entry pass (reading_at now self.old) part (zeros part.length) out.new result) }
        ensures answer { AnswersWrite self.old (reading_at now self.old) part (zeros part.length) result }
        ensures dirtied { TellsDirtied self.old
            (write_entry pass (reading_at now self.old) part (zeros part.length) out.new result) part.block result }
        ensures copies { CopiesWrite self.old out.new result }
        ensures opens { WriteOpens self.new pass result }
        ensures leads { WriteLeads self.old self.new pass part.block out.new result }
        ensures open { KeepsOpen self.old self.new }
        ensures base { SameBase self.old self.new }
        ensures reading { reading_of self.new ≡ reading_at now self.old }
        ensures signals { KeepsSignals self.old self.new }
    {
        self.write_bytes(now, pass, part, Bytes::Zeros, out)
    }

    /// Writes to a part of a block.
    fn write_bytes(
        &mut self,
        now: u64,
        pass: u64,
        part: Part,
        bytes: Bytes<'_>,
        out: &mut [u8],
    ) -> WriteStep
        requires now { now ≤ 2 ^ 62 }
        requires part { IsPart self.old.geometry part }
        requires bytes { length (bytes_of part bytes) ≡ part.length }
        requires out { length out.old ≡ self.old.geometry.block_size }
        ensures represents { Adds self.old self.new
            (write_entry pass (reading_at now self.old) part (bytes_of part bytes.entry) out.new result) }
        ensures answer { AnswersWrite self.old (reading_at now self.old) part (bytes_of part bytes.entry) result }
        ensures dirtied { SaysDirtied self.old self.new part.block result }
        ensures copies { CopiesWrite self.old out.new result }
        ensures opens { WriteOpens self.new pass result }
        ensures leads { WriteLeads self.old self.new pass part.block out.new result }
        ensures open { KeepsOpen self.old self.new }
        ensures base { SameBase self.old self.new }
        ensures reading { reading_of self.new ≡ reading_at now self.old }
        ensures signals { KeepsSignals self.old self.new }
    {
        let place = self.tick(now);
        if self.is_missing(part.block) {
            return self.write_missing(place, pass, part, bytes, out);
        }
        if !self.holds(part.block) {
            return WriteStep::Wait(Why::Busy(part.block));
        }
        if self.is_one_too_many(part, bytes) {
            return put_step(self.put_dirty(pass, out));
        }
        let dirtied = self.write_part(place, part, bytes, out);
        WriteStep::Done { dirtied }
    }

    /// Writes to a part of a block that has no entry.
    fn write_missing(
        &mut self,
        place: u64,
        pass: u64,
        part: Part,
        bytes: Bytes<'_>,
        out: &mut [u8],
    ) -> WriteStep
        requires part { IsPart self.old.geometry part }
        requires missing { get self.old.blocks.cached part.block ≡ None }
        requires bytes { length (bytes_of part bytes) ≡ part.length }
        requires out { length out.old ≡ self.old.geometry.block_size }
        ensures adds { AddsAt self.old self.new place pass
            (write_kind part (bytes_of part bytes.entry) out.new result) }
        ensures rule { UnheldRule self.old.window self.old.reading self.old.settings self.old.blocks part.block
            (marks_of self.old part.block && is_zeros (bytes_of part bytes.entry))
            (marks_of self.old part.block || nat_eq part.length self.old.blocks.geometry.block_size) result }
        ensures dirtied { SaysDirtied self.old self.new part.block result }
        ensures copies { CopiesWrite self.old out.new result }
        ensures opens { WriteOpens self.new pass result }
        ensures leads { WriteLeads self.old self.new pass part.block out.new result }
        ensures open { KeepsOpen self.old self.new }
        ensures base { SameBase self.old self.new }
        ensures reading { reading_of self.new ≡ reading_of self.old }
        ensures signals { KeepsSignals self.old self.new }
    {
        if self.stays_zeros(part, bytes) {
            return WriteStep::Done { dirtied: false };
        }
        let fills = self.fills(part);
        if fills && self.is_too_dirty() {
            return put_step(self.put_dirty(pass, out));
        }
        if self.blocks.free() == 0 {
            return room_step(self.make_room(pass, out));
        }
        if fills {
            let dirtied = self.write_part(place, part, bytes, out);
            return WriteStep::Done { dirtied };
        }
        WriteStep::Get(self.begin_get(pass, part.block))
    }

    /// Writes to a part of a block that is held, or where an entry is free to a whole block or to one that is known to be
    /// zeros, and tells whether the block became dirty. Zeros are written from `out`.
    fn write_part(&mut self, place: u64, part: Part, bytes: Bytes<'_>, out: &mut [u8]) -> bool
        requires part { IsPart self.old.geometry part }
        requires bytes { length (bytes_of part bytes) ≡ part.length }
        requires out { length out.old ≡ self.old.geometry.block_size }
        requires may { MayWritePart self.old.blocks (marks_of self.old part.block) part
            (get self.old.blocks.cached part.block) }
        ensures writes { WritesPart self.old self.new place part (bytes_of part bytes.entry) }
        ensures dirtied { result ≡ is_dirtied self.old self.new part.block }
    {
        match bytes {
            Bytes::Given(bytes) => self.write_given(place, part, bytes),
            Bytes::Zeros => {
                let zeros = &mut out[..part.length as usize];
                fill_zeros(zeros);
                self.write_given(place, part, zeros)
            }
        }
    }

    /// Writes these bytes, and tells whether the block became dirty.
    fn write_given(&mut self, place: u64, part: Part, bytes: &[u8]) -> bool
        requires part { IsPart self.old.geometry part }
        requires bytes { length bytes.now ≡ part.length }
        requires may { MayWritePart self.old.blocks (marks_of self.old part.block) part
            (get self.old.blocks.cached part.block) }
        ensures writes { WritesPart self.old self.new place part bytes.now }
        ensures dirtied { result ≡ is_dirtied self.old self.new part.block }
    {
        let was_dirty = self.is_dirty(part.block);
        let known_zero = self.marked(part.block);
        self.blocks
            .write_part(self.reading, place, self.epoch, part, bytes, known_zero);
        !was_dirty && self.is_dirty(part.block)
    }

    /// Whether a write would make one more block dirty than may be. The bytes are looked at only where the block is clean
    /// and known to be zeros.
    fn is_one_too_many(&self, part: Part, bytes: Bytes<'_>) -> bool
        requires part { IsPart self.now.geometry part }
        requires held { passes is_held (get self.now.blocks.cached part.block) ≡ true }
        requires bytes { length (bytes_of part bytes) ≡ part.length }
        ensures { DirtiesTooMany self.now part (bytes_of part bytes.entry)
            (get self.now.blocks.cached part.block) result }
    {
        self.is_clean(part.block)
            && self.is_too_dirty()
            && !(self.stays_zeros(part, bytes) && self.blocks.is_zeros_around(part))
    }

    /// Whether zeros are written to a block that is known to be zeros.
    fn stays_zeros(&self, part: Part, bytes: Bytes<'_>) -> bool
        requires on_disk { part.block < self.now.geometry.blocks }
        ensures { result ≡ (marks_of self.now part.block && is_zeros (bytes_of part bytes.entry)) }
    {
        self.marked(part.block) && bytes.are_zeros(part)
    }

    /// Whether a write of this part alone says what its block holds: it is a whole block, or one that is known to be zeros.
    fn fills(&self, part: Part) -> bool
        requires on_disk { part.block < self.now.geometry.blocks }
        ensures { result ≡ (marks_of self.now part.block ||
            nat_eq part.length self.now.blocks.geometry.block_size) }
    {
        self.marked(part.block) || part.length == self.geometry.block_size
    }

    /// Begins the next PUT where as many blocks are dirty as may be.
    fn put_dirty(&mut self, pass: u64, out: &mut [u8]) -> Result<PutJob, Why>
        requires dirty { is_too_dirty self.old.settings self.old.blocks.cached ≡ true }
        requires out { length out.old ≡ self.old.geometry.block_size }
        ensures rule { PutRule self.old.window self.old.reading None self.old.blocks.cached (put_block result) }
        ensures adds { AddsFrom self.old self.new pass (put_kind out.new result) }
        ensures copies { CopiesPut self.old out.new result }
        ensures opens { PutOpens self.new pass result }
        ensures leads { DirtyLeads self.old self.new pass out.new result }
        ensures open { KeepsOpen self.old self.new }
        ensures base { SameBase self.old self.new }
        ensures reading { reading_of self.new ≡ reading_of self.old }
        ensures signals { KeepsSignals self.old self.new }
    {
        self.put_next(pass, None, out)
    }

    /// Whether as many blocks are dirty as may be, where there is a limit.
    pub(crate) fn is_too_dirty(&self) -> bool
        ensures { result ≡ is_too_dirty self.now.settings self.now.blocks.cached }
    {
        self.settings.max_dirty != 0 && self.settings.max_dirty <= self.blocks.dirty()
    }

    /// Whether a block is dirty.
    fn is_dirty(&self, block: u32) -> bool
        ensures { result ≡ passes is_dirty (get self.now.blocks.cached block) }
    {
        match self.blocks.look(block) {
            Look::Missing => false,
            Look::Reading => false,
            Look::Clean => false,
            Look::Dirty => true,
            Look::Writing => false,
            Look::Writing2 => false,
        }
    }

    /// Whether a block is clean.
    fn is_clean(&self, block: u32) -> bool
        ensures { result ≡ passes is_clean (get self.now.blocks.cached block) }
    {
        match self.blocks.look(block) {
            Look::Missing => false,
            Look::Reading => false,
            Look::Clean => true,
            Look::Dirty => false,
            Look::Writing => false,
            Look::Writing2 => false,
        }
    }
}

/// A write goes on as a PUT begins or waits.
fn put_step(answer: Result<PutJob, Why>) -> WriteStep
    ensures { result ≡ write_put answer }
{
    match answer {
        Ok(job) => WriteStep::Put(job),
        Err(why) => WriteStep::Wait(why),
    }
}

/// A write goes on as room is made.
fn room_step(room: Room) -> WriteStep
    ensures { result ≡ write_room room }
{
    match room {
        Room::Dropped(block) => WriteStep::Dropped(block),
        Room::Put(job) => WriteStep::Put(job),
        Room::Wait(why) => WriteStep::Wait(why),
    }
}
