//! What both tables do.

ghost use Rattle.std.specs.Prelude.{◌≡◌, ◌<◌, ◌+◌, length, None, is_some, true, IfOk, ℕ};
ghost use Rattle.std.specs.FinMap as map;
ghost use Rattle.sb_base.specs.Ranges.{IsPart};
ghost use Rattle.sb_base.specs.Lines.{shown_of};
ghost use Rattle.sb_history.specs.Cache.{answer_content};
ghost use Rattle.sb_history.specs.Contents.{is_zeros};
ghost use Rattle.sb_blocks.specs.Cached.{
  look_in,
  is_held,
  is_clean,
  is_dirty,
  content_in,
  get_in,
  put_in,
  stamp_in,
  use_in,
  reading_of,
  passes,
};
ghost use Rattle.sb_blocks.specs.Moves.{touched, put_begun, put_ended, ShowsContent};
ghost use Rattle.sb_blocks.specs.Caches.{CacheState, without, count_in, Changes, after_write, BeginsRead};
ghost use Rattle.sb_blocks.specs.Orders.{unused_rank, dirty_rank, writing_rank, FirstIs, FirstBlockIs};
ghost use Rattle.sb_blocks.specs.Calls.{CopiesPart, CopiesBody, EndsRead, MayWritePart};

use sb_base::{Answer, Part};
use sb_blocks::{Blocks, Look, OpenGet};
use std::alloc::AllocError;

/// A table of cached blocks. Each call says what that of `Blocks` says, of a block of the disk.
pub trait Table {
    /// What it has of each block.
    ghost state: { Self → CacheState };

    fn look(&self, block: u32) -> Look
        ensures { result ≡ look_in (map.get (state self.now).cached block) };

    fn free(&self) -> u32
        ensures { result + map.len (state self.now).cached ≡ (state self.now).room };

    fn dirty(&self) -> u32
        ensures { result ≡ count_in is_dirty (state self.now).cached };

    fn used(&self, block: u32) -> Option<u64>
        ensures { result ≡ reading_of (use_in (map.get (state self.now).cached block)) };

    fn stamp(&self, block: u32) -> Option<u64>
        ensures { result ≡ stamp_in (map.get (state self.now).cached block) };

    fn victim(&self) -> Option<u32>
        ensures { FirstBlockIs unused_rank (state self.now).cached result };

    fn next_dirty(&self, after: Option<(u64, u32)>) -> Option<(u64, u32)>
        ensures { FirstIs (dirty_rank after) (state self.now).cached result };

    fn lowest_writing(&self, mark: u64) -> Option<u32>
        ensures { FirstBlockIs (writing_rank mark) (state self.now).cached result };

    fn copy(&self, part: Part, out: &mut [u8])
        requires part { IsPart (state self.now).geometry part }
        requires held { passes is_held (map.get (state self.now).cached part.block) ≡ true }
        requires out { length out.old ≡ part.length }
        ensures { CopiesPart (content_in (map.get (state self.now).cached part.block)) part out.new };

    fn touch(&mut self, now: u64, place: u64, block: u32)
        requires on_disk { block < (state self.old).geometry.blocks }
        requires held { passes is_held (map.get (state self.old).cached block) ≡ true }
        ensures { Changes (state self.old) (state self.new) block (touched place now)
            (map.get (state self.old).cached block) };

    fn begin_read(&mut self, block: u32, get: OpenGet) -> Result<(), AllocError>
        requires on_disk { block < (state self.old).geometry.blocks }
        requires missing { map.get (state self.old).cached block ≡ None }
        requires free { map.len (state self.old).cached < (state self.old).room }
        ensures { IfOk result (λ _. BeginsRead (state self.old) (state self.new) block get) };

    fn end_read(&mut self, now: u64, place: u64, block: u32, answer: Answer<'_>, take: bool)
        requires on_disk { block < (state self.old).geometry.blocks }
        requires open { is_some (get_in (map.get (state self.old).cached block)) ≡ true }
        requires content { take ≡ true → ShowsContent (state self.old).geometry.block_size (shown_of answer) }
        ensures { EndsRead (state self.old) (state self.new) now place block
            (answer_content (state self.old).geometry.block_size None (shown_of answer.entry)) take };

    fn drop_block(&mut self, block: u32)
        requires on_disk { block < (state self.old).geometry.blocks }
        requires clean { passes is_clean (map.get (state self.old).cached block) ≡ true }
        ensures { state self.new ≡ without (state self.old) block };

    fn write_part(
        &mut self,
        now: u64,
        place: u64,
        epoch: u64,
        part: Part,
        bytes: &[u8],
        known_zero: bool,
    ) -> Result<(), AllocError>
        requires part { IsPart (state self.old).geometry part }
        requires bytes { length bytes.now ≡ part.length }
        requires may { MayWritePart (state self.old) known_zero part (map.get (state self.old).cached part.block) }
        ensures { IfOk result (λ _. state self.new ≡ after_write (state self.old) known_zero now place epoch part bytes.now
            (map.get (state self.old).cached part.block)) };

    fn begin_write(&mut self, block: u32, pass: u64, out: &mut [u8]) -> bool
        requires on_disk { block < (state self.old).geometry.blocks }
        requires dirty { passes is_dirty (map.get (state self.old).cached block) ≡ true }
        requires out { length out.old ≡ (state self.old).geometry.block_size }
        ensures begun { Changes (state self.old) (state self.new) block (put_begun pass)
            (map.get (state self.old).cached block) }
        ensures copied { CopiesBody (content_in (map.get (state self.old).cached block)) out.new }
        ensures zeros { result ≡ is_zeros out.new };

    fn end_write(&mut self, block: u32, now: u64, ok: bool)
        requires on_disk { block < (state self.old).geometry.blocks }
        requires open { is_some (put_in (map.get (state self.old).cached block)) ≡ true }
        ensures { Changes (state self.old) (state self.new) block (put_ended ok now)
            (map.get (state self.old).cached block) };
}

impl Table for Blocks {
    ghost state = { λ blocks. blocks };

    fn look(&self, block: u32) -> Look {
        Blocks::look(self, block)
    }

    fn free(&self) -> u32 {
        Blocks::free(self)
    }

    fn dirty(&self) -> u32 {
        Blocks::dirty(self)
    }

    fn used(&self, block: u32) -> Option<u64> {
        Blocks::used(self, block)
    }

    fn stamp(&self, block: u32) -> Option<u64> {
        Blocks::stamp(self, block)
    }

    fn victim(&self) -> Option<u32> {
        Blocks::victim(self)
    }

    fn next_dirty(&self, after: Option<(u64, u32)>) -> Option<(u64, u32)> {
        Blocks::next_dirty(self, after)
    }

    fn lowest_writing(&self, mark: u64) -> Option<u32> {
        Blocks::lowest_writing(self, mark)
    }

    fn copy(&self, part: Part, out: &mut [u8]) {
        Blocks::copy(self, part, out);
    }

    fn touch(&mut self, now: u64, place: u64, block: u32) {
        Blocks::touch(self, now, place, block);
    }

    fn begin_read(&mut self, block: u32, get: OpenGet) -> Result<(), AllocError> {
        Blocks::begin_read(self, block, get);
        Ok(())
    }

    fn end_read(&mut self, now: u64, place: u64, block: u32, answer: Answer<'_>, take: bool) {
        Blocks::end_read(self, now, place, block, answer, take);
    }

    fn drop_block(&mut self, block: u32) {
        Blocks::drop_block(self, block);
    }

    fn write_part(
        &mut self,
        now: u64,
        place: u64,
        epoch: u64,
        part: Part,
        bytes: &[u8],
        known_zero: bool,
    ) -> Result<(), AllocError> {
        Blocks::write_part(self, now, place, epoch, part, bytes, known_zero);
        Ok(())
    }

    fn begin_write(&mut self, block: u32, pass: u64, out: &mut [u8]) -> bool {
        Blocks::begin_write(self, block, pass, out)
    }

    fn end_write(&mut self, block: u32, now: u64, ok: bool) {
        Blocks::end_write(self, block, now, ok);
    }
}
