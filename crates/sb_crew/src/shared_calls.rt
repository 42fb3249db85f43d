//! The calls of a disk that has many callers. Requests to the store and pauses are made outside turns.

ghost use Rattle.std.specs.Prelude.{◌≡◌, length, vec_len};
ghost use Rattle.sb_base.specs.Ranges.{IsPart};
ghost use Rattle.sb_world.specs.Told.{Gains};
ghost use Rattle.sb_history.specs.ClockTrace.{wait_pause};
ghost use Rattle.sb_history.specs.Contents.{zeros};
ghost use Rattle.sb_crew.specs.Contents.{content_of};
ghost use Rattle.sb_crew.specs.Outcomes.{ReadDoes, WriteDoes, FlushDoes};
ghost use Rattle.sb_crew.specs.Sharing.{caller_of, pause_ticks};
ghost use Rattle.sb_crew.specs.SharedDisks.{fixed_of_disk, base_of_disk, MayUse, CallerDid};

use crate::calls::{CallFault, FlushFault};
use crate::desk::Desk;
use crate::disk::Disk;
use crate::writes::Content;
use sb_base::{Part, Why};
use sb_core::{Core, FlushStep, ReadStep, WriteStep};
use sb_turn::Pass;
use sb_world::{Clock, Link};
use std::sync::Wait;
use std::time;

/// How long a caller sleeps at most where it waits for a request of another one, in milliseconds.
const SLEEP: u64 = 1_000;

impl Disk {
    /// Waits for a reading by the caller's clock, or by the bell for a request of another caller.
    fn wait<R: Wait + time::Clock, C: Clock>(
        &self,
        rt: &R,
        clock: &mut C,
        mark: u64,
        now: u64,
        why: Why,
    )
        ensures { Gains (C.ticks clock.old) (C.ticks clock.new) (pause_ticks (wait_pause why now)) }
    {
        match why {
            Why::Spaced(until) => clock.pause(until.saturating_sub(now)),
            Why::WindowFull(until) => clock.pause(until.saturating_sub(now)),
            Why::Busy(_) => self.bell.wait(rt, mark, SLEEP),
            Why::NoRoom => self.bell.wait(rt, mark, SLEEP),
        }
    }

    /// Reads a part of a block. After a fault the buffer is unspecified.
    pub fn read<R: Wait + time::Clock, L: Link, C: Clock>(
        &self,
        rt: &R,
        pass: &mut Pass<Core>,
        desk: &mut Desk<L, C>,
        part: Part,
        out: &mut [u8],
    ) -> Result<(), CallFault>
        requires ready { MayUse self.now pass.old }
        requires room { vec_len desk.old.room ≡ (fixed_of_disk self.now).geometry.block_size }
        requires part { IsPart (fixed_of_disk self.now).geometry part }
        requires out { length out.old ≡ part.length }
        ensures did { let scene = caller_of L.Link C.Clock in ReadDoes (base_of_disk self.now)
            (CallerDid self.now (scene pass.old desk.old) (scene pass.new desk.new)) part out.new result }
        ensures ready { MayUse self.now pass.new }
        ensures room { vec_len desk.new.room ≡ vec_len desk.old.room }
    {
        'turns: for _ in rt.forever() {
            let mark = self.bell.mark();
            let now = desk.clock.now();
            match self.ask_read(rt, pass, now, desk.room.as_mut_slice(), part, out) {
                ReadStep::Done => return Ok(()),
                ReadStep::Wait(why) => self.wait(rt, &mut desk.clock, mark, now, why),
                ReadStep::Get(job) => self.fetch(rt, pass, desk, job)?,
                ReadStep::Dropped(_) => {}
                ReadStep::Put(job) => self.store(rt, pass, desk, job)?,
            }
        }
        unreachable!()
    }

    /// Writes a part of a block.
    pub fn write<R: Wait + time::Clock, L: Link, C: Clock>(
        &self,
        rt: &R,
        pass: &mut Pass<Core>,
        desk: &mut Desk<L, C>,
        part: Part,
        bytes: &[u8],
    ) -> Result<(), CallFault>
        requires ready { MayUse self.now pass.old }
        requires room { vec_len desk.old.room ≡ (fixed_of_disk self.now).geometry.block_size }
        requires part { IsPart (fixed_of_disk self.now).geometry part }
        requires bytes { length bytes.now ≡ part.length }
        ensures did { let scene = caller_of L.Link C.Clock in WriteDoes (base_of_disk self.now)
            (CallerDid self.now (scene pass.old desk.old) (scene pass.new desk.new)) part bytes.now result }
        ensures ready { MayUse self.now pass.new }
        ensures room { vec_len desk.new.room ≡ vec_len desk.old.room }
    {
        self.write_content(rt, pass, desk, part, Content::Bytes(bytes))
    }

    /// Writes zeros to a part of a block.
    pub fn zero<R: Wait + time::Clock, L: Link, C: Clock>(
        &self,
        rt: &R,
        pass: &mut Pass<Core>,
        desk: &mut Desk<L, C>,
        part: Part,
    ) -> Result<(), CallFault>
        requires ready { MayUse self.now pass.old }
        requires room { vec_len desk.old.room ≡ (fixed_of_disk self.now).geometry.block_size }
        requires part { IsPart (fixed_of_disk self.now).geometry part }
        ensures did { let scene = caller_of L.Link C.Clock in WriteDoes (base_of_disk self.now)
            (CallerDid self.now (scene pass.old desk.old) (scene pass.new desk.new)) part
            (zeros part.length) result }
        ensures ready { MayUse self.now pass.new }
        ensures room { vec_len desk.new.room ≡ vec_len desk.old.room }
    {
        self.write_content(rt, pass, desk, part, Content::Zeros)
    }

    /// Writes to a part of a block.
    fn write_content<R: Wait + time::Clock, L: Link, C: Clock>(
        &self,
        rt: &R,
        pass: &mut Pass<Core>,
        desk: &mut Desk<L, C>,
        part: Part,
        content: Content<'_>,
    ) -> Result<(), CallFault>
        requires ready { MayUse self.now pass.old }
        requires room { vec_len desk.old.room ≡ (fixed_of_disk self.now).geometry.block_size }
        requires part { IsPart (fixed_of_disk self.now).geometry part }
        requires content { length (content_of content part) ≡ part.length }
        ensures did { let scene = caller_of L.Link C.Clock in WriteDoes (base_of_disk self.now)
            (CallerDid self.now (scene pass.old desk.old) (scene pass.new desk.new)) part
            (content_of content.entry part) result }
        ensures ready { MayUse self.now pass.new }
        ensures room { vec_len desk.new.room ≡ vec_len desk.old.room }
    {
        'turns: for _ in rt.forever() {
            let mark = self.bell.mark();
            let now = desk.clock.now();
            match self.ask_write(rt, pass, now, desk.room.as_mut_slice(), part, content) {
                WriteStep::Done { dirtied } => {
                    // Whoever sleeps has to look again only where a block became dirty.
                    if dirtied {
                        self.bell.ring(rt);
                    }
                    return Ok(());
                }
                WriteStep::Wait(why) => self.wait(rt, &mut desk.clock, mark, now, why),
                WriteStep::Get(job) => self.fetch(rt, pass, desk, job)?,
                WriteStep::Dropped(_) => {}
                WriteStep::Put(job) => self.store(rt, pass, desk, job)?,
            }
        }
        unreachable!()
    }

    /// Has everything written back that was written before.
    pub fn flush<R: Wait + time::Clock, L: Link, C: Clock>(
        &self,
        rt: &R,
        pass: &mut Pass<Core>,
        desk: &mut Desk<L, C>,
    ) -> Result<(), FlushFault>
        requires ready { MayUse self.now pass.old }
        requires room { vec_len desk.old.room ≡ (fixed_of_disk self.now).geometry.block_size }
        ensures did { let scene = caller_of L.Link C.Clock in FlushDoes (base_of_disk self.now)
            (CallerDid self.now (scene pass.old desk.old) (scene pass.new desk.new)) result }
        ensures ready { MayUse self.now pass.new }
        ensures room { vec_len desk.new.room ≡ vec_len desk.old.room }
    {
        let begun = desk.clock.now();
        let flush = self.begin_flush(rt, pass, begun);
        self.bell.ring(rt);
        'turns: for _ in rt.forever() {
            let mark = self.bell.mark();
            let now = desk.clock.now();
            match self.ask_flush(rt, pass, now, desk.room.as_mut_slice(), flush) {
                FlushStep::Done => return Ok(()),
                FlushStep::Wait(why) => self.wait(rt, &mut desk.clock, mark, now, why),
                FlushStep::Put(job) => self.store(rt, pass, desk, job)?,
            }
        }
        unreachable!()
    }
}
