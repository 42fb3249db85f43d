//! A plain entry: its body is a vector, and each move is written out.

ghost use Rattle.std.specs.Prelude.{◌≡◌, ◌≤◌, ◌+◌, length, IfOk, None};
ghost use Rattle.sb_base.specs.Lines.{shown_of};
ghost use Rattle.sb_history.specs.Cache.{answer_content};
ghost use Rattle.sb_history.specs.Contents.{zeros, is_zeros, overlay, part_bytes};
ghost use Rattle.sb_blocks.specs.Cached.{look_of, is_clean, stamp_by, use_by, reading_of};
ghost use Rattle.sb_blocks.specs.Moves.{touched, written, taken, put_begun, put_ended, ShowsContent};

use sb_base::{Answer, Part};
use sb_blocks::{Look, OpenPut, State, Use};
use std::alloc::{AllocError, Global};
use std::marker::Model;

/// An entry.
#[derive(Drop)]
pub(crate) struct Slot {
    state: State,
    last: Use,
    body: Vec<u8>,
}

impl Model for Slot {
    ghost use Rattle.sb_blocks.specs.declared.cached.Cached.{Cached};
    ghost use Rattle.sb_blocks.specs.Tables.{cached_code};

    ghost Value = { Cached };

    ghost coded = { cached_code };

    ghost view = { λ s. record { state = s.state; last = s.last; body = s.body.items } };
}

impl Slot {
    /// An entry with a body of zeros.
    pub(crate) fn zeros(
        alloc: Global,
        size: u32,
        state: State,
        last: Use,
    ) -> Result<Slot, AllocError>
        ensures { IfOk result (λ slot. slot ≡ record { state = state; last = last; body = zeros size }) }
    {
        let mut body = Vec::new(alloc);
        body.resize(size as usize, 0)?;
        Ok(Slot { state, last, body })
    }

    pub(crate) fn look(&self) -> Look
        ensures { result ≡ look_of self.now.state }
    {
        match self.state {
            State::Reading { .. } => Look::Reading,
            State::Clean => Look::Clean,
            State::Dirty { .. } => Look::Dirty,
            State::Writing { .. } => Look::Writing,
            State::Writing2 { .. } => Look::Writing2,
        }
    }

    pub(crate) fn used(&self) -> Option<u64>
        ensures { result ≡ reading_of (use_by self.now.state self.now.last) }
    {
        match self.state {
            State::Reading { .. } => None,
            _ => Some(self.last.reading),
        }
    }

    pub(crate) fn stamp(&self) -> Option<u64>
        ensures { result ≡ stamp_by self.now.state }
    {
        match self.state {
            State::Reading { .. } | State::Clean => None,
            State::Dirty { stamp, .. } => Some(stamp),
            State::Writing { stamp, .. } => Some(stamp),
            State::Writing2 { stamp, .. } => Some(stamp),
        }
    }

    pub(crate) fn state(&self) -> State
        ensures { result ≡ self.now.state }
    {
        self.state
    }

    pub(crate) fn place(&self) -> u64
        ensures { result ≡ self.now.last.place }
    {
        self.last.place
    }

    pub(crate) fn copy(&self, part: Part, out: &mut [u8])
        requires within { part.offset + part.length ≤ length self.now.body }
        requires out { length out.old ≡ part.length }
        ensures { out.new ≡ part_bytes self.now.body part }
    {
        let start = part.offset as usize;
        out.copy_from_slice(&self.body[start..start + part.length as usize]);
    }

    pub(crate) fn read(&self, out: &mut [u8])
        requires { length out.old ≡ length self.now.body }
        ensures { out.new ≡ self.now.body }
    {
        out.copy_from_slice(&self.body);
    }

    pub(crate) fn touch(&mut self, now: u64, place: u64)
        ensures { self.new ≡ touched place now self.old }
    {
        self.last = Use {
            place,
            reading: now,
        };
    }

    pub(crate) fn write(
        &mut self,
        now: u64,
        place: u64,
        epoch: u64,
        part: Part,
        bytes: &[u8],
        known_zero: bool,
    )
        requires { part.offset + length bytes.now ≤ length self.old.body }
        ensures { self.new ≡ written known_zero now place epoch part.offset bytes.now self.old }
    {
        let start = part.offset as usize;
        self.body[start..start + bytes.len()].copy_from_slice(bytes);
        self.touch(now, place);
        let zeros = self.is_zeros();
        self.state = match self.state {
            State::Clean if known_zero && zeros => State::Clean,
            State::Dirty { .. } if known_zero && zeros => State::Clean,
            State::Clean => State::Dirty {
                stamp: epoch,
                since: now,
            },
            State::Writing { put, stamp } => State::Writing2 {
                put,
                stamp,
                later: epoch,
                since: now,
            },
            same => same,
        };
    }

    pub(crate) fn take(&mut self, now: u64, place: u64, answer: Answer<'_>)
        requires { ShowsContent (length self.old.body) (shown_of answer) }
        ensures { self.new ≡ taken now place (answer_content (length self.old.body) None (shown_of answer.entry)) }
    {
        self.touch(now, place);
        self.state = State::Clean;
        match answer {
            Answer::Absent => self.body.fill(0),
            Answer::Bytes(bytes) => self.body.copy_from_slice(bytes),
            Answer::Same | Answer::Failed => unreachable!(),
        }
    }

    pub(crate) fn is_zeros(&self) -> bool
        ensures { result ≡ is_zeros self.now.body }
    {
        self.body.iter().all(|byte| *byte == 0)
    }

    pub(crate) fn is_clean(&self) -> bool
        ensures { result ≡ is_clean self.now.state }
    {
        match self.state {
            State::Clean => true,
            _ => false,
        }
    }

    pub(crate) fn begin_put(&mut self, pass: u64)
        ensures { self.new ≡ put_begun pass self.old }
    {
        let zeros = self.is_zeros();
        if let State::Dirty { stamp, .. } = self.state {
            let put = OpenPut { pass, zeros };
            self.state = State::Writing { put, stamp };
        }
    }

    pub(crate) fn end_put(&mut self, now: u64, ok: bool)
        ensures { self.new ≡ put_ended ok now self.old }
    {
        self.state = match self.state {
            State::Writing { .. } if ok => State::Clean,
            State::Writing { stamp, .. } => State::Dirty { stamp, since: now },
            State::Writing2 { later, since, .. } if ok => State::Dirty {
                stamp: later,
                since,
            },
            State::Writing2 { stamp, .. } => State::Dirty { stamp, since: now },
            same => same,
        };
    }
}
