//! One end of a connection in memory.

ghost use Rattle.std.specs.Prelude.{◌≡◌, ◌≢◌, ◌≤◌, ◌<◌, Some, [], drop, length, vec_len, true, IsErr};
ghost use Rattle.std.specs.Result.{is_err};
ghost use Rattle.sb_world.specs.Told.{CountsFaults};
ghost use Rattle.sb_world.specs.Streams.{ReadTakes, WriteHolds};
ghost use Rattle.sb_fakes.specs.Failing.{fails_next, answered};

use crate::faults::Faults;
use sb_base::Text;
use sb_world::{ReadFault, Sink, Source, WriteFault};
use std::alloc::Global;

/// A source of some bytes, or a sink. The calls in `fails`, counted from 1, fail.
#[derive(Drop)]
pub struct MemoryConn {
    bytes: Vec<u8>,
    at: usize,
    piece: u32,
    faults: Faults,
    ghost within: { at ≤ vec_len bytes },
    ghost some: { 0 < piece },
}

impl MemoryConn {
    /// A source of these bytes, at most `piece` of them by a read.
    pub fn source(body: Text, piece: u32, fails: Vec<u64>) -> MemoryConn
        requires { piece ≢ 0 }
        ensures bytes { drop result.at result.bytes.items ≡ body }
        ensures faults { result.faults.count ≡ 0 }
    {
        MemoryConn {
            bytes: body.into_vec(),
            at: 0,
            piece,
            faults: Faults::new(fails),
        }
    }

    /// A sink that holds nothing yet.
    pub fn sink(alloc: Global, fails: Vec<u64>) -> MemoryConn
        ensures bytes { drop result.at result.bytes.items ≡ [] }
        ensures faults { result.faults.count ≡ 0 }
    {
        MemoryConn {
            bytes: Vec::new(alloc),
            at: 0,
            piece: 1,
            faults: Faults::new(fails),
        }
    }

    /// What a source has left, or a sink holds.
    pub fn bytes(&self) -> &[u8]
        ensures { result.now ≡ drop self.now.at self.now.bytes.items }
    {
        &self.bytes[self.at..]
    }
}

impl Source for MemoryConn {
    ghost left = { λ conn. Some (drop conn.at conn.bytes.items) };

    ghost faults = { λ conn. conn.faults.count };

    fn read(&mut self, out: &mut [u8]) -> Result<usize, ReadFault>
        ensures length { length out.new ≡ length out.old }
        ensures told { ReadTakes (Some (drop self.old.at self.old.bytes.items)) (Some (drop self.new.at self.new.bytes.items)) result out.new }
        ensures cause { CountsFaults self.old.faults.count self.new.faults.count (IsErr result) }
        ensures planned { is_err result ≡ fails_next self.old.faults }
        ensures faults { self.new.faults ≡ answered (is_err result) self.old.faults }
    {
        if self.faults.next_call_fails() {
            self.faults.add();
            return Err(ReadFault::Failed);
        }
        let left = self.bytes();
        let count = left.len().min(self.piece as usize).min(out.len());
        out[..count].copy_from_slice(&left[..count]);
        self.at += count;
        Ok(count)
    }
}

impl Sink for MemoryConn {
    ghost held = { λ conn. Some (drop conn.at conn.bytes.items) };

    ghost faults = { λ conn. conn.faults.count };

    fn write(&mut self, bytes: &[u8]) -> Result<(), WriteFault>
        ensures told { WriteHolds (Some (drop self.old.at self.old.bytes.items)) (Some (drop self.new.at self.new.bytes.items)) result bytes.now }
        ensures cause { CountsFaults self.old.faults.count self.new.faults.count (IsErr result) }
        ensures planned { fails_next self.old.faults ≡ true → IsErr result }
        ensures faults { self.new.faults ≡ answered (is_err result) self.old.faults }
        ensures none { IsErr result → drop self.new.at self.new.bytes.items ≡ drop self.old.at self.old.bytes.items }
    {
        if self.faults.next_call_fails() || self.bytes.extend_from_slice(bytes).is_err() {
            self.faults.add();
            return Err(WriteFault::Failed);
        }
        Ok(())
    }
}
