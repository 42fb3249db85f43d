//! A disk and a connection in memory, and sessions over them.

ghost use Rattle.std.specs.Prelude.{◌≡◌, ◌≤◌, ◌*◌, true, None, IfOk, vec_len, length};
ghost use Rattle.sb_crew.specs.Answers.{fault_for};

use crate::messages::joined;
use crate::{SessionEnd, serve};
use sb_base::{Geometry, Part, Settings};
use sb_crew::{CallFault, Calls, FlushFault};
use sb_nbd::MAX_PAYLOAD;
use sb_world::{LinkFault, ReadFault, Sink, Source, WriteFault};
use std::alloc::{AllocError, Global};

/// The fault of a call whose request failed so.
fn fault_for(fault: LinkFault) -> FlushFault
    ensures { result ≡ fault_for fault }
{
    match fault {
        LinkFault::Failed { status } => FlushFault::StoreFault { status },
        LinkFault::Memory => FlushFault::Memory,
    }
}

/// A disk whose next call may be made to fail.
#[derive(Drop)]
struct Bytes {
    kept: Vec<u8>,
    geometry: Geometry,
    settings: Settings,
    fault: Option<LinkFault>,
}

/// Settings without a window.
const SETTINGS: Settings = Settings {
    min_write_delay: 0,
    md5_time: 0,
    md5_size: 0,
    cache_size: 1,
    write_delay: 0,
    clean_time: 0,
    max_dirty: 0,
    stale_limit: 0,
    read_ahead: 0,
    read_ahead_trigger: 0,
    threads: 1,
    clients: 1,
};

impl Calls<()> for Bytes {
    ghost base = { λ d. record { geometry = d.geometry; settings = d.settings; alone = true } };

    ghost ready = { λ d k. vec_len d.kept ≡ d.geometry.block_size * d.geometry.blocks };

    ghost did = { λ d k d' k' deed. Unit {0} };

    ghost did_nothing = { λ d k. tt };

    ghost did_both = { λ d k d' k' d'' k'' x y first second. tt };

    fn geometry(&self) -> Geometry {
        self.geometry
    }

    fn read(&mut self, _desk: &mut (), part: Part, out: &mut [u8]) -> Result<(), CallFault> {
        match self.fault.take() {
            Some(fault) => Err(CallFault::from(fault_for(fault))),
            None => {
                let block_size = self.geometry.block_size as usize;
                let at = block_size * part.block as usize + part.offset as usize;
                out.copy_from_slice(&self.kept[at..at + part.length as usize]);
                Ok(())
            }
        }
    }

    fn write(&mut self, _desk: &mut (), part: Part, bytes: &[u8]) -> Result<(), CallFault> {
        match self.fault.take() {
            Some(fault) => Err(CallFault::from(fault_for(fault))),
            None => {
                let block_size = self.geometry.block_size as usize;
                let at = block_size * part.block as usize + part.offset as usize;
                self.kept[at..at + part.length as usize].copy_from_slice(bytes);
                Ok(())
            }
        }
    }

    fn zero(&mut self, _desk: &mut (), part: Part) -> Result<(), CallFault> {
        match self.fault.take() {
            Some(fault) => Err(CallFault::from(fault_for(fault))),
            None => {
                let block_size = self.geometry.block_size as usize;
                let at = block_size * part.block as usize + part.offset as usize;
                self.kept[at..at + part.length as usize].fill(0);
                Ok(())
            }
        }
    }

    fn flush(&mut self, _desk: &mut ()) -> Result<(), FlushFault> {
        match self.fault.take() {
            Some(fault) => Err(fault_for(fault)),
            None => Ok(()),
        }
    }
}

/// Bytes that come in pieces. The source fails in place of the end where that is wanted.
#[derive(Drop)]
pub(crate) struct Incoming {
    bytes: Vec<u8>,
    at: usize,
    piece: usize,
    pub(crate) fails: bool,
    faults: u64,
}

impl Source for Incoming {
    ghost left = { λ _. None };

    ghost faults = { λ s. s.faults };

    fn read(&mut self, out: &mut [u8]) -> Result<usize, ReadFault> {
        if self.at >= self.bytes.len() {
            if self.fails {
                self.faults = self.faults.saturating_add(1);
                return Err(ReadFault::Failed);
            }
            return Ok(0);
        }
        let count = out.len().min(self.piece).min(self.bytes.len() - self.at);
        out[..count].copy_from_slice(&self.bytes[self.at..self.at + count]);
        self.at += count;
        Ok(count)
    }
}

/// What was written. The sink has room for so many writes.
#[derive(Drop)]
pub(crate) struct Outgoing {
    pub(crate) bytes: Vec<u8>,
    writes: u8,
    faults: u64,
}

impl Sink for Outgoing {
    ghost held = { λ _. None };

    ghost faults = { λ s. s.faults };

    fn write(&mut self, bytes: &[u8]) -> Result<(), WriteFault> {
        if self.writes == 0 {
            self.faults = self.faults.saturating_add(1);
            return Err(WriteFault::Failed);
        }
        self.writes -= 1;
        match self.bytes.extend_from_slice(bytes) {
            Ok(()) => Ok(()),
            Err(_) => {
                self.faults = self.faults.saturating_add(1);
                Err(WriteFault::Failed)
            }
        }
    }
}

pub(crate) fn source_of(
    alloc: Global,
    parts: &[&[u8]],
    piece: usize,
) -> Result<Incoming, AllocError> {
    let bytes = joined(alloc, parts)?;
    Ok(Incoming {
        bytes,
        at: 0,
        piece,
        fails: false,
        faults: 0,
    })
}

pub(crate) fn sink_for(alloc: Global, writes: u8) -> Outgoing {
    Outgoing {
        bytes: Vec::new(alloc),
        writes,
        faults: 0,
    }
}

/// `41` at 4,095, `5a` at 65,535, and zeros elsewhere.
fn content(alloc: Global, geometry: Geometry) -> Result<Vec<u8>, AllocError>
    ensures { IfOk result (λ kept. vec_len kept ≡ geometry.block_size * geometry.blocks) }
{
    let mut kept = vec![in alloc; 0; geometry.size() as usize]?;
    if kept.len() > 65_535 {
        kept[4_095] = 0x41;
        kept[65_535] = 0x5a;
    }
    Ok(kept)
}

/// Serves a session over a disk of 16 blocks of 4,096 bytes.
pub(crate) fn run(
    alloc: Global,
    fault: Option<LinkFault>,
    read_only: bool,
    source: &mut Incoming,
    sink: &mut Outgoing,
    room: &mut [u8],
) -> Result<Option<SessionEnd>, AllocError>
    requires { MAX_PAYLOAD ≤ length room.old }
    ensures { length room.new ≡ length room.old }
{
    match Geometry::make(65_536, 4096) {
        Ok(geometry) => {
            let kept = content(alloc, geometry)?;
            let mut disk = Bytes {
                kept,
                geometry,
                settings: SETTINGS,
                fault,
            };
            Ok(Some(serve(&mut disk, &mut (), read_only, room, source, sink)))
        }
        Err(_) => Ok(None),
    }
}

/// How a session ended, and what it wrote.
#[derive(Drop)]
pub(crate) struct Outcome {
    pub(crate) end: Option<SessionEnd>,
    pub(crate) bytes: Vec<u8>,
}

/// A session of these bytes, in pieces of so many.
pub(crate) fn told(
    alloc: Global,
    read_only: bool,
    sent: &[&[u8]],
    piece: usize,
) -> Result<Outcome, AllocError> {
    let mut room = vec![in alloc; 0; 33_554_432]?;
    let mut source = source_of(alloc, sent, piece)?;
    let mut sink = sink_for(alloc, 99);
    let end = run(
        alloc,
        None,
        read_only,
        &mut source,
        &mut sink,
        room.as_mut_slice(),
    )?;
    Ok(Outcome {
        end,
        bytes: sink.bytes,
    })
}
