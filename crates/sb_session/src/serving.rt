//! A session, from its greeting on.

ghost use Rattle.std.specs.Prelude.{◌≡◌, ◌≤◌, length, IsErrOf};
ghost use Rattle.sb_base.specs.Shapes.{IsSound};
ghost use Rattle.sb_world.specs.Told.{CountsFaults};
ghost use Rattle.sb_session.specs.Streams.{streams_at};
ghost use Rattle.sb_session.specs.Haggling.{export_of, transmission_flags};
ghost use Rattle.sb_session.specs.Handshakes.{OpeningEnds};
ghost use Rattle.sb_session.specs.Sessions.{SessionTold};

use crate::end::SessionEnd;
use crate::haggling::{negotiate, session_end};
use crate::transmission::transmit;
use sb_base::Geometry;
use sb_crew::Calls;
use sb_nbd::{Export, MAX_PAYLOAD, NbdEnd, read_flags, write_greeting};
use sb_world::{Sink, Source};

/// Serves one client until its session ends. Where the disk is `read_only` the client is told so, and each request
/// that writes is refused; the buffer has room for the bytes of one request.
pub fn serve<K, D: Calls<K>, R: Source, S: Sink>(
    disk: &mut D,
    desk: &mut K,
    read_only: bool,
    room: &mut [u8],
    source: &mut R,
    sink: &mut S,
) -> SessionEnd
    requires ready { D.ready disk.old desk.old }
    requires sound { IsSound (D.base disk.old).geometry }
    requires room { MAX_PAYLOAD ≤ length room.old }
    ensures ready { D.ready disk.new desk.new }
    ensures told { SessionTold read_only (D.base disk.old) (streams_at (R.left source.old) (S.held sink.old))
        (streams_at (R.left source.new) (S.held sink.new)) (D.did disk.old desk.old disk.new desk.new) result }
    ensures read_cause { CountsFaults (R.faults source.old) (R.faults source.new) (result ≡ SessionEnd.Fault NbdEnd.ReadFault) }
    ensures write_cause { CountsFaults (S.faults sink.old) (S.faults sink.new) (result ≡ SessionEnd.Fault NbdEnd.WriteFault) }
    ensures base { D.base disk.new ≡ D.base disk.old }
    ensures length { length room.new ≡ length room.old }
{
    let export = export_of(disk.geometry(), read_only);
    match open(export, room, source, sink) {
        Ok(options) => transmit(disk, desk, read_only, options, room, source, sink),
        Err(end) => end,
    }
}

/// What is told of a disk.
fn export_of(geometry: Geometry, read_only: bool) -> Export
    ensures { result ≡ export_of geometry read_only }
{
    Export {
        size: geometry.size(),
        block_size: geometry.block_size,
        flags: transmission_flags(read_only),
    }
}

/// The flags of a disk: it has flags (bit 0), can be flushed (bit 2), takes FUA (bit 3), TRIM (bit 5) and WRITE_ZEROES
/// (bit 6), may be served to several connections at once (bit 8), and maybe is read-only (bit 1).
fn transmission_flags(read_only: bool) -> u16
    ensures { result ≡ transmission_flags read_only }
{
    if read_only { 0x016f } else { 0x016d }
}

/// Writes the greeting, reads the client's flags, and answers options, up to the one that begins the transmission. It
/// tells how many.
fn open<R: Source, S: Sink>(
    export: Export,
    room: &mut [u8],
    source: &mut R,
    sink: &mut S,
) -> Result<u64, SessionEnd>
    requires { MAX_PAYLOAD ≤ length room.old }
    ensures told { OpeningEnds export (streams_at (R.left source.old) (S.held sink.old))
        (streams_at (R.left source.new) (S.held sink.new)) result }
    ensures read_cause { CountsFaults (R.faults source.old) (R.faults source.new)
        (IsErrOf result (SessionEnd.Fault NbdEnd.ReadFault)) }
    ensures write_cause { CountsFaults (S.faults sink.old) (S.faults sink.new)
        (IsErrOf result (SessionEnd.Fault NbdEnd.WriteFault)) }
    ensures length { length room.new ≡ length room.old }
{
    match write_greeting(sink) {
        Ok(()) => {}
        Err(_) => return Err(SessionEnd::Fault(NbdEnd::WriteFault)),
    }
    match read_flags(source) {
        Ok(flags) => negotiate(export, flags, room, source, sink),
        Err(end) => Err(session_end(end)),
    }
}
