//! Serving requests.

ghost use Rattle.std.specs.Prelude.{◌≡◌, ◌≤◌, length, IsErrOf};
ghost use Rattle.sb_base.specs.Shapes.{IsSound};
ghost use Rattle.sb_world.specs.Told.{CountsFaults};
ghost use Rattle.sb_session.specs.Streams.{streams_at};
ghost use Rattle.sb_session.specs.Turns.{TurnEnds, TurnsEnd};

use crate::answer::perform;
use crate::end::SessionEnd;
use crate::haggling::{MAX_ANSWERS, session_end};
use sb_crew::Calls;
use sb_nbd::{DISC, MAX_PAYLOAD, NbdEnd, read_request, write_reply};
use sb_world::{Sink, Source};

/// Answers requests until the session ends, after so many options.
pub(crate) fn transmit<K, D: Calls<K>, R: Source, S: Sink>(
    disk: &mut D,
    desk: &mut K,
    read_only: bool,
    options: u64,
    room: &mut [u8],
    source: &mut R,
    sink: &mut S,
) -> SessionEnd
    requires options { options ≤ MAX_ANSWERS }
    requires ready { D.ready disk.old desk.old }
    requires sound { IsSound (D.base disk.old).geometry }
    requires room { MAX_PAYLOAD ≤ length room.old }
    ensures ready { D.ready disk.new desk.new }
    ensures told { TurnsEnd read_only (D.base disk.old) options (streams_at (R.left source.old) (S.held sink.old))
        (streams_at (R.left source.new) (S.held sink.new)) (D.did disk.old desk.old disk.new desk.new) result }
    ensures read_cause { CountsFaults (R.faults source.old) (R.faults source.new) (result ≡ SessionEnd.Fault NbdEnd.ReadFault) }
    ensures write_cause { CountsFaults (S.faults sink.old) (S.faults sink.new) (result ≡ SessionEnd.Fault NbdEnd.WriteFault) }
    ensures base { D.base disk.new ≡ D.base disk.old }
    ensures length { length room.new ≡ length room.old }
{
    for _count in 0..MAX_ANSWERS - options {
        match turn(disk, desk, read_only, room, source, sink) {
            Ok(()) => {}
            Err(end) => return end,
        }
    }
    SessionEnd::Spent
}

/// Reads a request, does it, and writes its reply.
fn turn<K, D: Calls<K>, R: Source, S: Sink>(
    disk: &mut D,
    desk: &mut K,
    read_only: bool,
    room: &mut [u8],
    source: &mut R,
    sink: &mut S,
) -> Result<(), SessionEnd>
    requires ready { D.ready disk.old desk.old }
    requires sound { IsSound (D.base disk.old).geometry }
    requires room { MAX_PAYLOAD ≤ length room.old }
    ensures ready { D.ready disk.new desk.new }
    ensures told { TurnEnds read_only (D.base disk.old) (streams_at (R.left source.old) (S.held sink.old))
        (streams_at (R.left source.new) (S.held sink.new)) (D.did disk.old desk.old disk.new desk.new) result }
    ensures read_cause { CountsFaults (R.faults source.old) (R.faults source.new)
        (IsErrOf result (SessionEnd.Fault NbdEnd.ReadFault)) }
    ensures write_cause { CountsFaults (S.faults sink.old) (S.faults sink.new)
        (IsErrOf result (SessionEnd.Fault NbdEnd.WriteFault)) }
    ensures base { D.base disk.new ≡ D.base disk.old }
    ensures length { length room.new ≡ length room.old }
{
    let wanted = match read_request(source, room) {
        Ok(wanted) => wanted,
        Err(end) => return Err(session_end(end)),
    };
    if wanted.kind == DISC {
        return Err(SessionEnd::Disconnected);
    }
    let answer = perform(disk, desk, read_only, wanted, room);
    match write_reply(sink, answer.error, wanted.cookie, &room[..answer.count]) {
        Ok(()) => Ok(()),
        Err(_) => Err(SessionEnd::Fault(NbdEnd::WriteFault)),
    }
}
