//! Answering options.

ghost use Rattle.std.specs.Prelude.{◌≡◌, ◌≤◌, length, IsErrOf};
ghost use Rattle.sb_world.specs.Told.{CountsFaults};
ghost use Rattle.sb_session.specs.Streams.{streams_at};
ghost use Rattle.sb_session.specs.Haggling.{end_of, next_of, HaggleEnds, NegotiationEnds};

use crate::end::SessionEnd;
use sb_nbd::{
    Asked, Export, MAX_PAYLOAD, NbdEnd, OptionAnswer, answer_to, begins_transmission, read_option,
    write_answer,
};
use sb_world::{Sink, Source};

/// How many options and requests a session answers at most, 2^40: so that each session ends.
pub const MAX_ANSWERS: u64 = 1_099_511_627_776;

/// What comes behind an option that was answered.
#[derive(Drop, Clone, Copy, PartialEq, Eq, Debug)]
pub enum Next {
    Option,
    Transmission,
}

/// Answers options until one begins the transmission, and tells how many.
pub(crate) fn negotiate<R: Source, S: Sink>(
    export: Export,
    flags: u32,
    room: &mut [u8],
    source: &mut R,
    sink: &mut S,
) -> Result<u64, SessionEnd>
    requires { MAX_PAYLOAD ≤ length room.old }
    ensures told { NegotiationEnds export flags (streams_at (R.left source.old) (S.held sink.old))
        (streams_at (R.left source.new) (S.held sink.new)) result }
    ensures read_cause { CountsFaults (R.faults source.old) (R.faults source.new)
        (IsErrOf result (SessionEnd.Fault NbdEnd.ReadFault)) }
    ensures write_cause { CountsFaults (S.faults sink.old) (S.faults sink.new)
        (IsErrOf result (SessionEnd.Fault NbdEnd.WriteFault)) }
    ensures length { length room.new ≡ length room.old }
{
    'options: for count in 0..MAX_ANSWERS {
        match haggle(export, flags, room, source, sink) {
            Ok(Next::Option) => {}
            Ok(Next::Transmission) => return Ok(count + 1),
            Err(end) => return Err(end),
        }
    }
    Err(SessionEnd::Spent)
}

/// Reads an option, and writes its answer.
fn haggle<R: Source, S: Sink>(
    export: Export,
    flags: u32,
    room: &mut [u8],
    source: &mut R,
    sink: &mut S,
) -> Result<Next, SessionEnd>
    requires { MAX_PAYLOAD ≤ length room.old }
    ensures told { HaggleEnds export flags (streams_at (R.left source.old) (S.held sink.old))
        (streams_at (R.left source.new) (S.held sink.new)) result }
    ensures read_cause { CountsFaults (R.faults source.old) (R.faults source.new)
        (IsErrOf result (SessionEnd.Fault NbdEnd.ReadFault)) }
    ensures write_cause { CountsFaults (S.faults sink.old) (S.faults sink.new)
        (IsErrOf result (SessionEnd.Fault NbdEnd.WriteFault)) }
    ensures length { length room.new ≡ length room.old }
{
    let asked = match read_option(source, room) {
        Ok(asked) => asked,
        Err(end) => return Err(session_end(end)),
    };
    let answer = answer_to(asked, &room[..asked.length as usize]);
    match write_answer(sink, export, flags, asked.option, answer) {
        Ok(()) => next_of(asked, answer),
        Err(_) => Err(SessionEnd::Fault(NbdEnd::WriteFault)),
    }
}

/// What an answer leads to.
fn next_of(asked: Asked, answer: OptionAnswer) -> Result<Next, SessionEnd>
    ensures leads { result ≡ next_of asked answer }
    ensures no_fault { (fault : NbdEnd) → IsErrOf result (SessionEnd.Fault fault) → ⊥ }
{
    match answer {
        OptionAnswer::NoSuchExport => Err(SessionEnd::NoSuchExport(asked.length)),
        OptionAnswer::Abort => Err(SessionEnd::Aborted),
        OptionAnswer::Export
        | OptionAnswer::List
        | OptionAnswer::Details(_)
        | OptionAnswer::Refused(_) => {
            if begins_transmission(asked.option, answer) {
                Ok(Next::Transmission)
            } else {
                Ok(Next::Option)
            }
        }
    }
}

/// How a session ends where reading ends.
pub(crate) fn session_end(end: NbdEnd) -> SessionEnd
    ensures { result ≡ end_of end }
{
    match end {
        NbdEnd::Ended => SessionEnd::Ended,
        NbdEnd::Cut { .. }
        | NbdEnd::BadMagic(_)
        | NbdEnd::BadFlags(_)
        | NbdEnd::TooBig { .. }
        | NbdEnd::ReadFault
        | NbdEnd::WriteFault => SessionEnd::Fault(end),
    }
}
