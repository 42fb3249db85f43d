//! Writing a part of a message.

ghost use Rattle.std.specs.Prelude.{IsErr, IsOkUnless};
ghost use Rattle.sb_world.specs.Told.{CountsFaults};
ghost use Rattle.sb_world.specs.Streams.{WriteHolds};

use crate::end::NbdEnd;
use sb_world::Sink;

/// Writes some bytes. Where there are none, the sink isn't asked.
pub(crate) fn send<S: Sink>(sink: &mut S, bytes: &[u8]) -> Result<(), NbdEnd>
    ensures told { WriteHolds (S.held sink.old) (S.held sink.new) result bytes.now }
    ensures fault { IsOkUnless result NbdEnd.WriteFault }
    ensures cause { CountsFaults (S.faults sink.old) (S.faults sink.new) (IsErr result) }
{
    if bytes.is_empty() {
        return Ok(());
    }
    match sink.write(bytes) {
        Ok(()) => Ok(()),
        Err(_) => Err(NbdEnd::WriteFault),
    }
}
