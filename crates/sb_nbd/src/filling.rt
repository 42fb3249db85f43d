//! Reading a part of a message, whose length is known.

ghost use Rattle.std.specs.Prelude.{◌≡◌, ◌<◌, ◌+◌, ◌^◌, length, IsErr, IsErrOf};
ghost use Rattle.sb_world.specs.Told.{CountsFaults};
ghost use Rattle.sb_nbd.specs.Pieces.{Fills, TakesPart};

use crate::end::NbdEnd;
use sb_world::{ReadFault, Source};

/// Fills a buffer, and tells how many bytes came: fewer than it holds only at the end.
fn fill<R: Source>(source: &mut R, out: &mut [u8]) -> Result<usize, ReadFault>
    ensures length { length out.new ≡ length out.old }
    ensures told { Fills (R.left source.old) (R.left source.new) result out.new }
    ensures cause { CountsFaults (R.faults source.old) (R.faults source.new) (IsErr result) }
{
    let mut n = 0;
    while n < out.len() {
        match source.read(&mut out[n..]) {
            Ok(0) => return Ok(n),
            Ok(count) => n += count,
            Err(fault) => return Err(fault),
        }
    }
    Ok(n)
}

/// Takes a part of a message of which `had` bytes have come before.
pub(crate) fn take_part<R: Source>(source: &mut R, had: u64, out: &mut [u8]) -> Result<(), NbdEnd>
    requires { had + length out.old < 2 ^ 64 }
    ensures length { length out.new ≡ length out.old }
    ensures told { TakesPart (R.left source.old) (R.left source.new) had result out.new }
    ensures cause { CountsFaults (R.faults source.old) (R.faults source.new) (IsErrOf result NbdEnd.ReadFault) }
{
    match fill(source, out) {
        Ok(n) => {
            if n < out.len() {
                Err(NbdEnd::Cut {
                    got: had + n as u64,
                })
            } else {
                Ok(())
            }
        }
        Err(_) => Err(NbdEnd::ReadFault),
    }
}
