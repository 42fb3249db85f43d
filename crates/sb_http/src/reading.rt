//! Reading the lines of a chunked body.

ghost use Rattle.std.specs.Prelude.{◌≡◌, IsErrOf};
ghost use Rattle.sb_world.specs.Told.{CountsFaults};
ghost use Rattle.sb_http.specs.Lines.{ReadsLine};
ghost use Rattle.sb_http.specs.Windows.{pending};

use crate::fault::HttpFault;
use crate::incoming::take_byte;
use crate::line::{Line, Step};
use crate::window::Window;
use sb_world::Wire;

/// The most bytes of a size line with its line end, and of a trailer.
pub const MAX_LINE: usize = 16_384;

/// Reads a line, and answers the size that it gives. Before it `got` bytes of the body came.
pub(crate) fn read_line<W: Wire>(
    wire: &mut W,
    window: &mut Window,
    start: Line,
    got: u64,
) -> Result<u64, HttpFault>
    ensures told { ReadsLine (W.connections wire.old) (W.connections wire.new) (pending window.old)
        (pending window.new) start got result }
    ensures cause { CountsFaults (W.faults wire.old) (W.faults wire.new) (IsErrOf result HttpFault.WireFault) }
{
    let mut line = start;
    for count in 0..MAX_LINE {
        let byte = match take_byte(wire, window) {
            Ok(Some(byte)) => byte,
            Ok(None) => return Err(HttpFault::BodyCut { want: None, got }),
            Err(fault) => return Err(fault),
        };
        line = match line.after(byte) {
            Step::More(line) => line,
            Step::Done(size) => return Ok(size),
            Step::Bad => return Err(HttpFault::BadChunk { got }),
        };
    }
    Err(HttpFault::BadChunk { got })
}
