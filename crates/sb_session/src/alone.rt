//! A session over a disk on one thread.

ghost use Rattle.std.specs.Prelude.{◌≡◌, vec_len};
ghost use Rattle.sb_base.specs.Shapes.{IsSound};
ghost use Rattle.sb_world.specs.Told.{CountsFaults};
ghost use Rattle.sb_core.specs.Cores.{geometry_of};
ghost use Rattle.sb_crew.specs.Bases.{base_of};
ghost use Rattle.sb_crew.specs.Disks.{core_of, scene_of, IsReadyWith};
ghost use Rattle.sb_crew.specs.Runs.{Did};
ghost use Rattle.sb_session.specs.Streams.{streams_at};
ghost use Rattle.sb_session.specs.Sessions.{SessionTold};

use crate::buffer::Buffer;
use crate::end::SessionEnd;
use crate::serving::serve;
use sb_crew::{Alone, Desk};
use sb_nbd::NbdEnd;
use sb_world::{Clock, Link, Sink, Source, Tape};

/// Serves one client over a disk on one thread, until its session ends. It always returns. Where the disk is read-only
/// each request that writes is refused, with EPERM.
pub fn serve_alone<T: Tape, L: Link, C: Clock, R: Source, S: Sink>(
    disk: &mut Alone<T>,
    desk: &mut Desk<L, C>,
    read_only: bool,
    buffer: &mut Buffer,
    source: &mut R,
    sink: &mut S,
) -> SessionEnd
    requires ready { IsReadyWith disk.old desk.old }
    requires sound { IsSound (geometry_of (core_of disk.old)) }
    ensures ready { IsReadyWith disk.new desk.new }
    ensures told { let scene = scene_of T.Tape L.Link C.Clock in
        SessionTold read_only (base_of (core_of disk.old))
        (streams_at (R.left source.old) (S.held sink.old)) (streams_at (R.left source.new) (S.held sink.new))
        (Did (scene disk.old desk.old) (scene disk.new desk.new)) result }
    ensures read_cause { CountsFaults (R.faults source.old) (R.faults source.new) (result ≡ SessionEnd.Fault NbdEnd.ReadFault) }
    ensures write_cause { CountsFaults (S.faults sink.old) (S.faults sink.new) (result ≡ SessionEnd.Fault NbdEnd.WriteFault) }
{
    serve(
        disk,
        desk,
        read_only,
        buffer.bytes.as_mut_slice(),
        source,
        sink,
    )
}
