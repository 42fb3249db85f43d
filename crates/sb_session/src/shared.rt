//! A session over a disk that has many callers.

ghost use Rattle.std.specs.Prelude.{◌≡◌, vec_len};
ghost use Rattle.sb_base.specs.Shapes.{IsSound};
ghost use Rattle.sb_world.specs.Told.{CountsFaults};
ghost use Rattle.sb_turn.specs.Passes.{number, IsSamePass};
ghost use Rattle.sb_crew.specs.Desks.{HasRoom};
ghost use Rattle.sb_crew.specs.Safety.{IsSafe};
ghost use Rattle.sb_crew.specs.Sharing.{seen_by, caller_of};
ghost use Rattle.sb_crew.specs.SharedDisks.{fixed_of_disk, base_of_disk, MayUse, CallerDid};
ghost use Rattle.sb_session.specs.Streams.{streams_at};
ghost use Rattle.sb_session.specs.Sessions.{SessionTold};

use crate::buffer::Buffer;
use crate::end::SessionEnd;
use crate::serving::serve;
use sb_core::Core;
use sb_crew::{Desk, Disk, Shared};
use sb_nbd::NbdEnd;
use sb_turn::Pass;
use sb_world::{Clock, Link, Sink, Source};
use std::sync::Wait;
use std::time;

/// Serves one client with a pass over a disk that has many callers, until its session ends, and gives the pass back. It
/// may wait. Where the disk is read-only each request that writes is refused, with EPERM. The desk was made for this disk.
pub fn serve_conn<H: Wait + time::Clock, L: Link, C: Clock, R: Source, S: Sink>(
    rt: &H,
    disk: &Disk,
    pass: Pass<Core>,
    desk: &mut Desk<L, C>,
    read_only: bool,
    buffer: &mut Buffer,
    source: &mut R,
    sink: &mut S,
) -> (Pass<Core>, SessionEnd)
    requires ready { MayUse disk.now pass }
    requires room { HasRoom (fixed_of_disk disk.now).geometry desk.old }
    requires sound { IsSound (fixed_of_disk disk.now).geometry }
    ensures ready { MayUse disk.now result.0 }
    ensures room { HasRoom (fixed_of_disk disk.now).geometry desk.new }
    ensures told { let scene = caller_of L.Link C.Clock in
        SessionTold read_only (base_of_disk disk.now)
        (streams_at (R.left source.old) (S.held sink.old)) (streams_at (R.left source.new) (S.held sink.new))
        (CallerDid disk.now (scene pass desk.old) (scene result.0 desk.new)) result.1 }
    ensures same { IsSamePass pass result.0 }
    ensures safe { IsSafe (fixed_of_disk disk.now) (seen_by result.0) }
    ensures read_cause { CountsFaults (R.faults source.old) (R.faults source.new) (result.1 ≡ SessionEnd.Fault NbdEnd.ReadFault) }
    ensures write_cause { CountsFaults (S.faults sink.old) (S.faults sink.new) (result.1 ≡ SessionEnd.Fault NbdEnd.WriteFault) }
{
    let mut caller = Shared { rt, disk, pass };
    let end = serve(
        &mut caller,
        desk,
        read_only,
        buffer.bytes.as_mut_slice(),
        source,
        sink,
    );
    let Shared {
        rt: _,
        disk: _,
        pass,
    } = caller;
    disk.is_safe(&pass);
    (pass, end)
}
