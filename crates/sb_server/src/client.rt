//! A client: it serves one connection after the other.

ghost use Rattle.std.specs.Prelude.{◌≡◌, []};
ghost use Rattle.sb_base.specs.Shapes.{IsSound};
ghost use Rattle.sb_turn.specs.Passes.{mine, joined};
ghost use Rattle.sb_world.specs.Listeners.{IsNew};
ghost use Rattle.sb_crew.specs.Desks.{HasRoom};
ghost use Rattle.sb_crew.specs.SharedDisks.{fixed_of_disk, MayUse};
ghost use Rattle.sb_server.specs.Tellings.{telling};
ghost use Rattle.sb_server.specs.Clients.{ClientDid, ConnDid};

use sb_core::Core;
use sb_crew::{Desk, Disk};
use sb_session::{Buffer, serve_conn};
use sb_turn::Pass;
use sb_world::{Clock, Link, ListenFault, Listener};
use std::sync::Wait;
use std::time;

/// What a client works with. The desk was made for the disk that is served.
#[derive(Drop)]
pub struct Client<N, L, C> {
    pub listener: N,
    pub desk: Desk<L, C>,
    pub buffer: Buffer,
    /// How it ended, once it has.
    pub ended: Result<(), ListenFault>,
}

/// Serves connections until no more come, or the listener fails. Each is served with a pass of its own, split from the
/// client's before it comes, and joined to it when the connection is given back.
pub fn serve_client<H: Wait + time::Clock, N: Listener, L: Link, C: Clock>(
    rt: &H,
    disk: &Disk,
    read_only: bool,
    pass: &mut Pass<Core>,
    client: &mut Client<N, L, C>,
) -> Result<(), ListenFault>
    requires ready { MayUse disk.now pass.old }
    requires room { HasRoom (fixed_of_disk disk.now).geometry client.old.desk }
    requires sound { IsSound (fixed_of_disk disk.now).geometry }
    ensures { ClientDid (telling N.Listener L.Link C.Clock N.Source.Source N.Sink.Sink) disk.now read_only
        pass.old pass.new client.old client.new result }
{
    'connections: for _ in rt.forever() {
        let theirs = disk.split(rt, pass);
        match client.listener.accept() {
            Ok(Some((source, sink))) => {
                serve_one(rt, disk, read_only, pass, client, theirs, source, sink);
            }
            Ok(None) => {
                disk.join(pass, theirs);
                return Ok(());
            }
            Err(fault) => {
                disk.join(pass, theirs);
                return Err(fault);
            }
        }
    }
    unreachable!()
}

/// Serves a connection that has come with a new pass, gives it back, and joins the pass.
fn serve_one<H: Wait + time::Clock, N: Listener, L: Link, C: Clock>(
    rt: &H,
    disk: &Disk,
    read_only: bool,
    pass: &mut Pass<Core>,
    client: &mut Client<N, L, C>,
    theirs: Pass<Core>,
    mut source: N::Source,
    mut sink: N::Sink,
)
    requires ready { MayUse disk.now pass.old }
    requires room { HasRoom (fixed_of_disk disk.now).geometry client.old.desk }
    requires sound { IsSound (fixed_of_disk disk.now).geometry }
    requires theirs { MayUse disk.now theirs × (mine theirs ≡ []) × (joined theirs ≡ []) }
    requires connection { IsNew (N.Sink.held sink) (N.Source.faults source) (N.Sink.faults sink) }
    ensures { ConnDid (telling N.Listener L.Link C.Clock N.Source.Source N.Sink.Sink) disk.now read_only
        pass.old pass.new client.old client.new (N.Source.left source) }
{
    let (theirs, _end) = serve_conn(
        rt,
        disk,
        theirs,
        &mut client.desk,
        read_only,
        &mut client.buffer,
        &mut source,
        &mut sink,
    );
    let number = theirs.number();
    client.listener.back(source, sink, number);
    disk.join(pass, theirs);
}
