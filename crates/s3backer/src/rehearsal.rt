//! The program in a world in memory, which tells all that is asked of it.

ghost use Rattle.std.specs.Prelude.{[], ◌∷◌, Some, None, true, IfOk, map, string_bytes};
ghost use Rattle.sb_world.specs.Told.{IsUnused};
ghost use Rattle.sb_fakes.specs.Told.{ticks_of, bytes_of, faults_of, entries_of, world_view};
ghost use Rattle.sb_fakes.specs.contracts.clock.HandClockClock.TheImpl as clocks;
ghost use Rattle.sb_fakes.specs.contracts.listener.MemoryListenerListener.TheImpl as listeners;
ghost use Rattle.sb_fakes.specs.Listeners.{came_at, gave_at};
ghost use Rattle.sb_server.specs.Servers.{ServerEnds};
ghost use Rattle.s3backer.specs.Runs.{RunEnds};

use crate::top::run;
use sb_core::Core;
use sb_fakes::{HandClock, MemoryConn, MemoryWorld, RecordTape};
use sb_turn::Pass;
use sb_world::Link;
use std::alloc::{AllocError, Global};
use std::sync::Wait;
use std::thread::Threads;
use std::time;

/// What a run in a world in memory left.
#[derive(Drop)]
pub struct Rehearsal<L: Link> {
    pub status: u8,
    pub tape: RecordTape,
    /// What knows all that happened to the disk of a server.
    pub pass: Option<Pass<Core>>,
    pub world: MemoryWorld<L>,
}

/// Runs the program on these words over an unused link, a clock, a source and two sinks. What `run` promises holds of the
/// entries on the tape, the link's log, the clock's readings and the bytes of the connections, with nothing left untold
/// but a tape or a log whose growth was refused.
pub fn rehearse<R: Threads + Wait + time::Clock + Sync, L: Link + Drop + Send>(
    rt: &R,
    alloc: Global,
    words: &[String],
    link: L,
    clock: HandClock,
    input: MemoryConn,
    output: MemoryConn,
    errors: MemoryConn,
) -> Result<Rehearsal<L>, AllocError>
    requires unused { IsUnused (L.log link) (L.faults link) }
    ensures { IfOk result (λ done. RunEnds
        (record {
          log = L.log;
          link_faults = L.faults;
          ticks = ticks_of;
          left = bytes_of;
          read_faults = faults_of;
          held = bytes_of;
          write_faults = faults_of;
        }) (ServerEnds
        (record {
          came = came_at;
          over = λ listener. Some listener.over;
          gave = gave_at;
          listen_faults = λ listener. listener.faults;
          log = L.log;
          link_faults = L.faults;
          ticks = ticks_of;
          left = bytes_of;
          read_faults = faults_of;
          held = bytes_of;
          write_faults = faults_of;
        }) listeners.ghosts L.Link clocks.ghosts) (map string_bytes words.now)
        (record {
          next = Some (record { links = link ∷ []; clock = clock; input = input; output = output; errors = errors });
          tells = true;
          last = None;
          asks = Some [];
          said = Some [];
          heard = Some [];
          faults = 0;
        }) (world_view done.world) (Some []) (entries_of done.tape) done.status done.pass) }
{
    let mut links = Vec::new(alloc);
    links.push(link)?;
    let clocks = Vec::from_array(alloc, [clock])?;
    let inputs = Vec::from_array(alloc, [input])?;
    let sinks = Vec::from_array(alloc, [output, errors])?;
    let mut world = MemoryWorld::new(alloc, links, clocks, inputs, sinks, Vec::new(alloc), 0);
    let outcome = run(rt, alloc, words, &mut world, RecordTape::new(alloc));
    Ok(Rehearsal {
        status: outcome.status,
        tape: outcome.tape,
        pass: outcome.pass,
        world,
    })
}
