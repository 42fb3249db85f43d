//! The top call.

ghost use Rattle.std.specs.Prelude.{◌≡◌, ◌≤◌, ◌<◌, ◌∷◌, [], ◌⊎◌, IfSome, IfOk, IfErr, codes, length, List, map};
ghost use Rattle.std.specs.Prelude.{string_bytes};
ghost use Rattle.sb_world.specs.Told.{Gains, Rose};
ghost use Rattle.sb_world.specs.Worlds.{SaysLine, with_said};
ghost use Rattle.sb_base.specs.Shapes.{IsSound};
ghost use Rattle.sb_core.specs.Cores.{geometry_of};
ghost use Rattle.sb_crew.specs.Desks.{HasRoom};
ghost use Rattle.sb_names.specs.declared.names.TheConstants.{MAX_PREFIX};
ghost use Rattle.s3backer.specs.Fresh.{IsFresh};
ghost use Rattle.s3backer.specs.Plans.{naming_of};
ghost use Rattle.s3backer.specs.Views.{telling, gear_of, view_of};
ghost use Rattle.s3backer.specs.Wordings.{SaysUsage};
ghost use Rattle.s3backer.specs.Headline.{
  run_status,
  run_line,
  flush_status,
  flush_line,
  store_fault_line,
  fault_line,
  LastFlushDoes,
  ComplainsOf,
  Complains,
  ServesSession,
  Serves,
  ServesBench,
  SingleEnds,
};
ghost use Rattle.s3backer.specs.Runs.{
  server_status,
  server_line,
  served_status,
  served_line,
  SaysAny,
  ServerRuns,
  RunEnds,
};
ghost use Rattle.sb_server.specs.Mounts.{CanBeServed};
ghost use Rattle.sb_server.specs.Servers.{ServerEnds};
ghost use Rattle.sb_server.specs.Tellings.{telling as server_telling};
ghost use Rattle.sb_world.specs.Benches.{HasPauses};

use crate::plan::Plan;
use crate::settings::SETTINGS;
use crate::wording::usage_line;
use crate::words::{PlanFault, Usage, plan};
use arrayvec::ArrayString;
use sb_base::Geometry;
use sb_core::Core;
use sb_crew::{Alone, Calls, Desk, DeskRefused, FlushFault, Names};
use sb_laws::{sound_flushes, sound_is_legal, sound_survives_crash, stale_is_young};
use sb_nbd::NbdEnd;
use sb_server::{Mount, ServeFault, ServerEnd, serve_mount};
use sb_session::{Buffer, SessionEnd, serve_alone};
use sb_turn::Pass;
use sb_world::{Bench, Clock, Link, MakeFault, Meta, Sink, Source, Tape, World};
use sb_zero::Zeros;
use std::alloc::{AllocError, Global};
use std::sync::Wait;
use std::thread::Threads;
use std::time;

/// What a run leaves: the exit status, the tape, and the pass of a server's disk, where one was made.
#[derive(Drop)]
pub struct Outcome<T> {
    pub status: u8,
    pub tape: T,
    pub pass: Option<Pass<Core>>,
}

/// What serving a session leaves: the exit status, and what it was lent.
#[derive(Drop)]
struct Served<T, L, C> {
    status: u8,
    tape: T,
    link: L,
    clock: C,
}

/// The line that tells want of memory.
const OUT_OF_MEMORY: &[u8] = b"s3backer: out of memory\n";

/// The status of a session's end and of the flush after it: that of the first fault.
fn status_of(end: SessionEnd, flushed: Result<(), FlushFault>) -> u8
    ensures { result ≡ run_status end flushed }
{
    match end {
        SessionEnd::Disconnected | SessionEnd::Aborted | SessionEnd::Ended => flush_status(flushed),
        SessionEnd::NoSuchExport(_) | SessionEnd::Fault(_) | SessionEnd::Spent => 7,
    }
}

/// The status of the last flush.
fn flush_status(flushed: Result<(), FlushFault>) -> u8
    ensures { result ≡ flush_status flushed }
{
    match flushed {
        Ok(()) => 0,
        Err(FlushFault::StoreFault { status: _ }) => 3,
        Err(FlushFault::ClockStalled { .. }) => 11,
        Err(FlushFault::Memory) => 12,
    }
}

/// Writes the line of the first fault of a session and the flush after it, if there is one.
fn complain_of<S: Sink>(errors: &mut S, end: SessionEnd, flushed: Result<(), FlushFault>)
    ensures { ComplainsOf (run_line end flushed) (S.held errors.old) (S.held errors.new) (S.faults errors.old)
        (S.faults errors.new) }
{
    match end {
        SessionEnd::Disconnected | SessionEnd::Aborted | SessionEnd::Ended => {
            complain_of_flush(errors, flushed)
        }
        SessionEnd::NoSuchExport(_) => complain(errors, b"s3backer: session: no such export\n"),
        SessionEnd::Fault(fault) => complain_of_fault(errors, fault),
        SessionEnd::Spent => complain(errors, b"s3backer: session: spent\n"),
    }
}

/// Writes the line of a session's fault.
fn complain_of_fault<S: Sink>(errors: &mut S, fault: NbdEnd)
    ensures { Complains (S.held errors.old) (S.held errors.new) (S.faults errors.old) (S.faults errors.new)
        (fault_line fault) }
{
    match fault {
        NbdEnd::Ended => complain(errors, b"s3backer: session: cut\n"),
        NbdEnd::Cut { .. } => complain(errors, b"s3backer: session: cut\n"),
        NbdEnd::BadMagic(_) => complain(errors, b"s3backer: session: magic\n"),
        NbdEnd::BadFlags(_) => complain(errors, b"s3backer: session: flags\n"),
        NbdEnd::TooBig { .. } => complain(errors, b"s3backer: session: too big\n"),
        NbdEnd::ReadFault => complain(errors, b"s3backer: session: read fault\n"),
        NbdEnd::WriteFault => complain(errors, b"s3backer: session: write fault\n"),
    }
}

/// Writes the line of a flush's fault, if it has one.
fn complain_of_flush<S: Sink>(errors: &mut S, flushed: Result<(), FlushFault>)
    ensures { ComplainsOf (flush_line flushed) (S.held errors.old) (S.held errors.new) (S.faults errors.old)
        (S.faults errors.new) }
{
    match flushed {
        Ok(()) => {}
        Err(FlushFault::StoreFault { status }) => complain(
            errors,
            store_fault_line(status).as_str().as_bytes(),
        ),
        Err(FlushFault::ClockStalled { .. }) => complain(errors, b"s3backer: clock stands still\n"),
        Err(FlushFault::Memory) => complain(errors, OUT_OF_MEMORY),
    }
}

/// The line that tells a fault of the store.
fn store_fault_line(status: u16) -> ArrayString<28>
    ensures { result.bytes ≡ store_fault_line status }
{
    let mut digits = itoa::Buffer::new();
    let mut line = ArrayString::new();
    line.push_str("s3backer: store fault ");
    line.push_str(digits.format(status));
    line.push_str("\n");
    line
}

/// Writes a line. A fault of that changes nothing else.
fn complain<S: Sink>(errors: &mut S, line: &[u8])
    ensures { Complains (S.held errors.old) (S.held errors.new) (S.faults errors.old) (S.faults errors.new) line.now }
{
    match errors.write(line) {
        Ok(()) => {}
        Err(_) => {}
    }
}

/// What a session is served with: a core, a buffer and the names of objects.
fn make(alloc: Global, plan: &Plan) -> Result<(Core, Buffer, Names), AllocError>
    requires { IsSound plan.now.geometry }
    ensures core { IfOk result (λ made. IsFresh plan.now.geometry made.0) }
    ensures names { IfOk result (λ made. made.2 ≡ naming_of plan.now) }
{
    let zeros = Zeros::new(alloc, plan.geometry.blocks)?;
    let core = Core::new(alloc, plan.geometry, SETTINGS, zeros)?;
    let buffer = Buffer::new(alloc)?;
    let names = Names {
        prefix: String::from_str(alloc, plan.prefix.as_str())?,
        hashed: plan.hashed,
        meta: Meta {
            size: plan.geometry.size(),
            block_size: plan.geometry.block_size,
        },
    };
    Ok((core, buffer, names))
}

/// Flushes a disk after its session, unless it is read-only.
fn flush_last<K, D: Calls<K>>(disk: &mut D, desk: &mut K, read_only: bool) -> Result<(), FlushFault>
    requires { D.ready disk.old desk.old }
    ensures ready { D.ready disk.new desk.new }
    ensures did { LastFlushDoes read_only (D.base disk.old) (D.did disk.old desk.old disk.new desk.new) result }
{
    if read_only { Ok(()) } else { disk.flush(desk) }
}

/// Serves a session over a new disk, and then flushes it, unless it is read-only.
fn serve_disk<L: Link, C: Clock, R: Source, S: Sink, T: Tape>(
    plan: &Plan,
    core: Core,
    mut buffer: Buffer,
    names: Names,
    mut desk: Desk<L, C>,
    tape: T,
    input: &mut R,
    output: &mut S,
    errors: &mut S,
) -> Served<T, L, C>
    requires sound { IsSound plan.now.geometry }
    requires prefix { length plan.now.prefix ≤ MAX_PREFIX }
    requires fresh { IsFresh plan.now.geometry core }
    requires names { names ≡ naming_of plan.now }
    requires room { HasRoom plan.now.geometry desk }
    ensures { let view = view_of (telling L.Link C.Clock R.Source S.Sink) in
        ServesSession plan.now
        (view (gear_of desk.link desk.clock input.old output.old errors.old) (T.told tape))
        (view (gear_of result.link result.clock input.new output.new errors.new) (T.told result.tape)) result.status }
{
    sound_is_legal();
    sound_flushes();
    sound_survives_crash();
    stale_is_young();
    let read_only = plan.read_only;
    let mut disk = Alone::new(core, names, tape);
    let end = serve_alone(&mut disk, &mut desk, read_only, &mut buffer, input, output);
    let flushed = flush_last(&mut disk, &mut desk, read_only);
    complain_of(errors, end, flushed);
    let (_core, tape) = disk.finish();
    let (link, clock) = desk.into_parts();
    Served {
        status: status_of(end, flushed),
        tape,
        link,
        clock,
    }
}

/// Serves a session with the parts of a bench.
fn serve_parts<L: Link + Drop, C: Clock + Drop, R: Source, S: Sink, T: Tape + Drop>(
    alloc: Global,
    plan: &Plan,
    link: L,
    clock: C,
    tape: T,
    input: &mut R,
    output: &mut S,
    errors: &mut S,
) -> Served<T, L, C>
    requires sound { IsSound plan.now.geometry }
    requires prefix { length plan.now.prefix ≤ MAX_PREFIX }
    ensures { Serves (telling L.Link C.Clock R.Source S.Sink) plan.now
        (gear_of link clock input.old output.old errors.old)
        (gear_of result.link result.clock input.new output.new errors.new)
        (T.told tape) (T.told result.tape) result.status }
{
    let (core, buffer, names) = match make(alloc, plan) {
        Ok(made) => made,
        Err(_) => {
            return lacks_memory(errors, tape, link, clock);
        }
    };
    match Desk::new(alloc, link, clock, &plan.geometry) {
        Ok(desk) => serve_disk(plan, core, buffer, names, desk, tape, input, output, errors),
        Err(refused) => {
            let DeskRefused { link, clock } = refused;
            lacks_memory(errors, tape, link, clock)
        }
    }
}

/// Tells want of memory for a session.
fn lacks_memory<T, L, C, S: Sink>(errors: &mut S, tape: T, link: L, clock: C) -> Served<T, L, C>
    ensures complains { Complains (S.held errors.old) (S.held errors.new) (S.faults errors.old) (S.faults errors.new)
        (codes "s3backer: out of memory\n") }
    ensures lent { result ≡ record { status = 12; tape = tape; link = link; clock = clock } }
{
    complain(errors, OUT_OF_MEMORY);
    Served {
        status: 12,
        tape,
        link,
        clock,
    }
}

/// Serves a session on a bench that has a link, and gives the bench back.
pub fn run_single<W: World, T: Tape + Drop>(
    alloc: Global,
    plan: &Plan,
    bench: Bench<W::Link, W::Clock, W::Source, W::Sink>,
    tape: T,
) -> (u8, T, Bench<W::Link, W::Clock, W::Source, W::Sink>)
where
    W::Link: Drop,
    W::Clock: Drop,
    requires sound { IsSound plan.now.geometry }
    requires prefix { length plan.now.prefix ≤ MAX_PREFIX }
    requires link { 0 < length bench.links }
    ensures { ServesBench (telling W.Link.Link W.Clock.Clock W.Source.Source W.Sink.Sink) plan.now bench result.2
        (T.told tape) (T.told result.1) result.0 }
{
    let Bench {
        mut links,
        clock,
        mut input,
        mut output,
        mut errors,
    } = bench;
    let link = match links.pop() {
        Some(link) => link,
        None => unreachable!(),
    };
    let Served {
        status,
        tape,
        link,
        clock,
    } = serve_parts(
        alloc,
        plan,
        link,
        clock,
        tape,
        &mut input,
        &mut output,
        &mut errors,
    );
    match links.push(link) {
        Ok(()) => {}
        Err(_failed) => unreachable!(),
    }
    let bench = Bench {
        links,
        clock,
        input,
        output,
        errors,
    };
    (status, tape, bench)
}

/// Says a line, and leaves this status.
fn ends_unserved<W: World, T>(world: &mut W, line: &[u8], status: u8, tape: T) -> Outcome<T>
    ensures says { SaysLine (W.view world.old) (W.view world.new) line.now }
    ensures outcome { result ≡ record { status = status; tape = tape; pass = None } }
{
    world.say(line);
    Outcome {
        status,
        tape,
        pass: None,
    }
}

/// Runs the program on these words in a world, with its history on the tape.
///
/// Over standard input and output the status is 0 where the session ended at DISC, at ABORT or between two messages and
/// the store has all that was written, 2
/// where the words aren't taken, 3 where the store can't be reached or the last flush failed, 7 where the session ended
/// otherwise, 11 where the clock stood still at the last flush, and 12 for want of memory. A status other than 0 has
/// its line on the bench's error sink, or is said where there is no bench.
///
/// At an address the status is 0 where each client ended since no more connections come and the store has all that was
/// written, 10 where the address can't be listened on or a client's listener failed, and else as above. The pass knows
/// what happened to the disk.
pub fn run<H: Threads + Wait + time::Clock + Sync, W: World, T: Tape + Drop>(
    rt: &H,
    alloc: Global,
    words: &[String],
    world: &mut W,
    tape: T,
) -> Outcome<T>
where
    W::Listener: Drop,
    W::Link: Drop,
    W::Clock: Drop,
    W::Source: Drop,
    W::Sink: Drop,
    W::Gate: Drop,
    ensures { RunEnds (telling W.Link.Link W.Clock.Clock W.Source.Source W.Sink.Sink) (ServerEnds (server_telling
        W.Listener.Listener W.Link.Link W.Clock.Clock W.Listener.Source.Source W.Listener.Sink.Sink)
        W.Listener.Listener W.Link.Link W.Clock.Clock) (map string_bytes words.now) (W.view world.old)
        (W.view world.new) (T.told tape) (T.told result.tape) result.status result.pass }
{
    let plan = match plan(alloc, words) {
        Ok(plan) => plan,
        Err(PlanFault::Usage(usage)) => {
            say_usage(alloc, world, &usage);
            return Outcome {
                status: 2,
                tape,
                pass: None,
            };
        }
        Err(PlanFault::Memory) => return ends_unserved(world, OUT_OF_MEMORY, 12, tape),
    };
    match plan.into_mount() {
        Ok(mount) => {
            let (status, pass) = run_server(rt, alloc, &mount, world);
            Outcome { status, tape, pass }
        }
        Err(plan) => run_stdio(alloc, &plan, world, tape),
    }
}

/// Runs the program over standard input and output.
fn run_stdio<W: World, T: Tape + Drop>(
    alloc: Global,
    plan: &Plan,
    world: &mut W,
    tape: T,
) -> Outcome<T>
where
    W::Link: Drop,
    W::Clock: Drop,
    requires sound { IsSound plan.now.geometry }
    requires prefix { length plan.now.prefix ≤ MAX_PREFIX }
    requires pauses { HasPauses (Some plan.now.store) }
    ensures ends { SingleEnds (telling W.Link.Link W.Clock.Clock W.Source.Source W.Sink.Sink) plan.now
        (W.view world.old) (W.view world.new) (T.told tape) (T.told result.tape) result.status }
    ensures none { result.pass ≡ None }
{
    match world.bench(Some(&plan.store), 1) {
        Ok(bench) => {
            let (status, tape, bench) = run_single::<W, T>(alloc, plan, bench, tape);
            world.shut(bench);
            Outcome {
                status,
                tape,
                pass: None,
            }
        }
        Err(MakeFault::Store) => {
            ends_unserved(world, b"s3backer: cannot reach the store\n", 3, tape)
        }
        Err(MakeFault::Listen) => unreachable!(),
        Err(MakeFault::Memory) => ends_unserved(world, OUT_OF_MEMORY, 12, tape),
    }
}

/// Serves a disk at an address, and says how that failed. It leaves the status, and the pass that knows what happened to
/// the disk.
pub fn run_server<H: Threads + Wait + time::Clock + Sync, W: World>(
    rt: &H,
    alloc: Global,
    mount: &Mount,
    world: &mut W,
) -> (u8, Option<Pass<Core>>)
where
    W::Listener: Drop,
    W::Link: Drop,
    W::Clock: Drop,
    W::Source: Drop,
    W::Sink: Drop,
    W::Gate: Drop,
    requires { CanBeServed mount.now }
    ensures { ServerRuns (telling W.Link.Link W.Clock.Clock W.Source.Source W.Sink.Sink) (ServerEnds (server_telling
        W.Listener.Listener W.Link.Link W.Clock.Clock W.Listener.Source.Source W.Listener.Sink.Sink)
        W.Listener.Listener W.Link.Link W.Clock.Clock) mount.now (W.view world.old) (W.view world.new) result.0
        result.1 }
{
    match serve_mount(rt, alloc, mount, world) {
        ServerEnd::Unmade(fault) => {
            world.say(unmade_line(fault));
            (unmade_status(fault), None)
        }
        ServerEnd::Served {
            pass,
            result: served,
        } => {
            say_served(world, served);
            (served_status(served), Some(pass))
        }
    }
}

/// The line that tells why no disk was made.
fn unmade_line(fault: MakeFault) -> &'static [u8]
    ensures { Some result.now ≡ server_line (ServerEnd.Unmade fault) }
{
    match fault {
        MakeFault::Store => b"s3backer: cannot reach the store\n",
        MakeFault::Listen => b"s3backer: listen fault\n",
        MakeFault::Memory => OUT_OF_MEMORY,
    }
}

/// The status of a server without a disk.
fn unmade_status(fault: MakeFault) -> u8
    ensures { result ≡ server_status (ServerEnd.Unmade fault) }
{
    match fault {
        MakeFault::Store => 3,
        MakeFault::Listen => 10,
        MakeFault::Memory => 12,
    }
}

/// Says how a server failed that had a disk.
fn say_served<W: World>(world: &mut W, served: Result<(), ServeFault>)
    ensures { SaysAny (served_line served) (W.view world.old) (W.view world.new) }
{
    match served {
        Ok(()) => {}
        Err(ServeFault::Listen) => world.say(b"s3backer: listen fault\n"),
        Err(ServeFault::Flush(FlushFault::StoreFault { status })) => {
            world.say(store_fault_line(status).as_str().as_bytes())
        }
        Err(ServeFault::Flush(FlushFault::ClockStalled { .. })) => {
            world.say(b"s3backer: clock stands still\n")
        }
        Err(ServeFault::Flush(FlushFault::Memory)) => world.say(OUT_OF_MEMORY),
    }
}

/// The status of a server that had a disk.
fn served_status(served: Result<(), ServeFault>) -> u8
    ensures { result ≡ served_status served }
{
    match served {
        Ok(()) => 0,
        Err(ServeFault::Listen) => 10,
        Err(ServeFault::Flush(fault)) => flush_status(Err(fault)),
    }
}

/// Says why words are not taken. Without memory for the wording it says that they aren't.
fn say_usage<W: World>(alloc: Global, world: &mut W, usage: &Usage)
    ensures says { SaysUsage usage.now (W.view world.old).said (W.view world.new).said }
    ensures others { W.view world.new ≡ with_said (W.view world.new).said (W.view world.old) }
{
    match usage_line(alloc, usage) {
        Ok(line) => world.say(&line),
        Err(_) => world.say(b"s3backer: usage: \n"),
    }
}
