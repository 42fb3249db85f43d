//! Connections that come over TCP.

ghost use Rattle.std.specs.Prelude.{◌≡◌, None, Ok, Err, IsErr, IfOk, IfSome, MatchResult, length};
ghost use Rattle.std.specs.Result.{is_err};
ghost use Rattle.std.specs.Io.{ReadsAtMost};
ghost use Rattle.sb_world.specs.Told.{CountsFaults};
ghost use Rattle.sb_host.specs.Outcomes.{count_after, is_passing_kind, limit_on, left_after};

use crate::ending::{Ending, Waited};
use sb_world::{ListenFault, Listener, ReadFault, Sink, Source, WriteFault};
use std::io::{self, BufReader, Read, Write};
use std::net::{SocketAddr, TcpListener, TcpStream};
use std::os::fd::AsRawFd;
use std::rt::HostRuntime;

/// The bytes that are read at once where fewer are asked for.
const PIECE: usize = 65_536;

/// Connections to an address, for one client. Several clients have the same address.
#[derive(Drop)]
pub struct HostListener {
    rt: HostRuntime,
    listener: TcpListener,
    ending: Ending,
    /// How many more it accepts, where there is a limit.
    left: Option<u32>,
    faults: u64,
}

/// What comes over a connection.
#[derive(Drop)]
pub struct ConnSource {
    stream: BufReader<TcpStream>,
    ending: Ending,
    faults: u64,
}

/// What goes over a connection.
#[derive(Drop)]
pub struct ConnSink {
    stream: TcpStream,
    ending: Ending,
    faults: u64,
}

/// A connection's two ends.
type Ends = (ConnSource, ConnSink);

impl HostListener {
    /// A listener at an address for at most so many connections, for any number where that is 0.
    pub(crate) fn bind(
        rt: HostRuntime,
        address: (&str, u16),
        ending: Ending,
        limit: u32,
    ) -> io::Result<HostListener>
        ensures { IfOk result (λ listener. listener.faults ≡ 0) }
    {
        let listener = TcpListener::bind(&rt, address)?;
        listener.set_nonblocking(true)?;
        Ok(HostListener {
            rt,
            listener,
            ending,
            left: limit_of(limit),
            faults: 0,
        })
    }

    /// Another listener at the same address.
    pub(crate) fn again(&self, limit: u32) -> io::Result<HostListener>
        ensures { IfOk result (λ listener. listener.faults ≡ 0) }
    {
        Ok(HostListener {
            rt: self.rt,
            listener: self.listener.try_clone()?,
            ending: self.ending,
            left: limit_of(limit),
            faults: 0,
        })
    }

    /// The address that it listens at.
    pub(crate) fn address(&self) -> io::Result<SocketAddr> {
        self.listener.local_addr()
    }

    /// The next connection, none where the process is to end.
    fn next(&self) -> io::Result<Option<TcpStream>> {
        for _ in 0..u64::MAX {
            if self.ending.wait_to_read(self.listener.as_raw_fd())? == Waited::Over {
                return Ok(None);
            }
            match self.listener.accept() {
                Ok((stream, _)) => return Ok(Some(stream)),
                Err(error) if is_passing(error.kind()) => {}
                Err(error) => return Err(error),
            }
        }
        Ok(None)
    }

    /// The two ends of the next connection.
    fn next_ends(&self) -> io::Result<Option<Ends>>
        ensures { IfOk result (λ found. IfSome found (λ ends. (ends.0.faults ≡ 0) × (ends.1.faults ≡ 0))) }
    {
        match self.next()? {
            Some(stream) => Ok(Some(ends_of(self.rt, stream, self.ending)?)),
            None => Ok(None),
        }
    }
}

impl HostListener {
    /// Answers an accept that ended so: a failure is never the end. A connection is one of those that it may accept.
    fn answer(&mut self, outcome: io::Result<Option<Ends>>) -> Result<Option<Ends>, ListenFault>
        ensures answer { MatchResult outcome (λ found. result ≡ Ok found) (λ _. result ≡ Err ListenFault.Failed) }
        ensures left { self.new.left ≡ left_after outcome self.old.left }
        ensures faults { self.new.faults ≡ count_after (is_err result) self.old.faults }
        ensures cause { CountsFaults self.old.faults self.new.faults (IsErr result) }
    {
        match outcome {
            Ok(Some(ends)) => {
                self.left = self.left.map(|left| left.saturating_sub(1));
                Ok(Some(ends))
            }
            Ok(None) => Ok(None),
            Err(_) => {
                self.faults = self.faults.saturating_add(1);
                Err(ListenFault::Failed)
            }
        }
    }
}

/// How many connections are accepted, where there is a limit.
fn limit_of(limit: u32) -> Option<u32>
    ensures { result ≡ limit_on limit }
{
    if limit == 0 { None } else { Some(limit) }
}

/// Whether another accept may go well: another client took the connection, or whoever made it has given it up.
fn is_passing(kind: io::ErrorKind) -> bool
    ensures { result ≡ is_passing_kind kind }
{
    matches!(
        kind,
        io::ErrorKind::WouldBlock | io::ErrorKind::Interrupted | io::ErrorKind::ConnectionAborted
    )
}

/// A connection's two ends. Small messages leave at once.
fn ends_of(rt: HostRuntime, stream: TcpStream, ending: Ending) -> io::Result<Ends>
    ensures { IfOk result (λ ends. (ends.0.faults ≡ 0) × (ends.1.faults ≡ 0)) }
{
    stream.set_nodelay(true)?;
    stream.set_nonblocking(true)?;
    let sink = ConnSink {
        stream: stream.try_clone()?,
        ending,
        faults: 0,
    };
    let source = ConnSource {
        stream: BufReader::with_capacity(rt.alloc(), PIECE, stream)?,
        ending,
        faults: 0,
    };
    Ok((source, sink))
}

impl Listener for HostListener {
    type Source = ConnSource;

    type Sink = ConnSink;

    ghost came = { λ _. None };

    ghost over = { λ _. None };

    ghost gave = { λ _. None };

    ghost faults = { λ listener. listener.faults };

    fn accept(&mut self) -> Result<Option<Ends>, ListenFault> {
        if self.left == Some(0) {
            return Ok(None);
        }
        let outcome = self.next_ends();
        self.answer(outcome)
    }

    fn back(&mut self, _source: ConnSource, _sink: ConnSink, _number: u64) {}
}

/// Reads into the front of `out` what has come. Where the process is to end, no more comes.
fn take(stream: &mut BufReader<TcpStream>, ending: Ending, out: &mut [u8]) -> io::Result<usize>
    ensures length { length out.new ≡ length out.old }
    ensures bound { ReadsAtMost result out.new }
{
    for _ in 0..u64::MAX {
        if stream.buffer().is_empty()
            && ending.wait_to_read(stream.get_ref().as_raw_fd())? == Waited::Over
        {
            return Ok(0);
        }
        match stream.read(out) {
            Err(error) if is_passing(error.kind()) => {}
            outcome => return outcome,
        }
    }
    Ok(0)
}

impl ConnSource {
    /// Answers a read that ended so: a failure is never the end.
    fn answer(&mut self, outcome: io::Result<usize>) -> Result<usize, ReadFault>
        ensures answer { MatchResult outcome (λ count. result ≡ Ok count) (λ _. result ≡ Err ReadFault.Failed) }
        ensures faults { self.new.faults ≡ count_after (is_err result) self.old.faults }
        ensures cause { CountsFaults self.old.faults self.new.faults (IsErr result) }
    {
        match outcome {
            Ok(count) => Ok(count),
            Err(_) => {
                self.faults = self.faults.saturating_add(1);
                Err(ReadFault::Failed)
            }
        }
    }
}

impl Source for ConnSource {
    ghost left = { λ _. None };

    ghost faults = { λ source. source.faults };

    fn read(&mut self, out: &mut [u8]) -> Result<usize, ReadFault> {
        let outcome = take(&mut self.stream, self.ending, out);
        self.answer(outcome)
    }
}

/// Writes all bytes.
fn give(stream: &mut TcpStream, ending: Ending, bytes: &[u8]) -> io::Result<()> {
    let mut rest = bytes;
    for _ in 0..u64::MAX {
        if rest.is_empty() {
            return Ok(());
        }
        match stream.write(rest) {
            Ok(0) => return Err(io::Error::from(io::ErrorKind::WriteZero)),
            Ok(count) => rest = &rest[count..],
            Err(error) if is_passing(error.kind()) => {
                ending.wait_to_write(stream.as_raw_fd())?;
            }
            Err(error) => return Err(error),
        }
    }
    Err(io::Error::from(io::ErrorKind::TimedOut))
}

impl ConnSink {
    /// Answers a write that ended so.
    fn answer(&mut self, outcome: io::Result<()>) -> Result<(), WriteFault>
        ensures answer { MatchResult outcome (λ _. result ≡ Ok tt) (λ _. result ≡ Err WriteFault.Failed) }
        ensures faults { self.new.faults ≡ count_after (is_err result) self.old.faults }
        ensures cause { CountsFaults self.old.faults self.new.faults (IsErr result) }
    {
        match outcome {
            Ok(()) => Ok(()),
            Err(_) => {
                self.faults = self.faults.saturating_add(1);
                Err(WriteFault::Failed)
            }
        }
    }
}

impl Sink for ConnSink {
    ghost held = { λ _. None };

    ghost faults = { λ sink. sink.faults };

    fn write(&mut self, bytes: &[u8]) -> Result<(), WriteFault> {
        let outcome = give(&mut self.stream, self.ending, bytes);
        self.answer(outcome)
    }
}
