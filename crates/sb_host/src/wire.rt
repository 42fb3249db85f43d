//! Connections over TCP.
//!
//! What it decides of an outcome stands in a small function, whose clauses are exact.

ghost use Rattle.std.specs.Prelude.{◌≡◌, None, Ok, Err, IsErr, MatchResult};
ghost use Rattle.std.specs.Result.{is_err};
ghost use Rattle.std.specs.Io.{ReadsAtMost};
ghost use Rattle.sb_world.specs.Told.{CountsFaults};
ghost use Rattle.sb_host.specs.Outcomes.{count_after};

use sb_world::{Wire, WireFault};
use std::io::{self, BufReader, Read, Write};
use std::net::{SocketAddr, TcpStream, ToSocketAddrs};
use std::rt::HostRuntime;
use std::time::{Duration, Instant};

/// How long one address may take to answer a connect, in seconds.
const CONNECT_LIMIT: u64 = 10;

/// How long a read may wait for a byte, and a write for room, in seconds.
const TURN_LIMIT: u64 = 30;

/// How long a connection may be read from, in seconds, so that no other side keeps a caller by a byte now and then.
const READING_LIMIT: u64 = 300;

/// The bytes that are read at once, and the most that are held back to be written at once.
const PIECE: usize = 65_536;

/// Connections over TCP to a host and a port, one after the other: a new one ends the one before. Each address of the
/// host's name is tried in turn. No call waits for the other side without a limit.
///
/// What is sent is held back up to 64 KiB, until something is received, so that a small request leaves in one write.
#[derive(Drop)]
pub struct TcpWire {
    rt: HostRuntime,
    host: String,
    port: u16,
    /// The newest one.
    connection: Option<Connection>,
    /// What is held back.
    held: Vec<u8>,
    faults: u64,
}

/// One connection.
#[derive(Drop)]
struct Connection {
    begun: Instant,
    stream: BufReader<TcpStream>,
}

impl Connection {
    /// Reads into the front of `out`, where the connection's time isn't over.
    fn read(&mut self, rt: &HostRuntime, out: &mut [u8]) -> io::Result<usize>
        ensures { ReadsAtMost result out.new }
    {
        if self.begun.elapsed(rt)? >= Duration::from_secs(READING_LIMIT) {
            return Err(io::Error::from(io::ErrorKind::TimedOut));
        }
        self.stream.read(out)
    }
}

impl TcpWire {
    /// A wire to a host, by its name or its IPv4 address, and a port. It takes no memory, and connects nothing yet.
    pub fn new(rt: HostRuntime, host: String, port: u16) -> TcpWire {
        TcpWire {
            rt,
            host,
            port,
            connection: None,
            held: Vec::new(rt.alloc()),
            faults: 0,
        }
    }

    /// Begins a connection to the first address that answers.
    fn open(&mut self) -> io::Result<()>
        ensures { self.new.faults ≡ self.old.faults }
    {
        self.connection = None;
        self.held.clear();
        let stream = connect_any(&self.rt, self.host.as_str(), self.port)?;
        self.connection = Some(Connection {
            begun: Instant::now(&self.rt)?,
            stream: BufReader::with_capacity(self.rt.alloc(), PIECE, stream)?,
        });
        Ok(())
    }

    /// Holds bytes back, or writes them behind those that are held back where they are too many together.
    fn hold_or_write(&mut self, bytes: &[u8]) -> io::Result<()>
        ensures { self.new.faults ≡ self.old.faults }
    {
        if self.connection.is_some()
            && self.held.len() < PIECE
            && bytes.len() <= PIECE - self.held.len()
            && self.held.extend_from_slice(bytes).is_ok()
        {
            return Ok(());
        }
        self.write_held()?;
        match &mut self.connection {
            Some(connection) => connection.stream.get_mut().write_all(bytes),
            None => Err(io::Error::from(io::ErrorKind::NotConnected)),
        }
    }

    /// Writes what is held back.
    fn write_held(&mut self) -> io::Result<()>
        ensures { self.new.faults ≡ self.old.faults }
    {
        match &mut self.connection {
            Some(connection) => connection.stream.get_mut().write_all(&self.held)?,
            None => return Err(io::Error::from(io::ErrorKind::NotConnected)),
        }
        self.held.clear();
        Ok(())
    }

    /// Reads into the front of `out`, behind a write of what is held back.
    fn write_and_read(&mut self, out: &mut [u8]) -> io::Result<usize>
        ensures faults { self.new.faults ≡ self.old.faults }
        ensures count { ReadsAtMost result out.new }
    {
        if !self.held.is_empty() {
            self.write_held()?;
        }
        match &mut self.connection {
            Some(connection) => connection.read(&self.rt, out),
            None => Err(io::Error::from(io::ErrorKind::NotConnected)),
        }
    }

    /// Answers a call that ended so: a failure is a fault of the wire, and is counted.
    fn answer<T>(&mut self, outcome: io::Result<T>) -> Result<T, WireFault>
        ensures answer { MatchResult outcome (λ value. result ≡ Ok value) (λ _. result ≡ Err WireFault.Failed) }
        ensures faults { self.new.faults ≡ count_after (is_err result) self.old.faults }
        ensures cause { CountsFaults self.old.faults self.new.faults (IsErr result) }
    {
        match outcome {
            Ok(value) => Ok(value),
            Err(_) => {
                self.faults = self.faults.saturating_add(1);
                Err(WireFault::Failed)
            }
        }
    }
}

/// A connection to the first address of a host that answers.
fn connect_any(rt: &HostRuntime, host: &str, port: u16) -> io::Result<TcpStream> {
    let mut last = io::Error::from(io::ErrorKind::NotFound);
    for address in (host, port).to_socket_addrs(rt)? {
        match connect_within(rt, &address) {
            Ok(stream) => return Ok(stream),
            Err(error) => last = error,
        }
    }
    Err(last)
}

/// A connection to an address, with limits on each call.
fn connect_within(rt: &HostRuntime, address: &SocketAddr) -> io::Result<TcpStream> {
    let stream = TcpStream::connect_timeout(rt, address, Duration::from_secs(CONNECT_LIMIT))?;
    stream.set_nodelay(true)?;
    let limit = Some(Duration::from_secs(TURN_LIMIT));
    stream.set_read_timeout(limit)?;
    stream.set_write_timeout(limit)?;
    Ok(stream)
}

impl Wire for TcpWire {
    ghost connections = { λ _. None };

    ghost faults = { λ wire. wire.faults };

    fn connect(&mut self) -> Result<(), WireFault> {
        let outcome = self.open();
        self.answer(outcome)
    }

    fn send(&mut self, bytes: &[u8]) -> Result<(), WireFault> {
        let outcome = self.hold_or_write(bytes);
        self.answer(outcome)
    }

    fn receive(&mut self, out: &mut [u8]) -> Result<usize, WireFault> {
        let outcome = self.write_and_read(out);
        self.answer(outcome)
    }
}
