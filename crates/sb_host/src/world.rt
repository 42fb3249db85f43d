//! The world of a process, with buckets and directories as stores.

ghost use Rattle.std.specs.Prelude.{◌≡◌, None, Some, IfErr, IfOk, vec_len, false};
ghost use Rattle.sb_world.specs.Benches.{HasPauses};
ghost use Rattle.sb_world.specs.Told.{CountsJust};
ghost use Rattle.sb_world.specs.Worlds.{make_failed, HangsUp, IsOfStore, SaysLine};
ghost use Rattle.sb_host.specs.Outcomes.{fault_of_making, fault_of_listening};
ghost use Rattle.sb_host.specs.Stores.{AreUnused, IsUnusedStore};

use crate::clock::HostClock;
use crate::ending::Ending;
use crate::folder::HostFolder;
use crate::store::Store;
use crate::streams::{HostSink, HostSource};
use crate::tcp::HostListener;
use crate::wire::TcpWire;
use sb_base::{Access, Geometry, StorePlan, Text};
use sb_world::{Bench, Gate, MakeFault, World};
use std::fmt::Write;
use std::io::{self, Print};
use std::process;
use std::random::RandomSource;
use std::rt::HostRuntime;
use std::time::Instant;

/// A bucket over TCP, or a directory of the file system.
type HostLink = Store<TcpWire, HostFolder, HostClock>;

/// The world of a process.
#[derive(Drop)]
pub struct HostWorld {
    rt: HostRuntime,
    /// When it was made: the readings of all its clocks count from here on.
    origin: Option<Instant>,
    /// Whether standard input tells the end.
    ending: Ending,
    /// What listens for the clients, with its address as it was asked for.
    bound: Option<Bound>,
    faults: u64,
}

/// A listener, of which each client has one of its own, and its address as it was asked for.
#[derive(Drop)]
struct Bound {
    address: Text,
    listener: HostListener,
}

/// Nothing stands round the store calls of workers.
#[derive(Drop, Clone, Copy)]
pub struct HostGate;

impl Gate for HostGate {
    fn before(&self, _worker: u32, _call: u64) {}

    fn after(&self, _worker: u32, _call: u64) {}
}

impl HostWorld {
    /// The world of this process.
    pub fn new(rt: HostRuntime) -> HostWorld {
        HostWorld {
            rt,
            origin: Instant::now(&rt).ok(),
            ending: Ending::of_input(),
            bound: None,
            faults: 0,
        }
    }

    /// A listener for one client. The address is bound where it isn't yet.
    fn listen(&mut self, address: &Text, limit: u32) -> io::Result<HostListener>
        ensures anew { IfOk result (λ listener. listener.faults ≡ 0) }
        ensures counted { self.new.faults ≡ self.old.faults }
    {
        if let Some(bound) = &self.bound {
            if bound.address.bytes() == address.bytes() {
                return bound.listener.again(limit);
            }
        }
        let listener = HostListener::bind(self.rt, host_and_port(address)?, self.ending, limit)?;
        let client = listener.again(limit)?;
        let address = address.copy(self.rt.alloc())?;
        self.bound = Some(Bound { address, listener });
        Ok(client)
    }

    /// The line that tells that a disk is served, and where.
    fn serving_line(&self, geometry: &Geometry) -> Option<String> {
        let address = self.bound.as_ref()?.listener.address().ok()?;
        let mut line = String::new(self.rt.alloc());
        writeln!(
            line,
            "s3backer: serving {} bytes in blocks of {} at {}",
            geometry.size(),
            geometry.block_size,
            address
        )
        .ok()?;
        Some(line)
    }

    /// So many links to a store.
    fn links(&mut self, store: &StorePlan, count: u32) -> Result<Vec<HostLink>, MakeFault>
        requires { HasPauses (Some store.now) }
        ensures count { IfOk result (λ links. vec_len links ≡ count) }
        ensures unused { IfOk result (λ links. AreUnused links.items) }
        ensures fits { IfErr result IsOfStore }
        ensures counted { CountsJust self.old.faults self.new.faults (make_failed result) }
    {
        let fault = match open_links(self.rt, self.origin, store, count) {
            Ok(links) => return Ok(links),
            Err(error) => make_fault(error.kind()),
        };
        if fault == MakeFault::Store {
            self.faults = self.faults.saturating_add(1);
        }
        Err(fault)
    }
}

impl World for HostWorld {
    ghost use Rattle.sb_host.specs.Worlds.{world_view};

    type Link = HostLink;

    type Clock = HostClock;

    type Source = HostSource;

    type Sink = HostSink;

    type Listener = HostListener;

    type Gate = HostGate;

    ghost view = { world_view };

    fn bench(
        &mut self,
        store: Option<&StorePlan>,
        links: u32,
    ) -> Result<Bench<HostLink, HostClock, HostSource, HostSink>, MakeFault> {
        let links = match store {
            Some(store) => self.links(store, links)?,
            None => Vec::new(self.rt.alloc()),
        };
        Ok(Bench {
            links,
            clock: HostClock::new(self.rt, self.origin),
            input: HostSource::input(self.rt),
            output: HostSink::output(self.rt),
            errors: HostSink::errors(self.rt),
        })
    }

    fn shut(&mut self, _bench: Bench<HostLink, HostClock, HostSource, HostSink>)
        ensures { world_view self.new ≡ world_view self.old }
    {}

    fn desk(&mut self, store: &StorePlan) -> Result<(HostLink, HostClock), MakeFault> {
        let fault = match open_link(self.rt, self.origin, store) {
            Ok(link) => return Ok((link, HostClock::new(self.rt, self.origin))),
            Err(error) => make_fault(error.kind()),
        };
        if fault == MakeFault::Store {
            self.faults = self.faults.saturating_add(1);
        }
        Err(fault)
    }

    fn listener(&mut self, address: &Text, limit: u32) -> Result<HostListener, MakeFault> {
        let fault = match self.listen(address, limit) {
            Ok(listener) => return Ok(listener),
            Err(error) => listen_fault(error.kind()),
        };
        if fault == MakeFault::Listen {
            self.faults = self.faults.saturating_add(1);
        }
        Err(fault)
    }

    fn gate(&mut self) -> HostGate {
        HostGate
    }

    fn serving(&mut self, geometry: &Geometry) {
        if let Some(line) = self.serving_line(geometry) {
            match self.rt.stderr().write_all(line.as_bytes()) {
                Ok(()) | Err(_) => {}
            }
        }
    }

    fn token(&mut self) -> u32 {
        random_token(&self.rt)
    }

    fn hang_up(&mut self, listener: Option<HostListener>, desk: Option<(HostLink, HostClock)>)
        ensures { HangsUp (world_view self.old) (world_view self.new) listener desk }
    {
        drop(listener);
        drop(desk);
    }

    fn say(&mut self, line: &[u8])
        ensures { SaysLine (world_view self.old) (world_view self.new) line.now }
    {
        match self.rt.stderr().write_all(line) {
            Ok(()) | Err(_) => {}
        }
    }
}

/// Why no bench was made, by a kind of error.
fn make_fault(kind: io::ErrorKind) -> MakeFault
    ensures { result ≡ fault_of_making kind }
{
    match kind {
        io::ErrorKind::OutOfMemory => MakeFault::Memory,
        _ => MakeFault::Store,
    }
}

/// Why no listener was made, by a kind of error.
fn listen_fault(kind: io::ErrorKind) -> MakeFault
    ensures { result ≡ fault_of_listening kind }
{
    match kind {
        io::ErrorKind::OutOfMemory => MakeFault::Memory,
        _ => MakeFault::Listen,
    }
}

/// A number from the system's source of random ones, and this process's where that gives none.
fn random_token(rt: &HostRuntime) -> u32 {
    let mut bytes = [0; 4];
    match rt.fill_bytes(&mut bytes) {
        Ok(()) => u32::from_le_bytes(bytes),
        Err(_) => process::id(rt.process()),
    }
}

/// The host and the port of an address, which are apart by its last colon.
fn host_and_port(address: &Text) -> io::Result<(&str, u16)> {
    let (host, port) = as_text(address)?
        .rsplit_once(':')
        .ok_or(io::Error::from(io::ErrorKind::InvalidInput))?;
    match port.parse() {
        Ok(port) => Ok((host, port)),
        Err(_) => Err(io::Error::from(io::ErrorKind::InvalidInput)),
    }
}

/// So many links to a store. No request is made.
fn open_links(
    rt: HostRuntime,
    origin: Option<Instant>,
    store: &StorePlan,
    count: u32,
) -> io::Result<Vec<HostLink>>
    requires { HasPauses (Some store.now) }
    ensures count { IfOk result (λ links. vec_len links ≡ count) }
    ensures unused { IfOk result (λ links. AreUnused links.items) }
{
    let mut links = Vec::new(rt.alloc());
    for _i in 0..count {
        links.push(open_link(rt, origin, store)?)?;
    }
    Ok(links)
}

/// A link to a store, with clocks whose readings count from an origin.
fn open_link(rt: HostRuntime, origin: Option<Instant>, store: &StorePlan) -> io::Result<HostLink>
    requires { HasPauses (Some store.now) }
    ensures { IfOk result IsUnusedStore }
{
    let (id, key) = access_of(store)?;
    let wire = open_wire(rt, store)?;
    let folder = open_folder(rt, store)?;
    let clock = HostClock::new(rt, origin);
    let second = HostClock::new(rt, origin);
    Ok(Store::of(rt.alloc(), store, id, key, wire, folder, clock, second)?)
}

/// The access id of a store and its secret key, each empty for a directory. A file of keys isn't read yet.
fn access_of(store: &StorePlan) -> io::Result<(&[u8], &[u8])> {
    match store {
        StorePlan::Dir { path: _ } => Ok((&[], &[])),
        StorePlan::S3 { access, .. } => match access {
            Access::Given { id, key } => Ok((id.bytes(), key.bytes())),
            Access::File { .. } => Err(io::Error::from(io::ErrorKind::Unsupported)),
        },
    }
}

/// The wire to a bucket's server, and to no host for a directory. The name that is resolved is the one in the header
/// `host`: with `vhost` the bucket's stands before the host's.
fn open_wire(rt: HostRuntime, store: &StorePlan) -> io::Result<TcpWire> {
    let mut name = String::new(rt.alloc());
    let StorePlan::S3 {
        host,
        port,
        bucket,
        vhost,
        ..
    } = store
    else {
        return Ok(TcpWire::new(rt, name, 0));
    };
    if *vhost {
        name.push_str(as_text(bucket)?)?;
        name.push_str(".")?;
    }
    name.push_str(as_text(host)?)?;
    Ok(TcpWire::new(rt, name, *port))
}

/// The directory of a store, and none for a bucket.
fn open_folder(rt: HostRuntime, store: &StorePlan) -> io::Result<HostFolder> {
    match store {
        StorePlan::Dir { path } => HostFolder::open(rt, as_text(path)?),
        StorePlan::S3 { .. } => Ok(HostFolder::nowhere(rt)),
    }
}

/// A path or the name of a host, which is UTF-8.
fn as_text(text: &Text) -> io::Result<&str> {
    match std::str::from_utf8(text.bytes()) {
        Ok(text) => Ok(text),
        Err(_) => Err(io::Error::from(io::ErrorKind::InvalidFilename)),
    }
}
