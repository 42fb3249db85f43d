//! A server in a world in memory: what it hands over. The bytes are those of the NBD protocol document.

ghost use Rattle.std.specs.Prelude.{IfOk};
ghost use Rattle.sb_server.specs.Mounts.{CanBeServed};

use sb_base::{Geometry, Settings, StorePlan, Text};
use sb_fakes::{HandClock, MemoryConn, MemoryListener, MemoryWorld, SharedLink, TimedStore};
use sb_server::{Mount, ServerEnd, serve_mount};
use std::alloc::Global;
use std::test::Fail;

/// One client and two workers.
const SETTINGS: Settings = Settings {
    min_write_delay: 0,
    md5_time: 0,
    md5_size: 0,
    cache_size: 4,
    write_delay: 250,
    clean_time: 0,
    max_dirty: 0,
    stale_limit: 5000,
    read_ahead: 0,
    read_ahead_trigger: 0,
    threads: 2,
    clients: 1,
};

/// The header of a request: its type and cookie, and the last bytes of its offset and its length.
pub(crate) fn request(kind: u8, cookie: u8, offset: [u8; 2], length: [u8; 2]) -> [u8; 28] {
    [
        0x25, 0x60, 0x95, 0x13, 0, 0, 0, kind, 0, 0, 0, 0, 0, 0, 0, cookie, 0, 0, 0, 0, 0, 0,
        offset[0], offset[1], 0, 0, length[0], length[1],
    ]
}

/// The flags, EXPORT_NAME, a WRITE of a block of `A`, a FLUSH, a READ of the two bytes around its end, and DISC.
fn input_of(alloc: Global) -> Result<Text, Fail> {
    let mut input = Vec::new(alloc);
    input.extend_from_slice(b"\x00\x00\x00\x03IHAVEOPT\x00\x00\x00\x01\x00\x00\x00\x00")?;
    input.extend_from_slice(&request(1, 1, [0, 0], [0x10, 0]))?;
    input.extend_from_slice(&[b'A'; 4096])?;
    input.extend_from_slice(&request(3, 2, [0, 0], [0, 0]))?;
    input.extend_from_slice(&request(0, 3, [0x0f, 0xff], [0, 2]))?;
    input.extend_from_slice(&request(2, 0, [0, 0], [0, 0]))?;
    Ok(Text::from_vec(input))
}

/// What is written for it, over a disk of 65,536 bytes.
const OUTPUT: &[u8] = b"NBDMAGICIHAVEOPT\x00\x03\x00\x00\x00\x00\x00\x01\x00\x00\x01\x6d\
    \x67\x44\x66\x98\x00\x00\x00\x00\x00\x00\x00\x00\x00\x00\x00\x01\
    \x67\x44\x66\x98\x00\x00\x00\x00\x00\x00\x00\x00\x00\x00\x00\x02\
    \x67\x44\x66\x98\x00\x00\x00\x00\x00\x00\x00\x00\x00\x00\x00\x03A\x00";

/// A disk of 65,536 bytes with these settings.
pub(crate) fn mount_of(alloc: Global, settings: Settings) -> Result<Mount, Fail>
    ensures { IfOk result CanBeServed }
{
    let geometry = Geometry::make(65_536, 4096)?;
    settings.check(Some(geometry.blocks))?;
    Ok(Mount {
        store: StorePlan::Dir {
            path: Text::of(alloc, b"disk")?,
        },
        prefix: String::new(alloc),
        hashed: false,
        geometry,
        settings,
        read_only: false,
        address: Text::of(alloc, b"127.0.0.1:10809")?,
        connections: 0,
    })
}

#[test]
fn a_server_of_one_client_hands_it_over_with_its_connection(rt: HostRuntime) -> Result<(), Fail> {
    let alloc = rt.alloc();
    let store = TimedStore::new(alloc, Vec::new(alloc), Vec::new(alloc), Vec::new(alloc));
    let first = SharedLink::new(&rt, alloc, store)?;
    let links = Vec::from_array(
        alloc,
        [first.again()?, first.again()?, first.again()?, first],
    )?;
    let mut clocks = Vec::new(alloc);
    for _ in 0..4 {
        clocks.push(HandClock::new(alloc, 1000, 0, false))?;
    }
    let input = MemoryConn::source(Text::of(alloc, b"")?, 4096, Vec::new(alloc));
    let sinks = Vec::from_array(
        alloc,
        [
            MemoryConn::sink(alloc, Vec::new(alloc)),
            MemoryConn::sink(alloc, Vec::new(alloc)),
        ],
    )?;
    let listener = MemoryListener::new(alloc, Vec::from_array(alloc, [input_of(alloc)?])?);
    let mut world = MemoryWorld::new(
        alloc,
        links,
        clocks,
        Vec::from_array(alloc, [input])?,
        sinks,
        Vec::from_array(alloc, [listener])?,
        0,
    );
    let mount = mount_of(alloc, SETTINGS)?;
    let end = serve_mount(&rt, alloc, &mount, &mut world);
    assert!(rt;
        matches!(
            end,
            ServerEnd::Served {
                pass: _,
                result: Ok(())
            }
        )
    );
    assert_eq!(rt; world.heard.len(), 3);
    let mut written = Vec::new(alloc);
    for heard in world.heard.iter() {
        if let Some(listener) = &heard.listener {
            for given in listener.given.iter() {
                written.extend_from_slice(given.sink.bytes())?;
            }
        }
    }
    assert!(rt; written.as_slice() == OUTPUT);
    Ok(())
}
