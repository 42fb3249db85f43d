//! A directory of the file system, connections over TCP, and the clocks of a process.

use crate::clock::moment_of;
use crate::ending::Ending;
use crate::folder::HostFolder;
use crate::tcp::HostListener;
use crate::wire::TcpWire;
use crate::world::HostWorld;
use sb_world::{Clock, FileGot, Folder, Listener, Page, Sink, Source, Wire, WireFault, World};
use std::fs;
use std::io::{Read, Write};
use std::net::{TcpListener, TcpStream};
use std::test::Fail;

#[test]
fn a_directory_of_the_file_system_keeps_files(rt: HostRuntime) -> Result<(), Fail> {
    let alloc = rt.alloc();
    let path = "folder-of-a-test/inner";
    let mut folder = HostFolder::open(rt, path)?;
    let mut out = [0; 3];
    assert!(rt; folder.read(b"a", &mut out) == Ok(FileGot::Absent));
    assert!(rt; folder.write(b"a.tmp", b"abc").is_ok());
    assert!(rt; folder.rename(b"a.tmp", b"a").is_ok());
    assert!(rt; folder.read(b"a", &mut out) == Ok(FileGot::Bytes));
    assert_eq!(rt; out, *b"abc");
    assert!(rt; folder.read(b"a", &mut [0; 2]) == Ok(FileGot::OtherLength(3)));
    assert!(rt; folder.rename(b"b", b"a").is_err());
    let mut page = Page {
        keys: Vec::new(alloc),
    };
    assert!(rt; folder.list(&mut page).is_ok());
    assert!(rt; page.keys.len() == 1 && page.keys[0].bytes() == b"a".as_slice());
    assert!(rt; folder.remove(b"a") == Ok(true));
    assert!(rt; folder.remove(b"a") == Ok(false));
    fs::remove_dir(&rt, path)?;
    fs::remove_dir(&rt, "folder-of-a-test")?;
    Ok(())
}

#[test]
fn a_wire_carries_bytes_each_way_over_connections_of_their_own(
    rt: HostRuntime,
) -> Result<(), Fail> {
    let listener = TcpListener::bind(&rt, "127.0.0.1:0")?;
    let port = listener.local_addr()?.port();
    let mut wire = TcpWire::new(rt, String::from_str(rt.alloc(), "127.0.0.1")?, port);
    assert!(rt; wire.send(b"early") == Err(WireFault::Failed));
    let mut heard = [0; 4];
    let mut got = [0; 8];
    for said in [b"pong", b"ding"] {
        assert!(rt; wire.connect().is_ok());
        let (mut peer, _) = listener.accept()?;
        peer.write_all(said)?;
        assert!(rt; wire.send(b"pi").is_ok() && wire.send(b"ng").is_ok());
        assert!(rt; wire.receive(&mut got) == Ok(4));
        assert!(rt; &got[..4] == said.as_slice());
        peer.read_exact(&mut heard)?;
        assert_eq!(rt; heard, *b"ping");
        drop(peer);
        assert!(rt; wire.receive(&mut got) == Ok(0));
    }
    drop(listener);
    assert!(rt; wire.connect() == Err(WireFault::Failed));
    Ok(())
}

#[test]
fn the_clocks_of_a_world_agree(rt: HostRuntime) -> Result<(), Fail> {
    let mut world = HostWorld::new(rt);
    let (Ok(mut first), Ok(mut second)) = (world.bench(None, 0), world.bench(None, 0)) else {
        return Err(Fail::from("no bench"));
    };
    let before = first.clock.now();
    first.clock.pause(30);
    let between = second.clock.now();
    let after = first.clock.now();
    assert!(rt; before + 30 <= between && between <= after);
    Ok(())
}

#[test]
fn a_moment_that_cannot_be_had_is_before_1970(rt: HostRuntime) -> Result<(), Fail> {
    assert_eq!(rt; moment_of(None), -1);
    assert_eq!(rt; moment_of(Some(1_440_938_160)), 1_440_938_160);
    assert_eq!(rt; moment_of(Some(u64::MAX)), i64::MAX);
    Ok(())
}

#[test]
fn a_listener_gives_a_connection_as_often_as_it_may(rt: HostRuntime) -> Result<(), Fail> {
    let mut listener = HostListener::bind(rt, ("127.0.0.1", 0), Ending { input: -1 }, 1)?;
    let mut client = TcpStream::connect(&rt, listener.address()?)?;
    let Ok(Some((mut source, mut sink))) = listener.accept() else {
        return Err(Fail::from("no connection"));
    };
    client.write_all(b"asked")?;
    let mut asked = [0; 8];
    assert!(rt; source.read(&mut asked) == Ok(5));
    assert!(rt; sink.write(b"answered").is_ok());
    let mut answered = [0; 8];
    client.read_exact(&mut answered)?;
    assert!(rt; asked[..5] == b"asked"[..] && answered == *b"answered");
    listener.back(source, sink, 1);
    assert!(rt; listener.accept().is_ok_and(|found| found.is_none()));
    Ok(())
}
