//! The words of a server.

use crate::rehearsal::rehearse;
use crate::tests::{is_refused, words_of};
use sb_base::Text;
use sb_fakes::{HandClock, MemoryConn, PlainStore};
use std::test::Fail;

#[test]
fn only_a_host_and_a_port_are_an_address(rt: HostRuntime) -> Result<(), Fail> {
    let alloc = rt.alloc();
    let rows: [(&str, &[u8]); 6] = [
        ("", b"s3backer: usage: not HOST:PORT: \n"),
        ("host", b"s3backer: usage: not HOST:PORT: host\n"),
        (":10809", b"s3backer: usage: not HOST:PORT: :10809\n"),
        ("host:", b"s3backer: usage: not HOST:PORT: host:\n"),
        ("a_b:1", b"s3backer: usage: not HOST:PORT: a_b:1\n"),
        (
            "host:65536",
            b"s3backer: usage: not HOST:PORT: host:65536\n",
        ),
    ];
    for (address, line) in rows {
        assert!(rt; is_refused(&rt, alloc, &["--test", "--size=64k", "disk", address], line)?);
    }
    Ok(())
}

#[test]
fn a_server_that_cannot_listen_tells_so(rt: HostRuntime) -> Result<(), Fail> {
    let alloc = rt.alloc();
    let words = words_of(alloc, &["--test", "--size=64k", "disk", "host:65535"])?;
    let done = rehearse(
        &rt,
        alloc,
        words.as_slice(),
        PlainStore::new(alloc),
        HandClock::new(alloc, 1000, 0, false),
        MemoryConn::source(Text::of(alloc, b"")?, 1, Vec::new(alloc)),
        MemoryConn::sink(alloc, Vec::new(alloc)),
        MemoryConn::sink(alloc, Vec::new(alloc)),
    )?;
    assert_eq!(rt; done.status, 10);
    assert!(rt; done.pass.is_none());
    assert_eq!(rt; done.world.said.len(), 1);
    assert!(rt; done.world.said[0].bytes() == b"s3backer: listen fault\n".as_slice());
    Ok(())
}
