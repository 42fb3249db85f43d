//! Responses as stores send them, whole, in pieces and cut.

ghost use Rattle.std.specs.Prelude.{◌≡◌, ◌≢◌, ◌++◌, IfOk};
ghost use Rattle.sb_fakes.specs.Connections.{sent_on};
ghost use Rattle.sb_fakes.specs.Wires.{connections_of};

use crate::{HttpFault, Response, exchange};
use sb_base::Text;
use sb_fakes::MemoryWire;
use std::alloc::Global;
use std::test::Fail;

/// A wire that gives this answer in pieces of a size, and fails at one of its calls, counted from 1.
fn wire_of(alloc: Global, answer: &[u8], piece: u32, fails: u64) -> Result<MemoryWire, Fail>
    requires { piece ≢ 0 }
{
    let mut answers = Vec::new(alloc);
    answers.push(Text::of(alloc, answer)?)?;
    let mut failing = Vec::new(alloc);
    failing.push(fails)?;
    Ok(MemoryWire::new(alloc, answers, piece, failing))
}

/// An exchange over a wire that tells its connections: where there is a response, the newest one has the request.
fn exchange_told(
    alloc: Global,
    wire: &mut MemoryWire,
    head: &[u8],
    body: &[u8],
    room: &mut Vec<u8>,
) -> Result<Response, HttpFault>
    ensures { IfOk result (λ _. sent_on (connections_of wire.new) ≡ head.now ++ body.now) }
{
    exchange(alloc, wire, head, body, false, 10, room)
}

/// What is told of an answer: its fault by name, and the numbers that it carries.
#[derive(Drop, Clone, Copy, PartialEq, Eq, Debug)]
enum Outcome {
    Response(u16, u64),
    WireFault,
    HeadCut(u64),
    HeadTooLong,
    BadHead,
    TooManyHeaders,
    BadLength,
    BodyCut(Option<u64>, u64),
    BadChunk(u64),
    TooLong(u64),
    Memory,
}

fn outcome_of(answer: &Result<Response, HttpFault>) -> Outcome {
    match answer {
        Ok(response) => Outcome::Response(response.status, response.length),
        Err(HttpFault::WireFault) => Outcome::WireFault,
        Err(HttpFault::HeadCut { got }) => Outcome::HeadCut(*got),
        Err(HttpFault::HeadTooLong) => Outcome::HeadTooLong,
        Err(HttpFault::BadHead) => Outcome::BadHead,
        Err(HttpFault::TooManyHeaders) => Outcome::TooManyHeaders,
        Err(HttpFault::BadLength(_)) => Outcome::BadLength,
        Err(HttpFault::BodyCut { want, got }) => Outcome::BodyCut(*want, *got),
        Err(HttpFault::BadChunk { got }) => Outcome::BadChunk(*got),
        Err(HttpFault::TooLong { limit }) => Outcome::TooLong(*limit),
        Err(HttpFault::Memory) => Outcome::Memory,
    }
}

/// The answer to these bytes in pieces, with the limit 10.
fn outcome_to(alloc: Global, answer: &[u8], piece: u32) -> Result<Outcome, Fail>
    requires { piece ≢ 0 }
{
    let mut wire = wire_of(alloc, answer, piece, 0)?;
    let mut room = Vec::new(alloc);
    let answer = exchange(alloc, &mut wire, b"GET", b"", false, 10, &mut room);
    Ok(outcome_of(&answer))
}

/// Whether the answer is this one, whole, in pieces of three bytes and byte by byte.
fn is_answered(alloc: Global, answer: &[u8], wanted: Outcome) -> Result<bool, Fail> {
    Ok(
        outcome_to(alloc, answer, 100_000)? == wanted
            && outcome_to(alloc, answer, 3)? == wanted
            && outcome_to(alloc, answer, 1)? == wanted,
    )
}

#[test]
fn chunked_bodies_that_are_cut_tell_what_came(rt: HostRuntime) -> Result<(), Fail> {
    let head = b"HTTP/1.1 200 OK\r\ntransfer-encoding: chunked\r\n\r\n5\r\n";
    let mut hello = Vec::from_slice(rt.alloc(), head)?;
    hello.extend_from_slice(b"hel")?;
    assert!(rt; is_answered(rt.alloc(), &hello, Outcome::BodyCut(None, 3))?);
    hello.extend_from_slice(b"lo")?;
    assert!(rt; is_answered(rt.alloc(), &hello, Outcome::BodyCut(None, 5))?);
    hello.extend_from_slice(b"XX")?;
    assert!(rt; is_answered(rt.alloc(), &hello, Outcome::BadChunk(5))?);
    Ok(())
}

#[test]
fn responses_are_told_as_the_table_says(rt: HostRuntime) -> Result<(), Fail> {
    let a = rt.alloc();
    let rows: [(&[u8], Outcome); 23] = [
        (b"", Outcome::HeadCut(0)),
        (
            b"HTTP/1.1 200 OK\r\ncontent-length: 11\r\n\r\nhello world",
            Outcome::TooLong(10),
        ),
        (
            b"HTTP/1.1 200 OK\r\ncontent-length: 5\r\ncontent-length: 6\r\n\r\nhello",
            Outcome::BadLength,
        ),
        (
            b"HTTP/1.1 200 OK\r\ncontent-length: 5x\r\n\r\nhello",
            Outcome::BadLength,
        ),
        (
            b"HTTP/1.1 200 OK\r\ncontent-length: 9223372036854775808\r\n\r\n",
            Outcome::BadLength,
        ),
        (
            b"HTTP/1.1 204 No Content\r\n\r\njunk",
            Outcome::Response(204, 0),
        ),
        (
            b"HTTP/1.1 304 Not Modified\r\nContent-Length: 99\r\n\r\n",
            Outcome::Response(304, 0),
        ),
        (
            b"HTTP/1.1 200\r\nContent-Length: 5\r\nContent-Length: 05\r\n\r\nhello!",
            Outcome::Response(200, 5),
        ),
        (
            b"HTTP/1.1 200 OK\r\nContent-Length: 5\r\n\r\nhel",
            Outcome::BodyCut(Some(5), 3),
        ),
        (b"HTTP/1.0 200 OK\r\n\r\nhello", Outcome::Response(200, 5)),
        (
            b"HTTP/1.0 200 OK\r\n\r\nhello worl",
            Outcome::Response(200, 10),
        ),
        (b"HTTP/1.0 200 OK\r\n\r\nhello world", Outcome::TooLong(10)),
        (
            b"HTTP/1.1 100 Continue\r\n\r\nHTTP/1.1 200 OK\r\ncontent-length: 0\r\n\r\n",
            Outcome::Response(200, 0),
        ),
        (
            b"HTTP/1.1 200 OK\r\ntransfer-encoding: CHUNKED\r\ncontent-length: 1\r\n\r\n0005;a=b\r\nhello\r\n0\r\nx: y\r\n\r\nmore",
            Outcome::Response(200, 5),
        ),
        (
            b"HTTP/1.1 200 OK\r\ntransfer-encoding: chunked\r\n\r\nA\r\nhello worl\r\n0\r\n\r\n",
            Outcome::Response(200, 10),
        ),
        (
            b"HTTP/1.1 200 OK\r\ntransfer-encoding: chunked\r\n\r\n5\r\nhello\r\n6\r\n",
            Outcome::TooLong(10),
        ),
        (
            b"HTTP/1.1 200 OK\r\ntransfer-encoding: chunked\r\n\r\n10000000000000005\r\nhello\r\n",
            Outcome::TooLong(10),
        ),
        (
            b"HTTP/1.1 200 OK\r\ntransfer-encoding: chunked\r\n\r\nxyz",
            Outcome::BadChunk(0),
        ),
        (
            b"HTTP/1.1 200 OK\r\ntransfer-encoding: chunked\r\n\r\n0\r\nx: y\r\n",
            Outcome::BodyCut(None, 0),
        ),
        (
            b"HTTP/1.1 200 OK\r\ntransfer-encoding: gzip, chunked\r\n\r\n5\r\nhello",
            Outcome::Response(200, 8),
        ),
        (
            b"HTTP/1.1 200 OK\r\ntransfer-encoding: chunked\r\n\r\n00000000000000000000000000000000005\r\nhello\r\n0\r\n\r\n",
            Outcome::Response(200, 5),
        ),
        (
            b"HTTP/1.1 200 OK\r\nServer: AmazonS3\r\nVia: a\r\nVIA: b\r\nX: 1\r\nX: 2\r\nContent-Length: 5\r\n\r\nhello",
            Outcome::Response(200, 5),
        ),
        (b"HTTX/1.1 200 OK\r\n\r\n", Outcome::BadHead),
    ];
    for (answer, wanted) in rows {
        assert!(rt; is_answered(a, answer, wanted)?);
    }
    Ok(())
}

#[test]
fn a_missing_object_tells_its_text(rt: HostRuntime) -> Result<(), Fail> {
    let mut answer = Vec::from_slice(
        rt.alloc(),
        b"HTTP/1.1 404 Not Found\r\ncontent-length: 300\r\n\r\n",
    )?;
    answer.resize(answer.len() + 300, b'x')?;
    assert!(rt; is_answered(rt.alloc(), &answer, Outcome::Response(404, 300))?);
    Ok(())
}

#[test]
fn a_ninth_interim_response_is_a_bad_head(rt: HostRuntime) -> Result<(), Fail> {
    let mut answer = Vec::new(rt.alloc());
    for _ in 0..8 {
        answer.extend_from_slice(b"HTTP/1.1 103 Early Hints\r\n\r\n")?;
    }
    let mut ninth = answer.clone()?;
    answer.extend_from_slice(b"HTTP/1.1 204 No Content\r\n\r\n")?;
    ninth.extend_from_slice(b"HTTP/1.1 103 Early Hints\r\n\r\nHTTP/1.1 204 No Content\r\n\r\n")?;
    assert!(rt; is_answered(rt.alloc(), &answer, Outcome::Response(204, 0))?);
    assert!(rt; is_answered(rt.alloc(), &ninth, Outcome::BadHead)?);
    Ok(())
}

#[test]
fn long_heads_are_refused(rt: HostRuntime) -> Result<(), Fail> {
    let mut answer = Vec::from_slice(rt.alloc(), b"HTTP/1.1 200 OK\r\nx: ")?;
    answer.resize(16_384, b'y')?;
    assert!(rt; outcome_to(rt.alloc(), &answer, 100_000)? == Outcome::HeadTooLong);
    answer.truncate(16_383);
    assert!(rt; outcome_to(rt.alloc(), &answer, 5000)? == Outcome::HeadCut(16_383));
    let mut many = Vec::from_slice(rt.alloc(), b"HTTP/1.1 204 No Content\r\n")?;
    for _ in 0..64 {
        many.extend_from_slice(b"a: b\r\n")?;
    }
    let mut more = many.clone()?;
    many.extend_from_slice(b"\r\n")?;
    more.extend_from_slice(b"a: b\r\n\r\n")?;
    assert!(rt; outcome_to(rt.alloc(), &many, 100_000)? == Outcome::Response(204, 0));
    assert!(rt; outcome_to(rt.alloc(), &more, 100_000)? == Outcome::TooManyHeaders);
    Ok(())
}

#[test]
fn a_response_keeps_its_fields_and_the_room_its_bytes(rt: HostRuntime) -> Result<(), Fail> {
    let mut wire = wire_of(
        rt.alloc(),
        b"HTTP/1.1 200 OK\r\nETag:  \"a\" \r\nContent-Length: 5\r\n\r\nhello",
        7,
        0,
    )?;
    let mut room = Vec::from_slice(rt.alloc(), b"old ")?;
    let response = exchange_told(rt.alloc(), &mut wire, b"PUT", b" it", &mut room)
        .ok()
        .ok_or("a response")?;
    assert!(rt; response.headers.len() == 2);
    let tag = &response.headers[0];
    assert!(rt; tag.name.bytes() == b"etag".as_slice());
    assert!(rt; tag.value.bytes() == b"\"a\"".as_slice());
    assert!(rt; room.as_slice() == b"old hello".as_slice());
    assert!(rt; wire.sent() == b"PUT it".as_slice());
    Ok(())
}

#[test]
fn each_call_of_the_wire_may_fail(rt: HostRuntime) -> Result<(), Fail> {
    let answer = b"HTTP/1.1 200 OK\r\ncontent-length: 5\r\n\r\nhello";
    for fails in 1..8 {
        let mut wire = wire_of(rt.alloc(), answer, 10, fails)?;
        let mut room = Vec::new(rt.alloc());
        let answer = exchange(rt.alloc(), &mut wire, b"GET", b"", false, 10, &mut room);
        assert!(rt; outcome_of(&answer) == Outcome::WireFault);
    }
    Ok(())
}

/// What a cut in a body tells.
#[derive(Drop, Clone, Copy)]
enum Body {
    /// It has this length.
    Length(u64),
    Chunks,
    /// It goes on to the end of the input.
    ToTheEnd,
}

/// A response in its parts. Of the body's pieces each has its length, and whether it is content.
#[derive(Drop, Clone, Copy)]
struct Whole {
    interim: &'static [u8],
    head: &'static [u8],
    status: u16,
    body: &'static [u8],
    pieces: &'static [(usize, bool)],
    kind: Body,
}

impl Whole {
    /// How many of the first bytes of the body are content.
    fn content_before(&self, cut: usize) -> u64 {
        let mut left = cut;
        let mut content: u64 = 0;
        for (length, is_content) in self.pieces {
            let count = left.min(*length);
            if *is_content {
                content = content.saturating_add(count as u64);
            }
            left -= count;
        }
        content
    }

    /// What is told of its first bytes.
    fn outcome_at(&self, cut: usize) -> Outcome {
        let interim = self.interim.len();
        let head = interim.saturating_add(self.head.len());
        if cut < interim {
            return Outcome::HeadCut(cut as u64);
        }
        if cut < head {
            return Outcome::HeadCut((cut - interim) as u64);
        }
        let came = cut - head;
        let content = self.content_before(came);
        if came == self.body.len() {
            return Outcome::Response(self.status, content);
        }
        match self.kind {
            Body::Length(length) => Outcome::BodyCut(Some(length), content),
            Body::Chunks => Outcome::BodyCut(None, content),
            Body::ToTheEnd => Outcome::Response(self.status, content),
        }
    }

    /// Whether each front of it is told as it should be.
    fn is_told_at_each_cut(&self, alloc: Global) -> Result<bool, Fail> {
        let mut answer = Vec::from_slice(alloc, self.interim)?;
        answer.extend_from_slice(self.head)?;
        answer.extend_from_slice(self.body)?;
        for cut in 0..answer.len() + 1 {
            let front = answer.get(..cut).unwrap_or(&[]);
            if outcome_to(alloc, front, 4)? != self.outcome_at(cut) {
                return Ok(false);
            }
        }
        Ok(true)
    }
}

#[test]
fn responses_that_are_cut_tell_how_much_came(rt: HostRuntime) -> Result<(), Fail> {
    let wholes = [
        Whole {
            interim: b"",
            head: b"HTTP/1.1 200 OK\r\ncontent-length: 5\r\n\r\n",
            status: 200,
            body: b"hello",
            pieces: &[(5, true)],
            kind: Body::Length(5),
        },
        Whole {
            interim: b"",
            head: b"HTTP/1.1 200 OK\r\ntransfer-encoding: chunked\r\n\r\n",
            status: 200,
            body: b"3;a=b\r\nhel\r\n2\r\nlo\r\n0\r\nx: y\r\n\r\n",
            pieces: &[(7, false), (3, true), (5, false), (2, true), (13, false)],
            kind: Body::Chunks,
        },
        Whole {
            interim: b"",
            head: b"HTTP/1.0 200 OK\r\n\r\n",
            status: 200,
            body: b"hello",
            pieces: &[(5, true)],
            kind: Body::ToTheEnd,
        },
        Whole {
            interim: b"HTTP/1.1 100 Continue\r\n\r\n",
            head: b"HTTP/1.1 404 Not Found\r\nserver: x\r\ncontent-length: 12\r\n\r\n",
            status: 404,
            body: b"no such key\n",
            pieces: &[(12, true)],
            kind: Body::Length(12),
        },
        Whole {
            interim: b"",
            head: b"HTTP/1.1 204 No Content\r\ncontent-length: 7\r\n\r\n",
            status: 204,
            body: b"",
            pieces: &[],
            kind: Body::Length(0),
        },
    ];
    for whole in wholes {
        assert!(rt; whole.is_told_at_each_cut(rt.alloc())?);
    }
    Ok(())
}
