//! Requests and answers over a wire in memory.

ghost use Rattle.std.specs.Prelude.{◌≡◌, ◌≢◌};

use crate::S3Link;
use sb_base::Text;
use sb_fakes::{HandClock, MemoryWire};
use sb_sign::Signer;
use sb_world::{Got, Link, LinkFault, Meta, Page};
use std::alloc::{AllocError, Global};
use std::test::Fail;

/// A link over a wire in memory, at a moment.
type MemoryLink = S3Link<MemoryWire, HandClock>;

/// The bytes of a piece that is as large as any answer.
const WHOLE: u32 = 1_000_000;

/// Where a bucket is.
#[derive(Drop, Clone, Copy)]
enum Naming {
    /// In the path, at a port of its own.
    Path,
    /// In the host, at the port of HTTP.
    Host,
}

/// A wire that gives this answer in pieces of a size, and fails at one of its calls, counted from 1.
fn wire_of(alloc: Global, answer: &[u8], piece: u32, fails: u64) -> Result<MemoryWire, AllocError>
    requires { piece ≢ 0 }
{
    let mut answers = Vec::new(alloc);
    answers.push(Text::of(alloc, answer)?)?;
    let mut failing = Vec::new(alloc);
    failing.push(fails)?;
    Ok(MemoryWire::new(alloc, answers, piece, failing))
}

/// A link to the bucket `disk` over a wire.
fn link_over(
    alloc: Global,
    naming: Naming,
    wire: MemoryWire,
    moment: i64,
) -> Result<MemoryLink, AllocError> {
    let signer = Signer::new(
        alloc,
        b"AKIDEXAMPLE",
        b"loopback/test+only=key",
        b"us-east-1",
    )?;
    let clock = HandClock::new(alloc, 0, moment, false);
    let bucket = Text::of(alloc, b"disk")?;
    match naming {
        Naming::Path => {
            let host = Text::of(alloc, b"127.0.0.1")?;
            Ok(S3Link::new(alloc, signer, host, 9_000, bucket, false, wire, clock))
        }
        Naming::Host => {
            let host = Text::of(alloc, b"s3.test")?;
            Ok(S3Link::new(alloc, signer, host, 80, bucket, true, wire, clock))
        }
    }
}

/// A call of a link.
#[derive(Drop, Clone, Copy)]
enum Ask {
    /// Of an object of three bytes.
    Get,
    /// Of the same, unless it has the MD5 of `abc`.
    Verify,
    /// Of the token, which has eight bytes.
    Token,
    Put,
    /// With the sizes of a disk.
    PutFirst,
    Delete,
    Head,
    List,
    /// Behind a marker.
    ListOn,
}

/// What is told of an answer.
#[derive(Drop, Clone, Copy, PartialEq, Eq, Debug)]
enum Told {
    Done,
    Absent,
    Bytes,
    Same,
    /// The lengths of the texts of the size and the block size, 0 for one that isn't there.
    Texts(usize, usize),
    /// How many names, and whether more follow.
    Names(usize, bool),
    Failed(u16),
    Memory,
}

/// The MD5 of `abc` (RFC 1321, appendix A.5).
const DIGEST: [u8; 16] = [
    0x90, 0x01, 0x50, 0x98, 0x3c, 0xd2, 0x4f, 0xb0, 0xd6, 0x96, 0x3f, 0x7d, 0x28, 0xe1, 0x7f, 0x72,
];

/// A fault as it is told.
fn fault(fault: LinkFault) -> Told {
    match fault {
        LinkFault::Failed { status } => Told::Failed(status),
        LinkFault::Memory => Told::Memory,
    }
}

/// A GET as it is told.
fn got(answer: Result<Got, LinkFault>) -> Told {
    match answer {
        Ok(Got::Absent) => Told::Absent,
        Ok(Got::Bytes) => Told::Bytes,
        Ok(Got::Same) => Told::Same,
        Err(cause) => fault(cause),
    }
}

/// A PUT or a DELETE as it is told.
fn done(answer: Result<(), LinkFault>) -> Told {
    match answer {
        Ok(()) => Told::Done,
        Err(cause) => fault(cause),
    }
}

/// The length of a text, 0 where there is none.
fn length_of(text: &Option<Text>) -> usize {
    match text {
        Some(text) => text.bytes().len(),
        None => 0,
    }
}

/// A HEAD as it is told.
fn looked(link: &mut MemoryLink, name: &[u8]) -> Told {
    match link.head(name) {
        Ok(Some(texts)) => Told::Texts(length_of(&texts.size), length_of(&texts.block_size)),
        Ok(None) => Told::Absent,
        Err(cause) => fault(cause),
    }
}

/// A listing as it is told.
fn listed(alloc: Global, link: &mut MemoryLink, marker: &[u8]) -> Told {
    let mut page = Page {
        keys: Vec::new(alloc),
    };
    match link.list(b"a+b/", marker, &mut page) {
        Ok(more) => Told::Names(page.keys.len(), more),
        Err(cause) => fault(cause),
    }
}

/// The answer of a link to a call, as it is told.
fn told_of(alloc: Global, link: &mut MemoryLink, ask: Ask) -> Told {
    let name = b"a+b/0000001f";
    let meta = Meta {
        size: 65_536,
        block_size: 4_096,
    };
    match ask {
        Ask::Get => got(link.get(name, None, &mut [0; 3])),
        Ask::Verify => got(link.get(name, Some(DIGEST), &mut [0; 3])),
        Ask::Token => got(link.get(b"a+b/s3backer-mounted", None, &mut [0; 8])),
        Ask::Put => done(link.put(name, b"abc", None)),
        Ask::PutFirst => done(link.put(b"a+b/00000000", b"abc", Some(meta))),
        Ask::Delete => done(link.delete(name)),
        Ask::Head => looked(link, name),
        Ask::List => listed(alloc, link, b""),
        Ask::ListOn => listed(alloc, link, b"a+b/0000001f"),
    }
}

/// The answer to a call over a wire that gives this in pieces of a size.
fn told_over(alloc: Global, ask: Ask, answer: &[u8], piece: u32) -> Result<Told, Fail>
    requires { piece ≢ 0 }
{
    let wire = wire_of(alloc, answer, piece, 0)?;
    let mut link = link_over(alloc, Naming::Path, wire, 1_700_000_000)?;
    Ok(told_of(alloc, &mut link, ask))
}

/// Whether the answer is told so, whole and byte by byte.
fn is_told(alloc: Global, ask: Ask, answer: &[u8], want: Told) -> Result<bool, Fail> {
    Ok(told_over(alloc, ask, answer, WHOLE)? == want && told_over(alloc, ask, answer, 1)? == want)
}

/// A row: a call, what comes, and how it is told.
type Row = (Ask, &'static [u8], Told);

#[test]
fn answers_are_told_as_the_table_says(rt: HostRuntime) -> Result<(), Fail> {
    let rows: [Row; 30] = [
        (
            Ask::Get,
            b"HTTP/1.1 200 OK\r\ncontent-length: 3\r\n\r\nabc",
            Told::Bytes,
        ),
        (
            Ask::Get,
            b"HTTP/1.1 200 OK\r\ncontent-length: 4\r\n\r\nabcd",
            Told::Failed(600),
        ),
        (
            Ask::Get,
            b"HTTP/1.1 200 OK\r\ncontent-length: 2\r\n\r\nab",
            Told::Failed(600),
        ),
        (
            Ask::Get,
            b"HTTP/1.1 204 No Content\r\n\r\n",
            Told::Failed(600),
        ),
        (
            Ask::Get,
            b"HTTP/1.1 304 Not Modified\r\n\r\n",
            Told::Failed(304),
        ),
        (
            Ask::Get,
            b"HTTP/1.1 403 Forbidden\r\ncontent-length: 2\r\n\r\nno",
            Told::Failed(403),
        ),
        (
            Ask::Get,
            b"HTTP/1.1 404 Not Found\r\ncontent-length: 2\r\n\r\nno",
            Told::Absent,
        ),
        (
            Ask::Get,
            b"HTTP/1.1 500 Error\r\ncontent-length: 0\r\n\r\n",
            Told::Failed(500),
        ),
        (
            Ask::Get,
            b"HTTP/1.1 601 Own\r\ncontent-length: 0\r\n\r\n",
            Told::Failed(602),
        ),
        (
            Ask::Get,
            b"HTTP/1.1 200 OK\r\ncontent-length: 3\r\n\r\nab",
            Told::Failed(602),
        ),
        (
            Ask::Get,
            b"HTTP/1.1 200 OK\r\ncontent-length: x\r\n\r\n",
            Told::Failed(602),
        ),
        (Ask::Get, b"", Told::Failed(602)),
        (
            Ask::Verify,
            b"HTTP/1.1 304 Not Modified\r\n\r\n",
            Told::Same,
        ),
        (
            Ask::Verify,
            b"HTTP/1.1 200 OK\r\ncontent-length: 3\r\n\r\nabc",
            Told::Bytes,
        ),
        (
            Ask::Put,
            b"HTTP/1.1 200 OK\r\ncontent-length: 0\r\n\r\n",
            Told::Done,
        ),
        (
            Ask::Put,
            b"HTTP/1.1 404 Not Found\r\ncontent-length: 0\r\n\r\n",
            Told::Failed(404),
        ),
        (
            Ask::Put,
            b"HTTP/1.1 500 Error\r\ncontent-length: 0\r\n\r\n",
            Told::Failed(500),
        ),
        (Ask::Delete, b"HTTP/1.1 204 No Content\r\n\r\n", Told::Done),
        (
            Ask::Delete,
            b"HTTP/1.1 404 Not Found\r\ncontent-length: 0\r\n\r\n",
            Told::Done,
        ),
        (
            Ask::Delete,
            b"HTTP/1.1 403 Forbidden\r\ncontent-length: 0\r\n\r\n",
            Told::Failed(403),
        ),
        (
            Ask::Head,
            b"HTTP/1.1 200 OK\r\nx-amz-meta-s3backer-filesize: 65536\r\nX-Amz-Meta-S3backer-Blocksize: 4096\r\n\r\n",
            Told::Texts(5, 4),
        ),
        (
            Ask::Head,
            b"HTTP/1.1 200 OK\r\ncontent-length: 3\r\n\r\n",
            Told::Texts(0, 0),
        ),
        (Ask::Head, b"HTTP/1.1 404 Not Found\r\n\r\n", Told::Absent),
        (
            Ask::Head,
            b"HTTP/1.1 304 Not Modified\r\n\r\n",
            Told::Failed(304),
        ),
        (
            Ask::List,
            b"HTTP/1.1 200 OK\r\n\r\n<IsTruncated>false</IsTruncated><Key>a+b/0000001f</Key>",
            Told::Names(1, false),
        ),
        (
            Ask::ListOn,
            b"HTTP/1.1 200 OK\r\n\r\n<IsTruncated>true</IsTruncated>",
            Told::Names(0, true),
        ),
        (
            Ask::List,
            b"HTTP/1.1 200 OK\r\n\r\n<Key>a+b/0000001f</Key>",
            Told::Failed(603),
        ),
        (
            Ask::List,
            b"HTTP/1.1 200 OK\r\n\r\n<IsTruncated>false</IsTruncated><Key>a+b/0000001f",
            Told::Failed(603),
        ),
        (
            Ask::List,
            b"HTTP/1.1 404 Not Found\r\ncontent-length: 0\r\n\r\n",
            Told::Failed(404),
        ),
        (
            Ask::List,
            b"HTTP/1.1 200 OK\r\ncontent-length: 4194305\r\n\r\n",
            Told::Failed(602),
        ),
    ];
    for (ask, answer, want) in rows {
        assert!(rt; is_told(rt.alloc(), ask, answer, want)?);
    }
    Ok(())
}

#[test]
fn a_missing_token_is_absent_whatever_text_comes_with_it(rt: HostRuntime) -> Result<(), Fail> {
    let head = b"HTTP/1.1 404 Not Found\r\ncontent-length: 300\r\n\r\n";
    let mut answer = Vec::from_slice(rt.alloc(), head)?;
    answer.resize(answer.len() + 300, b'x')?;
    assert!(rt; is_told(rt.alloc(), Ask::Token, &answer, Told::Absent)?);
    Ok(())
}

/// What a call sends, to a bucket that is named so, before and behind its authorization.
fn is_sent(
    alloc: Global,
    naming: Naming,
    ask: Ask,
    front: &[u8],
    end: &[u8],
) -> Result<bool, Fail> {
    let wire = wire_of(alloc, b"HTTP/1.1 500 Error\r\n\r\n", WHOLE, 0)?;
    let mut link = link_over(alloc, naming, wire, 1_700_000_000)?;
    let _told = told_of(alloc, &mut link, ask);
    let sent = link.wire().sent();
    Ok(sent.starts_with(front) && sent.ends_with(end))
}

/// A row: how the bucket is named, a call, and what is sent before and behind the authorization.
type Sent = (Naming, Ask, &'static [u8], &'static [u8]);

#[test]
fn requests_are_sent_as_the_table_says(rt: HostRuntime) -> Result<(), Fail> {
    let rows: [Sent; 10] = [
        (
            Naming::Path,
            Ask::Get,
            b"GET /disk/a%2Bb/0000001f HTTP/1.1\r\nhost: 127.0.0.1:9000\r\nauthorization: AWS4-HMAC-SHA256 Credential=AKIDEXAMPLE/20231114/us-east-1/s3/aws4_request, SignedHeaders=host;x-amz-content-sha256;x-amz-date, Signature=",
            b"connection: close\r\nx-amz-content-sha256: e3b0c44298fc1c149afbf4c8996fb92427ae41e4649b934ca495991b7852b855\r\nx-amz-date: 20231114T221320Z\r\n\r\n",
        ),
        (
            Naming::Path,
            Ask::Verify,
            b"GET /disk/a%2Bb/0000001f HTTP/1.1\r\nhost: 127.0.0.1:9000\r\nauthorization: AWS4-HMAC-SHA256 Credential=AKIDEXAMPLE/20231114/us-east-1/s3/aws4_request, SignedHeaders=host;x-amz-content-sha256;x-amz-date, Signature=",
            b"connection: close\r\nif-none-match: \"900150983cd24fb0d6963f7d28e17f72\"\r\nx-amz-content-sha256: e3b0c44298fc1c149afbf4c8996fb92427ae41e4649b934ca495991b7852b855\r\nx-amz-date: 20231114T221320Z\r\n\r\n",
        ),
        (
            Naming::Path,
            Ask::Put,
            b"PUT /disk/a%2Bb/0000001f HTTP/1.1\r\nhost: 127.0.0.1:9000\r\nauthorization: AWS4-HMAC-SHA256 Credential=AKIDEXAMPLE/20231114/us-east-1/s3/aws4_request, SignedHeaders=content-md5;host;x-amz-content-sha256;x-amz-date, Signature=",
            b"connection: close\r\ncontent-length: 3\r\ncontent-md5: kAFQmDzST7DWlj99KOF/cg==\r\nx-amz-content-sha256: ba7816bf8f01cfea414140de5dae2223b00361a396177a9cb410ff61f20015ad\r\nx-amz-date: 20231114T221320Z\r\n\r\nabc",
        ),
        (
            Naming::Path,
            Ask::PutFirst,
            b"PUT /disk/a%2Bb/00000000 HTTP/1.1\r\nhost: 127.0.0.1:9000\r\nauthorization: AWS4-HMAC-SHA256 Credential=AKIDEXAMPLE/20231114/us-east-1/s3/aws4_request, SignedHeaders=content-md5;host;x-amz-content-sha256;x-amz-date;x-amz-meta-s3backer-blocksize;x-amz-meta-s3backer-filesize, Signature=",
            b"connection: close\r\ncontent-length: 3\r\ncontent-md5: kAFQmDzST7DWlj99KOF/cg==\r\nx-amz-content-sha256: ba7816bf8f01cfea414140de5dae2223b00361a396177a9cb410ff61f20015ad\r\nx-amz-date: 20231114T221320Z\r\nx-amz-meta-s3backer-blocksize: 4096\r\nx-amz-meta-s3backer-filesize: 65536\r\n\r\nabc",
        ),
        (
            Naming::Path,
            Ask::Delete,
            b"DELETE /disk/a%2Bb/0000001f HTTP/1.1\r\nhost: 127.0.0.1:9000\r\nauthorization: AWS4-HMAC-SHA256 Credential=AKIDEXAMPLE/20231114/us-east-1/s3/aws4_request, SignedHeaders=host;x-amz-content-sha256;x-amz-date, Signature=",
            b"connection: close\r\nx-amz-content-sha256: e3b0c44298fc1c149afbf4c8996fb92427ae41e4649b934ca495991b7852b855\r\nx-amz-date: 20231114T221320Z\r\n\r\n",
        ),
        (
            Naming::Path,
            Ask::Head,
            b"HEAD /disk/a%2Bb/0000001f HTTP/1.1\r\nhost: 127.0.0.1:9000\r\nauthorization: AWS4-HMAC-SHA256 Credential=AKIDEXAMPLE/20231114/us-east-1/s3/aws4_request, SignedHeaders=host;x-amz-content-sha256;x-amz-date, Signature=",
            b"connection: close\r\nx-amz-content-sha256: e3b0c44298fc1c149afbf4c8996fb92427ae41e4649b934ca495991b7852b855\r\nx-amz-date: 20231114T221320Z\r\n\r\n",
        ),
        (
            Naming::Path,
            Ask::List,
            b"GET /disk/?max-keys=1000&prefix=a%2Bb%2F HTTP/1.1\r\nhost: 127.0.0.1:9000\r\nauthorization: AWS4-HMAC-SHA256 Credential=AKIDEXAMPLE/20231114/us-east-1/s3/aws4_request, SignedHeaders=host;x-amz-content-sha256;x-amz-date, Signature=",
            b"connection: close\r\nx-amz-content-sha256: e3b0c44298fc1c149afbf4c8996fb92427ae41e4649b934ca495991b7852b855\r\nx-amz-date: 20231114T221320Z\r\n\r\n",
        ),
        (
            Naming::Path,
            Ask::ListOn,
            b"GET /disk/?marker=a%2Bb%2F0000001f&max-keys=1000&prefix=a%2Bb%2F HTTP/1.1\r\nhost: 127.0.0.1:9000\r\nauthorization: AWS4-HMAC-SHA256 Credential=AKIDEXAMPLE/20231114/us-east-1/s3/aws4_request, SignedHeaders=host;x-amz-content-sha256;x-amz-date, Signature=",
            b"connection: close\r\nx-amz-content-sha256: e3b0c44298fc1c149afbf4c8996fb92427ae41e4649b934ca495991b7852b855\r\nx-amz-date: 20231114T221320Z\r\n\r\n",
        ),
        (
            Naming::Host,
            Ask::Put,
            b"PUT /a%2Bb/0000001f HTTP/1.1\r\nhost: disk.s3.test\r\nauthorization: AWS4-HMAC-SHA256 Credential=AKIDEXAMPLE/20231114/us-east-1/s3/aws4_request, SignedHeaders=content-md5;host;x-amz-content-sha256;x-amz-date, Signature=",
            b"connection: close\r\ncontent-length: 3\r\ncontent-md5: kAFQmDzST7DWlj99KOF/cg==\r\nx-amz-content-sha256: ba7816bf8f01cfea414140de5dae2223b00361a396177a9cb410ff61f20015ad\r\nx-amz-date: 20231114T221320Z\r\n\r\nabc",
        ),
        (
            Naming::Host,
            Ask::List,
            b"GET /?max-keys=1000&prefix=a%2Bb%2F HTTP/1.1\r\nhost: disk.s3.test\r\nauthorization: AWS4-HMAC-SHA256 Credential=AKIDEXAMPLE/20231114/us-east-1/s3/aws4_request, SignedHeaders=host;x-amz-content-sha256;x-amz-date, Signature=",
            b"connection: close\r\nx-amz-content-sha256: e3b0c44298fc1c149afbf4c8996fb92427ae41e4649b934ca495991b7852b855\r\nx-amz-date: 20231114T221320Z\r\n\r\n",
        ),
    ];
    for (naming, ask, front, end) in rows {
        assert!(rt; is_sent(rt.alloc(), naming, ask, front, end)?);
    }
    Ok(())
}

#[test]
fn a_put_is_sent_byte_by_byte_as_it_is_signed(rt: HostRuntime) -> Result<(), Fail> {
    let alloc = rt.alloc();
    let wire = wire_of(alloc, b"HTTP/1.1 200 OK\r\ncontent-length: 0\r\n\r\n", 1, 0)?;
    let mut link = link_over(alloc, Naming::Path, wire, 1_700_000_000)?;
    assert!(rt; link.put(b"0000001f", b"abc", None).is_ok());
    let want =
        b"PUT /disk/0000001f HTTP/1.1\r\nhost: 127.0.0.1:9000\r\nauthorization: AWS4-HMAC-SHA256 Credential=AKIDEXAMPLE/20231114/us-east-1/s3/aws4_request, SignedHeaders=content-md5;host;x-amz-content-sha256;x-amz-date, Signature=ec6e72430012c39dc67cfe0fda8badcf982d581f525b8f5ca07c3a4caa64a014\r\nconnection: close\r\ncontent-length: 3\r\ncontent-md5: kAFQmDzST7DWlj99KOF/cg==\r\nx-amz-content-sha256: ba7816bf8f01cfea414140de5dae2223b00361a396177a9cb410ff61f20015ad\r\nx-amz-date: 20231114T221320Z\r\n\r\nabc";
    assert!(rt; link.wire().sent() == want.as_slice());
    Ok(())
}

/// What a call tells over a wire that fails at one of its calls, counted from 1, and whether anything was sent.
fn told_at(alloc: Global, fails: u64, moment: i64) -> Result<(Told, bool), Fail> {
    let wire = wire_of(alloc, b"HTTP/1.1 404 Not Found\r\n\r\n", WHOLE, fails)?;
    let mut link = link_over(alloc, Naming::Path, wire, moment)?;
    let told = told_of(alloc, &mut link, Ask::Get);
    let is_empty = link.wire().sent().is_empty();
    Ok((told, is_empty))
}

#[test]
fn wires_and_moments_fail_as_the_table_says(rt: HostRuntime) -> Result<(), Fail> {
    let rows = [
        (1, 0, Told::Failed(601), true),
        (2, 0, Told::Failed(601), true),
        (3, 0, Told::Failed(601), false),
        (0, -1, Told::Failed(604), true),
        (0, 253_370_764_800, Told::Failed(604), true),
        (0, 253_370_764_799, Told::Absent, false),
    ];
    for (fails, moment, want, is_empty) in rows {
        assert!(rt; told_at(rt.alloc(), fails, moment)? == (want, is_empty));
    }
    Ok(())
}

#[test]
fn a_listing_of_a_thousand_long_names_has_room_in_a_body(rt: HostRuntime) -> Result<(), Fail> {
    let alloc = rt.alloc();
    let mut answer = Vec::from_slice(
        alloc,
        b"HTTP/1.1 200 OK\r\n\r\n<IsTruncated>true</IsTruncated>",
    )?;
    for _ in 0..1_000 {
        answer.extend_from_slice(b"<Key>")?;
        answer.resize(answer.len() + 217, b'n')?;
        answer.extend_from_slice(b"</Key>")?;
    }
    assert!(rt; told_over(alloc, Ask::List, &answer, WHOLE)? == Told::Names(1_000, true));
    Ok(())
}

#[test]
fn a_listing_that_is_a_byte_too_long_is_none(rt: HostRuntime) -> Result<(), Fail> {
    let alloc = rt.alloc();
    let mut answer = Vec::from_slice(
        alloc,
        b"HTTP/1.1 200 OK\r\n\r\n<IsTruncated>true</IsTruncated>",
    )?;
    // behind the head of 19 bytes a body of 4 MiB and one
    answer.resize(19 + 4_194_305, b' ')?;
    assert!(rt; told_over(alloc, Ask::List, &answer, WHOLE)? == Told::Failed(602));
    Ok(())
}
