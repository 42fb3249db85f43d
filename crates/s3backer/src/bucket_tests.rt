//! The words of a disk over a bucket.

use crate::tests::{is_refused, words_of};
use crate::url::place_of;
use crate::words::plan;
use sb_base::{Access, StorePlan};
use std::test::Fail;

#[test]
fn the_words_of_a_bucket_have_a_plan(rt: HostRuntime) -> Result<(), Fail> {
    let alloc = rt.alloc();
    let words = words_of(
        alloc,
        &[
            "--stdio",
            "--baseURL=http://127.0.0.1:9000/",
            "--accessId=AKIDEXAMPLE",
            "--accessKey=loopback/test+only=key",
            "--size=64k",
            "disk",
        ],
    )?;
    let Ok(plan) = plan(alloc, words.as_slice()) else {
        return Err(Fail::from("no plan"));
    };
    assert_eq!(rt;
        (plan.geometry.blocks, plan.geometry.block_size),
        (16, 4096)
    );
    assert!(rt; plan.prefix.is_empty() && !plan.hashed && !plan.read_only);
    let StorePlan::S3 {
        host,
        port,
        bucket,
        vhost,
        region,
        access: Access::Given { id, key },
        first_pause,
        total_pause,
    } = &plan.store
    else {
        return Err(Fail::from("no bucket"));
    };
    assert!(rt; host.bytes() == b"127.0.0.1".as_slice() && *port == 9000 && !*vhost);
    assert!(rt; bucket.bytes() == b"disk".as_slice() && region.bytes() == b"us-east-1".as_slice());
    assert!(rt; id.bytes() == b"AKIDEXAMPLE".as_slice());
    assert!(rt; key.bytes() == b"loopback/test+only=key".as_slice());
    assert_eq!(rt; (*first_pause, *total_pause), (200, 30_000));
    Ok(())
}

#[test]
fn a_base_url_has_a_host_and_a_port(rt: HostRuntime) -> Result<(), Fail> {
    let (host, port) = place_of(b"http://s3.amazonaws.com/").unwrap_or((b"", 0));
    assert!(rt; host == b"s3.amazonaws.com".as_slice() && port == 80);
    let (host, port) = place_of(b"http://a-b:65535/").unwrap_or((b"", 0));
    assert!(rt; host == b"a-b".as_slice() && port == 65_535);
    let refused: [&[u8]; 9] = [
        b"",
        b"http:///",
        b"http://h",
        b"http://h:/",
        b"http://h:0/",
        b"http://h:65536/",
        b"http://h:+80/",
        b"http://h_x/",
        b"http://h/path",
    ];
    for url in refused {
        assert!(rt; place_of(url).is_none());
    }
    Ok(())
}

#[test]
fn the_first_fault_of_a_bucket_is_told(rt: HostRuntime) -> Result<(), Fail> {
    let alloc = rt.alloc();
    let rows: [(&[&str], &[u8]); 4] = [
        (
            &[
                "--stdio",
                "--baseURL=https://h/",
                "--accessId=i",
                "--accessKey=k",
                "--size=q",
                "b/",
            ],
            b"s3backer: usage: --size: not a size: q\n",
        ),
        (
            &[
                "--stdio",
                "--baseURL=https://h/",
                "--accessId=i",
                "--accessKey=k",
                "--size=64k",
                "b/",
            ],
            b"s3backer: usage: not the name of a bucket or directory: b/\n",
        ),
        (
            &[
                "--stdio",
                "--baseURL=https://h/",
                "--accessId=i",
                "--accessKey=k",
                "--size=64k",
                "b",
            ],
            b"s3backer: usage: --baseURL: https is not supported\n",
        ),
        (
            &[
                "--stdio",
                "--baseURL=http://h",
                "--accessId=i",
                "--accessKey=k",
                "--size=64k",
                "b",
            ],
            b"s3backer: usage: --baseURL: not http://host/ or http://host:port/: http://h\n",
        ),
    ];
    for (words, line) in rows {
        assert!(rt; is_refused(&rt, alloc, words, line)?);
    }
    Ok(())
}
