//! What no clause says: that memory is found, and values from outside: RFC 4231, and a request that botocore signed.

use crate::headers::{canonical_request, names, signed_headers};
use crate::{
    Method, Pair, Request, SignFault, Signer, content_md5, encoded_path, encoded_query, hmac_sha256,
};
use sb_base::Text;
use sha2::{Digest, Sha256};
use std::alloc::{AllocError, Global};
use std::test::Fail;

/// A pair of a name and a value.
fn pair(alloc: Global, name: &[u8], value: &[u8]) -> Result<Pair, AllocError> {
    Ok(Pair {
        name: Text::of(alloc, name)?,
        value: Text::of(alloc, value)?,
    })
}

/// A PUT of `abc` as block 31 of the bucket `disk`, its headers not in order.
fn put(alloc: Global) -> Result<Request, AllocError> {
    let body = b"abc";
    let mut signed = Vec::new(alloc);
    signed.push(pair(alloc, b"host", b"127.0.0.1:9000")?)?;
    let digest = content_md5(alloc, body)?;
    signed.push(pair(alloc, b"content-md5", digest.bytes())?)?;
    Ok(Request {
        method: Method::Put,
        path: Text::of(alloc, b"/disk/0000001f")?,
        query: Vec::new(alloc),
        signed,
        payload: Sha256::digest(body),
    })
}

/// The signer of the examples.
fn signer(alloc: Global) -> Result<Signer, AllocError> {
    Signer::new(
        alloc,
        b"AKIDEXAMPLE",
        b"loopback/test+only=key",
        b"us-east-1",
    )
}

#[test]
fn macs_are_those_of_rfc_4231(rt: HostRuntime) -> Result<(), Fail> {
    let counted = [
        1, 2, 3, 4, 5, 6, 7, 8, 9, 10, 11, 12, 13, 14, 15, 16, 17, 18, 19, 20, 21, 22, 23, 24, 25,
    ];
    let cases: [(&[u8], &[u8], &str); 6] = [
        (
            &[0x0b; 20],
            b"Hi There",
            "b0344c61d8db38535ca8afceaf0bf12b881dc200c9833da726e9376c2e32cff7",
        ),
        (
            b"Jefe",
            b"what do ya want for nothing?",
            "5bdcc146bf60754e6a042426089575c75a003f089d2739839dec58b964ec3843",
        ),
        (
            &[0xaa; 20],
            &[0xdd; 50],
            "773ea91e36800e46854db8ebd09181a72959098b3ef8c122d9635514ced565fe",
        ),
        (
            &counted,
            &[0xcd; 50],
            "82558a389a443c0ea4cc819899f2083a85f0faa3e578f8077a2e3ff46729665b",
        ),
        (
            &[0xaa; 131],
            b"Test Using Larger Than Block-Size Key - Hash Key First",
            "60e431591ee0b67f0d8a26aacbf5b77f8e0bc6213728c5140546040f0ee37f54",
        ),
        (
            &[0xaa; 131],
            b"This is a test using a larger than block-size key and a larger than block-size data. The key needs to be hashed before being used by the HMAC algorithm.",
            "9b09ffa71b942fcb27635fbcd5b0e944bfdc63644f0713938a7f51535c3a35e2",
        ),
    ];
    for (key, message, want) in cases {
        let mac = hex::encode(rt.alloc(), hmac_sha256(key, message))?;
        assert_eq!(rt; mac.as_str(), want);
    }
    Ok(())
}

#[test]
fn a_put_has_its_canonical_request(rt: HostRuntime) -> Result<(), Fail> {
    let alloc = rt.alloc();
    let request = put(alloc)?;
    let headers = signed_headers(alloc, &request, b"20231114T221320Z")?;
    let names = names(alloc, &headers)?;
    let text = canonical_request(alloc, &request, &headers, &names)?;
    let want = [
        "PUT",
        "/disk/0000001f",
        "",
        "content-md5:kAFQmDzST7DWlj99KOF/cg==",
        "host:127.0.0.1:9000",
        "x-amz-content-sha256:ba7816bf8f01cfea414140de5dae2223b00361a396177a9cb410ff61f20015ad",
        "x-amz-date:20231114T221320Z",
        "",
        "content-md5;host;x-amz-content-sha256;x-amz-date",
        "ba7816bf8f01cfea414140de5dae2223b00361a396177a9cb410ff61f20015ad",
    ];
    let lines = str::from_utf8(&text)?.split('\n');
    for (line, want) in lines.zip(want) {
        assert_eq!(rt; line, want);
    }
    assert_eq!(rt; str::from_utf8(&text)?.split('\n').count(), want.len());
    Ok(())
}

#[test]
fn a_put_has_the_signature_that_botocore_gives_it(rt: HostRuntime) -> Result<(), Fail> {
    let alloc = rt.alloc();
    let (mut signer, request) = (signer(alloc)?, put(alloc)?);
    signer.sign(alloc, &request, 1_700_006_400)?;
    let signed = signer.sign(alloc, &request, 1_700_000_000)?;
    assert_eq!(rt; &signed.date, b"20231114T221320Z");
    assert_eq!(rt;
        str::from_utf8(signed.header.bytes())?,
        "AWS4-HMAC-SHA256 Credential=AKIDEXAMPLE/20231114/us-east-1/s3/aws4_request, SignedHeaders=content-md5;host;x-amz-content-sha256;x-amz-date, Signature=ec6e72430012c39dc67cfe0fda8badcf982d581f525b8f5ca07c3a4caa64a014"
    );
    Ok(())
}

#[test]
fn moments_have_their_dates(rt: HostRuntime) -> Result<(), Fail> {
    let alloc = rt.alloc();
    let (mut signer, request) = (signer(alloc)?, put(alloc)?);
    let dates: [(i64, &[u8; 16]); 4] = [
        (0, b"19700101T000000Z"),
        (951_782_400, b"20000229T000000Z"),
        (1_700_000_000, b"20231114T221320Z"),
        (253_370_764_799, b"99981231T235959Z"),
    ];
    for (moment, want) in dates {
        let signed = signer.sign(alloc, &request, moment)?;
        assert_eq!(rt; &signed.date, want);
    }
    for moment in [-1, 253_370_764_800, i64::MIN, i64::MAX] {
        let fault = signer.sign(alloc, &request, moment).err();
        assert_eq!(rt; fault, Some(SignFault::MomentOutOfRange(moment)));
    }
    Ok(())
}

#[test]
fn paths_and_queries_are_encoded_once(rt: HostRuntime) -> Result<(), Fail> {
    let alloc = rt.alloc();
    let path = encoded_path(alloc, b"/disk/a+b/0000001f")?;
    assert_eq!(rt; path.bytes(), b"/disk/a%2Bb/0000001f".as_slice());
    let path = encoded_path(alloc, b"/-._~/ %\xc3\xa9")?;
    assert_eq!(rt; path.bytes(), b"/-._~/%20%25%C3%A9".as_slice());
    let mut query = Vec::new(alloc);
    assert_eq!(rt; encoded_query(alloc, &query)?.bytes(), b"".as_slice());
    query.push(pair(alloc, b"max-keys", b"1000")?)?;
    query.push(pair(alloc, b"prefix", b"a+b/")?)?;
    let text = encoded_query(alloc, &query)?;
    assert_eq!(rt; text.bytes(), b"max-keys=1000&prefix=a%2Bb%2F".as_slice());
    Ok(())
}
