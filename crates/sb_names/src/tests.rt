//! What no clause says: that memory is found, and values from outside.
//!
//! The hashes are those of `printf DIGITS | md5sum`.

use crate::{MAX_NAME, object_name, place_name, read_name, token_name};
use std::test::Fail;

/// Blocks with their names, by prefix and form.
const NAMES: [(&'static str, u32, bool, &'static [u8]); 12] = [
    ("", 0, false, b"00000000"),
    ("", 1, false, b"00000001"),
    ("p/", 31, false, b"p/0000001f"),
    ("", 255, false, b"000000ff"),
    ("disk-", 268_435_455, false, b"disk-0fffffff"),
    ("", u32::MAX, false, b"ffffffff"),
    ("", 0, true, b"dd4b21e9-00000000"),
    ("", 1, true, b"ced16516-00000001"),
    ("p/", 1, true, b"p/ced16516-00000001"),
    ("", 255, true, b"608ecd87-000000ff"),
    ("disk-", 268_435_455, true, b"disk-15c6f5b3-0fffffff"),
    ("p/", u32::MAX, true, b"p/3028879a-ffffffff"),
];

#[test]
fn names_are_written_placed_and_read(rt: HostRuntime) -> Result<(), Fail> {
    for (prefix, block, hashed, want) in NAMES {
        let name = object_name(rt.alloc(), prefix, block, hashed)?;
        assert_eq!(rt; name.bytes(), want);
        let mut out = [b'.'; MAX_NAME];
        let end = place_name(prefix, block, hashed, &mut out);
        assert_eq!(rt; &out[..end], want);
        assert_eq!(rt; out.get(end), Some(&b'.'));
        assert_eq!(rt; read_name(prefix, hashed, want), Some(block));
    }
    Ok(())
}

#[test]
fn other_texts_are_no_names(rt: HostRuntime) -> Result<(), Fail> {
    for text in [
        b"0000001F".as_slice(),
        b"00000001x",
        b"000001f",
        b"",
        b"0x00001f",
    ] {
        assert_eq!(rt; read_name("", false, text), None);
    }
    for text in [
        b"DD4B21E9-00000000".as_slice(),
        b"dd4b21e9-00000001",
        b"dd4b21e9_00000000",
        b"00000000",
    ] {
        assert_eq!(rt; read_name("", true, text), None);
    }
    assert_eq!(rt; read_name("p/", false, b"q/0000001f"), None);
    Ok(())
}

#[test]
fn the_token_has_a_name_of_its_own(rt: HostRuntime) -> Result<(), Fail> {
    let name = token_name(rt.alloc(), "p/")?;
    assert_eq!(rt; name.bytes(), b"p/s3backer-mounted".as_slice());
    assert_eq!(rt; read_name("p/", false, name.bytes()), None);
    Ok(())
}
