//! Values that a user or an attacker may give.

use crate::show;
use std::test::Fail;

#[test]
fn values_are_shown_on_one_line(rt: HostRuntime) -> Result<(), Fail> {
    let rows: [(&[u8], &[u8]); 5] = [
        (b"", b""),
        (b"1g", b"1g"),
        (b"a\nb", b"a\\x0ab"),
        (b"\x1b[31m\\", b"\\x1b[31m\\x5c"),
        (b"\xc3\xa9\x7f~ ", b"\\xc3\\xa9\\x7f~ "),
    ];
    for (value, wanted) in rows {
        let mut message = Vec::new(rt.alloc());
        show(&mut message, value)?;
        assert!(rt; message.as_slice() == wanted);
    }
    Ok(())
}

#[test]
fn a_long_value_is_cut(rt: HostRuntime) -> Result<(), Fail> {
    let mut value = Vec::new(rt.alloc());
    value.resize(100_000, b'x')?;
    let mut message = Vec::new(rt.alloc());
    show(&mut message, &value)?;
    assert_eq!(rt; message.len(), 128 + 17);
    assert!(rt; message.as_slice().ends_with(b"xx.. (100000 bytes)"));
    Ok(())
}
