//! Messages of the NBD protocol document, for tests.

use std::alloc::{AllocError, Global};

/// A client's flags 3.
pub(crate) const FLAGS: &[u8] = b"\x00\x00\x00\x03";

/// EXPORT_NAME with the empty name.
pub(crate) const EXPORT_NAME: &[u8] = b"IHAVEOPT\x00\x00\x00\x01\x00\x00\x00\x00";

/// These two.
pub(crate) const OPENING: &[u8] = b"\x00\x00\x00\x03IHAVEOPT\x00\x00\x00\x01\x00\x00\x00\x00";

pub(crate) const GREETING: &[u8] = b"NBDMAGICIHAVEOPT\x00\x03";

/// The greeting, and an export of 65,536 bytes with all flags but read-only.
pub(crate) const HANDSHAKE: &[u8] =
    b"NBDMAGICIHAVEOPT\x00\x03\x00\x00\x00\x00\x00\x01\x00\x00\x01\x6d";

/// GO that asks for nothing.
pub(crate) const GO: &[u8] = b"IHAVEOPT\x00\x00\x00\x07\x00\x00\x00\x06\x00\x00\x00\x00\x00\x00";

/// GO that asks for the block sizes, which have the number 3.
pub(crate) const GO_3: &[u8] =
    b"IHAVEOPT\x00\x00\x00\x07\x00\x00\x00\x08\x00\x00\x00\x00\x00\x01\x00\x03";

pub(crate) const LIST: &[u8] = b"IHAVEOPT\x00\x00\x00\x03\x00\x00\x00\x00";

pub(crate) const ABORT: &[u8] = b"IHAVEOPT\x00\x00\x00\x02\x00\x00\x00\x00";

/// An option that isn't known.
pub(crate) const OPTION_9: &[u8] = b"IHAVEOPT\x00\x00\x00\x09\x00\x00\x00\x00";

/// The export to GO: 65,536 bytes, with these flags.
pub(crate) const EXPORT_7: &[u8] =
    b"\x00\x03\xe8\x89\x04\x55\x65\xa9\x00\x00\x00\x07\x00\x00\x00\x03\x00\x00\x00\x0c\x00\x00\x00\x00\x00\x00\x00\x01\x00\x00\x01\x6d";

/// Blocks of 4,096 bytes, and requests of at most 32 MiB, to GO.
pub(crate) const SIZES_7: &[u8] =
    b"\x00\x03\xe8\x89\x04\x55\x65\xa9\x00\x00\x00\x07\x00\x00\x00\x03\x00\x00\x00\x0e\x00\x03\x00\x00\x00\x01\x00\x00\x10\x00\x02\x00\x00\x00";

pub(crate) const ACK_7: &[u8] =
    b"\x00\x03\xe8\x89\x04\x55\x65\xa9\x00\x00\x00\x07\x00\x00\x00\x01\x00\x00\x00\x00";

/// The one export, whose name is empty.
pub(crate) const SERVER_3: &[u8] =
    b"\x00\x03\xe8\x89\x04\x55\x65\xa9\x00\x00\x00\x03\x00\x00\x00\x02\x00\x00\x00\x04\x00\x00\x00\x00";

pub(crate) const ACK_3: &[u8] =
    b"\x00\x03\xe8\x89\x04\x55\x65\xa9\x00\x00\x00\x03\x00\x00\x00\x01\x00\x00\x00\x00";

pub(crate) const UNSUP_9: &[u8] =
    b"\x00\x03\xe8\x89\x04\x55\x65\xa9\x00\x00\x00\x09\x80\x00\x00\x01\x00\x00\x00\x00";

pub(crate) const DISC: &[u8] =
    b"\x25\x60\x95\x13\x00\x00\x00\x02\x00\x00\x00\x00\x00\x00\x00\x00\x00\x00\x00\x00\x00\x00\x00\x00\x00\x00\x00\x00";

/// A READ with FUA of 512 bytes at 0, of cookie 1.
pub(crate) const READ_512: &[u8] =
    b"\x25\x60\x95\x13\x00\x01\x00\x00\x00\x00\x00\x00\x00\x00\x00\x01\x00\x00\x00\x00\x00\x00\x00\x00\x00\x00\x02\x00";

pub(crate) const READ_1: &[u8] =
    b"\x67\x44\x66\x98\x00\x00\x00\x00\x00\x00\x00\x00\x00\x00\x00\x01";

/// A WRITE with FUA of three bytes at 0, of cookie 4.
pub(crate) const WRITE_ABC: &[u8] =
    b"\x25\x60\x95\x13\x00\x01\x00\x01\x00\x00\x00\x00\x00\x00\x00\x04\x00\x00\x00\x00\x00\x00\x00\x00\x00\x00\x00\x03abc";

pub(crate) const ZEROS: &[u8] = &[0; 512];

/// A request without flags.
pub(crate) fn request(kind: u8, cookie: u8, offset: u32, length: u32) -> [u8; 28] {
    let at = offset.to_be_bytes();
    let count = length.to_be_bytes();
    [
        0x25, 0x60, 0x95, 0x13, 0, 0, 0, kind, 0, 0, 0, 0, 0, 0, 0, cookie, 0, 0, 0, 0, at[0],
        at[1], at[2], at[3], count[0], count[1], count[2], count[3],
    ]
}

/// The head of a reply.
pub(crate) fn reply(error: u8, cookie: u8) -> [u8; 16] {
    [
        0x67, 0x44, 0x66, 0x98, 0, 0, 0, error, 0, 0, 0, 0, 0, 0, 0, cookie,
    ]
}

pub(crate) fn joined(alloc: Global, parts: &[&[u8]]) -> Result<Vec<u8>, AllocError> {
    let mut all = Vec::new(alloc);
    for part in parts {
        all.extend_from_slice(part)?;
    }
    Ok(all)
}
