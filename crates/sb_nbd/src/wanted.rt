//! The fields of a request.
//!
//! | Offset | Bytes | Field |
//! |---|---|---|
//! | 4 | 2 | flags |
//! | 6 | 2 | type |
//! | 8 | 8 | cookie |
//! | 16 | 8 | offset |
//! | 24 | 4 | length |

ghost use Rattle.std.specs.Prelude.{◌≡◌, length};
ghost use Rattle.std.specs.Int.{w16, w32, w64, to_be_bytes};
ghost use Rattle.sb_nbd.specs.Requests.{fields_bytes, FitsFields};

/// What a request asks for: `length` bytes of the disk from `offset` on. Its reply has its cookie.
#[derive(Drop, Clone, Copy, PartialEq, Eq, Debug)]
pub struct Wanted {
    pub flags: u16,
    pub kind: u16,
    pub cookie: u64,
    pub offset: u64,
    pub length: u32,
}

/// The fields that these bytes spell.
#[tactic(auto, unfolding(crate::specs::Requests::fields_bytes))]
pub(crate) fn wanted_of(bytes: &[u8]) -> Wanted
    requires { length bytes.now ≡ 24 }
    ensures bytes { fields_bytes result ≡ bytes.now }
    ensures fits { FitsFields result }
{
    let (flags, after_flags) = bytes.split_at(2);
    let (kind, after_kind) = after_flags.split_at(2);
    let (cookie, after_cookie) = after_kind.split_at(8);
    let (offset, length) = after_cookie.split_at(8);
    Wanted {
        flags: u16_of(flags),
        kind: u16_of(kind),
        cookie: u64_of(cookie),
        offset: u64_of(offset),
        length: u32_of(length),
    }
}

/// The number of two bytes.
pub(crate) fn u16_of(bytes: &[u8]) -> u16
    requires { length bytes.now ≡ 2 }
    ensures { to_be_bytes w16 result ≡ bytes.now }
{
    u16::from_be_bytes([bytes[0], bytes[1]])
}

/// The number of four bytes.
pub(crate) fn u32_of(bytes: &[u8]) -> u32
    requires { length bytes.now ≡ 4 }
    ensures { to_be_bytes w32 result ≡ bytes.now }
{
    u32::from_be_bytes([bytes[0], bytes[1], bytes[2], bytes[3]])
}

/// The number of eight bytes.
pub(crate) fn u64_of(bytes: &[u8]) -> u64
    requires { length bytes.now ≡ 8 }
    ensures { to_be_bytes w64 result ≡ bytes.now }
{
    u64::from_be_bytes([
        bytes[0], bytes[1], bytes[2], bytes[3], bytes[4], bytes[5], bytes[6], bytes[7],
    ])
}
