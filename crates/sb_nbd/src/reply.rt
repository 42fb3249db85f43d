//! Writing replies to requests.
//!
//! | Offset | Bytes | Field |
//! |---|---|---|
//! | 0 | 4 | magic `67446698` |
//! | 4 | 4 | error, 0 for none |
//! | 8 | 8 | the request's cookie |
//! | 16 | any | of a READ without error, its bytes |

ghost use Rattle.std.specs.Prelude.{◌≡◌, IsErr, IsOkUnless};
ghost use Rattle.sb_world.specs.Told.{CountsFaults};
ghost use Rattle.sb_world.specs.Streams.{WriteHolds};
ghost use Rattle.sb_nbd.specs.Replies.{reply_head, reply_bytes};

use crate::end::NbdEnd;
use crate::sending::send;
use sb_world::Sink;

/// What a reply begins with.
pub const REPLY_MAGIC: u32 = 0x67446698;

/// The error of a write to a disk that is read-only.
pub const EPERM: u32 = 1;

/// The error of a request whose store has failed.
pub const EIO: u32 = 5;

/// The error of a request for which there is no memory.
pub const ENOMEM: u32 = 12;

/// The error of a request that can't be served.
pub const EINVAL: u32 = 22;

/// The error of a write that passes the end of the disk.
pub const ENOSPC: u32 = 28;

/// Writes a reply. The body goes to the sink as it is, after the head.
pub fn write_reply<S: Sink>(
    sink: &mut S,
    error: u32,
    cookie: u64,
    body: &[u8],
) -> Result<(), NbdEnd>
    ensures told { WriteHolds (S.held sink.old) (S.held sink.new) result (reply_bytes error cookie body.now) }
    ensures fault { IsOkUnless result NbdEnd.WriteFault }
    ensures cause { CountsFaults (S.faults sink.old) (S.faults sink.new) (IsErr result) }
{
    let head = head_of(error, cookie);
    match send(sink, &head) {
        Ok(()) => send(sink, body),
        Err(end) => Err(end),
    }
}

#[tactic(auto, unfolding(crate::specs::Replies::reply_head))]
fn head_of(error: u32, cookie: u64) -> [u8; 16]
    ensures { result ≡ reply_head error cookie }
{
    let m = REPLY_MAGIC.to_be_bytes();
    let e = error.to_be_bytes();
    let c = cookie.to_be_bytes();
    [
        m[0], m[1], m[2], m[3], e[0], e[1], e[2], e[3], c[0], c[1], c[2], c[3], c[4], c[5], c[6],
        c[7],
    ]
}
