//! Writing replies to options.
//!
//! | Offset | Bytes | Field |
//! |---|---|---|
//! | 0 | 8 | magic `0003e889045565a9` |
//! | 8 | 4 | option |
//! | 12 | 4 | kind |
//! | 16 | 4 | length |
//! | 20 | length | its bytes |
//!
//! Those of information about the export are u16 0, u64 size, u16 transmission flags; those of its block sizes are
//! u16 3, u32 1, u32 block size, u32 33,554,432.

ghost use Rattle.std.specs.Prelude.{◌≡◌, ◌<◌, ◌^◌, length, IsErr, IsOkUnless};
ghost use Rattle.sb_world.specs.Told.{CountsFaults};
ghost use Rattle.sb_world.specs.Streams.{WriteHolds};
ghost use Rattle.sb_nbd.specs.OptionReplies.{option_reply_head, option_reply_bytes, export_info, block_size_info};

use crate::end::NbdEnd;
use crate::info::BLOCK_SIZE_KIND;
use crate::request::MAX_PAYLOAD;
use crate::sending::send;
use sb_world::Sink;

/// What a reply to an option begins with.
pub const OPTION_REPLY_MAGIC: u64 = 0x0003e889045565a9;

/// Writes a reply to an option. The body goes to the sink as it is, after the head.
pub fn write_option_reply<S: Sink>(
    sink: &mut S,
    option: u32,
    kind: u32,
    body: &[u8],
) -> Result<(), NbdEnd>
    requires { length body.now < 2 ^ 32 }
    ensures told { WriteHolds (S.held sink.old) (S.held sink.new) result (option_reply_bytes option kind body.now) }
    ensures fault { IsOkUnless result NbdEnd.WriteFault }
    ensures cause { CountsFaults (S.faults sink.old) (S.faults sink.new) (IsErr result) }
{
    let head = head_of(option, kind, body.len() as u32);
    match send(sink, &head) {
        Ok(()) => send(sink, body),
        Err(end) => Err(end),
    }
}

#[tactic(auto, unfolding(crate::specs::OptionReplies::option_reply_head))]
fn head_of(option: u32, kind: u32, size: u32) -> [u8; 20]
    ensures { result ≡ option_reply_head option kind size }
{
    let m = OPTION_REPLY_MAGIC.to_be_bytes();
    let o = option.to_be_bytes();
    let k = kind.to_be_bytes();
    let s = size.to_be_bytes();
    [
        m[0], m[1], m[2], m[3], m[4], m[5], m[6], m[7], o[0], o[1], o[2], o[3], k[0], k[1], k[2],
        k[3], s[0], s[1], s[2], s[3],
    ]
}

/// Information about an export: its size in bytes, and its transmission flags.
#[tactic(auto, unfolding(crate::specs::OptionReplies::export_info))]
pub(crate) fn export_info(size: u64, flags: u16) -> [u8; 12]
    ensures { result ≡ export_info size flags }
{
    let s = size.to_be_bytes();
    let f = flags.to_be_bytes();
    [
        0, 0, s[0], s[1], s[2], s[3], s[4], s[5], s[6], s[7], f[0], f[1],
    ]
}

/// Information about the sizes of requests: the least, the preferred and the greatest.
#[tactic(auto, unfolding(crate::specs::OptionReplies::block_size_info))]
pub(crate) fn block_size_info(block_size: u32) -> [u8; 14]
    ensures { result ≡ block_size_info block_size }
{
    let k = BLOCK_SIZE_KIND.to_be_bytes();
    let b = block_size.to_be_bytes();
    let m = MAX_PAYLOAD.to_be_bytes();
    [
        k[0], k[1], 0, 0, 0, 1, b[0], b[1], b[2], b[3], m[0], m[1], m[2], m[3],
    ]
}
