//! Why there is no response.

use sb_base::Text;

/// Why an exchange gave no response. Counts are of bytes.
#[derive(Drop)]
pub enum HttpFault {
    /// The wire failed.
    WireFault,
    /// The input ended inside a head, of which `got` bytes came.
    HeadCut { got: u64 },
    /// No head ends in its first `MAX_HEAD` bytes.
    HeadTooLong,
    /// No bytes can follow that make a head of these, or it is one interim response too many.
    BadHead,
    /// A head has more than `MAX_HEADERS` lines.
    TooManyHeaders,
    /// A `content-length` that is no length, or another one than that before it.
    BadLength(Text),
    /// The input ended inside the body, of which `got` bytes of the declared `want` came.
    BodyCut { want: Option<u64>, got: u64 },
    /// What stands around a chunk is no size, no line end or no trailer. Before it `got` bytes of the body came.
    BadChunk { got: u64 },
    /// The body is longer than `limit`.
    TooLong { limit: u64 },
    /// Memory was not found.
    Memory,
}
