//! How a session ends.

use sb_nbd::NbdEnd;

/// How a session ends.
#[derive(Drop, Clone, Copy, PartialEq, Eq, Debug)]
pub enum SessionEnd {
    /// The client sent DISC.
    Disconnected,
    /// The client sent ABORT.
    Aborted,
    /// The input ended between two messages.
    Ended,
    /// EXPORT_NAME named another export than the one with the empty name, by so many bytes.
    NoSuchExport(u32),
    /// What came is no message, or the source or the sink has failed. It is never `NbdEnd::Ended`.
    Fault(NbdEnd),
    /// As many options and requests were answered as a session may answer.
    Spent,
}
