//! Why no message was read or written.

/// Why no message was read or written.
#[derive(Drop, Clone, Copy, PartialEq, Eq, Debug)]
pub enum NbdEnd {
    /// The input ended, and no byte of a message came.
    Ended,
    /// The input ended inside a message, of which so many bytes came.
    Cut { got: u64 },
    /// The message begins with another magic, of four bytes for a request and of eight for an option.
    BadMagic(u64),
    /// The client's flags have an unknown bit.
    BadFlags(u32),
    /// More bytes are announced than such a message may carry. They weren't taken.
    TooBig { length: u32 },
    /// The source has failed before a message was whole.
    ReadFault,
    /// The sink has failed.
    WriteFault,
}
