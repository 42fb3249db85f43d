//! What a client is told of a disk.

/// The size of a disk and of its blocks in bytes, and the transmission flags by which a client knows what it serves.
#[derive(Drop, Clone, Copy, PartialEq, Eq, Debug)]
pub struct Export {
    pub size: u64,
    pub block_size: u32,
    pub flags: u16,
}
