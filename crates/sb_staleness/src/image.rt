//! A disk at its start.

ghost use Rattle.std.specs.Prelude.{◌≡◌};
ghost use Rattle.sb_staleness.specs.Starts.{start_of};

/// The bytes with which a disk began, block after block. Blocks behind the end have none.
#[derive(Drop, Clone, Copy)]
pub(crate) struct Image<'a> {
    pub block_size: u32,
    pub bytes: &'a [u8],
}

impl<'a> Image<'a> {
    /// The content of a block at the start.
    pub(crate) fn content(&self, block: u32) -> &'a [u8]
        ensures { result.now ≡ start_of self.now.block_size self.now.bytes.now block }
    {
        let from = block as usize * self.block_size as usize;
        let behind = &self.bytes[from.min(self.bytes.len())..];
        &behind[..behind.len().min(self.block_size as usize)]
    }
}
