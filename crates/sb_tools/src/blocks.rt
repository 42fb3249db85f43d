//! Names read as blocks.

ghost use Rattle.std.specs.Prelude.{◌≡◌};
ghost use Rattle.sb_tools.specs.Blocks.{block_of, ReadsNames};

use sb_names::{names_differ, read_name};

/// A name is read as a block exactly where it is the name of that block's object. The function does nothing; its
/// contract is the law.
pub fn reads_names()
    ensures { ReadsNames }
{
    names_differ();
}

/// The block whose object has a name. It takes no memory.
pub(crate) fn block_of(prefix: &str, hashed: bool, name: &[u8]) -> Option<u32>
    ensures { result ≡ block_of prefix.now hashed name.now }
{
    reads_names();
    read_name(prefix, hashed, name)
}
