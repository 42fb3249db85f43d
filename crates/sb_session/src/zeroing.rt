//! Writing zeros to a range of a disk, part by part.

ghost use Rattle.std.specs.Prelude.{◌≡◌, ◌+◌};
ghost use Rattle.sb_base.specs.Shapes.{IsSound};
ghost use Rattle.sb_base.specs.Ranges.{IsRange, parts_of};
ghost use Rattle.sb_session.specs.Goals.{is_zeroed, zeroed, zeros_of};
ghost use Rattle.sb_session.specs.Answers.{WritesRange, WritesWanted};

use crate::range::flush_wanted;
use sb_base::{Part, parts};
use sb_crew::{CallFault, Calls};

/// Which parts of a range get zeros.
#[derive(Drop, Clone, Copy, PartialEq, Eq, Debug)]
pub enum Zeroing {
    /// Each part, as for WRITE_ZEROES.
    EachPart,
    /// Each block that lies wholly in the range, as for TRIM.
    WholeBlocks,
}

impl Zeroing {
    /// Whether a part gets zeros, on a disk with blocks of so many bytes.
    fn takes(self, block_size: u32, part: Part) -> bool
        ensures { result ≡ is_zeroed self block_size part }
    {
        match self {
            Zeroing::EachPart => true,
            Zeroing::WholeBlocks => part.length == block_size,
        }
    }
}

/// Writes zeros to parts of the range from a place on, and with FUA flushes then.
pub(crate) fn zero_wanted<K, D: Calls<K>>(
    disk: &mut D,
    desk: &mut K,
    zeroing: Zeroing,
    offset: u64,
    count: u32,
    flags: u16,
) -> Result<(), CallFault>
    requires ready { D.ready disk.old desk.old }
    requires sound { IsSound (D.base disk.old).geometry }
    requires range { IsRange (D.base disk.old).geometry offset (offset + count) }
    ensures ready { D.ready disk.new desk.new }
    ensures told { let size = (D.base disk.old).geometry.block_size in
        let parts = zeroed zeroing size (parts_of size offset (offset + count)) in
        WritesWanted (D.base disk.old) (D.did disk.old desk.old disk.new desk.new) parts flags (zeros_of parts) result }
    ensures base { D.base disk.new ≡ D.base disk.old }
{
    match zero_range(disk, desk, zeroing, offset, count) {
        Ok(()) => flush_wanted(disk, desk, flags),
        Err(fault) => Err(fault),
    }
}

/// Writes zeros to parts of the range from a place on. It makes no bytes of its own.
fn zero_range<K, D: Calls<K>>(
    disk: &mut D,
    desk: &mut K,
    zeroing: Zeroing,
    offset: u64,
    count: u32,
) -> Result<(), CallFault>
    requires ready { D.ready disk.old desk.old }
    requires sound { IsSound (D.base disk.old).geometry }
    requires range { IsRange (D.base disk.old).geometry offset (offset + count) }
    ensures ready { D.ready disk.new desk.new }
    ensures told { let size = (D.base disk.old).geometry.block_size in
        let parts = zeroed zeroing size (parts_of size offset (offset + count)) in
        WritesRange (D.base disk.old) (D.did disk.old desk.old disk.new desk.new) parts (zeros_of parts) result }
    ensures base { D.base disk.new ≡ D.base disk.old }
{
    let geometry = disk.geometry();
    for part in parts(&geometry, offset, count as u64) {
        if zeroing.takes(geometry.block_size, part) {
            match disk.zero(desk, part) {
                Ok(()) => {}
                Err(fault) => return Err(fault),
            }
        }
    }
    Ok(())
}
