//! Ranges of a disk, part by part.

ghost use Rattle.std.specs.Prelude.{◌≡◌, ◌≤◌, ◌+◌, length};
ghost use Rattle.sb_base.specs.Shapes.{IsSound};
ghost use Rattle.sb_base.specs.Ranges.{IsRange, parts_of};
ghost use Rattle.sb_session.specs.Goals.{writes_of};
ghost use Rattle.sb_session.specs.Answers.{ReadsRange, WritesRange, WritesWanted, FlushesWanted};

use sb_base::parts;
use sb_crew::{CallFault, Calls};
use sb_nbd::has_fua;

/// Reads a range into the front of a buffer.
pub(crate) fn read_range<K, D: Calls<K>>(
    disk: &mut D,
    desk: &mut K,
    offset: u64,
    count: u32,
    room: &mut [u8],
) -> Result<(), CallFault>
    requires ready { D.ready disk.old desk.old }
    requires sound { IsSound (D.base disk.old).geometry }
    requires range { IsRange (D.base disk.old).geometry offset (offset + count) }
    requires room { count ≤ length room.old }
    ensures ready { D.ready disk.new desk.new }
    ensures told { ReadsRange (D.base disk.old) (D.did disk.old desk.old disk.new desk.new)
        (parts_of (D.base disk.old).geometry.block_size offset (offset + count)) count room.new result }
    ensures base { D.base disk.new ≡ D.base disk.old }
    ensures length { length room.new ≡ length room.old }
{
    let geometry = disk.geometry();
    let mut at = 0;
    for part in parts(&geometry, offset, count as u64) {
        let end = at + part.length as usize;
        match disk.read(desk, part, &mut room[at..end]) {
            Ok(()) => at = end,
            Err(fault) => return Err(fault),
        }
    }
    Ok(())
}

/// Writes bytes to the range from a place on, and with FUA flushes then.
pub(crate) fn write_wanted<K, D: Calls<K>>(
    disk: &mut D,
    desk: &mut K,
    offset: u64,
    flags: u16,
    payload: &[u8],
) -> Result<(), CallFault>
    requires ready { D.ready disk.old desk.old }
    requires sound { IsSound (D.base disk.old).geometry }
    requires range { IsRange (D.base disk.old).geometry offset (offset + length payload.now) }
    ensures ready { D.ready disk.new desk.new }
    ensures told { let parts = parts_of (D.base disk.old).geometry.block_size offset (offset + length payload.now) in
        WritesWanted (D.base disk.old) (D.did disk.old desk.old disk.new desk.new) parts flags (writes_of parts payload.now) result }
    ensures base { D.base disk.new ≡ D.base disk.old }
{
    match write_range(disk, desk, offset, payload) {
        Ok(()) => flush_wanted(disk, desk, flags),
        Err(fault) => Err(fault),
    }
}

/// Flushes where FUA is among the flags.
pub(crate) fn flush_wanted<K, D: Calls<K>>(
    disk: &mut D,
    desk: &mut K,
    flags: u16,
) -> Result<(), CallFault>
    requires { D.ready disk.old desk.old }
    ensures ready { D.ready disk.new desk.new }
    ensures told { FlushesWanted (D.base disk.old) (D.did disk.old desk.old disk.new desk.new) flags result }
    ensures base { D.base disk.new ≡ D.base disk.old }
{
    if has_fua(flags) {
        match disk.flush(desk) {
            Ok(()) => Ok(()),
            Err(fault) => Err(CallFault::from(fault)),
        }
    } else {
        Ok(())
    }
}

/// Writes bytes to the range from a place on.
fn write_range<K, D: Calls<K>>(
    disk: &mut D,
    desk: &mut K,
    offset: u64,
    payload: &[u8],
) -> Result<(), CallFault>
    requires ready { D.ready disk.old desk.old }
    requires sound { IsSound (D.base disk.old).geometry }
    requires range { IsRange (D.base disk.old).geometry offset (offset + length payload.now) }
    ensures ready { D.ready disk.new desk.new }
    ensures told { let parts = parts_of (D.base disk.old).geometry.block_size offset (offset + length payload.now) in
        WritesRange (D.base disk.old) (D.did disk.old desk.old disk.new desk.new) parts (writes_of parts payload.now) result }
    ensures base { D.base disk.new ≡ D.base disk.old }
{
    let geometry = disk.geometry();
    let mut at = 0;
    for part in parts(&geometry, offset, payload.len() as u64) {
        let end = at + part.length as usize;
        match disk.write(desk, part, &payload[at..end]) {
            Ok(()) => at = end,
            Err(fault) => return Err(fault),
        }
    }
    Ok(())
}
