//! Calls of a table, each made only where the table of states has it.

ghost use Rattle.std.specs.Prelude.{◌≡◌, ◌<◌, length, true, IfOk};
ghost use Rattle.sb_base.specs.Ranges.{IsPart};
ghost use Rattle.sb_base.specs.Lines.{shown_of};
ghost use Rattle.sb_blocks.specs.Moves.{ShowsContent};
ghost use Rattle.test_blocks.specs.Looks.{IsOver};

use crate::table::Table;
use sb_base::{Answer, Geometry, Part};
use sb_blocks::{Look, OpenGet};
use std::alloc::AllocError;

/// The disk of all tests: eight blocks of eight bytes.
pub const GEOMETRY: Geometry = Geometry {
    block_size: 8,
    blocks: 8,
};

/// When and where a call is made.
#[derive(Drop, Clone, Copy, PartialEq, Eq, Debug)]
pub struct Moment {
    pub now: u64,
    pub place: u64,
    pub epoch: u64,
}

/// A call of a table, of one block.
#[derive(Drop, Clone, Copy, PartialEq, Eq, Debug)]
pub enum Call {
    Touch,
    BeginRead,
    /// A taken answer of bytes of this value.
    Take(u8),
    /// A taken answer that there is no object.
    TakeAbsent,
    /// An answer that isn't taken.
    Refuse,
    Drop,
    /// A write of the whole block.
    Fill(u8),
    /// A write of the middle of the block.
    Patch(u8),
    /// A write of zeros over the whole of a block that is known to be zeros.
    Clear,
    /// A write of the middle of such a block.
    PatchZeros(u8),
    BeginPut,
    EndPut(bool),
}

/// Makes a call, and tells whether the table of states has it.
pub fn perform<T: Table>(
    table: &mut T,
    block: u32,
    call: Call,
    at: Moment,
) -> Result<bool, AllocError>
    requires over { IsOver (T.state table.old) }
    requires on_disk { block < 8 }
    ensures { IfOk result (λ _. IsOver (T.state table.new)) }
{
    match call {
        Call::Touch => Ok(touch(table, block, at)),
        Call::BeginRead => begin_read(table, block, at),
        Call::Take(byte) => Ok(end_read(table, block, at, Answer::Bytes(&[byte; 8]), true)),
        Call::TakeAbsent => Ok(end_read(table, block, at, Answer::Absent, true)),
        Call::Refuse => Ok(end_read(table, block, at, Answer::Failed, false)),
        Call::Drop => Ok(drop_block(table, block)),
        Call::Fill(byte) => write(table, whole(block), at, &[byte; 8], false),
        Call::Patch(byte) => write(table, middle(block), at, &[byte; 3], false),
        Call::Clear => write(table, whole(block), at, &[0; 8], true),
        Call::PatchZeros(byte) => write(table, middle(block), at, &[byte; 3], true),
        Call::BeginPut => Ok(begin_put(table, block, at)),
        Call::EndPut(ok) => Ok(end_put(table, block, at, ok)),
    }
}

/// The whole block.
fn whole(block: u32) -> Part
    requires { block < 8 }
    ensures part { IsPart (record { block_size = 8; blocks = 8 }) result }
    ensures block { result.block ≡ block }
    ensures length { result.length ≡ 8 }
{
    Part {
        block,
        offset: 0,
        length: 8,
    }
}

/// Three bytes in the middle of the block.
fn middle(block: u32) -> Part
    requires { block < 8 }
    ensures part { IsPart (record { block_size = 8; blocks = 8 }) result }
    ensures block { result.block ≡ block }
    ensures length { result.length ≡ 3 }
{
    Part {
        block,
        offset: 2,
        length: 3,
    }
}

fn touch<T: Table>(table: &mut T, block: u32, at: Moment) -> bool
    requires over { IsOver (T.state table.old) }
    requires on_disk { block < 8 }
    ensures { IsOver (T.state table.new) }
{
    let may = table.look(block).is_held();
    if may {
        table.touch(at.now, at.place, block);
    }
    may
}

fn begin_read<T: Table>(table: &mut T, block: u32, at: Moment) -> Result<bool, AllocError>
    requires over { IsOver (T.state table.old) }
    requires on_disk { block < 8 }
    ensures { IfOk result (λ _. IsOver (T.state table.new)) }
{
    let get = OpenGet {
        pass: at.place,
        begun: at.now,
        expect: None,
        verify: None,
    };
    match table.look(block) {
        Look::Missing if table.free() > 0 => {
            table.begin_read(block, get)?;
            Ok(true)
        }
        _ => Ok(false),
    }
}

fn end_read<T: Table>(table: &mut T, block: u32, at: Moment, answer: Answer<'_>, take: bool) -> bool
    requires over { IsOver (T.state table.old) }
    requires on_disk { block < 8 }
    requires content { take ≡ true → ShowsContent 8 (shown_of answer) }
    ensures { IsOver (T.state table.new) }
{
    match table.look(block) {
        Look::Reading => {
            table.end_read(at.now, at.place, block, answer, take);
            true
        }
        _ => false,
    }
}

fn drop_block<T: Table>(table: &mut T, block: u32) -> bool
    requires over { IsOver (T.state table.old) }
    requires on_disk { block < 8 }
    ensures { IsOver (T.state table.new) }
{
    match table.look(block) {
        Look::Clean => {
            table.drop_block(block);
            true
        }
        _ => false,
    }
}

fn write<T: Table>(
    table: &mut T,
    part: Part,
    at: Moment,
    bytes: &[u8],
    known_zero: bool,
) -> Result<bool, AllocError>
    requires over { IsOver (T.state table.old) }
    requires part { IsPart (record { block_size = 8; blocks = 8 }) part }
    requires bytes { length bytes.now ≡ part.length }
    ensures { IfOk result (λ _. IsOver (T.state table.new)) }
{
    let may = match table.look(part.block) {
        Look::Missing => table.free() > 0 && (known_zero || part.length == 8),
        other => other.is_held(),
    };
    if may {
        table.write_part(at.now, at.place, at.epoch, part, bytes, known_zero)?;
    }
    Ok(may)
}

fn begin_put<T: Table>(table: &mut T, block: u32, at: Moment) -> bool
    requires over { IsOver (T.state table.old) }
    requires on_disk { block < 8 }
    ensures { IsOver (T.state table.new) }
{
    match table.look(block) {
        Look::Dirty => {
            let mut out = [0; 8];
            let zeros = table.begin_write(block, at.place, &mut out);
            zeros == (out == [0; 8])
        }
        _ => false,
    }
}

fn end_put<T: Table>(table: &mut T, block: u32, at: Moment, ok: bool) -> bool
    requires over { IsOver (T.state table.old) }
    requires on_disk { block < 8 }
    ensures { IsOver (T.state table.new) }
{
    let may = table.look(block).is_put();
    if may {
        table.end_write(block, at.now, ok);
    }
    may
}

/// The bytes of a block that is held.
pub fn content<T: Table>(table: &T, block: u32) -> Option<[u8; 8]>
    requires over { IsOver (T.state table.now) }
    requires on_disk { block < 8 }
{
    if !table.look(block).is_held() {
        return None;
    }
    let mut out = [0; 8];
    table.copy(whole(block), &mut out);
    Some(out)
}

/// Whether two tables tell the same: of each block, how many entries are free and dirty, and which ones come first.
pub fn same<A: Table, B: Table>(one: &A, other: &B, marks: u64) -> bool
    requires one { IsOver (A.state one.now) }
    requires other { IsOver (B.state other.now) }
{
    let mut same = one.free() == other.free()
        && one.dirty() == other.dirty()
        && one.victim() == other.victim();
    let mut after = None;
    for block in 0..GEOMETRY.blocks {
        same = same
            && one.look(block) == other.look(block)
            && one.used(block) == other.used(block)
            && one.stamp(block) == other.stamp(block)
            && content(one, block) == content(other, block);
        same = same && one.next_dirty(after) == other.next_dirty(after);
        after = one.next_dirty(after);
    }
    for mark in 0..marks {
        same = same && one.lowest_writing(mark) == other.lowest_writing(mark);
    }
    same
}
