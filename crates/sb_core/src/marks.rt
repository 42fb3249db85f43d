//! Which blocks are known to be zeros. A block is marked and its mark is cleared by the events of the requests to the
//! store alone:
//!
//! | Event | The mark of its block |
//! |---|---|
//! | a PUT begins | is cleared, unless it is one of zeros |
//! | a PUT of zeros ends ok | is set |
//! | an answer to a GET is taken: no object | is set |
//! | an answer to a GET is taken: bytes | is cleared, unless they are zeros |

ghost use Rattle.std.specs.Prelude.{◌≡◌, ◌<◌, false, if◌then◌else◌, None};
ghost use Rattle.sb_base.specs.Lines.{shown_of};
ghost use Rattle.sb_history.specs.Contents.{is_zeros};
ghost use Rattle.sb_history.specs.Cache.{zero_shown};
ghost use Rattle.sb_zero.specs.Sets.{blocks_of, is_marked};
ghost use Rattle.sb_core.specs.Marking.{SetsMark, begun_mark, ended_mark, shown_mark};

use crate::bytes::is_zeros;
use sb_base::Answer;
use sb_zero::Zeros;

/// A PUT of this block begins, of zeros or not.
pub(crate) fn put_begins(marks: &mut Zeros, block: u32, zeros: bool)
    requires on_disk { block < blocks_of marks.old }
    ensures blocks { blocks_of marks.new ≡ blocks_of marks.old }
    ensures sets { SetsMark (is_marked marks.old) (is_marked marks.new) block
        (begun_mark zeros (is_marked marks.old block)) }
{
    if !zeros {
        marks.clear(block);
    }
}

/// A PUT of this block ends, of zeros or not, ok or not.
pub(crate) fn put_ends(marks: &mut Zeros, block: u32, zeros: bool, ok: bool)
    requires on_disk { block < blocks_of marks.old }
    ensures blocks { blocks_of marks.new ≡ blocks_of marks.old }
    ensures sets { SetsMark (is_marked marks.old) (is_marked marks.new) block
        (ended_mark zeros ok (is_marked marks.old block)) }
{
    if ok && zeros {
        marks.mark(block);
    }
}

/// An answer to a GET of this block is taken or not.
pub(crate) fn get_ends(marks: &mut Zeros, block: u32, size: u32, answer: &Answer<'_>, taken: bool)
    requires on_disk { block < blocks_of marks.old }
    ensures blocks { blocks_of marks.new ≡ blocks_of marks.old }
    ensures sets { SetsMark (is_marked marks.old) (is_marked marks.new) block
        (shown_mark size (shown_of answer.now) taken (is_marked marks.old block)) }
{
    if taken {
        show(marks, block, size, answer);
    }
}

/// An answer shows what the block holds in the store.
fn show(marks: &mut Zeros, block: u32, size: u32, answer: &Answer<'_>)
    requires on_disk { block < blocks_of marks.old }
    ensures blocks { blocks_of marks.new ≡ blocks_of marks.old }
    ensures sets { SetsMark (is_marked marks.old) (is_marked marks.new) block
        (zero_shown size None (shown_of answer.now) (is_marked marks.old block)) }
{
    match answer {
        Answer::Absent => marks.mark(block),
        Answer::Bytes(bytes) => show_bytes(marks, block, bytes),
        Answer::Same => {}
        Answer::Failed => {}
    }
}

/// An answer shows these bytes. They are looked at only where the block is marked.
fn show_bytes(marks: &mut Zeros, block: u32, bytes: &[u8])
    requires on_disk { block < blocks_of marks.old }
    ensures blocks { blocks_of marks.new ≡ blocks_of marks.old }
    ensures sets { SetsMark (is_marked marks.old) (is_marked marks.new) block
        (if is_zeros bytes.now then is_marked marks.old block else false) }
{
    if !marks.is_zero(block) {
        return;
    }
    if !is_zeros(bytes) {
        marks.clear(block);
    }
}
