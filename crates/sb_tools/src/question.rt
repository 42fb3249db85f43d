//! The question before blocks are erased.

ghost use Rattle.std.specs.Prelude.{◌≡◌, ◌≤◌, true, false, take, length, IfOk, OnErr, IsErr, IsErrOf};
ghost use Rattle.sb_world.specs.Told.{CountsFaults};
ghost use Rattle.sb_tools.specs.Questions.{Confirms, FailsToAnswer, GivesAnswer, ReadsYes, TakesByte, yes_or_no};

use crate::fault::ToolFault;
use sb_world::{ReadFault, Sink, Source};

/// The question.
const QUESTION: &'static [u8] = b"erase all blocks? [y/n] ";

/// The byte that ends a line.
const LINE_END: u8 = 10;

/// Asks whether all blocks are to be erased, unless by force, and reads the answer: the bytes up to a line end, to the
/// end of the input or to 16 bytes. It takes no memory.
///
/// `Declined` comes exactly where the answer isn't `y` or `yes`, and `InputFault` and `OutputFault` where the input and
/// the output fail. By force nothing is asked or read.
pub fn confirm<R: Source, S: Sink>(
    source: &mut R,
    sink: &mut S,
    force: bool,
) -> Result<(), ToolFault>
    ensures forced { force ≡ true → (result ≡ Ok tt) × (source.new ≡ source.old) × (sink.new ≡ sink.old) }
    ensures asked { force ≡ false → Confirms result
        (record { left = R.left source.old; held = S.held sink.old })
        (record { left = R.left source.new; held = S.held sink.new }) }
    ensures input { CountsFaults (R.faults source.old) (R.faults source.new) (IsErrOf result ToolFault.InputFault) }
    ensures output { CountsFaults (S.faults sink.old) (S.faults sink.new) (IsErrOf result ToolFault.OutputFault) }
{
    if force {
        return Ok(());
    }
    match sink.write(QUESTION) {
        Ok(()) => read_yes(source),
        Err(_) => Err(ToolFault::OutputFault),
    }
}

/// Reads an answer that erases.
fn read_yes<R: Source>(source: &mut R) -> Result<(), ToolFault>
    ensures answered { ReadsYes result (R.left source.old) (R.left source.new) }
    ensures cause { CountsFaults (R.faults source.old) (R.faults source.new) (IsErrOf result ToolFault.InputFault) }
{
    let mut room = [0; 16];
    match read_answer(source, &mut room) {
        Ok(length) => yes_or_no(&room[..length]),
        Err(ReadFault::Failed) => Err(ToolFault::InputFault),
    }
}

/// Declines an answer that doesn't erase.
fn yes_or_no(answer: &[u8]) -> Result<(), ToolFault>
    ensures { result ≡ yes_or_no answer.now }
{
    if answer == b"y".as_slice() || answer == b"yes".as_slice() {
        Ok(())
    } else {
        Err(ToolFault::Declined)
    }
}

/// Reads an answer into the front of `room`, and answers its length.
fn read_answer<R: Source>(source: &mut R, room: &mut [u8]) -> Result<usize, ReadFault>
    requires { length room.old ≡ 16 }
    ensures answer { IfOk result (λ size. (size ≤ 16)
        × GivesAnswer (R.left source.old) (R.left source.new) (take size room.new)) }
    ensures fault { OnErr result (FailsToAnswer (R.left source.old) (R.left source.new)) }
    ensures cause { CountsFaults (R.faults source.old) (R.faults source.new) (IsErr result) }
{
    'bytes: for size in 0..16 {
        match read_byte(source) {
            Err(fault) => return Err(fault),
            Ok(None) => return Ok(size),
            Ok(Some(byte)) => {
                if byte == LINE_END {
                    return Ok(size);
                }
                room[size] = byte;
            }
        }
    }
    Ok(16)
}

/// Reads a byte, none at the end.
fn read_byte<R: Source>(source: &mut R) -> Result<Option<u8>, ReadFault>
    ensures told { TakesByte (R.left source.old) (R.left source.new) result }
    ensures cause { CountsFaults (R.faults source.old) (R.faults source.new) (IsErr result) }
{
    let mut byte = [0];
    match source.read(&mut byte) {
        Ok(0) => Ok(None),
        Ok(_) => Ok(Some(byte[0])),
        Err(fault) => Err(fault),
    }
}
