//! Doing what a request asks for.

ghost use Rattle.std.specs.Prelude.{◌≡◌, ◌≤◌, ◌+◌, length, take, true, false, Some, Ok, IfOk, IsOk};
ghost use Rattle.sb_base.specs.Shapes.{IsSound};
ghost use Rattle.sb_base.specs.Ranges.{IsRange, parts_of};
ghost use Rattle.sb_nbd.specs.Requests.{IsRequest};
ghost use Rattle.sb_nbd.specs.RequestReading.{request_in};
ghost use Rattle.sb_nbd.specs.Commands.{command_of};
ghost use Rattle.sb_session.specs.Goals.{
  is_disc,
  has_range,
  passes_end,
  read_verdict,
  write_verdict,
  verdict_of,
  verdict,
  parts_in_range,
  writes_of,
  zeroed,
  zeros_of,
};
ghost use Rattle.sb_session.specs.Answers.{ReadAnswers, WriteAnswers, FlushAnswers, Answers, error_of};

use crate::range::{read_range, write_wanted};
use crate::zeroing::{Zeroing, zero_wanted};
use sb_base::Geometry;
use sb_crew::{CallFault, Calls};
use sb_nbd::{Command, EINVAL, EIO, ENOMEM, ENOSPC, EPERM, MAX_PAYLOAD, Wanted};

/// What a reply carries: an error number, 0 for none, and so many bytes of the buffer.
#[derive(Drop, Clone, Copy)]
pub(crate) struct Answer {
    pub(crate) error: u32,
    pub(crate) count: usize,
}

/// Does a request that isn't DISC. The bytes of a WRITE are in the front of the buffer, and those of a READ come there.
pub(crate) fn perform<K, D: Calls<K>>(
    disk: &mut D,
    desk: &mut K,
    read_only: bool,
    wanted: Wanted,
    room: &mut [u8],
) -> Answer
    requires ready { D.ready disk.old desk.old }
    requires sound { IsSound (D.base disk.old).geometry }
    requires room { MAX_PAYLOAD ≤ length room.old }
    requires request { IsRequest (request_in wanted room.old) }
    requires disc { is_disc wanted ≡ false }
    ensures ready { D.ready disk.new desk.new }
    ensures told { Answers (D.did disk.old desk.old disk.new desk.new) read_only (D.base disk.old)
        (request_in wanted room.old) result.error (take result.count room.new) }
    ensures count { result.count ≤ length room.new }
    ensures base { D.base disk.new ≡ D.base disk.old }
    ensures length { length room.new ≡ length room.old }
{
    match verdict(read_only, disk.geometry(), wanted) {
        Err(error) => Answer { error, count: 0 },
        Ok(Command::Read) => answer_read(disk, desk, wanted.offset, wanted.length, room),
        Ok(Command::Write) => {
            let payload = &room[..wanted.length as usize];
            let error = answer_write(disk, desk, wanted.offset, wanted.flags, payload);
            Answer { error, count: 0 }
        }
        Ok(Command::Trim) => {
            let error = answer_zeros(disk, desk, Zeroing::WholeBlocks, wanted);
            Answer { error, count: 0 }
        }
        Ok(Command::WriteZeroes) => {
            let error = answer_zeros(disk, desk, Zeroing::EachPart, wanted);
            Answer { error, count: 0 }
        }
        Ok(Command::Flush) => {
            let error = answer_flush(disk, desk);
            Answer { error, count: 0 }
        }
        Ok(Command::Disc) => unreachable!(),
    }
}

/// The command of a request that is served, or the error by which it is refused: the first of the table's that applies.
fn verdict(read_only: bool, geometry: Geometry, wanted: Wanted) -> Result<Command, u32>
    ensures code { result ≡ verdict read_only geometry wanted }
    ensures command { IfOk result (λ command. command_of wanted.kind ≡ Some command) }
    ensures range { IfOk result (λ command. has_range command ≡ true
        → IsRange geometry wanted.offset (wanted.offset + wanted.length)) }
    ensures length { result ≡ Ok Command.Read → wanted.length ≤ MAX_PAYLOAD }
{
    match wanted.command() {
        None => Err(EINVAL),
        Some(command) => {
            if command.has_other_flags(wanted.flags) {
                Err(EINVAL)
            } else {
                verdict_of(read_only, geometry, wanted, command)
            }
        }
    }
}

/// The same for a request with a command and no other flags than it may have.
fn verdict_of(
    read_only: bool,
    geometry: Geometry,
    wanted: Wanted,
    command: Command,
) -> Result<Command, u32>
    ensures code { result ≡ verdict_of read_only geometry wanted command }
    ensures command { IfOk result (λ served. served ≡ command) }
    ensures range { IfOk result (λ served. has_range served ≡ true
        → IsRange geometry wanted.offset (wanted.offset + wanted.length)) }
    ensures length { result ≡ Ok Command.Read → wanted.length ≤ MAX_PAYLOAD }
{
    match command {
        Command::Read => read_verdict(geometry, wanted),
        Command::Write => write_verdict(read_only, geometry, wanted, command, ENOSPC),
        Command::Trim => write_verdict(read_only, geometry, wanted, command, EINVAL),
        Command::WriteZeroes => write_verdict(read_only, geometry, wanted, command, ENOSPC),
        Command::Flush => Ok(Command::Flush),
        Command::Disc => Ok(Command::Disc),
    }
}

fn read_verdict(geometry: Geometry, wanted: Wanted) -> Result<Command, u32>
    ensures code { result ≡ read_verdict geometry wanted }
    ensures command { IfOk result (λ served. served ≡ Command.Read) }
    ensures range { IsOk result → IsRange geometry wanted.offset (wanted.offset + wanted.length) }
    ensures length { IsOk result → wanted.length ≤ MAX_PAYLOAD }
{
    if wanted.length > MAX_PAYLOAD {
        Err(EINVAL)
    } else if passes_end(geometry, wanted) {
        Err(EINVAL)
    } else {
        Ok(Command::Read)
    }
}

/// The same for one that writes, with the error of a range that passes the end.
fn write_verdict(
    read_only: bool,
    geometry: Geometry,
    wanted: Wanted,
    command: Command,
    error: u32,
) -> Result<Command, u32>
    ensures code { result ≡ write_verdict read_only geometry wanted command error }
    ensures command { IfOk result (λ served. served ≡ command) }
    ensures range { IsOk result → IsRange geometry wanted.offset (wanted.offset + wanted.length) }
{
    if read_only {
        Err(EPERM)
    } else if passes_end(geometry, wanted) {
        Err(error)
    } else {
        Ok(command)
    }
}

/// Whether a range passes the end of a disk. Ranges are compared as whole numbers.
fn passes_end(geometry: Geometry, wanted: Wanted) -> bool
    ensures { result ≡ passes_end geometry wanted }
{
    let end = wanted.offset as u128 + wanted.length as u128;
    end > geometry.size() as u128
}

fn answer_read<K, D: Calls<K>>(
    disk: &mut D,
    desk: &mut K,
    offset: u64,
    count: u32,
    room: &mut [u8],
) -> Answer
    requires ready { D.ready disk.old desk.old }
    requires sound { IsSound (D.base disk.old).geometry }
    requires range { IsRange (D.base disk.old).geometry offset (offset + count) }
    requires room { count ≤ length room.old }
    ensures ready { D.ready disk.new desk.new }
    ensures told { ReadAnswers (D.base disk.old) (D.did disk.old desk.old disk.new desk.new)
        (parts_of (D.base disk.old).geometry.block_size offset (offset + count)) result.error
        (take result.count room.new) }
    ensures count { result.count ≤ length room.new }
    ensures base { D.base disk.new ≡ D.base disk.old }
    ensures length { length room.new ≡ length room.old }
{
    match read_range(disk, desk, offset, count, room) {
        Ok(()) => Answer {
            error: 0,
            count: count as usize,
        },
        Err(fault) => Answer {
            error: number_of(fault),
            count: 0,
        },
    }
}

fn answer_write<K, D: Calls<K>>(
    disk: &mut D,
    desk: &mut K,
    offset: u64,
    flags: u16,
    payload: &[u8],
) -> u32
    requires ready { D.ready disk.old desk.old }
    requires sound { IsSound (D.base disk.old).geometry }
    requires range { IsRange (D.base disk.old).geometry offset (offset + length payload.now) }
    ensures ready { D.ready disk.new desk.new }
    ensures told { let parts = parts_of (D.base disk.old).geometry.block_size offset (offset + length payload.now) in
        WriteAnswers (D.base disk.old) (D.did disk.old desk.old disk.new desk.new) parts flags (writes_of parts payload.now) result }
    ensures base { D.base disk.new ≡ D.base disk.old }
{
    match write_wanted(disk, desk, offset, flags, payload) {
        Ok(()) => 0,
        Err(fault) => number_of(fault),
    }
}

fn answer_zeros<K, D: Calls<K>>(disk: &mut D, desk: &mut K, zeroing: Zeroing, wanted: Wanted) -> u32
    requires ready { D.ready disk.old desk.old }
    requires sound { IsSound (D.base disk.old).geometry }
    requires range { IsRange (D.base disk.old).geometry wanted.offset (wanted.offset + wanted.length) }
    ensures ready { D.ready disk.new desk.new }
    ensures told { let geometry = (D.base disk.old).geometry in
        let parts = zeroed zeroing geometry.block_size (parts_in_range geometry wanted) in
        WriteAnswers (D.base disk.old) (D.did disk.old desk.old disk.new desk.new) parts wanted.flags (zeros_of parts) result }
    ensures base { D.base disk.new ≡ D.base disk.old }
{
    match zero_wanted(
        disk,
        desk,
        zeroing,
        wanted.offset,
        wanted.length,
        wanted.flags,
    ) {
        Ok(()) => 0,
        Err(fault) => number_of(fault),
    }
}

fn answer_flush<K, D: Calls<K>>(disk: &mut D, desk: &mut K) -> u32
    requires { D.ready disk.old desk.old }
    ensures ready { D.ready disk.new desk.new }
    ensures told { FlushAnswers (D.base disk.old) (D.did disk.old desk.old disk.new desk.new) result }
    ensures base { D.base disk.new ≡ D.base disk.old }
{
    match disk.flush(desk) {
        Ok(()) => 0,
        Err(fault) => number_of(CallFault::from(fault)),
    }
}

/// The error number of a fault.
fn number_of(fault: CallFault) -> u32
    ensures { result ≡ error_of fault }
{
    match fault {
        CallFault::StoreFault { status: _ } => EIO,
        CallFault::StaleRead { .. } => EIO,
        CallFault::ClockStalled { .. } => EIO,
        CallFault::Memory => ENOMEM,
    }
}
