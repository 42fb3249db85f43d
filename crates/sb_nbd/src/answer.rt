//! How options are answered.
//!
//! | Option | Answer |
//! |---|---|
//! | 1 EXPORT_NAME | empty name: `Export`; another: `NoSuchExport` |
//! | 2 ABORT | `Abort` |
//! | 3 LIST | no bytes: `List`; else `Invalid` |
//! | 5 STARTTLS | `Policy` |
//! | 6 INFO, 7 GO | empty name: `Details`; another: `Unknown`; other bytes: `Invalid` |
//! | any other | `Unsupported` |

ghost use Rattle.std.specs.Prelude.{◌≡◌, ◌<◌, ◌^◌, ◌++◌, [], length, IsErr, IsOkUnless};
ghost use Rattle.sb_world.specs.Told.{CountsFaults};
ghost use Rattle.sb_world.specs.Streams.{WriteHolds};
ghost use Rattle.sb_nbd.specs.Numbers.{export_name, list, ack, info_reply};
ghost use Rattle.sb_nbd.specs.OptionReplies.{option_reply_bytes, export_info};
ghost use Rattle.sb_nbd.specs.OptionAnswers.{
  IsInfo,
  HasAnswer,
  kind_of,
  answer_bytes,
  block_size_bytes,
  begins_transmission,
};

use crate::end::NbdEnd;
use crate::export::Export;
use crate::greeting::write_export;
use crate::info::{Details, OptionRefusal, read_info};
use crate::option::{ABORT, Asked, EXPORT_NAME, GO, INFO, LIST, STARTTLS};
use crate::option_reply::{block_size_info, export_info, write_option_reply};
use crate::sending::send;
use sb_world::Sink;

/// The kind of a reply that grants what was asked.
const ACK: u32 = 1;

/// The kind of a reply that names an export.
const SERVER: u32 = 2;

/// The kind of a reply that has information about an export.
const INFO_REPLY: u32 = 3;

/// The error of an option that isn't known.
const UNSUP: u32 = 0x80000001;

/// The error of an option that is never taken.
const POLICY: u32 = 0x80000002;

/// The error of an option that carries other bytes than it has to.
const INVALID: u32 = 0x80000003;

/// The error of an option that names another export.
const UNKNOWN: u32 = 0x80000006;

/// How an option is answered.
#[derive(Drop, Clone, Copy, PartialEq, Eq, Debug)]
pub enum OptionAnswer {
    /// By the export, and the transmission begins.
    Export,
    /// By nothing: there is no such export, and the session ends.
    NoSuchExport,
    /// By ACK, and the session ends.
    Abort,
    /// By the one export there is, and ACK.
    List,
    /// By details of the export, and ACK. Behind GO the transmission begins.
    Details(Details),
    /// By an error.
    Refused(OptionRefusal),
}

/// The answer to an option that carries these bytes.
pub fn answer_to(asked: Asked, payload: &[u8]) -> OptionAnswer
    ensures { HasAnswer (record { asked = asked; payload = payload.now }) result }
{
    if asked.option == EXPORT_NAME {
        answer_to_name(asked, payload)
    } else if asked.option == ABORT {
        OptionAnswer::Abort
    } else if asked.option == LIST {
        answer_to_list(asked, payload)
    } else if asked.option == STARTTLS {
        OptionAnswer::Refused(OptionRefusal::Policy)
    } else if asked.option == INFO {
        answer_to_info(asked, payload)
    } else if asked.option == GO {
        answer_to_info(asked, payload)
    } else {
        OptionAnswer::Refused(OptionRefusal::Unsupported)
    }
}

fn answer_to_name(asked: Asked, payload: &[u8]) -> OptionAnswer
    requires { asked.option ≡ export_name }
    ensures { HasAnswer (record { asked = asked; payload = payload.now }) result }
{
    if asked.length == 0 {
        OptionAnswer::Export
    } else {
        OptionAnswer::NoSuchExport
    }
}

fn answer_to_list(asked: Asked, payload: &[u8]) -> OptionAnswer
    requires { asked.option ≡ list }
    ensures { HasAnswer (record { asked = asked; payload = payload.now }) result }
{
    if asked.length == 0 {
        OptionAnswer::List
    } else {
        OptionAnswer::Refused(OptionRefusal::Invalid)
    }
}

fn answer_to_info(asked: Asked, payload: &[u8]) -> OptionAnswer
    requires { IsInfo asked.option }
    ensures { HasAnswer (record { asked = asked; payload = payload.now }) result }
{
    match read_info(payload) {
        Ok(details) => OptionAnswer::Details(details),
        Err(refusal) => OptionAnswer::Refused(refusal),
    }
}

/// Whether the transmission begins behind this answer.
pub fn begins_transmission(option: u32, answer: OptionAnswer) -> bool
    ensures { result ≡ begins_transmission option answer }
{
    match answer {
        OptionAnswer::Export => true,
        OptionAnswer::Details(_) => option == GO,
        OptionAnswer::NoSuchExport
        | OptionAnswer::Abort
        | OptionAnswer::List
        | OptionAnswer::Refused(_) => false,
    }
}

/// Writes an answer to a client with these flags.
pub fn write_answer<S: Sink>(
    sink: &mut S,
    export: Export,
    flags: u32,
    option: u32,
    answer: OptionAnswer,
) -> Result<(), NbdEnd>
    ensures told { WriteHolds (S.held sink.old) (S.held sink.new) result (answer_bytes export flags option answer) }
    ensures fault { IsOkUnless result NbdEnd.WriteFault }
    ensures cause { CountsFaults (S.faults sink.old) (S.faults sink.new) (IsErr result) }
{
    match answer {
        OptionAnswer::Export => write_export(sink, export.size, export.flags, flags < 2),
        OptionAnswer::NoSuchExport => send(sink, &[]),
        OptionAnswer::Abort => write_option_reply(sink, option, ACK, &[]),
        OptionAnswer::List => write_with_ack(sink, option, SERVER, &[0; 4]),
        OptionAnswer::Details(details) => write_details(sink, export, option, details),
        OptionAnswer::Refused(refusal) => {
            write_option_reply(sink, option, kind_of(refusal), &[])
        }
    }
}

/// The kind of a reply that refuses.
fn kind_of(refusal: OptionRefusal) -> u32
    ensures { result ≡ kind_of refusal }
{
    match refusal {
        OptionRefusal::Unsupported => UNSUP,
        OptionRefusal::Policy => POLICY,
        OptionRefusal::Invalid => INVALID,
        OptionRefusal::Unknown => UNKNOWN,
    }
}

/// Writes details of an export, and ACK.
fn write_details<S: Sink>(
    sink: &mut S,
    export: Export,
    option: u32,
    details: Details,
) -> Result<(), NbdEnd>
    ensures told { WriteHolds (S.held sink.old) (S.held sink.new) result
        (option_reply_bytes option info_reply (export_info export.size export.flags)
        ++ (block_size_bytes export option details ++ option_reply_bytes option ack [])) }
    ensures fault { IsOkUnless result NbdEnd.WriteFault }
    ensures cause { CountsFaults (S.faults sink.old) (S.faults sink.new) (IsErr result) }
{
    let body = export_info(export.size, export.flags);
    match write_option_reply(sink, option, INFO_REPLY, &body) {
        Ok(()) => write_block_size(sink, export, option, details),
        Err(end) => Err(end),
    }
}

/// Writes the block sizes, where they are wanted, and ACK.
fn write_block_size<S: Sink>(
    sink: &mut S,
    export: Export,
    option: u32,
    details: Details,
) -> Result<(), NbdEnd>
    ensures told { WriteHolds (S.held sink.old) (S.held sink.new) result
        (block_size_bytes export option details ++ option_reply_bytes option ack []) }
    ensures fault { IsOkUnless result NbdEnd.WriteFault }
    ensures cause { CountsFaults (S.faults sink.old) (S.faults sink.new) (IsErr result) }
{
    match details {
        Details::Export => write_option_reply(sink, option, ACK, &[]),
        Details::ExportAndBlockSize => {
            let body = block_size_info(export.block_size);
            write_with_ack(sink, option, INFO_REPLY, &body)
        }
    }
}

/// Writes a reply, and ACK.
fn write_with_ack<S: Sink>(sink: &mut S, option: u32, kind: u32, body: &[u8]) -> Result<(), NbdEnd>
    requires { length body.now < 2 ^ 32 }
    ensures told { WriteHolds (S.held sink.old) (S.held sink.new) result
        (option_reply_bytes option kind body.now ++ option_reply_bytes option ack []) }
    ensures fault { IsOkUnless result NbdEnd.WriteFault }
    ensures cause { CountsFaults (S.faults sink.old) (S.faults sink.new) (IsErr result) }
{
    match write_option_reply(sink, option, kind, body) {
        Ok(()) => write_option_reply(sink, option, ACK, &[]),
        Err(end) => Err(end),
    }
}
