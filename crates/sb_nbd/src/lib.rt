//! The messages of NBD, read from a source and written to a sink.
//!
//! Numbers are big-endian. Each reader takes the bytes of exactly one message, however they come in pieces, and tells a
//! wrong magic as soon as the magic's own bytes have come.
#![tactic(auto)]

mod answer;
mod command;
mod end;
mod export;
mod filling;
mod greeting;
mod info;
mod laws;
mod option;
mod option_reply;
mod reply;
mod request;
mod sending;
mod wanted;

pub use answer::{OptionAnswer, answer_to, begins_transmission, write_answer};
pub use command::{Command, DISC, FLUSH, FUA, NO_HOLE, READ, TRIM, WRITE, WRITE_ZEROES, has_fua};
pub use end::NbdEnd;
pub use export::Export;
pub use greeting::{MAX_FLAGS, read_flags, write_export, write_greeting};
pub use info::{Details, OptionRefusal, read_info};
pub use laws::{
    constants_are_numbers, no_cut_option, no_cut_request, one_answer, one_option, one_request,
};
pub use option::{
    ABORT, Asked, EXPORT_NAME, GO, INFO, LIST, MAX_OPTION, OPTION_MAGIC, STARTTLS, read_option,
};
pub use option_reply::write_option_reply;
pub use reply::{EINVAL, EIO, ENOMEM, ENOSPC, EPERM, REPLY_MAGIC, write_reply};
pub use request::{MAX_PAYLOAD, REQUEST_MAGIC, read_request};
pub use wanted::Wanted;

#[cfg(test)]
mod tests;
