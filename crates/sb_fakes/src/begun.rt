//! The connections of a wire in memory.

ghost use Rattle.std.specs.Prelude.{◌≡◌, ◌<◌, [], ◌++◌, true, false, length, take, get_or, IfOk, MatchResult};
ghost use Rattle.sb_world.specs.Wires.{grown, is_end};
ghost use Rattle.sb_fakes.specs.Connections.{left_on, Gives};

use sb_base::Text;
use sb_world::WireFault;
use std::alloc::{AllocError, Global};
use std::marker::Model;

/// What was sent and received on a connection so far, and whether its end came.
#[derive(Drop)]
pub(crate) struct Begun {
    sent: Vec<u8>,
    received: Vec<u8>,
    ended: bool,
}

impl Model for Begun {
    ghost use Rattle.sb_world.specs.declared.wire.Connection.{Connection};

    ghost Value = { Connection };

    ghost view = { λ begun. record { sent = begun.sent.items; received = begun.received.items; ended = begun.ended } };
}

impl Begun {
    ghost use Rattle.std.specs.Prelude.{if◌then◌else◌, drop};
    ghost use Rattle.sb_world.specs.Wires.{fresh_connection};

    /// A connection that nothing was sent or received on.
    pub(crate) fn new(alloc: Global) -> Begun
        ensures { result ≡ fresh_connection }
    {
        Begun {
            sent: Vec::new(alloc),
            received: Vec::new(alloc),
            ended: false,
        }
    }

    /// What was sent on it.
    pub(crate) fn sent(&self) -> &[u8]
        ensures { result.now ≡ self.now.sent }
    {
        self.sent.as_slice()
    }

    /// Sends all these bytes, or none.
    fn send(&mut self, bytes: &[u8]) -> Result<(), AllocError>
        ensures { MatchResult result
            (λ _. self.new ≡ record {
              sent = self.old.sent ++ bytes.now;
              received = self.old.received;
              ended = self.old.ended;
            })
            (λ _. self.new ≡ self.old) }
    {
        self.sent.extend_from_slice(bytes)
    }

    /// Receives all these bytes, or none.
    fn receive(&mut self, bytes: &[u8]) -> Result<(), AllocError>
        ensures { MatchResult result
            (λ _. self.new ≡ record {
              sent = self.old.sent;
              received = self.old.received ++ bytes.now;
              ended = self.old.ended;
            })
            (λ _. self.new ≡ self.old) }
    {
        self.received.extend_from_slice(bytes)
    }

    /// Gives the next bytes of an answer, as many as make a piece and fit the buffer, and notes the end where none are
    /// left for a buffer that has room. An `Err` gives none.
    fn give(&mut self, answer: &[u8], piece: u32, out: &mut [u8]) -> Result<usize, AllocError>
        requires { 0 < piece }
        ensures length { length out.new ≡ length out.old }
        ensures gives { IfOk result (λ count. Gives (drop (length self.old.received) answer.now) piece out.new count) }
        ensures told { MatchResult result
            (λ count. self.new ≡ record {
              sent = self.old.sent;
              received = self.old.received ++ take count out.new;
              ended = if is_end count out.new then true else self.old.ended;
            })
            (λ _. self.new ≡ self.old) }
    {
        let left = answer.get(self.received.len()..).unwrap_or(&[]);
        let count = left.len().min(piece as usize).min(out.len());
        self.receive(&left[..count])?;
        out[..count].copy_from_slice(&left[..count]);
        if count == 0 && !out.is_empty() {
            self.ended = true;
        }
        Ok(count)
    }
}

/// Sends on the newest connection. An `Err`, for want of a connection or of memory, changes nothing.
pub(crate) fn send_on(begun: &mut [Begun], bytes: &[u8]) -> Result<(), WireFault>
    ensures { MatchResult result (λ _. begun.new ≡ grown bytes.now [] false begun.old)
        (λ _. begun.new ≡ begun.old) }
{
    match begun {
        [newest, ..] => match newest.send(bytes) {
            Ok(()) => Ok(()),
            Err(_) => Err(WireFault::Failed),
        },
        [] => Err(WireFault::Failed),
    }
}

/// Gives the next bytes of the newest connection's answer, which is nothing behind the last of the answers. An `Err`, for want of a connection or of memory, changes
/// nothing.
pub(crate) fn give_on(
    begun: &mut [Begun],
    answers: &[Text],
    piece: u32,
    out: &mut [u8],
) -> Result<usize, WireFault>
    requires { 0 < piece }
    ensures length { length out.new ≡ length out.old }
    ensures gives { IfOk result (λ count. Gives (left_on answers.now begun.old) piece out.new count) }
    ensures told { MatchResult result
        (λ count. begun.new ≡ grown [] (take count out.new) (is_end count out.new) begun.old)
        (λ _. begun.new ≡ begun.old) }
{
    let answer = answer_at(answers, begun.len().saturating_sub(1));
    match begun {
        [newest, ..] => match newest.give(answer, piece, out) {
            Ok(count) => Ok(count),
            Err(_) => Err(WireFault::Failed),
        },
        [] => Err(WireFault::Failed),
    }
}

/// The text of that number among the answers, counted from 0, or nothing.
fn answer_at(answers: &[Text], number: usize) -> &[u8]
    ensures { result.now ≡ get_or answers.now number [] }
{
    match answers.get(number) {
        Some(answer) => answer.bytes(),
        None => &[],
    }
}
