//! A wire that gives the same answer on each connection, and a clock that goes on.

ghost use Rattle.std.specs.Prelude.{◌≡◌, None, IsErr, length};
ghost use Rattle.sb_world.specs.Told.{CountsFaults};
ghost use Rattle.sb_world.specs.Wires.{Connects, Receives, Sends};

use sb_world::{Wire, WireFault};

/// A wire that gives the same answer on each connection, and keeps nothing of what is sent.
#[derive(Drop)]
pub struct Replay {
    answer: Vec<u8>,
    at: usize,
}

impl Replay {
    /// A wire that gives this answer.
    pub fn new(answer: Vec<u8>) -> Replay {
        Replay { answer, at: 0 }
    }
}

impl Wire for Replay {
    ghost connections = { λ _. None };

    ghost faults = { λ _. 0 };

    fn connect(&mut self) -> Result<(), WireFault> {
        self.at = 0;
        Ok(())
    }

    fn send(&mut self, _bytes: &[u8]) -> Result<(), WireFault> {
        Ok(())
    }

    fn receive(&mut self, out: &mut [u8]) -> Result<usize, WireFault> {
        if self.at >= self.answer.len() {
            return Ok(0);
        }
        let left = &self.answer[self.at..];
        let count = left.len().min(out.len());
        out[..count].copy_from_slice(&left[..count]);
        self.at += count;
        Ok(count)
    }
}
