//! Standard input, output and error.

ghost use Rattle.std.specs.Prelude.{◌≡◌, None, Ok, Err, IsErr, MatchResult};
ghost use Rattle.std.specs.Result.{is_err};
ghost use Rattle.sb_world.specs.Told.{CountsFaults};
ghost use Rattle.sb_host.specs.Outcomes.{count_after};

use sb_world::{ReadFault, Sink, Source, WriteFault};
use std::io::{self, Input, Print, Read};
use std::rt::{HostRuntime, Stderr, Stdout};

/// Standard input.
#[derive(Drop)]
pub struct HostSource {
    input: <HostRuntime as Input>::Reader,
    faults: u64,
}

/// Standard output or standard error.
#[derive(Drop)]
pub struct HostSink {
    to: Stream,
    faults: u64,
}

/// Where a sink writes to.
#[derive(Drop, Clone, Copy)]
enum Stream {
    Output(Stdout),
    Errors(Stderr),
}

impl HostSource {
    /// Standard input.
    pub fn input(rt: HostRuntime) -> HostSource {
        HostSource {
            input: rt.reader(),
            faults: 0,
        }
    }

    /// Answers a read that ended so: a failure is never the end.
    fn answer(&mut self, outcome: io::Result<usize>) -> Result<usize, ReadFault>
        ensures answer { MatchResult outcome (λ count. result ≡ Ok count) (λ _. result ≡ Err ReadFault.Failed) }
        ensures faults { self.new.faults ≡ count_after (is_err result) self.old.faults }
        ensures cause { CountsFaults self.old.faults self.new.faults (IsErr result) }
    {
        match outcome {
            Ok(count) => Ok(count),
            Err(_) => {
                self.faults = self.faults.saturating_add(1);
                Err(ReadFault::Failed)
            }
        }
    }
}

impl Source for HostSource {
    ghost left = { λ _. None };

    ghost faults = { λ source. source.faults };

    fn read(&mut self, out: &mut [u8]) -> Result<usize, ReadFault> {
        let outcome = self.input.read(out);
        self.answer(outcome)
    }
}

impl HostSink {
    /// Standard output.
    pub fn output(rt: HostRuntime) -> HostSink {
        HostSink {
            to: Stream::Output(rt.stdout()),
            faults: 0,
        }
    }

    /// Standard error.
    pub fn errors(rt: HostRuntime) -> HostSink {
        HostSink {
            to: Stream::Errors(rt.stderr()),
            faults: 0,
        }
    }

    /// Answers a write that ended so.
    fn answer(&mut self, outcome: io::Result<()>) -> Result<(), WriteFault>
        ensures answer { MatchResult outcome (λ _. result ≡ Ok tt) (λ _. result ≡ Err WriteFault.Failed) }
        ensures faults { self.new.faults ≡ count_after (is_err result) self.old.faults }
        ensures cause { CountsFaults self.old.faults self.new.faults (IsErr result) }
    {
        match outcome {
            Ok(()) => Ok(()),
            Err(_) => {
                self.faults = self.faults.saturating_add(1);
                Err(WriteFault::Failed)
            }
        }
    }
}

impl Sink for HostSink {
    ghost held = { λ _. None };

    ghost faults = { λ sink. sink.faults };

    fn write(&mut self, bytes: &[u8]) -> Result<(), WriteFault> {
        let outcome = match self.to {
            Stream::Output(stream) => stream.write_all(bytes),
            Stream::Errors(stream) => stream.write_all(bytes),
        };
        self.answer(outcome)
    }
}
