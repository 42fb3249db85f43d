//! The end of the process, as its standard input tells it.
//!
//! A process can't catch a signal here. Whoever wants to end it gives it a pipe as standard input, and closes that.

use libc::net::{POLLHUP, POLLIN, POLLNVAL, POLLOUT, poll};
use libc::types::pollfd;
use std::io;
use std::os::fd::RawFd;

/// The descriptor of standard input.
const INPUT: RawFd = 0;

/// How long a reply may wait for room once the process is to end, in milliseconds.
const LAST_WRITE: i32 = 5_000;

/// Whether standard input is watched: it is, unless it was closed when the process began.
#[derive(Drop, Clone, Copy)]
pub(crate) struct Ending {
    /// The descriptor that is watched for its end, -1 for none.
    pub(crate) input: RawFd,
}

/// What was waited for.
#[derive(Drop, Clone, Copy, PartialEq, Eq, Debug)]
pub(crate) enum Waited {
    /// The descriptor can be read from, or written to.
    Ready,
    /// Standard input has hung up: the process is to end.
    Over,
}

impl Ending {
    /// The end that standard input tells. A closed one tells none.
    pub(crate) fn of_input() -> Ending {
        let mut watched = [pollfd {
            fd: INPUT,
            events: 0,
            revents: 0,
        }];
        let closed = poll(&mut watched, 0) < 0 || watched[0].revents & POLLNVAL != 0;
        Ending {
            input: if closed { -1 } else { INPUT },
        }
    }

    /// Waits until a descriptor can be read from, or standard input has hung up.
    pub(crate) fn wait_to_read(&self, descriptor: RawFd) -> io::Result<Waited> {
        let mut watched = self.watched(descriptor, POLLIN);
        wait_on(&mut watched, -1)?;
        Ok(if has_hung_up(watched[1].revents) {
            Waited::Over
        } else {
            Waited::Ready
        })
    }

    /// Waits until a descriptor can be written to. Once standard input has hung up it waits for a while alone.
    pub(crate) fn wait_to_write(&self, descriptor: RawFd) -> io::Result<()> {
        let mut watched = self.watched(descriptor, POLLOUT);
        wait_on(&mut watched, -1)?;
        if watched[0].revents != 0 {
            return Ok(());
        }
        watched[1].fd = -1;
        wait_on(&mut watched, LAST_WRITE)?;
        if watched[0].revents != 0 {
            return Ok(());
        }
        Err(io::Error::from(io::ErrorKind::TimedOut))
    }

    /// A descriptor with what it is watched for, and standard input, which is watched for its end alone.
    fn watched(&self, descriptor: RawFd, events: i16) -> [pollfd; 2] {
        [
            pollfd {
                fd: descriptor,
                events,
                revents: 0,
            },
            pollfd {
                fd: self.input,
                events: 0,
                revents: 0,
            },
        ]
    }
}

/// Whether these events of a descriptor have that its other end was closed.
fn has_hung_up(events: i16) -> bool {
    events & POLLHUP != 0
}

/// Waits on descriptors, at most so many milliseconds, or without a limit below 0.
fn wait_on(watched: &mut [pollfd; 2], millis: i32) -> io::Result<()> {
    for _ in 0..u64::MAX {
        if poll(watched, millis) >= 0 {
            return Ok(());
        }
        let error = io::Error::from_raw_os_error(os::errno());
        if error.kind() != io::ErrorKind::Interrupted {
            return Err(error);
        }
    }
    Ok(())
}
