//! What a request asks for, by its type.
//!
//! | Type | Command | Flags that it may have |
//! |---|---|---|
//! | 0 | READ | 1 FUA |
//! | 1 | WRITE | 1 FUA |
//! | 2 | DISC | 1 FUA |
//! | 3 | FLUSH | 1 FUA |
//! | 4 | TRIM | 1 FUA |
//! | 6 | WRITE_ZEROES | 1 FUA, 2 NO_HOLE |

ghost use Rattle.std.specs.Prelude.{◌≡◌};
ghost use Rattle.sb_nbd.specs.Commands.{command_of, has_other_flags, has_fua};

use crate::wanted::Wanted;

/// The type of a request for bytes.
pub const READ: u16 = 0;

/// The type of a request that carries bytes.
pub const WRITE: u16 = 1;

/// The type of the request that ends a session.
pub const DISC: u16 = 2;

/// The type of a request to have all writes kept.
pub const FLUSH: u16 = 3;

/// The type of a request that gives blocks up.
pub const TRIM: u16 = 4;

/// The type of a request to write zeros, which it doesn't carry.
pub const WRITE_ZEROES: u16 = 6;

/// The flag of a request that wants its writes kept before the reply.
pub const FUA: u16 = 1;

/// The flag of a WRITE_ZEROES that wants no hole where it writes.
pub const NO_HOLE: u16 = 2;

/// What a request asks for.
#[derive(Drop, Clone, Copy, PartialEq, Eq, Debug)]
pub enum Command {
    Read,
    Write,
    Disc,
    Flush,
    Trim,
    WriteZeroes,
}

impl Command {
    /// Whether a flag is there that the command may not have.
    pub fn has_other_flags(self, flags: u16) -> bool
        ensures { result ≡ has_other_flags self flags }
    {
        match self {
            Command::WriteZeroes => flags > FUA + NO_HOLE,
            Command::Read | Command::Write | Command::Disc | Command::Flush | Command::Trim => {
                flags > FUA
            }
        }
    }
}

impl Wanted {
    /// The command of a request. None of another type is known.
    pub fn command(&self) -> Option<Command>
        ensures { result ≡ command_of self.now.kind }
    {
        if self.kind == READ {
            Some(Command::Read)
        } else if self.kind == WRITE {
            Some(Command::Write)
        } else if self.kind == DISC {
            Some(Command::Disc)
        } else if self.kind == FLUSH {
            Some(Command::Flush)
        } else if self.kind == TRIM {
            Some(Command::Trim)
        } else if self.kind == WRITE_ZEROES {
            Some(Command::WriteZeroes)
        } else {
            None
        }
    }
}

/// Whether FUA is among the flags.
pub fn has_fua(flags: u16) -> bool
    ensures { result ≡ has_fua flags }
{
    flags & FUA == FUA
}
