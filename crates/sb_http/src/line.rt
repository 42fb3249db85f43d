//! The lines round the chunks of a chunked body, read byte by byte (RFC 9112, section 7.1).
//!
//! | State | The bytes so far |
//! |---|---|
//! | `Size` | none of a size line |
//! | `Digits` | one or more digits of the size |
//! | `Extension` | a size, `;` and a part of its extension |
//! | `SizeReturn` | a size line without its LF |
//! | `ChunkEnd`, `ChunkReturn` | none, and the CR, of the line end after a chunk |
//! | `TrailerLine`, `TrailerReturn` | of a trailer whole lines, and these and a CR |
//! | `TrailerText`, `TextReturn` | of a trailer a part of a line, and this and a CR |

ghost use Rattle.std.specs.Prelude.{◌≡◌};
ghost use Rattle.sb_http.specs.Lines.{after, next_size};

use httparse::parse_hex_digit;

/// How far a line, or a trailer of several, has been read.
#[derive(Drop, Clone, Copy)]
pub(crate) enum Line {
    Size,
    Digits(u64),
    Extension(u64),
    SizeReturn(u64),
    ChunkEnd,
    ChunkReturn,
    TrailerLine,
    TrailerReturn,
    TrailerText,
    TextReturn,
}

/// What a further byte leads to.
#[derive(Drop, Clone, Copy)]
pub(crate) enum Step {
    More(Line),
    /// The end, with the size that a size line gives, else 0.
    Done(u64),
    /// Nothing that can follow mends it.
    Bad,
}

impl Line {
    /// What this byte leads to.
    pub(crate) fn after(self, byte: u8) -> Step
        ensures { result ≡ after self byte }
    {
        match self {
            Line::Size => match parse_hex_digit(byte) {
                Some(digit) => Step::More(Line::Digits(digit)),
                None => Step::Bad,
            },
            Line::Digits(size) => after_digits(size, byte),
            Line::Extension(size) => match byte {
                b'\r' => Step::More(Line::SizeReturn(size)),
                b'\n' => Step::Bad,
                _ => Step::More(Line::Extension(size)),
            },
            Line::SizeReturn(size) => match byte {
                b'\n' => Step::Done(size),
                _ => Step::Bad,
            },
            Line::ChunkEnd => match byte {
                b'\r' => Step::More(Line::ChunkReturn),
                _ => Step::Bad,
            },
            Line::ChunkReturn => match byte {
                b'\n' => Step::Done(0),
                _ => Step::Bad,
            },
            Line::TrailerLine => match byte {
                b'\r' => Step::More(Line::TrailerReturn),
                _ => Step::More(Line::TrailerText),
            },
            Line::TrailerReturn => match byte {
                b'\r' => Step::More(Line::TextReturn),
                b'\n' => Step::Done(0),
                _ => Step::More(Line::TrailerText),
            },
            Line::TrailerText => match byte {
                b'\r' => Step::More(Line::TextReturn),
                _ => Step::More(Line::TrailerText),
            },
            Line::TextReturn => match byte {
                b'\r' => Step::More(Line::TextReturn),
                b'\n' => Step::More(Line::TrailerLine),
                _ => Step::More(Line::TrailerText),
            },
        }
    }
}

/// What a byte behind the digits of a size leads to.
fn after_digits(size: u64, byte: u8) -> Step
    ensures { result ≡ after (Line.Digits size) byte }
{
    match byte {
        b'\r' => Step::More(Line::SizeReturn(size)),
        b';' => Step::More(Line::Extension(size)),
        _ => match parse_hex_digit(byte) {
            Some(digit) => Step::More(Line::Digits(larger(size, digit))),
            None => Step::Bad,
        },
    }
}

/// A size with one more digit. Sizes past the greatest `u64` are taken as that, which no memory holds either.
fn larger(size: u64, digit: u64) -> u64
    ensures { result ≡ next_size size digit }
{
    size.saturating_mul(16).saturating_add(digit)
}
