//! Bytes that came and wait to be read.

ghost use Rattle.std.specs.Prelude.{◌≡◌, ◌≤◌, ◌∷◌, [], drop, length, vec_len};

use std::alloc::{AllocError, Global};

/// Bytes that came, and how many of them have been read.
#[derive(Drop)]
pub(crate) struct Window {
    pub(crate) bytes: Vec<u8>,
    pub(crate) start: usize,
    ghost within: { start ≤ vec_len bytes },
}

impl Window {
    ghost use Rattle.sb_http.specs.Windows.{pending, Pops, Pours};

    /// A window with no bytes.
    pub(crate) fn new(alloc: Global) -> Window
        ensures { pending result ≡ [] }
    {
        Window {
            bytes: Vec::new(alloc),
            start: 0,
        }
    }

    /// Forgets all bytes.
    pub(crate) fn clear(&mut self)
        ensures { pending self.new ≡ [] }
    {
        self.bytes.clear();
        self.start = 0;
    }

    /// The bytes that wait.
    pub(crate) fn waiting(&self) -> &[u8]
        ensures { result.now ≡ pending self.now }
    {
        &self.bytes[self.start..]
    }

    /// Passes over so many bytes that wait.
    pub(crate) fn skip(&mut self, count: usize)
        requires { count ≤ length (pending self.old) }
        ensures { pending self.new ≡ drop count (pending self.old) }
    {
        self.start += count;
    }

    /// Takes the first byte that waits.
    pub(crate) fn pop(&mut self) -> Option<u8>
        ensures { Pops (pending self.old) (pending self.new) result }
    {
        if self.start == self.bytes.len() {
            return None;
        }
        let byte = self.bytes[self.start];
        self.start += 1;
        Some(byte)
    }

    /// Puts the first bytes that wait behind those of `room`, so many where there are, and answers how many.
    pub(crate) fn pour(&mut self, room: &mut Vec<u8>, most: usize) -> Result<usize, AllocError>
        ensures { Pours (pending self.old) (pending self.new) room.old.items room.new.items most result }
    {
        let waiting = &self.bytes[self.start..];
        let count = waiting.len().min(most);
        room.extend_from_slice(&waiting[..count])?;
        self.start += count;
        Ok(count)
    }
}
