//! A range of bytes, taken part by part.

ghost use Rattle.std.specs.Prelude.{◌≡◌};
ghost use Rattle.std.specs.Iterator.{YieldsFirst, item_count};
ghost use Rattle.sb_base.specs.Ranges.{parts_of, IsRest};

use crate::part::Part;
use std::marker::Model;

/// The parts of what is left of a range, seen as their list, in rising order.
#[derive(Drop)]
pub struct Parts {
    block_size: u64,
    at: u64,
    end: u64,
}

impl Model for Parts {
    ghost use Rattle.std.specs.Prelude.{List};
    ghost use Rattle.sb_base.specs.declared.part.Part.{Part};
    ghost use Rattle.sb_base.specs.Ranges.{parts_of, IsRest};

    ghost Value = { List Part };

    ghost view = { λ p. parts_of p.block_size p.at p.end };

    ghost invariant = { λ p. IsRest p.block_size p.at p.end };
}

impl Parts {
    /// The parts of the places from `at` on and below `end`.
    pub(crate) fn between(block_size: u32, at: u64, end: u64) -> Parts
        requires { IsRest block_size at end }
        ensures { result ≡ parts_of block_size at end }
    {
        Parts {
            block_size: block_size as u64,
            at,
            end,
        }
    }
}

impl Iterator for Parts {
    type Item = Part;

    ghost next_gives = { YieldsFirst (λ rest. rest) };

    ghost remaining = { item_count (λ rest. rest) };

    fn next(&mut self) -> Option<Part> {
        if self.at == self.end {
            return None;
        }
        let offset = self.at % self.block_size;
        let length = (self.block_size - offset).min(self.end - self.at);
        let part = Part {
            block: (self.at / self.block_size) as u32,
            offset: offset as u32,
            length: length as u32,
        };
        self.at += length;
        Some(part)
    }
}
