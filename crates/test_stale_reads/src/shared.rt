//! A tape that is read while its disk is at work.

ghost use Rattle.std.specs.Prelude.{None};

use sb_base::Line;
use sb_fakes::RecordTape;
use sb_world::Tape;
use std::cell::RefCell;

/// A tape in a cell. It tells nothing, since no contract knows what a cell has.
#[derive(Drop)]
pub struct SharedTape<'a> {
    pub kept: &'a RefCell<RecordTape>,
}

impl<'a> Tape for SharedTape<'a> {
    ghost told = { λ _. None };

    fn add(&mut self, line: Line<'_>) {
        if let Ok(mut tape) = self.kept.try_borrow_mut() {
            tape.add(line);
        }
    }
}
