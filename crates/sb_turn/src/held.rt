//! The value while it is out.
ghost use Rattle.std.specs.Prelude.{◌≡◌};
ghost use Rattle.std.specs.Borrow.{sem, Lends};
ghost use Rattle.sb_turn.specs.contracts.held.Held.{the_row};
ghost use Rattle.sb_turn.specs.Passes.{with_value};

use crate::stands::Stands;

/// The value, while a pass has the turn. It has to be spent: only `Turn::leave` and
/// `Turn::leave_without_entry` take it.
pub struct Held<S: Stands> {
    pub(crate) value: S,
}

impl<S: Stands> Held<S> {
    /// The value, to read and to change.
    pub fn value(&mut self) -> &mut S
        ensures* writes_back { sem 𝓛
            (Lends (the_row S.row S.Entry.row S.Base.row) S.row self.entry result (with_value self.old)) }
        ensures value { result.now ≡ self.old.value }
    {
        &mut self.value
    }

    pub(crate) fn into_value(self) -> S
        ensures { result ≡ self.value }
    {
        let Held { value } = self;
        value
    }
}
