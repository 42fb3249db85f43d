//! A list that a fake tells.

ghost use Rattle.std.specs.Prelude.{◌≡◌, Some, None, [], ◌∷◌, reverse, MatchOption};
ghost use Rattle.sb_world.specs.Told.{Gains};

use std::alloc::Global;
use std::marker::Model;

/// A list that is told, the newest first, until its growth is refused.
#[derive(Drop)]
pub(crate) struct Kept<X> {
    items: Vec<X>,
    whole: bool,
}

impl<X> Model for Kept<X> {
    ghost use Rattle.std.specs.Prelude.{List, Option, Some, None, if◌then◌else◌, reverse};

    ghost Value = { Option (List X) };

    ghost view = { λ kept. if kept.whole then Some (reverse kept.items.items) else None };
}

impl<X: Drop> Kept<X> {
    /// An empty list.
    pub(crate) fn new(alloc: Global) -> Kept<X>
        ensures { result ≡ Some [] }
    {
        Kept {
            items: Vec::new(alloc),
            whole: true,
        }
    }

    /// Adds an item.
    pub(crate) fn add(&mut self, item: X)
        ensures { Gains self.old self.new (item ∷ []) }
    {
        if self.whole && self.items.push(item).is_err() {
            self.whole = false;
        }
    }

    /// The items, the oldest first, and none after a growth was refused.
    pub(crate) fn items(&self) -> Option<&[X]>
        ensures { MatchOption result (self.now ≡ None) (λ items. self.now ≡ Some (reverse items.now)) }
    {
        if self.whole {
            Some(self.items.as_slice())
        } else {
            None
        }
    }

    /// Tells nothing from now on.
    pub(crate) fn forget(&mut self)
        ensures { self.new ≡ None }
    {
        self.whole = false;
    }
}
