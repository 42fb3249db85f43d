//! The rule of the lock.
use crate::stands::Stands;
use crate::view::View;
use atomic_table::TableRule;
use std::marker::PhantomData;
use std::snapshot::Snapshot;

/// The key is the value as it was when the turn was made, of which the rule cites the opening and
/// the base.
pub struct Order<S> {
    of: PhantomData<S>,
}

impl<S: Stands> TableRule<Option<S>, View<S::Entry, S::Base>, Snapshot<S>> for Order<S> {
    ghost use Rattle.sb_turn.specs.Views.{first_view};
    ghost use Rattle.sb_turn.specs.Rule.{IsOrdered};

    ghost holds = { λ key. IsOrdered S.stands S.base (S.base key.value) (S.opening key.value) };

    ghost first = { λ key. first_view (S.base key.value) (S.opening key.value) };
}
