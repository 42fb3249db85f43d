//! The kinds of step that a seat makes. Beside them there is the exchange of the slot, which
//! changes no view.
ghost use Rattle.sb_turn.specs.Views.{without_reserved, newcomer, union_of, spent_view};
ghost use Rattle.sb_turn.specs.Steps.{draws, looks, adds, passes_on, numbers, learns};

use crate::event::Event;
use crate::stands::Stands;
use crate::view::View;
use atomic_table::{Join, Play, Split};
use std::marker::PhantomData;

/// Takes a number for a new pass: a compare-exchange of word 3.
pub struct Number;

impl<S, E, B> Play<Option<S>, View<E, B>> for Number {
    ghost then = { numbers };
}

/// Splits a pass off, with the number that was taken.
pub struct Part;

impl<E, B> Split<View<E, B>> for Part {
    ghost left = { without_reserved };

    ghost right = { newcomer };
}

/// Joins a pass to another.
pub struct Unite;

impl<E, B> Join<View<E, B>> for Unite {
    ghost both = { union_of };

    ghost spent = { spent_view };
}

/// Draws a ticket: a compare-exchange of word 0.
pub struct Draw;

impl<S, E, B> Play<Option<S>, View<E, B>> for Draw {
    ghost then = { draws };
}

/// Looks which ticket is served: a load of word 1. Where it is its own the seat has the turn.
pub struct Look;

impl<S: Stands> Play<Option<S>, View<S::Entry, S::Base>> for Look {
    ghost then = { looks S.stands S.base };
}

/// Makes the entry of the turn: an addition of 1 to word 2.
pub struct Add<M> {
    event: PhantomData<M>,
}

impl<S, E, B, M: Event<E>> Play<Option<S>, View<E, B>> for Add<M> {
    ghost then = { adds M.made };
}

/// Passes the turn on: an addition of 1 to word 1.
pub struct PassOn;

impl<S, E, B> Play<Option<S>, View<E, B>> for PassOn {
    ghost then = { passes_on };
}

/// A load that changes nothing, and tells what the rule says of the seat's view.
pub struct Learn;

impl<S, E, B> Play<Option<S>, View<E, B>> for Learn {
    ghost then = { learns };
}
