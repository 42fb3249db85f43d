//! How a pass gets the turn: it draws a ticket, waits until the ticket is served, and takes the
//! value.
ghost use Rattle.std.specs.Prelude.{◌≡◌, ℕ, ◌<◌, ◌+◌, ◌^◌, MatchBool, Some};
ghost use Rattle.sb_turn.specs.declared.view.Stage.TheVariants.{Out, Waits};
ghost use Rattle.sb_turn.specs.Histories.{IsPast};
ghost use Rattle.sb_turn.specs.Views.{at_stage};
ghost use Rattle.sb_turn.specs.Steps.{Entered};
ghost use Rattle.sb_turn.specs.Passes.{seen, mine, base_of, held, IsWholePass, IsPassOf, IsFree, HoldsTurn, IsSamePass};

use crate::held::Held;
use crate::pass::Pass;
use crate::stands::Stands;
use crate::step::{Draw, Look};
use crate::turn::{NEXT_TICKET, Place, SERVING, Turn, VALUE};
use std::sync::Wait;
use std::thread;

impl<S: Stands> Turn<S> {
    /// Waits for the turn. Then the pass has seen the whole history. At the last ticket it waits
    /// for ever.
    pub fn enter<R: Wait>(&self, rt: &R, pass: &mut Pass<S>) -> Held<S>
        requires { IsPassOf self.now pass.old × IsFree pass.old }
        ensures pass { IsSamePass pass.old pass.new × HoldsTurn pass.new }
        ensures seen { IsPast (seen pass.old) (seen pass.new) }
        ensures mine { mine pass.new ≡ mine pass.old }
        ensures value { S.stands (held result) (seen pass.new)
            × (base_of pass.new ≡ Some (S.base (held result))) }
        ensures whole { IsWholePass pass.old → seen pass.new ≡ seen pass.old }
    {
        let ticket = self.take_ticket(rt, &mut pass.seat);
        self.await_turn(rt, &mut pass.seat, ticket);
        match self.table.shared.exchange(&mut pass.seat, VALUE, None) {
            Some(value) => Held { value },
            None => unreachable!(),
        }
    }

    // Draws until it wins.
    fn take_ticket<R: Wait>(&self, rt: &R, seat: &mut Place<S>) -> u64
        requires own { seat.old.table_id ≡ self.now.table.shared.table_id }
        requires out { seat.old.me.0.stage ≡ Out }
        ensures own { (seat.new.table_id ≡ seat.old.table_id) × (seat.new.id ≡ seat.old.id) }
        ensures drawn { seat.new.me ≡ (at_stage seat.old.me.0 (Waits result), seat.old.me.1) }
    {
        for _ in rt.forever() {
            let next = self.table.shared.peek(NEXT_TICKET);
            if next < u64::MAX && self.draw(seat, next) {
                return next;
            }
        }
        unreachable!()
    }

    // Tries to draw the ticket `next`.
    fn draw(&self, seat: &mut Place<S>, next: u64) -> bool
        requires own { seat.old.table_id ≡ self.now.table.shared.table_id }
        requires out { seat.old.me.0.stage ≡ Out }
        requires more { next + 1 < 2 ^ 64 }
        ensures own { (seat.new.table_id ≡ seat.old.table_id) × (seat.new.id ≡ seat.old.id) }
        ensures drawn { MatchBool result
            (seat.new.me ≡ (at_stage seat.old.me.0 (Waits next), seat.old.me.1))
            (seat.new.me ≡ seat.old.me) }
    {
        self.table
            .shared
            .compare_exchange::<Draw>(seat, NEXT_TICKET, next, next + 1)
            == next
    }

    // Looks a few times, and then sleeps between the looks until the turn moves on.
    fn await_turn<R: Wait>(&self, rt: &R, seat: &mut Place<S>, ticket: u64)
        requires own { seat.old.table_id ≡ self.now.table.shared.table_id }
        requires waits { (seat.old.me.0.stage ≡ Waits ticket) × (0 < seat.old.me.0.number) }
        ensures own { (seat.new.table_id ≡ seat.old.table_id) × (seat.new.id ≡ seat.old.id) }
        ensures entered { Entered S.stands S.base ticket seat.old.me seat.new.me }
    {
        let mut looks_left = self.looks;
        for _ in rt.forever() {
            // Read before the look: where the turn moves on after it, `park` doesn't sleep.
            let serving = self.table.shared.peek(SERVING);
            if self.look(seat, ticket) {
                return;
            }
            if looks_left > 0 {
                looks_left -= 1;
                thread::yield_now();
            } else {
                self.table
                    .shared
                    .park(rt, SERVING, (serving & 0xffff_ffff) as u32);
            }
        }
        unreachable!()
    }

    // Whether the ticket is served. Then the seat has the turn.
    fn look(&self, seat: &mut Place<S>, ticket: u64) -> bool
        requires own { seat.old.table_id ≡ self.now.table.shared.table_id }
        requires waits { (seat.old.me.0.stage ≡ Waits ticket) × (0 < seat.old.me.0.number) }
        ensures own { (seat.new.table_id ≡ seat.old.table_id) × (seat.new.id ≡ seat.old.id) }
        ensures entered { MatchBool result
            (Entered S.stands S.base ticket seat.old.me seat.new.me)
            (seat.new.me ≡ seat.old.me) }
    {
        self.table.shared.load::<Look>(seat, SERVING) == ticket
    }
}
