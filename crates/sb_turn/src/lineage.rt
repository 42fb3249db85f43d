//! How passes come from one another, and back.
ghost use Rattle.std.specs.Prelude.{◌≡◌, ℕ, ◌<◌, ◌+◌, ◌^◌, [], ◌∷◌, ◌++◌, ◌⊎◌, MatchBool, None};
ghost use Rattle.sb_turn.specs.Histories.{entries_of_pass, IsPast, ArePasts};
ghost use Rattle.sb_turn.specs.Views.{with_reserved, IsConsistent};
ghost use Rattle.sb_turn.specs.Passes.{
  seen,
  mine,
  joined,
  number,
  last_given,
  handed_out,
  IsPassOf,
  IsFree,
  HasSplit,
  IsNewFrom,
  HasJoined,
};

use crate::pass::Pass;
use crate::stands::Stands;
use crate::step::{Learn, Number, Part, Unite};
use crate::turn::{NEXT_NUMBER, NEXT_TICKET, Place, Turn};
use std::sync::Wait;

impl<S: Stands> Turn<S> {
    /// A new pass, with a number of its own, that has seen as much. At the last number it waits for
    /// ever.
    pub fn split<R: Wait>(&self, rt: &R, pass: &mut Pass<S>) -> Pass<S>
        requires { IsPassOf self.now pass.old × IsFree pass.old }
        ensures pass { IsFree pass.new × HasSplit pass.old (number result) pass.new }
        ensures new { IsPassOf self.now result × IsFree result × IsNewFrom pass.old result }
        ensures number { (number pass.old < number result) × (last_given pass.old < number result) }
        ensures fresh { entries_of_pass (number result) (seen result) ≡ [] }
    {
        let number = self.take_number(rt, &mut pass.seat);
        let seat = self.table.shared.split_seat::<Part>(&mut pass.seat);
        Pass { seat, number }
    }

    /// Takes in another pass, with all that it made and saw.
    pub fn join(&self, pass: &mut Pass<S>, other: Pass<S>)
        requires pass { IsPassOf self.now pass.old × IsFree pass.old }
        requires other { IsPassOf self.now other × IsFree other }
        ensures pass { IsFree pass.new × HasJoined pass.old other pass.new }
        ensures seen { IsPast (seen pass.old) (seen pass.new)
            × IsPast (seen other) (seen pass.new) }
        ensures longer { (seen pass.new ≡ seen pass.old) ⊎ (seen pass.new ≡ seen other) }
    {
        let Pass { seat, number: _ } = other;
        self.table.shared.join_seat::<Unite>(&mut pass.seat, seat);
        self.learn(&mut pass.seat);
    }

    // Takes numbers until it wins.
    fn take_number<R: Wait>(&self, rt: &R, seat: &mut Place<S>) -> u64
        requires own { seat.old.table_id ≡ self.now.table.shared.table_id }
        requires none { (seat.old.me.0.reserved ≡ None) × (0 < seat.old.me.0.number) }
        ensures own { (seat.new.table_id ≡ seat.old.table_id) × (seat.new.id ≡ seat.old.id) }
        ensures taken { (seat.new.me ≡ (with_reserved seat.old.me.0 result, seat.old.me.1))
            × (seat.old.me.0.last_given < result)
            × IsConsistent (with_reserved seat.old.me.0 result) }
    {
        for _ in rt.forever() {
            let next = self.table.shared.peek(NEXT_NUMBER);
            if next < u64::MAX && self.reserve(seat, next) {
                return next;
            }
        }
        unreachable!()
    }

    // Tries to take the number `next`.
    fn reserve(&self, seat: &mut Place<S>, next: u64) -> bool
        requires own { seat.old.table_id ≡ self.now.table.shared.table_id }
        requires none { (seat.old.me.0.reserved ≡ None) × (0 < seat.old.me.0.number) }
        requires more { next + 1 < 2 ^ 64 }
        ensures own { (seat.new.table_id ≡ seat.old.table_id) × (seat.new.id ≡ seat.old.id) }
        ensures taken { MatchBool result
            ((seat.new.me ≡ (with_reserved seat.old.me.0 next, seat.old.me.1))
            × (seat.old.me.0.last_given < next)
            × IsConsistent (with_reserved seat.old.me.0 next))
            (seat.new.me ≡ seat.old.me) }
    {
        self.table
            .shared
            .compare_exchange::<Number>(seat, NEXT_NUMBER, next, next + 1)
            == next
    }

    // What the rule says of the seat's view.
    pub(crate) fn learn(&self, seat: &mut Place<S>)
        requires own { seat.old.table_id ≡ self.now.table.shared.table_id }
        ensures own { (seat.new.table_id ≡ seat.old.table_id) × (seat.new.id ≡ seat.old.id)
            × (seat.new.me ≡ seat.old.me) }
        ensures consistent { IsConsistent seat.new.me.0
            × ArePasts seat.new.me.0.merged seat.new.me.0.seen }
    {
        self.table.shared.load::<Learn>(seat, NEXT_TICKET);
    }
}
