//! How a pass gives the turn away: it makes its entry, gives the value back, and passes the turn
//! on.
ghost use Rattle.std.specs.Prelude.{◌≡◌, ℕ, ◌<◌, [], ◌∷◌, ◌++◌, Some};
ghost use Rattle.sb_turn.specs.declared.view.Stage.TheVariants.{Out, Inside};
ghost use Rattle.sb_turn.specs.Histories.{IsEntryOf};
ghost use Rattle.sb_turn.specs.Views.{at_stage, with_entry, HasTurn, IsConsistent};
ghost use Rattle.sb_turn.specs.Passes.{seen, mine, number, base_of, IsPassOf, IsFree, HoldsTurn, IsSamePass};

use crate::event::Event;
use crate::held::Held;
use crate::pass::Pass;
use crate::stands::Stands;
use crate::step::{Add, PassOn};
use crate::turn::{ENTRIES, NEXT_TICKET, Place, SERVING, Turn, VALUE};

impl<S: Stands> Turn<S> {
    /// Gives the value back. The history gains the entry that the call picked.
    pub fn leave<M: Event<S::Entry>>(&self, held: Held<S>, pass: &mut Pass<S>)
        requires pass { IsPassOf self.now pass.old × HoldsTurn pass.old }
        requires event { IsEntryOf (number pass.old) M.made }
        requires value { S.stands held.value (M.made ++ seen pass.old)
            × (base_of pass.old ≡ Some (S.base held.value)) }
        ensures pass { IsSamePass pass.old pass.new × IsFree pass.new }
        ensures seen { seen pass.new ≡ M.made ++ seen pass.old }
        ensures mine { mine pass.new ≡ M.made ++ mine pass.old }
    {
        let value = held.into_value();
        self.add::<M>(&mut pass.seat);
        self.give_back(&mut pass.seat, value);
    }

    /// Gives the value back where no event happened.
    pub fn leave_without_entry(&self, held: Held<S>, pass: &mut Pass<S>)
        requires pass { IsPassOf self.now pass.old × HoldsTurn pass.old }
        requires value { S.stands held.value (seen pass.old)
            × (base_of pass.old ≡ Some (S.base held.value)) }
        ensures pass { IsSamePass pass.old pass.new × IsFree pass.new }
        ensures history { (seen pass.new ≡ seen pass.old) × (mine pass.new ≡ mine pass.old) }
    {
        self.give_back(&mut pass.seat, held.into_value());
    }

    // Makes the entry of the turn.
    fn add<M: Event<S::Entry>>(&self, seat: &mut Place<S>)
        requires own { seat.old.table_id ≡ self.now.table.shared.table_id }
        requires turn { ((t : ℕ) × (seat.old.me.0.stage ≡ Inside t)) × (0 < seat.old.me.0.number) }
        requires event { IsEntryOf seat.old.me.0.number M.made }
        ensures own { (seat.new.table_id ≡ seat.old.table_id) × (seat.new.id ≡ seat.old.id) }
        ensures made { (t : ℕ) → seat.old.me.0.stage ≡ Inside t
            → (seat.new.me ≡ (with_entry seat.old.me.0 t M.made, seat.old.me.1))
            × IsConsistent (with_entry seat.old.me.0 t M.made) }
    {
        self.table.shared.fetch_add::<Add<M>>(seat, ENTRIES, 1);
    }

    // Puts the value into its slot, and passes the turn on.
    fn give_back(&self, seat: &mut Place<S>, value: S)
        requires own { seat.old.table_id ≡ self.now.table.shared.table_id }
        requires turn { ((t : ℕ) × HasTurn t seat.old.me.0.stage) × (0 < seat.old.me.0.number) }
        requires empty { seat.old.me.1 ≡ (0, None) ∷ [] }
        requires value { S.stands value seat.old.me.0.seen
            × (seat.old.me.0.base ≡ Some (S.base value)) }
        ensures own { (seat.new.table_id ≡ seat.old.table_id) × (seat.new.id ≡ seat.old.id) }
        ensures out { seat.new.me ≡ (at_stage seat.old.me.0 Out, []) }
    {
        match self.table.shared.exchange(seat, VALUE, Some(value)) {
            None => {}
            Some(_) => unreachable!(),
        }
        self.pass_on(seat);
    }

    // The next ticket is served, and those who sleep look again. Whoever draws a ticket after the
    // last line's look finds the turn passed on, and needs no waking.
    fn pass_on(&self, seat: &mut Place<S>)
        requires own { seat.old.table_id ≡ self.now.table.shared.table_id }
        requires turn { ((t : ℕ) × HasTurn t seat.old.me.0.stage) × (0 < seat.old.me.0.number) }
        requires value { (x : S) × (seat.old.me.1 ≡ (0, Some x) ∷ [])
            × S.stands x seat.old.me.0.seen
            × (seat.old.me.0.base ≡ Some (S.base x)) }
        ensures own { (seat.new.table_id ≡ seat.old.table_id) × (seat.new.id ≡ seat.old.id) }
        ensures out { seat.new.me ≡ (at_stage seat.old.me.0 Out, []) }
    {
        let served = self.table.shared.fetch_add::<PassOn>(seat, SERVING, 1);
        if self.table.shared.peek(NEXT_TICKET) != served.wrapping_add(1) {
            self.table.shared.wake_all(SERVING);
        }
    }
}
