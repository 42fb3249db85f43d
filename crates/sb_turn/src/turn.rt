//! The lock itself.
ghost use Rattle.std.specs.Prelude.{◌≡◌};

use crate::rule::Order;
use crate::stands::Stands;
use crate::view::View;
use atomic_table::{Seat, Table};
use std::alloc::Global;
use std::snapshot::Snapshot;

// The words of the table. Any thread may read one at any time; who may change it:
/// The next ticket. Any pass without a ticket raises it by one, where it enters.
pub(crate) const NEXT_TICKET: usize = 0;
/// The ticket that is served. Only the pass with the turn raises it, by one, as its last step.
pub(crate) const SERVING: usize = 1;
/// How many entries were made. Only the pass with the turn raises it, by one, before it gives the
/// value back.
pub(crate) const ENTRIES: usize = 2;
/// The next number of a pass. Any pass without a ticket raises it by one, where it splits.
pub(crate) const NEXT_NUMBER: usize = 3;

/// The slot of the value. Only the pass with the turn takes it, and gives it back.
pub(crate) const VALUE: usize = 0;

/// What a pass makes its steps with.
pub(crate) type Place<S> = Seat<Option<S>, View<<S as Stands>::Entry, <S as Stands>::Base>>;

/// A ticket lock round a value that stands for a history.
#[derive(Drop)]
pub struct Turn<S: Stands> {
    // Four words and one slot. Threads share it, and change it in atomic steps alone.
    pub(crate) table: Table<Option<S>, View<S::Entry, S::Base>, Snapshot<S>, Order<S>, Global>,
    // How often a waiter looks before it sleeps. It never changes.
    pub(crate) looks: u32,
    ghost shape: { (table.shared.table_id.words ≡ 4) × (table.shared.table_id.slots ≡ 1) },
}
