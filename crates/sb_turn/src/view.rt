//! What a seat at the table of the lock knows. No value of these types is made: they exist in
//! proofs.
use std::collections::LinkedList;

/// Where a seat stands.
///
/// | From | To | By |
/// |---|---|---|
/// | `Out` | `Waits` | `Turn::draw` |
/// | `Waits` | `Inside` | `Turn::look`, where its ticket is served |
/// | `Inside` | `Made` | `Turn::add` |
/// | `Inside`, `Made` | `Out` | `Turn::pass_on` |
pub enum Stage {
    /// It has no ticket.
    Out,
    /// It waits with this ticket.
    Waits(u64),
    /// It has the turn.
    Inside(u64),
    /// It has the turn, and has made its entry.
    Made(u64),
}

/// Only the steps of a seat change its view, and they do so in one atomic step with the table's
/// words. Outside a turn a step changes `stage` (draw), `reserved`, `last_given` and `handed_out`
/// (number, split), or `seen`, `joined`, `handed_out` and `merged` (join). The rest changes only
/// in a turn.
pub struct View<E, B> {
    /// The number of its pass, fixed when the pass is split off. 0 once it was joined to another.
    pub number: u64,
    /// A number taken for a new pass, between the two steps of a split.
    pub reserved: Option<u64>,
    /// The greatest number that it gave, at first its own.
    pub last_given: u64,
    /// Where it stands.
    pub stage: Stage,
    /// The base with which the turn was made. It never changes.
    pub base: Option<B>,
    /// The history for which the value stood when the turn was made. It never changes.
    pub opening: LinkedList<(u64, E)>,
    /// The numbers that it gave, and those that the passes gave which it took in. A split adds to
    /// it, and a join.
    pub handed_out: LinkedList<u64>,
    /// The history as far as it has seen it, newest first. The whole, from the look that gives it
    /// the turn until it passes the turn on; a join takes the longer of two.
    pub seen: LinkedList<(u64, E)>,
    /// Its own entries, newest first. Only its own entry in its own turn adds to it.
    pub mine: LinkedList<(u64, E)>,
    /// The numbers of the passes that it took in, each with its entries. Only a join adds to it.
    pub joined: LinkedList<(u64, LinkedList<(u64, E)>)>,
    /// What two passes had seen that were joined, until the next turn.
    pub merged: LinkedList<LinkedList<(u64, E)>>,
}
