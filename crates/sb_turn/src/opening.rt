//! How a lock is made.
ghost use Rattle.std.specs.Prelude.{◌≡◌, ℕ, ◌<◌, [], IfOk, Some};
ghost use Rattle.sb_turn.specs.Histories.{entries_of_pass};
ghost use Rattle.sb_turn.specs.Passes.{
  seen,
  mine,
  joined,
  number,
  last_given,
  handed_out,
  opening,
  base_of,
  looks_of,
  IsPassOf,
  IsFree,
};

use crate::pass::Pass;
use crate::stands::Stands;
use crate::turn::Turn;
use atomic_table::Table;
use std::alloc::{AllocError, Global};
use std::snapshot::Snapshot;

/// How often a waiter looks before it sleeps, unless the lock is made `with_looks`.
const LOOKS: u32 = 10;

impl<S: Stands + Drop> Turn<S> {
    /// A lock round the value, and the first pass.
    pub fn new(alloc: Global, value: S) -> Result<(Turn<S>, Pass<S>), AllocError>
        requires stands { S.stands value (S.opening value) }
        requires opening { (k : ℕ) → 0 < k → entries_of_pass k (S.opening value) ≡ [] }
        ensures pass { IfOk result (λ r. IsPassOf r.0 r.1 × IsFree r.1) }
        ensures number { IfOk result (λ r. (number r.1 ≡ 1) × (last_given r.1 ≡ 1)
            × (handed_out r.1 ≡ [])) }
        ensures history { IfOk result (λ r. (seen r.1 ≡ S.opening value)
            × (opening r.1 ≡ S.opening value)) }
        ensures nothing { IfOk result (λ r. (mine r.1 ≡ []) × (joined r.1 ≡ [])) }
        ensures base { IfOk result (λ r. base_of r.1 ≡ Some (S.base value)) }
    {
        Self::with_looks(alloc, value, LOOKS)
    }

    /// The same, with a number of looks that a waiter takes before it sleeps. It yields the
    /// processor between them.
    pub fn with_looks(alloc: Global, value: S, looks: u32) -> Result<(Turn<S>, Pass<S>), AllocError>
        requires stands { S.stands value (S.opening value) }
        requires opening { (k : ℕ) → 0 < k → entries_of_pass k (S.opening value) ≡ [] }
        ensures pass { IfOk result (λ r. IsPassOf r.0 r.1 × IsFree r.1) }
        ensures number { IfOk result (λ r. (number r.1 ≡ 1) × (last_given r.1 ≡ 1)
            × (handed_out r.1 ≡ [])) }
        ensures history { IfOk result (λ r. (seen r.1 ≡ S.opening value)
            × (opening r.1 ≡ S.opening value)) }
        ensures nothing { IfOk result (λ r. (mine r.1 ≡ []) × (joined r.1 ≡ [])) }
        ensures base { IfOk result (λ r. base_of r.1 ≡ Some (S.base value)) }
        ensures looks { IfOk result (λ r. looks_of r.0 ≡ looks) }
    {
        let key = Snapshot::of(&value);
        let mut slots = Vec::new(alloc);
        slots.push(Some(value))?;
        match Table::new(alloc, &[0, 0, 0, 2], slots, &key) {
            Ok((table, mut seat)) => {
                let turn = Turn { table, looks };
                turn.learn(&mut seat);
                Ok((turn, Pass { seat, number: 1 }))
            }
            Err(_) => Err(AllocError),
        }
    }
}
