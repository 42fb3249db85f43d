//! How a disk for many callers is made, and how its passes come from one another.

ghost use Rattle.std.specs.Prelude.{◌≡◌, ◌≤◌, ◌<◌, ◌⊎◌, [], length, IfOk};
ghost use Rattle.sb_names.specs.declared.names.TheConstants.{MAX_PREFIX};
ghost use Rattle.sb_core.specs.Standing.{StandsFor, entries_in, fixed_of, opening_of};
ghost use Rattle.sb_turn.specs.Histories.{entries_of_pass, IsPast};
ghost use Rattle.sb_turn.specs.Passes.{seen, mine, joined, number, last_given, handed_out, opening, HasSplit, IsNewFrom, HasJoined};
ghost use Rattle.sb_crew.specs.Sharing.{seen_by};
ghost use Rattle.sb_crew.specs.SharedDisks.{shared_names, fixed_of_disk, MayUse};
ghost use Rattle.sb_crew.specs.Safety.{IsSafe};

use crate::disk::Disk;
use crate::names::Names;
use sb_base::Geometry;
use sb_core::{Core, Fixed};
use sb_laws::{sound_flushes, sound_is_legal, sound_survives_crash};
use sb_turn::{Bell, Pass, Turn};
use std::alloc::{AllocError, Global};
use std::sync::Wait;

impl Disk {
    /// A disk over a core with no event behind it, whose objects have these names, and its first pass. Their prefix has at
    /// most `MAX_PREFIX` bytes. What the core knows to be zeros opens the history.
    pub fn new(alloc: Global, core: Core, names: Names) -> Result<(Disk, Pass<Core>), AllocError>
        requires prefix { length names.prefix ≤ MAX_PREFIX }
        requires stands { StandsFor core (entries_in (opening_of core)) }
        ensures pass { IfOk result (λ made. MayUse made.0 made.1) }
        ensures names { IfOk result (λ made. shared_names made.0 ≡ names) }
        ensures fixed { IfOk result (λ made. fixed_of_disk made.0 ≡ fixed_of core) }
        ensures number { IfOk result (λ made. (number made.1 ≡ 1) × (last_given made.1 ≡ 1) × (handed_out made.1 ≡ [])) }
        ensures history { IfOk result (λ made. (seen made.1 ≡ opening_of core) × (opening made.1 ≡ opening_of core)) }
        ensures nothing { IfOk result (λ made. (mine made.1 ≡ []) × (joined made.1 ≡ [])) }
    {
        let fixed = Fixed {
            geometry: core.geometry(),
            settings: core.settings(),
        };
        let bell = Bell::new(alloc)?;
        match Turn::new(alloc, core) {
            Ok((turn, pass)) => Ok((
                Disk {
                    turn,
                    names,
                    fixed,
                    bell,
                },
                pass,
            )),
            Err(_) => Err(AllocError),
        }
    }

    /// Its size.
    pub fn geometry(&self) -> Geometry
        ensures { result ≡ (fixed_of_disk self.now).geometry }
    {
        self.fixed.geometry
    }

    /// A new pass, with a number of its own, that has seen as much.
    pub fn split<R: Wait>(&self, rt: &R, pass: &mut Pass<Core>) -> Pass<Core>
        requires { MayUse self.now pass.old }
        ensures pass { MayUse self.now pass.new × HasSplit pass.old (number result) pass.new }
        ensures new { MayUse self.now result × IsNewFrom pass.old result }
        ensures number { (number pass.old < number result) × (last_given pass.old < number result) }
        ensures fresh { entries_of_pass (number result) (seen result) ≡ [] }
    {
        self.turn.split(rt, pass)
    }

    /// Takes in another pass, with all that it made and saw.
    pub fn join(&self, pass: &mut Pass<Core>, other: Pass<Core>)
        requires pass { MayUse self.now pass.old }
        requires other { MayUse self.now other }
        ensures pass { MayUse self.now pass.new × HasJoined pass.old other pass.new }
        ensures seen { IsPast (seen pass.old) (seen pass.new) × IsPast (seen other) (seen pass.new) }
        ensures longer { (seen pass.new ≡ seen pass.old) ⊎ (seen pass.new ≡ seen other) }
    {
        self.turn.join(pass, other);
    }

    /// What a pass has seen is safe. It does nothing.
    pub fn is_safe(&self, pass: &Pass<Core>)
        requires { MayUse self.now pass.now }
        ensures { IsSafe (fixed_of_disk self.now) (seen_by pass.now) }
    {
        sound_is_legal();
        sound_flushes();
        sound_survives_crash();
    }
}
