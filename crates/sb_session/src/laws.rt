//! An input is read in one way.

ghost use Rattle.std.specs.Prelude.{◌≡◌, ℕ, List};
ghost use Rattle.sb_nbd.specs.Requests.{Request};
ghost use Rattle.sb_session.specs.declared.end.SessionEnd.{SessionEnd};
ghost use Rattle.sb_session.specs.Inputs.{IsInput, IsByInput};

/// An input that decides how its session ends has one list of requests, and one end.
pub fn one_input()
    ensures { (bytes : List ℕ) (rs ss : List Request) (e f : SessionEnd) → IsByInput e
        → IsByInput f → IsInput bytes rs e → IsInput bytes ss f → (rs ≡ ss) × (e ≡ f) }
{}
