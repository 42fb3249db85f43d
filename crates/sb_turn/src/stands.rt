//! What a value under the lock stands for.
ghost use Rattle.std.specs.Prelude.{ℕ, List};

/// A value that stands for a history: a list of entries, newest first, each with the number of the
/// pass that made it.
pub trait Stands {
    type Entry;

    /// A part of the value that no turn changes.
    type Base;

    // The value stands for this history.
    ghost stands: { Self → List (ℕ × Self.Entry) → Type 0 };

    // The history for which it stands before any turn. Its entries have the number 0.
    ghost opening: { Self → List (ℕ × Self.Entry) };

    ghost base: { Self → Self.Base };
}
