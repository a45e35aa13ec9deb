//! Values that stand for a history.
ghost use Rattle.std.specs.Prelude.{ℕ, List};

/// A value that stands for an opening and a list of entries, each with the number of its owner.
/// No code reads these: they exist in proofs alone. Owner 0 is every agent's: any pass may add its entries.
pub trait Chronicle {
    /// What the history began from.
    type Opening;
    /// One event of the history.
    type Entry;

    ghost opening: { Self → Self.Opening };

    ghost entries: { Self → List Self.Entry };

    ghost owner: { Self.Entry → ℕ };

    /// How a value goes on to another one, as whoever has the turn may change it.
    ghost goes_on: { Self → Self → Type 0 };

    /// A value that is not changed goes on.
    ghost stays: { (v : Self) → goes_on v v };

    /// And one that goes on twice.
    ghost lasts: { (u v w : Self) → goes_on u v → goes_on v w → goes_on u w };
}
