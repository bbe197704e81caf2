ghost use Rattle.std.specs.Prelude.{List};

/// A value that stands for a list of changes.
pub trait Told: Drop {
    type Change: Drop;

    /// The part that all values of one opening have.
    type Fixed;

    // The value stands for this list.
    ghost tells: { Self → List Self.Change → Type 0 };

    // The part that all values of one opening have.
    ghost fixed: { Self → Self.Fixed };

    // Any such part, for a reader that wasn't told yet which opening it is of.
    ghost blank: { Self.Fixed };
}
