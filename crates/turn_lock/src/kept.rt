//! What a turnstile asks of the value that it keeps.
ghost use Rattle.std.specs.Prelude.{List};

/// What a turnstile can keep: a value with a fixed part, a history that only grows, and jobs that are out.
/// It has no calls: the three meanings are for contracts alone.
pub trait Kept {
    /// The part that no turn changes.
    type Fixed;

    /// What the value's history consists of.
    type Entry;

    /// What leaves the value for a while, and comes back.
    type Job;

    // The fixed part.
    ghost fixed: { Self → Self.Fixed };

    // The history, in order.
    ghost entries: { Self → List Self.Entry };

    // The jobs that are out.
    ghost jobs: { Self → List Self.Job };
}
