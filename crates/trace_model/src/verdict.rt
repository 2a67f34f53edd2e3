//! The verdicts of the judge.
/// The rule that an entry of a kind has to keep, under the name that a verdict prints.
#[derive(Clone, Copy, Debug, PartialEq, Eq)]
pub enum RuleName {
    /// A frame is sent.
    D9,
    /// A queued item is dropped.
    D10,
    /// The exposure of a frame begins.
    D11,
    /// A partial result.
    D12,
    /// A buffer comes back with its picture, or early and its picture later.
    D13,
    /// An error, or a buffer that comes back in error.
    D14,
    /// What the client does: a command begins or is answered, a buffer is released, a fence is signalled.
    D15,
}

/// What a run that isn't complete lacks.
#[derive(Clone, Copy, Debug, PartialEq, Eq)]
pub enum MissingPart {
    /// A command wasn't called.
    Calls,
    /// A frame is open.
    Open,
    /// An item is queued.
    Queued,
    /// A buffer isn't in the pool.
    Pool,
    /// A released fence isn't signalled.
    Signal,
}

/// What the judge says of a trace.
#[derive(Clone, Copy, Debug, PartialEq, Eq)]
pub enum Verdict {
    /// A complete legal run.
    Legal,
    /// The entry at the position isn't allowed after those before it, which are.
    IllegalAt { position: u32, rule: RuleName },
    /// Each entry is allowed, and the part is the first that is missing.
    Incomplete { part: MissingPart },
}
