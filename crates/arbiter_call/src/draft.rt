//! What stands after some lines.
ghost use Rattle.std.specs.Prelude.{IsTrue};
ghost use Rattle.arbiter_call.specs.Valid.{may_stand};

use crate::text::ArbiterText;

/// What stands after some lines.
#[derive(Drop)]
pub enum Stage {
    /// The version.
    Named,
    /// The cameras too, and any lines.
    Whole(ArbiterText),
}

/// What stands after some lines, with numbers in their ranges.
#[derive(Drop)]
pub struct Draft {
    pub stage: Stage,
    pub ghost valid: { IsTrue (may_stand stage) },
}
