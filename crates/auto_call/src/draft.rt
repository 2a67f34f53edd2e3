//! What stands after some lines, with numbers in their ranges.
ghost use Rattle.std.specs.Prelude.{IsTrue};
ghost use Rattle.auto_call.specs.Valid.{may_stand};

use crate::stage::Stage;

/// What stands after some lines, with numbers in their ranges.
#[derive(Drop)]
pub struct Draft {
    pub stage: Stage,
    pub ghost valid: { IsTrue (may_stand stage) },
}
