//! Comparisons whose answers are equality itself, for the types that the derived `==` leaves to a proof.
ghost use Rattle.std.specs.Prelude.{◌≡◌, ◌↔◌, IsTrue};

use crate::{PartialResult, Reply};

/// Whether two replies are the same.
pub fn is_same_reply(a: Reply, b: Reply) -> bool
    ensures { IsTrue result ↔ (a ≡ b) }
{
    a == b
}

/// Whether two metadata parts are the same.
pub fn is_same_partial_result(a: PartialResult, b: PartialResult) -> bool
    ensures { IsTrue result ↔ (a ≡ b) }
{
    a == b
}
