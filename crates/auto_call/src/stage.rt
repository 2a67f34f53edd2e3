//! What stands after some lines.
use crate::text::AutoText;

/// What stands after some lines.
#[derive(Drop)]
pub enum Stage {
    /// The version.
    Named,
    /// The version and the target.
    Aimed { target: u32 },
    /// The sensitivity too, and any scenes.
    Whole(AutoText),
}
