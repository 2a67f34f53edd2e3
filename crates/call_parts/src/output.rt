//! What is written of a run, and the version in which it is told.
ghost use Rattle.std.specs.Prelude.{◌≡◌};
ghost use Rattle.call_parts.specs.Texts.{named_profile};

use cam_types::{Profile, Script};

/// What is written of a run.
#[derive(Clone, Copy, PartialEq, Eq)]
pub enum Output {
    /// Its whole trace.
    Trace,
    /// One line, with how much of each the trace has.
    Summary,
}

/// The profile that the first line of a script's trace names: none for a script of version 1.
pub fn named_profile(script: &Script) -> Option<Profile>
    ensures { result ≡ named_profile script.now }
{
    if script.version == 1 {
        None
    } else {
        Some(script.profile)
    }
}
