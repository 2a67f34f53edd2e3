//! The device profile of a trace.
ghost use Rattle.std.specs.Prelude.{◌≡◌, ◌↔◌, IsTrue};
ghost use Rattle.call_parts.specs.Profiles.{profile_of};

use cam_types::{Profile, Script};
use trace_model::TraceList;

/// The profile that the trace's first line names, or 6 3 4.
pub fn profile_of(trace: &TraceList) -> Profile
    ensures { result ≡ profile_of trace.now }
{
    match trace.profile {
        Some(profile) => profile,
        None => Profile::PLAIN,
    }
}

/// Whether the trace's profile is the script's.
pub fn profiles_agree(script: &Script, trace: &TraceList) -> bool
    ensures { IsTrue result ↔ (profile_of trace.now ≡ script.now.profile) }
{
    profile_of(trace) == script.profile
}
