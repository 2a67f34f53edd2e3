//! The plan of an accepted configuration.
ghost use Rattle.std.specs.Prelude.{◌≡◌, slice_get, IsTrue};
ghost use Rattle.std.specs.Option.{option_map};
ghost use Rattle.cam_types.specs.Profile.{is_profile};
ghost use Rattle.request_checks.specs.Plan.{plan_of, plan_stream};

use cam_types::{Four, Profile, StreamSpec};

/// A stream of an accepted configuration, with the number of its buffers that may be at the device and the number of
/// buffers in its pool.
#[derive(Clone, Copy, PartialEq, Eq)]
pub struct PlanStream {
    pub spec: StreamSpec,
    pub max_buffers: u32,
    pub pool: u32,
}

/// The streams of an accepted configuration, in order.
#[derive(Clone, Copy, PartialEq, Eq)]
pub struct Plan {
    pub streams: Four<PlanStream>,
}

/// The plan of the first four streams.
pub(crate) fn make_plan(specs: &[StreamSpec], profile: Profile) -> Plan
    requires { IsTrue (is_profile profile) }
    ensures { result ≡ plan_of profile specs.now }
{
    Plan {
        streams: Four {
            a: stream_at(specs, 0, profile),
            b: stream_at(specs, 1, profile),
            c: stream_at(specs, 2, profile),
            d: stream_at(specs, 3, profile),
        },
    }
}

fn stream_at(specs: &[StreamSpec], place: usize, profile: Profile) -> Option<PlanStream>
    requires { IsTrue (is_profile profile) }
    ensures { result ≡ option_map (plan_stream profile) (slice_get specs.now place) }
{
    let spec = specs.get(place)?;
    Some(planned(*spec, profile))
}

fn planned(spec: StreamSpec, profile: Profile) -> PlanStream
    requires { IsTrue (is_profile profile) }
    ensures { result ≡ plan_stream profile spec }
{
    PlanStream {
        spec,
        max_buffers: profile.max_buffers(spec.format),
        pool: profile.pool_size(spec.format),
    }
}
