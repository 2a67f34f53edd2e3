//! The streams of the configuration, in four places.
ghost use Rattle.std.specs.Prelude.{◌≡◌, ◌≤◌, length, option_to_list, slice_get, IsTrue};
ghost use Rattle.cam_types.specs.Four.{four_list};
ghost use Rattle.trace_model.specs.Calls.{command_at};
ghost use Rattle.trace_model.specs.Configuration.{streams_of};
ghost use Rattle.trace_model.specs.Printable.{is_filled};
ghost use Rattle.state_facts.specs.Clients.{streams_called};

use cam_types::{Command, Four, Reply, Script, StreamIx, StreamSpec};

/// No stream.
pub(crate) const NO_STREAMS: Four<StreamSpec> = Four {
    a: None,
    b: None,
    c: None,
    d: None,
};

/// The streams of a list of four at most.
#[tactic(auto, using(trace_laws::proofs::Due::four_list_of, trace_laws::proofs::Due::four_filled))]
fn in_places(specs: &[StreamSpec]) -> Four<StreamSpec>
    requires { length specs.now ≤ 4 }
    ensures same { four_list result ≡ specs.now }
    ensures filled { IsTrue (is_filled result) }
{
    Four {
        a: specs.first().copied(),
        b: specs.get(1).copied(),
        c: specs.get(2).copied(),
        d: specs.get(3).copied(),
    }
}

/// The streams of the script's command at the place, where it is a `configure` with four at most.
fn configured_at(script: &Script, place: u32) -> Four<StreamSpec>
    requires { length (streams_of (command_at script.now place)) ≤ 4 }
    ensures same { four_list result ≡ streams_of (command_at script.now place) }
    ensures filled { IsTrue (is_filled result) }
{
    match script.commands.get(place) {
        Some(Command::Configure(specs)) => in_places(specs.as_slice()),
        _ => NO_STREAMS,
    }
}

/// The streams after a call of the script's command at the place: its own, where the reply accepts a configuration.
pub(crate) fn after_call(
    script: &Script,
    place: u32,
    reply: &Reply,
    old: Four<StreamSpec>,
) -> Four<StreamSpec>
    requires few { length (streams_called script.now place reply.now (four_list old)) ≤ 4 }
    requires filled { IsTrue (is_filled old) }
    ensures same { four_list result ≡ streams_called script.now place reply.now (four_list old) }
    ensures filled { IsTrue (is_filled result) }
{
    match reply {
        Reply::Configured(_) => configured_at(script, place),
        Reply::Ok => old,
        Reply::Submitted(_) => old,
        Reply::Refused { .. } => old,
    }
}

fn count_of(stream: Option<StreamSpec>) -> usize
    ensures { result ≡ length (option_to_list stream) }
{
    if stream.is_some() { 1 } else { 0 }
}

/// How many streams there are.
#[tactic(auto, using(crate::proofs::Places::length_four))]
pub(crate) fn stream_count(streams: Four<StreamSpec>) -> usize
    ensures { result ≡ length (four_list streams) }
{
    count_of(streams.a) + count_of(streams.b) + count_of(streams.c) + count_of(streams.d)
}

/// The stream at the place, if there is one.
#[tactic(auto, using(crate::proofs::Places::first_place, crate::proofs::Places::second_place, crate::proofs::Places::third_place, crate::proofs::Places::fourth_place, crate::proofs::Places::no_place))]
pub(crate) fn stream_at(streams: Four<StreamSpec>, stream: StreamIx) -> Option<StreamSpec>
    requires { IsTrue (is_filled streams) }
    ensures { result ≡ slice_get (four_list streams) stream.0 }
{
    match stream.0 {
        0 => streams.a,
        1 => streams.b,
        2 => streams.c,
        3 => streams.d,
        _ => None,
    }
}
