//! What accepting a command gives.
ghost use Rattle.std.specs.Prelude.{◌≡◌, ◌↔◌, ◌==◌, ◌&&◌, ◌+◌, ◌≤◌, ◌<◌, ◌^◌, reverse, option_copied, option_to_list, sum_by, IsTrue};
ghost use Rattle.cam_types.specs.declared.reply.Made.{Made as SomeMade};
ghost use Rattle.cam_types.specs.Four.{four_list, four_of};
ghost use Rattle.trace_model.specs.Calls.{request_count};
ghost use Rattle.trace_model.specs.Configuration.{made_by, made_count};
ghost use Rattle.cam_types.specs.Profile.{pool_size};
ghost use Rattle.trace_model.specs.Reply.{acceptance, made_for};
ghost use Rattle.judge_rules.specs.Made.{made_at, after};

use cam_types::{
    Command, Format, Four, Made, Profile, Reply, SPARE_BUFFERS, Script, SpecList, StreamSpec,
};
use judge_entries::number::{made_in, request_count};
use trace_model::Entry;

/// How many buffers the entry's configuration makes.
fn made_by(entry: &Entry) -> u64
    ensures value { result ≡ made_by entry.now }
    ensures few { result < 2 ^ 34 }
{
    match entry {
        Entry::Call {
            reply: Reply::Configured(each),
            ..
        } => made_in(each),
        _ => 0,
    }
}

/// How many buffers all configurations made, which is the number of the next.
pub fn made_count(entries: &[Entry]) -> u128
    ensures value { result ≡ made_count (reverse entries.now) }
    ensures few { result < 2 ^ 100 }
{
    let mut count: u128 = 0;
    for entry in entries {
        count += made_by(entry) as u128;
    }
    count
}

/// How many buffers are made for a stream of the format. (The profile may be any, so that the number is wide.)
fn buffers_for(profile: Profile, format: Format) -> u64
    ensures value { result ≡ pool_size profile format }
    ensures few { result < 2 ^ 33 }
{
    u64::from(profile.max_buffers(format)) + u64::from(SPARE_BUFFERS)
}

/// The next unused number after the stream's buffers.
fn after(profile: Profile, next: u128, spec: Option<&StreamSpec>) -> u128
    requires { next < 2 ^ 120 }
    ensures value { result ≡ after profile next (option_copied spec.entry) }
    ensures few { result < next + 2 ^ 33 }
{
    match spec {
        Some(spec) => next + buffers_for(profile, spec.format) as u128,
        None => next,
    }
}

/// Whether the buffers are those that are made for the stream, numbered on from the next unused number.
fn is_made(profile: Profile, next: u128, spec: &StreamSpec, made: Made) -> bool
    ensures { result ≡ ((next == made.first.0) && (pool_size profile spec.now.format == made.count)) }
{
    next == made.first.0 as u128 && buffers_for(profile, spec.format) == made.count as u64
}

fn is_made_at(profile: Profile, next: u128, spec: Option<&StreamSpec>, made: Option<Made>) -> bool
    ensures { IsTrue result ↔ (made_at profile next (option_copied spec.entry) ≡ made) }
{
    match spec {
        Some(spec) => match made {
            Some(made) => is_made(profile, next, spec, made),
            None => false,
        },
        None => made.is_none(),
    }
}

/// Whether the buffers are those that are made for the streams, numbered on from the next unused number.
fn are_made(profile: Profile, next: u128, specs: &[StreamSpec], each: &Four<Made>) -> bool
    requires { next < 2 ^ 100 }
    ensures { IsTrue result ↔ (four_of (made_for profile next specs.now) ≡ each.now) }
{
    let second = after(profile, next, specs.first());
    let third = after(profile, second, specs.get(1));
    let fourth = after(profile, third, specs.get(2));
    is_made_at(profile, next, specs.first(), each.a)
        && (is_made_at(profile, second, specs.get(1), each.b)
            && (is_made_at(profile, third, specs.get(2), each.c)
                && is_made_at(profile, fourth, specs.get(3), each.d)))
}

/// Whether the reply accepts a configuration of the streams.
fn accepts_streams(script: &Script, entries: &[Entry], specs: &SpecList, reply: &Reply) -> bool
    ensures { IsTrue result ↔ (acceptance script.now (reverse entries.now) (Command.Configure specs.now) ≡ reply.now) }
{
    match reply {
        Reply::Configured(each) => {
            are_made(script.profile, made_count(entries), specs.as_slice(), each)
        }
        _ => false,
    }
}

/// Whether the reply accepts a request under the next number.
fn accepts_request(entries: &[Entry], reply: &Reply) -> bool
    ensures { IsTrue result ↔ (Reply.Submitted (record { 0 = request_count (reverse entries.now) }) ≡ reply.now) }
{
    match reply {
        Reply::Submitted(request) => request_count(entries) == request.0 as usize,
        _ => false,
    }
}

/// Whether the reply accepts another command.
fn accepts_plainly(reply: &Reply) -> bool
    ensures { IsTrue result ↔ (Reply.Ok ≡ reply.now) }
{
    matches!(reply, Reply::Ok)
}

/// Whether the reply is what accepting the command gives.
pub fn is_acceptance(script: &Script, entries: &[Entry], command: &Command, reply: &Reply) -> bool
    ensures { IsTrue result ↔ (acceptance script.now (reverse entries.now) command.now ≡ reply.now) }
{
    match command {
        Command::Configure(specs) => accepts_streams(script, entries, specs, reply),
        Command::Once(_) => accepts_request(entries, reply),
        Command::Burst(_) => accepts_request(entries, reply),
        Command::Repeat(_) => accepts_request(entries, reply),
        Command::Stop => accepts_plainly(reply),
        Command::Wait => accepts_plainly(reply),
        Command::Await(_) => accepts_plainly(reply),
        Command::Flush => accepts_plainly(reply),
        Command::Close => accepts_plainly(reply),
        Command::Disconnect => accepts_plainly(reply),
    }
}
