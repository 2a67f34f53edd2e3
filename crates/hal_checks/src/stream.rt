//! Streams and targets.
ghost use Rattle.std.specs.Prelude.{◌≡◌, ◌==◌, ◌&&◌, count_by, find, length, nat_lt, not, option_copied};
ghost use Rattle.std.specs.List.{list_all, list_any};
ghost use Rattle.hal_model.specs.Device.{is_idle_most, is_unnamed};
ghost use Rattle.hal_model.specs.Framework.{has_no_output, has_two_inputs, is_empty, is_twice_buffer, is_twice_stream, puts_out, takes_in};
ghost use Rattle.hal_model.specs.Words.{has_stream};
ghost use Rattle.hal_rows.specs.Judged.{is_output_in, is_target_unknown_in, is_unknown_in};
ghost use Rattle.hal_checks.specs.Streams.{is_asked};

use hal_model::{Direction, HalStream, HalTarget, StreamMax};
use hal_rows::TargetRow;

/// Whether a stream of the kind takes what a request puts out.
pub fn puts_out(direction: Direction) -> bool
    ensures { result ≡ puts_out direction }
{
    match direction {
        Direction::Input => false,
        _ => true,
    }
}

/// Whether a stream of the kind has what a request takes in.
pub fn takes_in(direction: Direction) -> bool
    ensures { result ≡ takes_in direction }
{
    match direction {
        Direction::Output => false,
        _ => true,
    }
}

/// Which streams are asked for.
#[derive(Clone, Copy)]
enum Asked {
    /// Each that takes what a request puts out.
    Output,
    /// That of the number.
    Number(u32),
    /// That of the number, where it takes what a request puts out.
    OutputNumber(u32),
}

/// Whether the stream is one of those.
fn is_asked(asked: Asked, stream: &HalStream) -> bool
    ensures { result ≡ is_asked asked stream.now }
{
    match asked {
        Asked::Output => puts_out(stream.direction),
        Asked::Number(number) => stream.stream == number,
        Asked::OutputNumber(number) => stream.stream == number && puts_out(stream.direction),
    }
}

/// Whether one of those is among the streams.
fn is_some_asked(asked: Asked, streams: &[HalStream]) -> bool
    ensures { result ≡ list_any (is_asked asked) streams.now }
{
    streams.iter().any(|stream| is_asked(asked, stream))
}

/// Whether there is no output or bidirectional stream.
pub fn has_no_output(streams: &[HalStream]) -> bool
    ensures { result ≡ has_no_output streams.now }
{
    !is_some_asked(Asked::Output, streams)
}

fn input_count(streams: &[HalStream]) -> usize
    ensures { result ≡ count_by (λ x. takes_in x.direction) streams.now }
{
    streams
        .iter()
        .filter(|stream| takes_in(stream.direction))
        .count()
}

/// Whether there are two input or bidirectional streams.
pub fn has_two_inputs(streams: &[HalStream]) -> bool
    ensures { result ≡ has_two_inputs streams.now }
{
    1 < input_count(streams)
}

/// Whether the stream is among them.
pub fn has_stream(number: u32, streams: &[HalStream]) -> bool
    ensures { result ≡ has_stream number streams.now }
{
    is_some_asked(Asked::Number(number), streams)
}

/// Whether there is no target.
#[tactic(auto, using(hal_table::proofs::Entries::empty_reads))]
pub fn is_without_target(targets: &[HalTarget]) -> bool
    ensures { result ≡ is_empty targets.now }
{
    targets.is_empty()
}

/// The same of a row's.
#[tactic(auto, using(hal_table::proofs::Entries::empty_reads))]
pub(crate) fn is_row_without_target(targets: &[TargetRow]) -> bool
    ensures { result ≡ is_empty targets.now }
{
    targets.is_empty()
}

// ---- targets

fn buffer_count(number: u32, targets: &[HalTarget]) -> usize
    ensures { result ≡ count_by (λ u. u.buffer == number) targets.now }
{
    targets
        .iter()
        .filter(|target| target.buffer == number)
        .count()
}

/// How many targets are of the stream.
pub(crate) fn stream_count(number: u32, targets: &[HalTarget]) -> usize
    ensures { result ≡ count_by (λ u. u.stream == number) targets.now }
{
    targets
        .iter()
        .filter(|target| target.stream == number)
        .count()
}

/// Whether the target's buffer stands twice among the targets.
pub fn is_twice_buffer(targets: &[HalTarget], target: &HalTarget) -> bool
    ensures { result ≡ is_twice_buffer targets.now target.now }
{
    1 < buffer_count(target.buffer, targets)
}

/// Whether the target's stream does.
pub fn is_twice_stream(targets: &[HalTarget], target: &HalTarget) -> bool
    ensures { result ≡ is_twice_stream targets.now target.now }
{
    1 < stream_count(target.stream, targets)
}

/// Whether the target's stream isn't among them.
pub fn is_unknown_in(streams: &[HalStream], target: &HalTarget) -> bool
    ensures { result ≡ is_unknown_in streams.now target.now }
{
    !has_stream(target.stream, streams)
}

/// The same of a row's target.
pub fn is_target_unknown_in(streams: &[HalStream], target: &TargetRow) -> bool
    ensures { result ≡ is_target_unknown_in streams.now target.now }
{
    !has_stream(target.target.stream, streams)
}

/// Whether the target's stream is an output or bidirectional one.
pub(crate) fn is_output_in(streams: &[HalStream], target: &HalTarget) -> bool
    ensures { result ≡ is_output_in streams.now target.now }
{
    is_some_asked(Asked::OutputNumber(target.stream), streams)
}

/// Whether each target's is.
pub(crate) fn are_outputs_in(streams: &[HalStream], targets: &[HalTarget]) -> bool
    ensures { result ≡ list_all (is_output_in streams.now) targets.now }
{
    targets.iter().all(|target| is_output_in(streams, target))
}

// ---- how many buffers of a stream the device takes

/// Whether the number is of a stream that wasn't asked for, or 0.
pub fn is_idle_most(streams: &[HalStream], most: &StreamMax) -> bool
    ensures { result ≡ is_idle_most streams.now most.now }
{
    !(has_stream(most.stream, streams) && 0 < most.max)
}

fn is_named(most: &[StreamMax], number: u32) -> bool
    ensures { result ≡ list_any (λ x. x.stream == number) most.now }
{
    most.iter().any(|named| named.stream == number)
}

/// Whether the stream has no number.
pub fn is_unnamed(most: &[StreamMax], stream: &HalStream) -> bool
    ensures { result ≡ is_unnamed most.now stream.now }
{
    !is_named(most, stream.stream)
}

/// What the device takes of a stream.
pub(crate) fn find_most(most: &[StreamMax], number: u32) -> Option<&StreamMax>
    ensures { option_copied result ≡ find (λ x. x.stream == number) most.now }
{
    most.iter().find(|named| named.stream == number)
}
