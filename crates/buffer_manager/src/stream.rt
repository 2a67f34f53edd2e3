//! A stream with its pool.
ghost use Rattle.std.specs.Prelude.{◌≡◌, None, IfNone, IfSome, IsNone, drop, slice_get, slice_set, vec_capacity};
ghost use Rattle.buffer_manager.specs.Streams.{MayGive, with_given, with_home};

use buffer_pool::{Parked, Pool};
use cam_types::{Made, StreamSpec};

/// A stream of the configuration: its buffers' numbers, and the pool with those at home. It can't be copied or let go.
pub struct Stream {
    pub spec: StreamSpec,
    pub made: Made,
    pub pool: Pool,
}

/// Brings a buffer home to the pool of the stream at a place.
pub(crate) fn give_to(streams: &mut Vec<Stream>, place: usize, parked: Parked)
    requires { MayGive parked (slice_get streams.old.items place) }
    ensures given { IfSome (slice_get streams.old.items place)
        (λ s. streams.new.items ≡ slice_set streams.old.items place (with_given parked s)) }
    ensures capacity { vec_capacity streams.new ≡ vec_capacity streams.old }
{
    streams[place].pool.give(parked);
}

/// Takes the least buffer at home from the pool of the stream at a place.
pub(crate) fn take_from(streams: &mut Vec<Stream>, place: usize) -> Option<Parked>
    ensures value { IfSome (slice_get streams.old.items place) (λ s. result ≡ slice_get s.pool.home 0) }
    ensures left { IfSome (slice_get streams.old.items place)
        (λ s. streams.new.items ≡ slice_set streams.old.items place (with_home (drop 1 s.pool.home) s)) }
    ensures gone { IfNone (slice_get streams.old.items place) (result ≡ None) }
    ensures none { IsNone result → streams.new.items ≡ streams.old.items }
    ensures capacity { vec_capacity streams.new ≡ vec_capacity streams.old }
{
    if place < streams.len() {
        streams[place].pool.take()
    } else {
        None
    }
}
