//! What is read of the buffers.
ghost use Rattle.std.specs.Prelude.{◌≡◌, ◌+◌, ◌-◌, ◌≤◌, ◌^◌, [], IfSome, None, find, nat_le, slice_get, if◌then◌else◌};
ghost use Rattle.std.specs.List.{list_all, range_with_len};
ghost use Rattle.std.specs.Option.{option_map};
ghost use Rattle.trace_model.specs.Place.{Device, Pool, is_at};
ghost use Rattle.state_facts.specs.Homes.{all_home, at_device_in, place_in};
ghost use Rattle.buffer_manager.specs.Managed.{away_count, homes_with, may_be_released, picture_in};
ghost use Rattle.buffer_manager.specs.Slots.{has_picture, picture_of, place_of};

use crate::manager::BufferManager;
use crate::slot::Slot;
use crate::stream::Stream;
use cam_types::{BufferId, Made, StreamIx};

impl BufferManager {
    /// Whether each buffer is in its pool.
    pub fn all_home(&self) -> bool
        ensures { result ≡ all_home (homes_with [] self.now) }
    {
        are_home(&self.slots)
    }

    /// How many of a stream's buffers are at the device.
    pub fn at_device(&self, stream: StreamIx) -> u32
        ensures { result ≡ at_device_in (homes_with [] self.now) stream.0 }
    {
        match self.made_of(stream.0) {
            Some(made) => self.away_count(made),
            None => 0,
        }
    }

    /// The buffers of a stream. None exactly where no such stream is configured.
    pub(crate) fn made_of(&self, stream: u8) -> Option<Made>
        ensures value { result ≡ slice_get self.now.made stream }
        ensures fits { IfSome result (λ made. made.first.0 + made.count ≤ 2 ^ 32) }
    {
        made_at(&self.streams, stream as usize)
    }

    /// How many of these buffers are at the device.
    fn away_count(&self, made: Made) -> u32
        requires { made.first.0 + made.count ≤ 2 ^ 32 }
        ensures { result ≡ away_count (homes_with [] self.now) made.first.0 made.count }
    {
        let mut away = 0;
        for step in 0..made.count {
            if self.is_away(made.first.0 + step) {
                away += 1;
            }
        }
        away
    }

    /// The least of these buffers that is in its pool.
    pub(crate) fn least_home(&self, made: Made) -> Option<u32>
        requires { made.first.0 + made.count ≤ 2 ^ 32 }
        ensures { result ≡ find (λ b. is_at (place_in (homes_with [] self.now) b) Pool)
            (range_with_len made.first.0 made.count) }
    {
        for step in 0..made.count {
            if self.is_in_pool(made.first.0 + step) {
                return Some(made.first.0 + step);
            }
        }
        None
    }

    fn is_in_pool(&self, buffer: u32) -> bool
        ensures { result ≡ is_at (place_in (homes_with [] self.now) buffer) Pool }
    {
        match slot_of(&self.slots, self.first, buffer) {
            Some(slot) => is_home(slot),
            None => true,
        }
    }

    fn is_away(&self, buffer: u32) -> bool
        ensures { result ≡ is_at (place_in (homes_with [] self.now) buffer) Device }
    {
        match slot_of(&self.slots, self.first, buffer) {
            Some(slot) => is_away(slot),
            None => false,
        }
    }

    /// Whether the client may give the buffer back: it has it, and its picture is there.
    pub fn may_release(&self, buffer: BufferId) -> bool
        ensures { result ≡ may_be_released self.now buffer.0 }
    {
        match slot_of(&self.slots, self.first, buffer.0) {
            Some(slot) => has_picture(slot),
            None => false,
        }
    }

    /// What a buffer shows the client: the bytes with which it came. None exactly where the client hasn't the buffer, or
    /// its picture isn't there.
    pub fn client_buffer(&self, buffer: BufferId) -> Option<&[u8]>
        ensures { option_map (λ bytes. bytes.now) result ≡ picture_in self.now buffer.0 }
    {
        match slot_of(&self.slots, self.first, buffer.0) {
            Some(slot) => picture_of(slot),
            None => None,
        }
    }
}

/// What is kept for a buffer, where the first is kept first.
fn slot_of(slots: &[Slot], first: u32, buffer: u32) -> Option<&Slot>
    ensures { option_map (λ slot. slot.now) result ≡
        (if nat_le first buffer then slice_get slots.now (buffer - first) else None) }
{
    if buffer < first {
        return None;
    }
    slots.get((buffer - first) as usize)
}

/// The buffers of the stream at a place.
fn made_at(streams: &[Stream], place: usize) -> Option<Made>
    ensures { result ≡ option_map (λ s. s.made) (slice_get streams.now place) }
{
    let stream = streams.get(place)?;
    Some(stream.made)
}

fn are_home(slots: &[Slot]) -> bool
    ensures { result ≡ list_all (λ slot. is_at (place_of slot) Pool) slots.now }
{
    slots.iter().all(|slot| is_home(slot))
}

fn is_home(slot: &Slot) -> bool
    ensures { result ≡ is_at (place_of slot.now) Pool }
{
    match slot {
        Slot::Home(_) => true,
        _ => false,
    }
}

fn is_away(slot: &Slot) -> bool
    ensures { result ≡ is_at (place_of slot.now) Device }
{
    match slot {
        Slot::Away => true,
        _ => false,
    }
}

/// Whether the client has the buffer with its picture.
fn has_picture(slot: &Slot) -> bool
    ensures { result ≡ has_picture slot.now }
{
    match slot {
        Slot::Filled(_) => true,
        Slot::Late { .. } => true,
        _ => false,
    }
}

/// What the buffer shows the client, where its picture is there.
fn picture_of(slot: &Slot) -> Option<&[u8]>
    ensures { option_map (λ bytes. bytes.now) result ≡ picture_of slot.now }
{
    match slot {
        Slot::Filled(pixels) => Some(pixels.bytes()),
        Slot::Late { pixels, .. } => Some(pixels.bytes()),
        _ => None,
    }
}
