//! What is read from the table.
ghost use Rattle.std.specs.Prelude.{◌≡◌, ◌-◌, ◌+◌, ◌<◌, ◌^◌, None, filter, length, slice_get, slice_index_or};
ghost use Rattle.std.specs.List.{list_all, range_with_len};
ghost use Rattle.trace_model.specs.Place.{Client as TheClient, Device as TheDevice, Pool as ThePool, is_at};
ghost use Rattle.state_facts.specs.Homes.{all_home, all_signalled, at_device_in, fence_in, held_in, place_in, release_in, signal_in, signalled_in, there_in};
ghost use Rattle.judge_rows.specs.Homes.{fences_in, helds_in, place_of, places_in};

use crate::homes::{Berth, Home, HomeTable};
use cam_types::{BufferId, DeviceFenceNo, FenceNo, Made, StreamIx};
use trace_model::Entry;

impl HomeTable {
    /// The number of the next buffer.
    pub fn next_buffer(&self) -> u32
        requires { self.now.first + length self.now.places < 2 ^ 32 }
        ensures { result ≡ self.now.first + length self.now.places }
    {
        self.first + self.berths.len() as u32
    }

    /// The buffers that were made for the stream.
    pub fn made(&self, stream: StreamIx) -> Option<Made>
        ensures { result ≡ slice_get self.now.made stream.0 }
    {
        self.made.get(stream.0 as usize).copied()
    }

    /// Where the buffer of the number is.
    pub fn home(&self, number: u64) -> Home
        ensures { place_of result ≡ place_in self.now number }
    {
        let first = self.first as u64;
        if first <= number {
            home_at(&self.berths, (number - first) as usize)
        } else {
            Home::Pool
        }
    }

    /// The fence with which the buffer came home.
    pub fn fence(&self, buffer: BufferId) -> Option<FenceNo>
        ensures { result ≡ fence_in self.now buffer.0 }
    {
        fence_at(&self.berths, buffer.0.saturating_sub(self.first) as usize)
    }

    /// Whether the fence was released and is signalled.
    pub fn is_signalled(&self, fence: FenceNo) -> bool
        ensures { result ≡ signalled_in self.now fence.0 }
    {
        self.releases.is_signalled(fence.0)
    }

    /// How many early returns there were, which is the number of the next device fence.
    pub fn early_count(&self) -> u32
        ensures { result ≡ length self.now.late }
    {
        self.pictures.count()
    }

    /// Whether every buffer is in its pool.
    pub fn is_all_home(&self) -> bool
        ensures { result ≡ all_home self.now }
    {
        are_home(&self.berths)
    }

    /// Whether each fence that was released is signalled.
    pub fn is_all_signalled(&self) -> bool
        ensures { result ≡ all_signalled self.now }
    {
        self.releases.is_all_signalled()
    }

    /// How many of the stream's buffers are at the device.
    pub fn at_device(&self, stream: StreamIx) -> usize
        ensures { result ≡ at_device_in self.now stream.0 }
    {
        match self.made(stream) {
            Some(made) => self.count_at_device(made),
            None => 0,
        }
    }

    fn count_at_device(&self, made: Made) -> usize
        ensures { result ≡
            length (filter (λ b. is_at (place_in self.now b) TheDevice) (range_with_len made.first.0 made.count)) }
    {
        let first = u64::from(made.first.0);
        let end = first + u64::from(made.count);
        (first..end)
            .filter(|number| self.is_at_device(*number))
            .count()
    }

    fn is_at_device(&self, number: u64) -> bool
        ensures { result ≡ is_at (place_in self.now number) TheDevice }
    {
        matches!(self.home(number), Home::Device)
    }

    /// The release of the buffer that is due: the client has it, and its picture is there.
    pub fn release_due(&self, buffer: BufferId) -> Option<Entry>
        ensures { result ≡ release_in self.now buffer.0 }
    {
        if self.is_at_client(buffer) && self.is_there(self.held(buffer)) {
            Some(Entry::Release {
                buffer,
                fence: FenceNo(self.releases.count()),
            })
        } else {
            None
        }
    }

    fn is_at_client(&self, buffer: BufferId) -> bool
        ensures { result ≡ is_at (place_in self.now buffer.0) TheClient }
    {
        matches!(self.home(buffer.0 as u64), Home::Client)
    }

    /// The device fence with which the buffer went to the client early.
    fn held(&self, buffer: BufferId) -> Option<DeviceFenceNo>
        ensures { result ≡ held_in self.now buffer.0 }
    {
        held_at(&self.berths, buffer.0.saturating_sub(self.first) as usize)
    }

    /// Whether there is no device fence to wait for, or it is signalled.
    fn is_there(&self, fence: Option<DeviceFenceNo>) -> bool
        ensures { result ≡ there_in self.now fence }
    {
        match fence {
            Some(fence) => self.pictures.is_signalled(fence.0),
            None => true,
        }
    }

    /// The signal of the fence that is due: it was released and isn't signalled.
    pub fn signal_due(&self, fence: FenceNo) -> Option<Entry>
        ensures { result ≡ signal_in self.now fence.0 }
    {
        if fence.0 < self.releases.count() && !self.releases.is_signalled(fence.0) {
            Some(Entry::Signal { fence })
        } else {
            None
        }
    }
}

fn home_at(berths: &[Berth], place: usize) -> Home
    ensures { place_of result ≡ slice_index_or (places_in berths.now) place ThePool }
{
    if place < berths.len() {
        berths[place].home
    } else {
        Home::Pool
    }
}

fn fence_at(berths: &[Berth], place: usize) -> Option<FenceNo>
    ensures { result ≡ slice_index_or (fences_in berths.now) place None }
{
    if place < berths.len() {
        berths[place].fence
    } else {
        None
    }
}

fn held_at(berths: &[Berth], place: usize) -> Option<DeviceFenceNo>
    ensures { result ≡ slice_index_or (helds_in berths.now) place None }
{
    if place < berths.len() {
        berths[place].held
    } else {
        None
    }
}

fn is_home(berth: &Berth) -> bool
    ensures { result ≡ is_at (place_of berth.now.home) ThePool }
{
    matches!(berth.home, Home::Pool)
}

fn are_home(berths: &[Berth]) -> bool
    ensures { result ≡ list_all (λ p. is_at p ThePool) (places_in berths.now) }
{
    all_at_home(berths)
}

fn all_at_home(berths: &[Berth]) -> bool
    ensures { result ≡ list_all (λ b. is_at (place_of b.home) ThePool) berths.now }
{
    berths.iter().all(|berth| is_home(berth))
}
