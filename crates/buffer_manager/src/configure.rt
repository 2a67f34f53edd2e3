//! Pools are closed and opened afresh, in the same blocks.
ghost use Rattle.std.specs.Prelude.{◌≡◌, ◌+◌, ◌^◌, ◌<◌, ◌≤◌, ◌++◌, [], None, ℕ, true, IsTrue, length, replicate, slice_get, Some, vec_capacity};
ghost use Rattle.std.specs.List.{list_all};
ghost use Rattle.cam_types.specs.Picture.{is_offered};
ghost use Rattle.cam_types.specs.Profile.{is_profile};
ghost use Rattle.cam_types.specs.Refusals.{specs_refusal};
ghost use Rattle.buffer_pool.specs.Fences.{made};
ghost use Rattle.state_facts.specs.Homes.{all_home};
ghost use Rattle.buffer_manager.specs.Closing.{AreClosable, AreCounted, SameTotal, homes_only};
ghost use Rattle.buffer_manager.specs.Managed.{cleared, has_room_for, homes_with, is_given, reopened, with_stream};

use crate::manager::BufferManager;
use crate::slot::{Slot, take_home};
use crate::stream::Stream;
use buffer_pool::{Blocks, Fences, Pool};
use cam_types::{BufferId, Made, SpecList, StreamSpec};

impl BufferManager {
    /// Closes the pools, whose buffers are all at home, and opens fresh ones for the streams of an accepted
    /// configuration in the same blocks, with the next numbers.
    pub fn configure(&mut self, specs: &SpecList, fences: &mut Fences)
        requires accepted { specs_refusal specs.now ≡ None }
        requires home { all_home (homes_with [] self.old) ≡ true }
        requires given { IsTrue (list_all (is_given (made fences.old)) self.old.fences) }
        requires numbered { self.old.first + (length self.old.places + 72) < 2 ^ 32 }
        ensures reopened { self.new ≡ reopened specs.now self.old }
        ensures fences { fences.new ≡ fences.old }
    {
        self.clear(fences);
        for spec in specs.as_slice() {
            self.open_stream(*spec);
        }
    }

    /// Closes the pools. The next buffer is the first.
    fn clear(&mut self, fences: &mut Fences)
        requires home { all_home (homes_with [] self.old) ≡ true }
        requires given { IsTrue (list_all (is_given (made fences.old)) self.old.fences) }
        ensures cleared { self.new ≡ cleared self.old }
        ensures valid { IsTrue (is_profile self.new.profile) }
        ensures fences { fences.new ≡ fences.old }
    {
        let next = self.next_buffer();
        close_streams(&mut self.streams, fences, &mut self.blocks);
        clear_slots(&mut self.slots);
        self.first = next;
    }

    /// Opens the pool of one more stream.
    fn open_stream(&mut self, spec: StreamSpec)
        requires offered { IsTrue (is_offered spec) }
        requires room { IsTrue (has_room_for self.old.specs spec) }
        requires numbered { self.old.first + (length self.old.places + 18) < 2 ^ 32 }
        ensures { self.new ≡ with_stream spec self.old }
    {
        let count = self.profile.pool_size(spec.format);
        let first = BufferId(self.next_buffer());
        let pool = Pool::open_in(&mut self.blocks, spec, first, count);
        self.streams.push_reserved(Stream {
            spec,
            made: Made { first, count },
            pool,
        });
        add_homes(&mut self.slots, count);
    }
}

/// Closes the pools, whose buffers are all at home. Their blocks are free again.
fn close_streams(streams: &mut Vec<Stream>, fences: &mut Fences, blocks: &mut Blocks)
    requires closable { AreClosable (made fences.old) streams.old.items }
    requires counted { AreCounted streams.old.items blocks.old }
    ensures streams { streams.new.items ≡ [] }
    ensures capacity { vec_capacity streams.new ≡ vec_capacity streams.old }
    ensures counted { AreCounted [] blocks.new }
    ensures total { SameTotal blocks.old blocks.new }
    ensures fences { fences.new ≡ fences.old }
{
    while let Some(stream) = streams.pop() {
        let Stream {
            spec: _,
            made: _,
            pool,
        } = stream;
        pool.close_in(fences, blocks);
    }
}

fn clear_slots(slots: &mut Vec<Slot>)
    requires { IsTrue (homes_only slots.old.items) }
    ensures slots { slots.new.items ≡ [] }
    ensures capacity { vec_capacity slots.new ≡ vec_capacity slots.old }
{
    while let Some(slot) = slots.pop() {
        let _ = take_home(slot);
    }
}

/// More buffers at home, with no fence.
fn add_homes(slots: &mut Vec<Slot>, count: u32)
    requires { length slots.old.items + count ≤ vec_capacity slots.old }
    ensures slots { slots.new.items ≡ slots.old.items ++ replicate count (Slot.Home None) }
    ensures capacity { vec_capacity slots.new ≡ vec_capacity slots.old }
{
    for _ in 0..count {
        slots.push_reserved(Slot::Home(None));
    }
}
