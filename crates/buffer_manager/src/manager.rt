//! The manager: the streams, and what is kept for each buffer.
ghost use Rattle.std.specs.Prelude.{◌≡◌, ◌+◌, ◌*◌, ◌≤◌, [], IfOk, IsTrue, length, vec_capacity};
ghost use Rattle.buffer_pool.specs.Blocks.{full_blocks};
ghost use Rattle.cam_types.specs.Profile.{is_profile, pool_size};
ghost use Rattle.buffer_manager.specs.Managed.{no_buffers};

use crate::slot::Slot;
use crate::stream::Stream;
use buffer_pool::{Blocks, Fences};
use cam_types::{Format, NoMemory, Profile, STREAM_LIMIT};
use std::alloc::Global;
use std::marker::Model;

/// The most buffers of a configuration.
const SLOT_LIMIT: usize = 72;

/// The buffers of the configuration but those that the device has. A contract sees where each is, with its fences
/// (`Managed`). All its memory is taken by `open`. It can't be let go: `scrap` ends it.
pub struct BufferManager {
    pub(crate) streams: Vec<Stream>,
    pub(crate) slots: Vec<Slot>,
    pub(crate) late: Fences,
    pub(crate) blocks: Blocks,
    /// The number of the first buffer.
    pub(crate) first: u32,
    pub(crate) profile: Profile,
}

impl Model for BufferManager {
    ghost use Rattle.std.specs.Prelude.{length, map, vec_capacity};
    ghost use Rattle.buffer_manager.specs.Kept.{AreKept, AreLent, AreTimely, HaveRoom};
    ghost use Rattle.buffer_manager.specs.Managed.{Managed};
    ghost use Rattle.buffer_manager.specs.Slots.{fence_of, held_of, picture_of, place_of};

    ghost Value = { Managed };

    ghost view = { λ m. record {
      made = map (λ s. s.made) m.streams.items;
      first = m.first;
      places = map place_of m.slots.items;
      fences = map fence_of m.slots.items;
      held = map held_of m.slots.items;
      pictures = map picture_of m.slots.items;
      late = m.late.signalled;
      specs = map (λ s. s.spec) m.streams.items;
      room = m.late.room;
      profile = m.profile;
    } };

    ghost invariant = { λ m.
        (AreKept m.first m.streams.items m.slots.items)
        × (AreTimely m.late.signalled m.slots.items)
        × (AreLent m.profile m.streams.items m.blocks)
        × (HaveRoom m.first (length m.slots.items) (vec_capacity m.streams) (vec_capacity m.slots) m.profile) };
}

impl BufferManager {
    /// No buffers yet, with the memory for the largest configuration that is accepted, a RAW16 stream and three YUV
    /// streams, and room for so many device fences.
    pub fn open(alloc: Global, profile: Profile, early: u32) -> Result<BufferManager, NoMemory>
        requires { IsTrue (is_profile profile) }
        ensures { IfOk result (λ m. m ≡ no_buffers profile early) }
    {
        let blocks = open_blocks(alloc, profile)?;
        let late = Fences::with_room(alloc, early)?;
        let (streams, slots) = open_lists(alloc)?;
        Ok(BufferManager {
            streams,
            slots,
            late,
            blocks,
            first: 0,
            profile,
        })
    }

    /// The number of the configuration's first buffer.
    pub fn first_buffer(&self) -> u32
        ensures { result ≡ self.now.first }
    {
        self.first
    }

    /// How many buffers the configuration has.
    pub fn buffer_count(&self) -> u32
        ensures { result ≡ length self.now.places }
    {
        self.slots.len() as u32
    }

    /// The number of the next configuration's first buffer.
    pub fn next_buffer(&self) -> u32
        ensures { result ≡ self.now.first + length self.now.places }
    {
        self.first + self.slots.len() as u32
    }
}

/// The blocks of a RAW16 stream and of three YUV streams.
fn open_blocks(alloc: Global, profile: Profile) -> Result<Blocks, NoMemory>
    requires { IsTrue (is_profile profile) }
    ensures { IfOk result
        (λ blocks. blocks ≡ full_blocks (pool_size profile Format.Raw16) (3 * pool_size profile Format.Yuv)) }
{
    let raw = profile.pool_size(Format::Raw16);
    let yuv = profile.pool_size(Format::Yuv);
    Blocks::new(alloc, raw, 3 * yuv)
}

/// No stream and no slot, with the memory for as many as a configuration has at most.
fn open_lists(alloc: Global) -> Result<(Vec<Stream>, Vec<Slot>), NoMemory>
    ensures empty { IfOk result (λ lists. (lists.0.items ≡ []) × (lists.1.items ≡ [])) }
    ensures room { IfOk result (λ lists. (4 ≤ vec_capacity lists.0) × (72 ≤ vec_capacity lists.1)) }
{
    let streams = Vec::with_capacity(alloc, STREAM_LIMIT as usize)?;
    match Vec::with_capacity(alloc, SLOT_LIMIT) {
        Ok(slots) => Ok((streams, slots)),
        Err(error) => {
            streams.destroy_empty();
            Err(error)
        }
    }
}
