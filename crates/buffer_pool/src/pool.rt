//! The pool of a stream: its buffers that are at home.
ghost use Rattle.std.specs.Prelude.{◌≡◌, ◌↔◌, ◌+◌, ◌^◌, ◌<◌, ◌≤◌, [], IfOk, IfSome, IsNone, IsTrue, drop, nat_le, slice_get, false};
ghost use Rattle.std.specs.List.{list_all};
ghost use Rattle.cam_types.specs.Picture.{is_offered, length_in};
ghost use Rattle.cam_types.specs.Profile.{is_profile, pool_size};
ghost use Rattle.buffer_pool.specs.Fences.{made};
ghost use Rattle.buffer_pool.specs.Blocks.{block_length, free_of, lent_of, with_lent, with_returned};
ghost use Rattle.buffer_pool.specs.Home.{AllHome, in_order, is_home, is_of, with_parked};
ghost use Rattle.buffer_pool.specs.Opened.{IsOpened, is_whole};
ghost use Rattle.buffer_pool.specs.Parked.{has_made_waiter, number};

use crate::Fences;
use crate::blocks::Blocks;
use crate::parked::Parked;
use crate::slots::{Slots, end_slots, make_slots, put, take_first};
use cam_types::{BufferId, Format, NoMemory, PixelBuf, Profile, StreamSpec, frame_bytes};
use std::alloc::Global;
use std::marker::Model;

/// The most buffers of a pool.
pub const POOL_LIMIT: usize = 18;

/// The buffers of a stream that are at home. They are numbered from the pool's first number on. It can't be let go:
/// `close` and `close_in` end it.
pub struct Pool {
    spec: StreamSpec,
    first: BufferId,
    count: u32,
    slots: Slots,
}

impl Model for Pool {
    ghost use Rattle.buffer_pool.specs.Home.{Buffers};
    ghost use Rattle.buffer_pool.specs.Slots.{AreHeld, homes};

    ghost Value = { Buffers };

    ghost view = { λ p. record { spec = p.spec; first = p.first.0; count = p.count; home = homes p.slots } };

    ghost invariant = { λ p. AreHeld p.slots p.first.0 p.count };
}

impl Pool {
    /// A pool with all buffers that a stream has by the device's profile, each over a whole block of its own: 38,400
    /// bytes for RAW16, 28,800 for YUV. A buffer shows as many bytes of its block as a picture of the stream has.
    pub fn open(
        alloc: Global,
        profile: Profile,
        spec: StreamSpec,
        first: BufferId,
    ) -> Result<Pool, NoMemory>
        requires profile { IsTrue (is_profile profile) }
        requires offered { IsTrue (is_offered spec) }
        requires numbered { first.0 + pool_size profile spec.format ≤ 2 ^ 32 }
        ensures opened { IfOk result (λ pool. IsOpened spec first.0 (pool_size profile spec.format) pool) }
        ensures home { IfOk result AllHome }
    {
        let count = pool_count(profile, spec.format);
        let mut blocks = match spec.format {
            Format::Raw16 => Blocks::new(alloc, count, 0)?,
            _ => Blocks::new(alloc, 0, count)?,
        };
        Ok(Pool::open_in(&mut blocks, spec, first, count))
    }

    /// A pool of so many buffers, as `open` makes it, over free blocks.
    pub fn open_in(blocks: &mut Blocks, spec: StreamSpec, first: BufferId, count: u32) -> Pool
        requires offered { IsTrue (is_offered spec) }
        requires few { count ≤ POOL_LIMIT }
        requires numbered { first.0 + count ≤ 2 ^ 32 }
        requires free { count ≤ free_of spec.format blocks.old }
        ensures opened { IsOpened spec first.0 count result }
        ensures home { AllHome result }
        ensures blocks { blocks.new ≡ with_lent spec.format count blocks.old }
    {
        let used = picture_length(spec);
        let mut pool = Pool::empty(spec, first, count);
        for place in 0..count {
            let block = blocks.lend(spec.format);
            let pixels = PixelBuf::over(block, BufferId(first.0 + place), used);
            pool.give(Parked {
                pixels,
                waiter: None,
            });
        }
        pool
    }

    fn empty(spec: StreamSpec, first: BufferId, count: u32) -> Pool
        requires few { count ≤ POOL_LIMIT }
        requires numbered { first.0 + count ≤ 2 ^ 32 }
        ensures { result ≡ record { spec = spec; first = first.0; count = count; home = [] } }
    {
        Pool {
            spec,
            first,
            count,
            slots: make_slots(),
        }
    }

    /// Takes the buffer at home that has the least number.
    pub fn take(&mut self) -> Option<Parked>
        ensures value { result ≡ slice_get self.old.home 0 }
        ensures none { IsNone result ↔ (self.old.home ≡ []) }
        ensures own { IfSome result (λ p. IsTrue (is_of self.old (number p))) }
        ensures least { IfSome result (λ p. IsTrue (list_all (λ q. nat_le (number p) (number q)) self.old.home)) }
        ensures left { self.new ≡ record self.old { home = drop 1 self.old.home } }
        ensures in_order { IsTrue (in_order self.new) }
    {
        take_first(&mut self.slots)
    }

    /// Brings a buffer of the pool home.
    pub fn give(&mut self, parked: Parked)
        requires own { IsTrue (is_of self.old (number parked)) }
        requires away { is_home (number parked) self.old.home ≡ false }
        ensures given { self.new ≡ record self.old { home = with_parked parked self.old.home } }
        ensures in_order { IsTrue (in_order self.new) }
    {
        let place = (parked.pixels.id().0 - self.first.0) as usize;
        put(&mut self.slots, place, parked);
    }

    /// Spends the buffers at home and their waiters. Those that aren't at home are spent by whoever holds them.
    pub fn close(self, fences: &mut Fences)
        requires waiters { IsTrue (list_all (has_made_waiter (made fences.old)) self.home) }
        ensures { fences.new ≡ fences.old }
    {
        let mut pool = self;
        while let Some(parked) = pool.take() {
            let _ = parked.into_block(fences);
        }
        pool.end();
    }

    /// Spends the buffers, which are all at home, and their waiters. Their blocks are free again.
    pub fn close_in(self, fences: &mut Fences, blocks: &mut Blocks)
        requires waiters { IsTrue (list_all (has_made_waiter (made fences.old)) self.home) }
        requires home { AllHome self }
        requires whole { IsTrue (list_all (is_whole self.spec.format) self.home) }
        requires lent { self.count ≤ lent_of self.spec.format blocks.old }
        ensures fences { fences.new ≡ fences.old }
        ensures blocks { blocks.new ≡ with_returned self.spec.format self.count blocks.old }
    {
        let format = self.format();
        let mut pool = self;
        while let Some(parked) = pool.take() {
            blocks.take_back(format, parked.into_block(fences));
        }
        pool.end();
    }

    fn format(&self) -> Format
        ensures value { result ≡ self.now.spec.format }
        ensures in_order { IsTrue (in_order self.now) }
    {
        self.spec.format
    }

    /// Ends a pool with no buffer at home.
    fn end(self)
        requires { self.home ≡ [] }
    {
        let Pool {
            spec: _,
            first: _,
            count: _,
            slots,
        } = self;
        end_slots(slots);
    }
}

/// How many buffers a stream of the format has: no more than the most of a pool.
fn pool_count(profile: Profile, format: Format) -> u32
    requires { IsTrue (is_profile profile) }
    ensures value { result ≡ pool_size profile format }
    ensures few { result ≤ POOL_LIMIT }
{
    profile.pool_size(format)
}

/// The bytes of a picture of the stream, for which a block has room.
fn picture_length(spec: StreamSpec) -> u32
    requires { IsTrue (is_offered spec) }
    ensures value { result ≡ length_in spec.format spec.width spec.height }
    ensures fits { result ≤ block_length spec.format }
{
    match frame_bytes(spec) {
        Some(bytes) => bytes,
        None => unreachable!(),
    }
}
