//! The spare blocks of each stream, and the buffers that are made over them.
ghost use Rattle.std.specs.Prelude.{◌≡◌, ◌≤◌, length, false, None, IfOk, IsTrue};
ghost use Rattle.buffer_pool.specs.Blocks.{block_length};
ghost use Rattle.cam_types.specs.Picture.{is_offered, length_in};
ghost use Rattle.device_core.specs.Stored.{AreParked, IsParkedWith, specs_of};
ghost use Rattle.hal_device.specs.Kept.{AreFit, Fits, IsParkedBy, IsSizedAt, are_packed, are_in_place, spares_by, spare_by};
ghost use Rattle.hal_device_model.specs.Calls.{lacks_block, lacks_blocks, lent_for, lent_to};
ghost use Rattle.hal_device_model.specs.State.{back_at, no_spares};

use crate::shelf::Shelf;
use buffer_pool::Parked;
use cam_types::{Format, Four, NoMemory, PixelBuf, StreamIx, StreamSpec, TargetView, frame_bytes};
use request_checks::{Plan, PlanStream};
use std::alloc::{AllocError, Global};
use std::marker::Model;

/// The spare blocks of the streams 0 to 3.
#[derive(Drop)]
pub(crate) struct Shelves {
    a: Shelf,
    b: Shelf,
    c: Shelf,
    d: Shelf,
}

impl Model for Shelves {
    ghost use Rattle.hal_device_model.specs.State.{Spares};

    ghost Value = { Spares };

    ghost view = { λ s. record { a = s.a; b = s.b; c = s.c; d = s.d } };
}

impl Shelves {
    /// No block for any stream.
    pub fn empty(alloc: Global) -> Shelves
        ensures { result ≡ no_spares }
    {
        Shelves {
            a: Shelf::empty(alloc),
            b: Shelf::empty(alloc),
            c: Shelf::empty(alloc),
            d: Shelf::empty(alloc),
        }
    }

    /// As many blocks for each stream of the plan as its buffers may be at the device.
    pub fn new(alloc: Global, plan: Plan) -> Result<Shelves, NoMemory>
        ensures { IfOk result (λ shelves. shelves ≡ spares_by plan) }
    {
        Ok(Shelves {
            a: shelf_for(alloc, plan.streams.a)?,
            b: shelf_for(alloc, plan.streams.b)?,
            c: shelf_for(alloc, plan.streams.c)?,
            d: shelf_for(alloc, plan.streams.d)?,
        })
    }

    /// Whether a target's stream has no block left.
    pub fn lack(&self, targets: Four<TargetView>) -> bool
        ensures { result ≡ lacks_blocks targets self.now }
    {
        (lacks(&self.a, targets.a) || lacks(&self.b, targets.b))
            || (lacks(&self.c, targets.c) || lacks(&self.d, targets.d))
    }

    /// A buffer for each target, over a block of its stream.
    pub fn park(&mut self, plan: Plan, targets: Four<TargetView>) -> Four<Parked>
        requires blocks { lacks_blocks targets self.old ≡ false }
        requires fit { AreFit plan targets self.old }
        requires packed { IsTrue (are_packed plan) }
        requires placed { IsTrue (are_in_place targets) }
        ensures parked { AreParked (specs_of plan) targets result }
        ensures shelves { self.new ≡ lent_to targets self.old }
    {
        Four {
            a: park_at(&mut self.a, plan.streams.a, targets.a),
            b: park_at(&mut self.b, plan.streams.b, targets.b),
            c: park_at(&mut self.c, plan.streams.c, targets.c),
            d: park_at(&mut self.d, plan.streams.d, targets.d),
        }
    }

    /// Takes a block of a stream back.
    pub fn take_back(&mut self, stream: StreamIx, block: Vec<u8>)
        requires { IsSizedAt stream.0 (length block.items) self.old }
        ensures { self.new ≡ back_at stream.0 self.old }
    {
        match stream.0 {
            0 => self.a.take_back(block),
            1 => self.b.take_back(block),
            2 => self.c.take_back(block),
            3 => self.d.take_back(block),
            _ => {}
        }
    }
}

fn shelf_for(alloc: Global, stream: Option<PlanStream>) -> Result<Shelf, AllocError>
    ensures { IfOk result (λ shelf. shelf ≡ spare_by stream) }
{
    match stream {
        Some(stream) => Shelf::new(alloc, block_bytes(stream.spec.format), stream.max_buffers),
        None => Ok(Shelf::empty(alloc)),
    }
}

/// The bytes of a block of the format.
fn block_bytes(format: Format) -> usize
    ensures { result ≡ block_length format }
{
    match format {
        Format::Raw16 => 38_400,
        Format::Yuv => 28_800,
        Format::Other(_) => 0,
    }
}

fn lacks(shelf: &Shelf, target: Option<TargetView>) -> bool
    ensures { result ≡ lacks_block target shelf.now }
{
    match target {
        Some(_) => shelf.is_empty(),
        None => false,
    }
}

/// A buffer for a target of the stream, if there is one.
fn park_at(
    shelf: &mut Shelf,
    stream: Option<PlanStream>,
    target: Option<TargetView>,
) -> Option<Parked>
    requires block { lacks_block target shelf.old ≡ false }
    requires fits { Fits stream target shelf.old }
    ensures parked { IsParkedBy stream target result }
    ensures shelf { shelf.new ≡ lent_for target shelf.old }
{
    match (stream, target) {
        (_, None) => None,
        (Some(stream), Some(target)) => Some(parked_over(shelf.lend(), stream.spec, target)),
        (None, Some(_)) => unreachable!(),
    }
}

/// The target's buffer over a block.
fn parked_over(block: Vec<u8>, spec: StreamSpec, target: TargetView) -> Parked
    requires whole { length block.items ≡ block_length spec.format }
    requires offered { IsTrue (is_offered spec) }
    requires free { target.fence ≡ None }
    ensures { IsParkedWith spec target result }
{
    let used = picture_length(spec);
    Parked {
        pixels: PixelBuf::over(block, target.buffer, used),
        waiter: None,
    }
}

/// The bytes of a picture of the stream, for which a block has room.
pub(crate) fn picture_length(spec: StreamSpec) -> u32
    requires { IsTrue (is_offered spec) }
    ensures value { result ≡ length_in spec.format spec.width spec.height }
    ensures fits { result ≤ block_length spec.format }
{
    match frame_bytes(spec) {
        Some(bytes) => bytes,
        None => unreachable!(),
    }
}
