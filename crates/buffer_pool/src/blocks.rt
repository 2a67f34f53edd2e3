//! The memory of buffers: blocks that pools lend and give back.
ghost use Rattle.std.specs.Prelude.{◌≡◌, ◌<◌, length, IfOk};
ghost use Rattle.buffer_pool.specs.Blocks.{block_length, free_of, full_blocks, lent_of, with_lent, with_returned};

use crate::shelf::Shelf;
use cam_types::{Format, NoMemory, RAW_BLOCK, YUV_BLOCK};
use std::alloc::Global;
use std::marker::Model;

/// The memory of buffers: blocks of 38,400 bytes for RAW16 and of 28,800 bytes for YUV. They are lent and come back
/// whole; their bytes stay as they are.
#[derive(Drop)]
pub struct Blocks {
    raw: Shelf,
    yuv: Shelf,
}

impl Model for Blocks {
    ghost use Rattle.std.specs.Prelude.{◌≡◌};
    ghost use Rattle.buffer_pool.specs.Blocks.{Stock, counts_of};

    ghost Value = { Stock };

    ghost view = { λ b. record { raw = counts_of b.raw; yuv = counts_of b.yuv } };

    ghost invariant = { λ b. (b.raw.size ≡ 38400) × (b.yuv.size ≡ 28800) };
}

impl Blocks {
    /// So many free blocks of 38,400 bytes and of 28,800 bytes.
    pub fn new(alloc: Global, raw: u32, yuv: u32) -> Result<Blocks, NoMemory>
        ensures { IfOk result (λ blocks. blocks ≡ full_blocks raw yuv) }
    {
        let raw = Shelf::new(alloc, RAW_BLOCK, raw)?;
        let yuv = Shelf::new(alloc, YUV_BLOCK, yuv)?;
        Ok(Blocks { raw, yuv })
    }

    /// Lends a block of the format.
    pub(crate) fn lend(&mut self, format: Format) -> Vec<u8>
        requires { 0 < free_of format self.old }
        ensures block { length result.items ≡ block_length format }
        ensures blocks { self.new ≡ with_lent format 1 self.old }
    {
        match format {
            Format::Raw16 => self.raw.lend(),
            Format::Yuv => self.yuv.lend(),
            Format::Other(_) => unreachable!(),
        }
    }

    /// Takes a block of the format back.
    pub(crate) fn take_back(&mut self, format: Format, block: Vec<u8>)
        requires lent { 0 < lent_of format self.old }
        requires whole { length block.items ≡ block_length format }
        ensures { self.new ≡ with_returned format 1 self.old }
    {
        match format {
            Format::Raw16 => self.raw.take_back(block),
            Format::Yuv => self.yuv.take_back(block),
            Format::Other(_) => unreachable!(),
        }
    }
}
