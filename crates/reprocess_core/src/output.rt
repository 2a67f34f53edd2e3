//! The memory of an output buffer.
ghost use Rattle.std.specs.Prelude.{◌≡◌, ◌*◌, ◌/◌, IsTrue, length};
ghost use Rattle.cam_types.specs.Picture.{picture};
ghost use Rattle.reprocess_model.specs.Plan.{is_output, is_yuv};
ghost use Rattle.reprocess_model.specs.Reduce.{reduced};
ghost use Rattle.reprocess_core.specs.Outputs.{Shows};
ghost use Rattle.sha2.specs.Sha256.{sha256};

use crate::memory::OutputMemory;
use crate::ticket::InputTicket;
use crate::{draw_reduced, reduce};
use cam_types::{BufferId, NoMemory, PixelBuf, StreamSpec, YUV_BLOCK};
use std::alloc::Global;
use std::marker::Model;

/// The memory of an output buffer: a block that the largest picture fits. It is there whenever no picture is being
/// made.
#[derive(Drop)]
pub struct OutputBlock {
    bytes: Option<Vec<u8>>,
}

impl Model for OutputBlock {
    ghost use Rattle.std.specs.Prelude.{◌≡◌, ℕ, List, Option, Some, length};
    ghost use Rattle.std.specs.Option.{option_map};

    ghost Value = { Option (List ℕ) };

    ghost view = { λ b. option_map (λ bytes. bytes.items) b.bytes };

    ghost invariant = { λ b. option_map (λ bytes. length bytes.items) b.bytes ≡ Some 28800 };
}

impl OutputBlock {
    /// A block.
    pub fn new(alloc: Global) -> Result<OutputBlock, NoMemory> {
        let bytes = vec![in alloc; 0; YUV_BLOCK]?;
        Ok(OutputBlock { bytes: Some(bytes) })
    }

    /// Makes the picture of an output of the input's bytes, and answers its digest. The picture is hashed where the memory
    /// doesn't know it; it may remember it then. It takes no memory.
    pub fn fill(
        &mut self,
        ticket: &InputTicket,
        to: StreamSpec,
        buffer: BufferId,
        memory: &mut OutputMemory,
    ) -> [u8; 32]
        requires { IsTrue (is_output ticket.now.spec to) }
        ensures shown { Shows self.new (reduced ticket.now.spec to
            (picture ticket.now.spec ticket.now.settings ticket.now.frame.0)) }
        ensures digest { result ≡ sha256 (reduced ticket.now.spec to
            (picture ticket.now.spec ticket.now.settings ticket.now.frame.0)) }
    {
        let Some(block) = self.bytes.take() else {
            unreachable!()
        };
        let used = to.width * to.height * 3 / 2;
        let mut pixels = PixelBuf::over(block, buffer, used);
        let digest = fill_with(memory, ticket, to, &mut pixels);
        self.bytes = Some(pixels.into_block());
        digest
    }
}

/// Makes the picture of an output in a buffer, and answers its digest: the memory's where it knows the picture.
fn fill_with(
    memory: &mut OutputMemory,
    ticket: &InputTicket,
    to: StreamSpec,
    pixels: &mut PixelBuf,
) -> [u8; 32]
    requires fits { IsTrue (is_output ticket.now.spec to) }
    requires room { length pixels.old.bytes ≡ to.width * to.height * 3 / 2 }
    ensures shown { pixels.new.bytes ≡ reduced ticket.now.spec to
        (picture ticket.now.spec ticket.now.settings ticket.now.frame.0) }
    ensures len { length pixels.new.bytes ≡ length pixels.old.bytes }
    ensures block { pixels.new.block ≡ pixels.old.block }
    ensures digest { result ≡ sha256 (reduced ticket.now.spec to
        (picture ticket.now.spec ticket.now.settings ticket.now.frame.0)) }
{
    match memory.find(ticket, to) {
        Some(digest) => {
            draw_reduced(ticket.bytes(), ticket.spec(), to, pixels);
            digest
        }
        None => {
            let digest = reduce(ticket.bytes(), ticket.spec(), to, pixels);
            memory.remember(ticket, to, digest);
            digest
        }
    }
}
