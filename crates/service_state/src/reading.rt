//! What is read of the parts: the open frames, the buffers of the configuration, and the fences that aren't signalled.
ghost use Rattle.std.specs.Prelude.{◌≡◌, length, slice_get};
ghost use Rattle.std.specs.Option.{option_map};
ghost use Rattle.service_parts.specs.After.{picture_in};
ghost use Rattle.service_state.specs.Serving.{unsignalled};

use crate::state::ServiceState;
use cam_types::{BufferId, FenceNo, RowView};

impl ServiceState {
    /// How many frames are open.
    pub fn open_frames(&self) -> u32
        ensures { result ≡ length self.now.parts.rows }
    {
        self.device.len()
    }

    /// The row of the open frame at a place, from 0 on in order of frames. None exactly where so many aren't open.
    pub fn row(&self, place: u32) -> Option<RowView>
        ensures { result ≡ slice_get self.now.parts.rows place }
    {
        self.device.at(place)
    }

    /// The number of the configuration's first buffer.
    pub fn first_buffer(&self) -> u32
        ensures { result ≡ self.now.parts.buffers.first }
    {
        self.buffers.first_buffer()
    }

    /// How many buffers the configuration has.
    pub fn buffer_count(&self) -> u32
        ensures { result ≡ length self.now.parts.buffers.places }
    {
        self.buffers.buffer_count()
    }

    /// What a buffer shows the client. None exactly where the client hasn't the buffer, or its picture isn't there.
    pub fn client_buffer(&self, buffer: BufferId) -> Option<&[u8]>
        ensures { option_map (λ bytes. bytes.now) result ≡ picture_in self.now.parts buffer.0 }
    {
        self.buffers.client_buffer(buffer)
    }

    /// How many fences were released and aren't signalled.
    pub fn pending(&self) -> u32
        ensures { result ≡ length (unsignalled 0 self.now.parts.buffers.signalled) }
    {
        self.signals.len()
    }

    /// The fence at a place, from 0 on by number, of those that were released and aren't signalled. None exactly where
    /// so many aren't.
    pub fn pending_at(&self, place: u32) -> Option<FenceNo>
        ensures { option_map (λ fence. fence.0) result
            ≡ slice_get (unsignalled 0 self.now.parts.buffers.signalled) place }
    {
        let number = self.signals.at(place)?;
        Some(FenceNo(number))
    }
}
