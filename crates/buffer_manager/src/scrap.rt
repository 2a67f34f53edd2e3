//! The manager ends, and spends all that it owns.
ghost use Rattle.std.specs.Prelude.{◌≡◌, ◌<◌, IsTrue, true};
ghost use Rattle.std.specs.List.{list_all};
ghost use Rattle.buffer_pool.specs.Fences.{made};
ghost use Rattle.buffer_manager.specs.Managed.{is_given};
ghost use Rattle.buffer_manager.specs.Slots.{is_made_slot};
ghost use Rattle.buffer_manager.specs.Streams.{waits_for_made};

use crate::manager::BufferManager;
use crate::slot::Slot;
use crate::stream::Stream;
use buffer_pool::Fences;

impl BufferManager {
    /// Spends the buffers at home and at the client, and their tokens. The fences of those at home were made by these.
    pub fn scrap(self, fences: &mut Fences)
        requires { IsTrue (list_all (is_given (made fences.old)) self.fences) }
        ensures { fences.new ≡ fences.old }
    {
        let BufferManager {
            streams,
            slots,
            mut late,
            blocks: _,
            first: _,
            profile: _,
        } = self;
        scrap_streams(streams, fences);
        scrap_slots(slots, &mut late);
    }
}

fn scrap_streams(streams: Vec<Stream>, fences: &mut Fences)
    requires { IsTrue (list_all (waits_for_made (made fences.old)) streams.items) }
    ensures { fences.new ≡ fences.old }
{
    let mut streams = streams;
    while let Some(stream) = streams.pop() {
        let Stream {
            spec: _,
            made: _,
            pool,
        } = stream;
        pool.close(fences);
    }
    streams.destroy_empty();
}

fn scrap_slots(slots: Vec<Slot>, late: &mut Fences)
    requires { IsTrue (list_all (is_made_slot (made late.old)) slots.items) }
    ensures { late.new ≡ late.old }
{
    let mut slots = slots;
    while let Some(slot) = slots.pop() {
        scrap_slot(slot, late);
    }
    slots.destroy_empty();
}

/// Spends what is kept for a buffer. Its device fence was made by these.
fn scrap_slot(slot: Slot, late: &mut Fences)
    requires { IsTrue (is_made_slot (made late.old) slot) }
    ensures { late.new ≡ late.old }
{
    match slot {
        Slot::Home(_) => {}
        Slot::Away => {}
        Slot::Filled(pixels) => {
            let _ = pixels.into_block();
        }
        Slot::Early { signaller, waiter } => {
            late.scrap_signaller(signaller);
            late.scrap_waiter(waiter);
        }
        Slot::Late { pixels, waiter } => {
            let _ = pixels.into_block();
            late.scrap_waiter(waiter);
        }
    }
}
