//! Items go to the device as frames, or are dropped.
ghost use Rattle.std.specs.Prelude.{◌≡◌, ◌<◌, ◌++◌, ◌∷◌, ◌==◌, ◌||◌, [], None, IsTrue, length, not, take};
ghost use Rattle.std.specs.List.{list_all, list_any};
ghost use Rattle.std.specs.Option.{option_map};
ghost use Rattle.cam_types.specs.Four.{four_list};
ghost use Rattle.cam_types.specs.Metadata.{range_fault};
ghost use Rattle.trace_model.specs.Send.{are_last, targets_in_order};
ghost use Rattle.run_model.specs.declared.step.StepName.TheVariants.{DropQueued, Send};
ghost use Rattle.run_rows.specs.Changes.{fresh_row, fresh_target};
ghost use Rattle.state_facts.specs.States.{has_room_in};
ghost use Rattle.device_core.specs.View.{with_rows};
ghost use Rattle.device_rows.specs.Kept.{is_fresh, rise_from};
ghost use Rattle.device_core.specs.Stored.{AreParked, are_before, is_some_target, specs_of};
ghost use Rattle.service_parts.specs.Moves.{may_go_by};
ghost use Rattle.service_parts.specs.Parts.{base};
ghost use Rattle.service_state.specs.Answers.{Answers};
ghost use Rattle.service_state.specs.Serving.{IsServing};

use crate::state::ServiceState;
use buffer_manager::asks;
use buffer_pool::Parked;
use cam_types::{
    Four, FrameNo, Item, Queued, RowView, SensorPlace, Settings, StreamIx, TargetState, TargetView,
};
use device_core::Device;
use trace_model::{Entry, Sent};

impl ServiceState {
    /// Sends the next item to the device, with the least free buffer of each of its streams. None exactly where no
    /// item waits or repeats, the service is stopping, as many frames are open as may, a stream has no room or no
    /// buffer, or the item repeats and is held back.
    pub fn send(&mut self) -> Option<Entry>
        requires { IsServing self.old }
        ensures { Answers Send self.old result self.new }
    {
        let next = self.captures.peek()?;
        if !self.may_go(next) {
            return None;
        }
        let (targets, parked) = self.buffers.take(&next.item)?;
        let frame = self.captures.next_frame();
        let entry = Entry::Send {
            frame,
            request: next.request,
            item: next.index,
            same: is_last(self.last, next.item.settings),
            targets,
        };
        admit(&mut self.device, fresh_row(next, frame, targets), parked);
        self.captures.send();
        self.client
            .note(&self.script, next.repeating, false, &entry);
        self.last = Some(next.item.settings);
        Some(entry)
    }

    /// Drops the first item that waits, under the next frame number. None exactly where none waits, or the service
    /// isn't stopping.
    pub fn drop_queued(&mut self) -> Option<Entry>
        requires { IsServing self.old }
        ensures { Answers DropQueued self.old result self.new }
    {
        if !self.client.is_stopping() {
            return None;
        }
        let first = self.captures.first_waiting()?;
        let frame = self.captures.next_frame();
        self.captures.drop_first();
        Some(Entry::Dropped {
            frame,
            request: first.request,
            item: first.index,
        })
    }

    /// Whether the item may be sent, whatever buffers are at home.
    pub(crate) fn may_go(&self, next: Queued) -> bool
        ensures { result ≡ may_go_by self.now.script self.now.parts next }
    {
        !self.client.is_stopping()
            && ((self.device.len() < self.script.profile.depth && self.has_room_for(&next.item))
                && (!next.repeating || self.client.may_repeat(&self.script)))
    }

    /// Whether one more buffer of each of the item's streams may go to the device.
    #[tactic(auto, using(crate::proofs::Rooms::rooms_of))]
    fn has_room_for(&self, item: &Item) -> bool
        ensures { result ≡ list_all (has_room_in self.now.script (base self.now.parts)) (targets_in_order item.now) }
    {
        self.fits_if_asked(item, 0)
            && (self.fits_if_asked(item, 1)
                && (self.fits_if_asked(item, 2) && self.fits_if_asked(item, 3)))
    }

    /// Whether the stream has room, where the item asks for it.
    fn fits_if_asked(&self, item: &Item, stream: u8) -> bool
        ensures { result ≡ (not (list_any (λ t. t == stream) (take item.now.targets.count item.now.targets.list))
            || has_room_in self.now.script (base self.now.parts) stream) }
    {
        !asks(item, stream) || self.has_room(StreamIx(stream))
    }

    /// Whether one more buffer of the stream may go to the device.
    fn has_room(&self, stream: StreamIx) -> bool
        ensures { result ≡ has_room_in self.now.script (base self.now.parts) stream.0 }
    {
        match self.client.stream(stream) {
            Some(spec) => self.buffers.at_device(stream)
                < self.script.profile.max_buffers(spec.format),
            None => false,
        }
    }
}

/// Whether the settings are those that were sent last.
fn is_last(last: Option<Settings>, settings: Settings) -> bool
    ensures { result ≡ are_last last settings }
{
    match last {
        Some(last) => last == settings,
        None => false,
    }
}

/// The target of a frame that is sent now.
fn fresh_target(sent: Option<Sent>) -> Option<TargetView>
    ensures { result ≡ option_map fresh_target sent }
{
    let Sent {
        stream,
        buffer,
        fence,
    } = sent?;
    Some(TargetView {
        stream,
        buffer,
        fence,
        announced: false,
        state: TargetState::Waiting,
    })
}

/// The row of a frame that is sent now.
fn fresh_row(next: Queued, frame: FrameNo, targets: Four<Sent>) -> RowView
    ensures { result ≡ fresh_row next.item.settings frame next.request targets }
{
    RowView {
        frame,
        request: next.request,
        settings: next.item.settings,
        targets: Four {
            a: fresh_target(targets.a),
            b: fresh_target(targets.b),
            c: fresh_target(targets.c),
            d: fresh_target(targets.d),
        },
        shutter: None,
        parts: 0,
        request_error: false,
        result_error: false,
        sensor: SensorPlace::NotYet,
        stopped: false,
    }
}

/// Gives the device a frame, for which it has room.
fn admit(device: &mut Device, row: RowView, parked: Four<Parked>)
    requires room { length device.old.rows < device.old.capacity }
    requires later { IsTrue (are_before row.frame.0 device.old.rows) }
    requires fresh { IsTrue (is_fresh row) }
    requires range { range_fault row.settings ≡ None }
    requires streams { IsTrue (rise_from 0 (length (specs_of device.old.plan)) (four_list row.targets)) }
    requires some { IsTrue (is_some_target (four_list row.targets)) }
    requires parked { AreParked (specs_of device.old.plan) row.targets parked }
    ensures { device.new ≡ with_rows (device.old.rows ++ row ∷ []) device.old }
{
    match device.process_request(row, parked) {
        Ok(()) => {}
        Err(_) => unreachable!(),
    }
}
