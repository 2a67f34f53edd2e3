//! Buffers go to the device with a frame.
ghost use Rattle.std.specs.Prelude.{◌≡◌, ◌==◌, ◌+◌, ◌≤◌, ◌^◌, [], ℕ, None, Some, IfSome, IsNone, IsTrue, is_some, length, slice_get, take};
ghost use Rattle.std.specs.List.{list_any};
ghost use Rattle.std.specs.Option.{option_map};
ghost use Rattle.cam_types.specs.Four.{four_list, four_of};
ghost use Rattle.trace_model.specs.Place.{Device};
ghost use Rattle.trace_model.specs.Send.{targets_in_order};
ghost use Rattle.buffer_manager.specs.Managed.{homes_with, moved, sent_away, sent_if};
ghost use Rattle.buffer_manager.specs.Taking.{AreTaken, IsTakenAt, has_each, least_target_in, least_targets_in, no_four, put_before, target_if};

use crate::manager::BufferManager;
use crate::slot::{Slot, swap_slot, take_home};
use crate::stream::take_from;
use buffer_pool::Parked;
use cam_types::{BufferId, Four, Item, StreamIx};
use trace_model::Sent;

impl BufferManager {
    /// Takes the least buffer at home of each stream that the item asks for, in ascending order of the streams. None
    /// exactly where one of them has none at home; then nothing changes.
    pub fn take(&mut self, item: &Item) -> Option<(Four<Sent>, Four<Parked>)>
        ensures targets { option_map (λ taken. taken.0) result
            ≡ option_map four_of (least_targets_in (homes_with [] self.old) (targets_in_order item.now)) }
        ensures parked { IfSome result (λ taken. AreTaken self.old.specs taken.0 taken.1) }
        ensures places { IfSome result (λ taken. self.new ≡ sent_away (four_list taken.0) self.old) }
        ensures unchanged { IsNone result → self.new ≡ self.old }
    {
        let asked = [asks(item, 0), asks(item, 1), asks(item, 2), asks(item, 3)];
        if !self.has_each(asked) {
            return None;
        }
        let none = no_buffers();
        let last = self.take_before(asked[3], 3, none);
        let third = self.take_before(asked[2], 2, last);
        let second = self.take_before(asked[1], 1, third);
        Some(self.take_before(asked[0], 0, second))
    }

    /// Whether each stream that the item asks for has a buffer at home, so that `take` takes them.
    pub fn has_buffers_for(&self, item: &Item) -> bool
        ensures { result ≡ is_some (least_targets_in (homes_with [] self.now) (targets_in_order item.now)) }
    {
        self.has_each([asks(item, 0), asks(item, 1), asks(item, 2), asks(item, 3)])
    }

    /// Whether each stream that is asked for has a buffer at home.
    fn has_each(&self, asked: [bool; 4]) -> bool
        ensures { result ≡ has_each (homes_with [] self.now) asked }
    {
        (!asked[0] || self.has_home(0))
            && ((!asked[1] || self.has_home(1))
                && ((!asked[2] || self.has_home(2)) && (!asked[3] || self.has_home(3))))
    }

    /// Takes the least buffer of a stream that is asked for and has one at home, and puts it before the others.
    fn take_before(
        &mut self,
        asked: bool,
        stream: u8,
        others: (Four<Sent>, Four<Parked>),
    ) -> (Four<Sent>, Four<Parked>)
        requires there { IsTrue asked → IsTrue (is_some (least_target_in (homes_with [] self.old) stream)) }
        requires room { (others.0.d ≡ None) × (others.1.d ≡ None) }
        requires taken { AreTaken self.old.specs others.0 others.1 }
        ensures targets { result.0 ≡ put_before (target_if asked (homes_with [] self.old) stream) others.0 }
        ensures taken { AreTaken self.new.specs result.0 result.1 }
        ensures specs { self.new.specs ≡ self.old.specs }
        ensures places { self.new ≡ sent_if (target_if asked (homes_with [] self.old) stream) self.old }
        ensures rest { (s : ℕ) → (s ≡ stream → ⊥) →
            least_target_in (homes_with [] self.new) s ≡ least_target_in (homes_with [] self.old) s }
    {
        if !asked {
            return others;
        }
        match self.take_least(stream) {
            Some((sent, parked)) => {
                let (targets, buffers) = others;
                (put_sent(sent, targets), put_parked(parked, buffers))
            }
            None => unreachable!(),
        }
    }

    /// Whether a stream has a buffer at home.
    fn has_home(&self, stream: u8) -> bool
        ensures { result ≡ is_some (least_target_in (homes_with [] self.now) stream) }
    {
        match self.made_of(stream) {
            Some(made) => self.least_home(made).is_some(),
            None => false,
        }
    }

    /// Takes the least buffer of a stream that is at home.
    fn take_least(&mut self, stream: u8) -> Option<(Sent, Parked)>
        ensures sent { option_map (λ taken. taken.0) result ≡ least_target_in (homes_with [] self.old) stream }
        ensures parked { IfSome result (λ taken. IsTakenAt self.old.specs (Some taken.0) (Some taken.1)) }
        ensures moved { IfSome result (λ taken. self.new ≡ moved taken.0.buffer.0 Device None None None self.old) }
        ensures others { (s : ℕ) → (s ≡ stream → ⊥) →
            least_target_in (homes_with [] self.new) s ≡ least_target_in (homes_with [] self.old) s }
        ensures unchanged { IsNone result → self.new ≡ self.old }
    {
        let Some(parked) = take_from(&mut self.streams, stream as usize) else {
            return None;
        };
        let buffer = parked.pixels.id();
        let place = (buffer.0 - self.first) as usize;
        let fence = take_home(swap_slot(&mut self.slots, place, Slot::Away));
        let sent = Sent {
            stream: StreamIx(stream),
            buffer,
            fence,
        };
        Some((sent, parked))
    }
}

/// Whether the item asks for the stream.
pub fn asks(item: &Item, stream: u8) -> bool
    ensures { result ≡ list_any (λ t. t == stream) (take item.now.targets.count item.now.targets.list) }
{
    let count = item.targets.count as usize;
    item.targets
        .list
        .iter()
        .take(count)
        .any(|target| *target == stream)
}

fn no_buffers() -> (Four<Sent>, Four<Parked>)
    ensures { (result.0 ≡ no_four) × (result.1 ≡ no_four) }
{
    (
        Four {
            a: None,
            b: None,
            c: None,
            d: None,
        },
        Four {
            a: None,
            b: None,
            c: None,
            d: None,
        },
    )
}

/// A target before at most three others.
fn put_sent(sent: Sent, others: Four<Sent>) -> Four<Sent>
    ensures { result ≡ put_before (Some sent) others }
{
    let Four { a, b, c, d: _ } = others;
    Four {
        a: Some(sent),
        b: a,
        c: b,
        d: c,
    }
}

/// A buffer before at most three others.
fn put_parked(parked: Parked, others: Four<Parked>) -> Four<Parked>
    requires { others.d ≡ None }
    ensures { result ≡ put_before (Some parked) others }
{
    let Four { a, b, c, d } = others;
    match d {
        None => {}
        Some(_other) => unreachable!(),
    }
    Four {
        a: Some(parked),
        b: a,
        c: b,
        d: c,
    }
}
