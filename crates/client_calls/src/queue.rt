//! The queue of captures and the list that repeats.
ghost use Rattle.std.specs.Prelude.{◌≡◌, ◌↔◌, ◌+◌, ◌<◌, ◌≤◌, [], ◌∷◌, ◌++◌, length, drop, is_some, slice_get, IfOk, IsErr, IsNone, OnErr, OnOk};
ghost use Rattle.circular_buffer.specs.Buffer.{buffer};
ghost use Rattle.client_calls.specs.Requests.{IsWithin, after_next, first_queued, named, next_item, no_requests, place_after, repeated_at};

use crate::item::{QueueFull, as_queued};
use cam_types::{
    Item, ItemList, NoMemory, QUEUE_LIMIT, Queued, REPEAT_LIMIT, RequestId, WaitingItem,
};
use circular_buffer::HeapCircularBuffer;
use std::alloc::Global;
use std::marker::Model;
use std::slice;

/// Which capture comes next: the items that wait, first in, first out, and where none waits the items of the list that
/// repeats, in a cycle. All its memory is taken by `new`.
#[derive(Drop)]
pub struct Queue {
    waiting: HeapCircularBuffer<WaitingItem>,
    /// The items of the list that repeats, where `repeating` names its request.
    cycle: HeapCircularBuffer<Item>,
    repeating: Option<RequestId>,
    /// The place in `cycle` of the item whose turn it is.
    place: u32,
}

impl Model for Queue {
    ghost use Rattle.client_calls.specs.Inside.Fields.{IsKept, held};
    ghost use Rattle.client_calls.specs.Requests.{Requests};

    ghost Value = { Requests };

    ghost view = { λ q. held q.waiting q.cycle q.repeating q.place };

    ghost invariant = { λ q. IsKept q.waiting q.cycle q.repeating q.place };
}

impl Queue {
    /// The empty queue, with the room for all that may wait and repeat.
    pub fn new(alloc: Global) -> Result<Queue, NoMemory>
        ensures { IfOk result (λ q. q ≡ no_requests) }
    {
        let waiting = HeapCircularBuffer::with_capacity(alloc, QUEUE_LIMIT as usize)?;
        let cycle = HeapCircularBuffer::with_capacity(alloc, REPEAT_LIMIT as usize)?;
        Ok(Queue {
            waiting,
            cycle,
            repeating: None,
            place: 0,
        })
    }

    /// Appends all items of a `once` or a `burst`, or none of them where more than 256 items would wait.
    pub fn push_list(&mut self, request: RequestId, items: &ItemList) -> Result<(), QueueFull>
        ensures full { IsErr result ↔ (QUEUE_LIMIT < length self.old.queued + length items.now) }
        ensures ok { OnOk result
            (self.new ≡ record self.old { queued = self.old.queued ++ named request 0 items.now }) }
        ensures err { OnErr result (self.new ≡ self.old) }
    {
        let room = QUEUE_LIMIT as usize - self.waiting.len();
        if items.len() as usize > room {
            return Err(QueueFull);
        }
        append(&mut self.waiting, request, items.as_slice());
        Ok(())
    }

    /// Appends the item of a `once`, or nothing where more than 256 items would wait.
    pub fn push_one(&mut self, request: RequestId, item: Item) -> Result<(), QueueFull>
        ensures full { IsErr result ↔ (QUEUE_LIMIT < length self.old.queued + 1) }
        ensures ok { OnOk result
            (self.new ≡ record self.old { queued = self.old.queued ++ named request 0 (item ∷ []) }) }
        ensures err { OnErr result (self.new ≡ self.old) }
    {
        if self.waiting.len() < QUEUE_LIMIT as usize {
            append(&mut self.waiting, request, slice::from_ref(&item));
            Ok(())
        } else {
            Err(QueueFull)
        }
    }

    /// Replaces the list that repeats, and begins with its first item.
    pub fn set_repeat(&mut self, request: RequestId, items: &ItemList)
        requires some { 1 ≤ length items.now }
        requires within { length items.now ≤ REPEAT_LIMIT }
        ensures { self.new ≡
            record self.old { repeating = Some (record { request = request; items = items.now }); place = 0 } }
    {
        self.cycle.clear();
        self.cycle.fill_from_slice(items.as_slice());
        self.repeating = Some(request);
        self.place = 0;
    }

    /// Takes the list that repeats away.
    pub fn clear_repeat(&mut self)
        ensures { self.new ≡ record self.old { repeating = None } }
    {
        self.repeating = None;
    }

    /// How many items wait.
    pub fn waiting(&self) -> usize
        ensures count { result ≡ length self.now.queued }
        ensures few { result ≤ QUEUE_LIMIT }
    {
        self.waiting.len()
    }

    /// Whether there is a list that repeats.
    pub fn is_repeating(&self) -> bool
        ensures { result ≡ is_some self.now.repeating }
    {
        self.repeating.is_some()
    }

    /// The first item that waits, without taking it.
    pub fn first_waiting(&self) -> Option<WaitingItem>
        ensures { result ≡ slice_get self.now.queued 0 }
    {
        self.waiting.front().copied()
    }

    /// What `next` would give.
    pub fn peek(&self) -> Option<Queued>
        ensures value { result ≡ next_item self.now }
        ensures none { IsNone result ↔ ((self.now.queued ≡ []) × (self.now.repeating ≡ None)) }
        ensures within { IsWithin self.now }
    {
        match self.waiting.front() {
            Some(first) => Some(as_queued(*first)),
            None => self.repeated(),
        }
    }

    /// Takes the first item that waits, or where none does gives the item of the list that repeats whose turn it is,
    /// and moves on to the next one.
    pub fn next(&mut self) -> Option<Queued>
        ensures value { result ≡ next_item self.old }
        ensures none { IsNone result ↔ ((self.old.queued ≡ []) × (self.old.repeating ≡ None)) }
        ensures left { self.new ≡ after_next self.old.queued self.old.repeating self.old.place }
    {
        match self.drop_next() {
            Some(first) => Some(first),
            None => self.next_repeated(),
        }
    }

    /// Takes the first item that waits. The list that repeats stays as it is.
    pub fn drop_next(&mut self) -> Option<Queued>
        ensures value { result ≡ first_queued self.old.queued }
        ensures none { IsNone result ↔ (self.old.queued ≡ []) }
        ensures left { self.new ≡ record self.old { queued = drop 1 self.old.queued } }
    {
        let first = self.waiting.pop_front()?;
        Some(as_queued(first))
    }

    /// The item of the list that repeats whose turn it is.
    fn repeated(&self) -> Option<Queued>
        ensures value { result ≡ repeated_at self.now.place self.now.repeating }
        ensures none { IsNone result ↔ (self.now.repeating ≡ None) }
    {
        let request = self.repeating?;
        let item = self.cycle.get(self.place as usize)?;
        Some(Queued {
            request,
            index: self.place,
            item: *item,
            repeating: true,
        })
    }

    fn next_repeated(&mut self) -> Option<Queued>
        ensures value { result ≡ repeated_at self.old.place self.old.repeating }
        ensures none { IsNone result ↔ (self.old.repeating ≡ None) }
        ensures left { self.new ≡ record self.old { place = place_after self.old.repeating self.old.place } }
    {
        let turn = self.repeated()?;
        self.place = (self.place + 1) % self.cycle.len() as u32;
        Some(turn)
    }
}

/// Appends all items of a request to those that wait.
fn append(waiting: &mut HeapCircularBuffer<WaitingItem>, request: RequestId, items: &[Item])
    requires room { length waiting.old.items + length items.now ≤ waiting.old.capacity }
    requires capacity { waiting.old.capacity ≡ QUEUE_LIMIT }
    ensures { waiting.new ≡ buffer (waiting.old.items ++ named request 0 items.now) waiting.old.capacity }
{
    for (index, item) in items.iter().enumerate() {
        waiting.push_back(WaitingItem {
            request,
            index: index as u32,
            item: *item,
        });
    }
}
