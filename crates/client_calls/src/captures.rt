//! The queue of captures, with the numbers of frames and requests.
ghost use Rattle.std.specs.Prelude.{◌≡◌, ℕ, ◌+◌, ◌<◌, ◌^◌, Bool, false, Option, length, is_some, slice_index_or, IfOk, IsSome};
ghost use Rattle.cam_types.specs.declared.four.Four.{Four as SomeFour};
ghost use Rattle.cam_types.specs.declared.number.FrameNo.{FrameNo as SomeFrame};
ghost use Rattle.cam_types.specs.declared.number.RequestId.{RequestId as SomeRequest};
ghost use Rattle.cam_types.specs.declared.script.Script.{Script as SomeScript};
ghost use Rattle.trace_model.specs.declared.entry.Entry.TheVariants.{Call, Dropped, Send};
ghost use Rattle.trace_model.specs.declared.entry.Sent.{Sent as SomeSent};
ghost use Rattle.trace_model.specs.Calls.{command_at, word_of};
ghost use Rattle.trace_model.specs.Queue.{first_in};
ghost use Rattle.state_facts.specs.Turns.{next_of, turns_after};
ghost use Rattle.client_calls.specs.Captures.{CanTake, kinds_called, no_captures, with_turns};
ghost use Rattle.client_calls.specs.Room.{IsSubmitted};

use crate::Queue;
use crate::call::{clear, is_repeat, submit};
use cam_types::{Command, FrameNo, NoMemory, Queued, Reply, RequestId, WaitingItem};
use std::alloc::Global;
use std::marker::Model;

/// What is to be captured next, with the numbers of the next frame and of the next request. All its memory is taken by
/// `new`.
#[derive(Drop)]
pub struct CaptureQueue {
    queue: Queue,
    /// The number of the next frame.
    frames: u32,
    /// Of each accepted request whether its items repeat.
    kinds: Vec<bool>,
    /// For how many requests there is room in `kinds`.
    room: usize,
}

impl Model for CaptureQueue {
    ghost use Rattle.std.specs.Prelude.{length, vec_capacity};
    ghost use Rattle.client_calls.specs.Views.{turns_of};
    ghost use Rattle.client_calls.specs.Captures.{Captures};
    ghost use Rattle.client_calls.specs.Room.{IsKept};

    ghost Value = { Captures };

    ghost view = { λ q.
        record {
          turns = turns_of q.queue q.frames (length q.kinds.items);
          kinds = q.kinds.items;
          room = q.room;
        } };

    ghost invariant = { λ q. IsKept (length q.kinds.items) q.room (vec_capacity q.kinds) };
}

impl CaptureQueue {
    /// The empty queue, with room for so many requests.
    pub fn new(alloc: Global, requests: u32) -> Result<CaptureQueue, NoMemory>
        ensures { IfOk result (λ q. q ≡ no_captures requests) }
    {
        let queue = Queue::new(alloc)?;
        let kinds = Vec::with_capacity(alloc, requests as usize)?;
        Ok(CaptureQueue {
            queue,
            frames: 0,
            kinds,
            room: requests as usize,
        })
    }

    /// The item whose turn is next. None exactly where nothing waits and no list repeats.
    pub fn peek(&self) -> Option<Queued>
        ensures { result ≡ next_of self.now.turns }
    {
        self.queue.peek()
    }

    /// The number of the next frame.
    pub fn next_frame(&self) -> FrameNo
        ensures { result.0 ≡ self.now.turns.numbers }
    {
        FrameNo(self.frames)
    }

    /// How many requests were accepted, which is the number of the next.
    pub fn requests(&self) -> u32
        ensures { result ≡ self.now.turns.requests }
    {
        self.kinds.len() as u32
    }

    /// How many items wait.
    pub fn waiting(&self) -> u32
        ensures { result ≡ length self.now.turns.waiting }
    {
        self.queue.waiting() as u32
    }

    /// Whether there is a list that repeats.
    pub fn is_repeating(&self) -> bool
        ensures { result ≡ is_some self.now.turns.turn }
    {
        self.queue.is_repeating()
    }

    /// Whether the items of a request repeat. False of one that wasn't accepted.
    pub fn repeats(&self, request: RequestId) -> bool
        ensures { result ≡ slice_index_or self.now.kinds request.0 false }
    {
        let place = request.0 as usize;
        if place < self.kinds.len() {
            self.kinds[place]
        } else {
            false
        }
    }

    /// The first item that waits, without taking it. None exactly where nothing waits.
    pub fn first_waiting(&self) -> Option<WaitingItem>
        ensures { result ≡ first_in self.now.turns.waiting }
    {
        self.queue.first_waiting()
    }

    /// Takes the next item as a frame with the next number.
    pub fn send(&mut self)
        requires some { IsSome (next_of self.old.turns) }
        requires numbered { self.old.turns.numbers + 1 < 2 ^ 32 }
        ensures { (script : SomeScript) (r : SomeRequest) (i : ℕ) (same : Bool) (targets : SomeFour SomeSent)
            (n : SomeFrame) → n.0 ≡ self.old.turns.numbers →
            self.new ≡ with_turns (turns_after script (Send n r i same targets) self.old.turns) self.old }
    {
        let _sent = self.queue.next();
        self.frames += 1;
    }

    /// Drops the first item that waits, under the next number.
    pub fn drop_first(&mut self)
        requires some { IsSome (first_in self.old.turns.waiting) }
        requires numbered { self.old.turns.numbers + 1 < 2 ^ 32 }
        ensures { (script : SomeScript) (r : SomeRequest) (i : ℕ) (n : SomeFrame) → n.0 ≡ self.old.turns.numbers →
            self.new ≡ with_turns (turns_after script (Dropped n r i) self.old.turns) self.old }
    {
        let _dropped = self.queue.drop_next();
        self.frames += 1;
    }

    /// Does what an answered call asks of the queue: an accepted `once` or `burst` waits, an accepted `repeat` is the
    /// list that repeats, each under the next number; an accepted `stop`, `flush`, `configure`, `close` or `disconnect`
    /// takes that list away. A refused call changes nothing.
    pub fn call(&mut self, command: &Command, reply: &Reply)
        requires place { CanTake self.old.turns command.now reply.now }
        requires room { IsSubmitted reply.now → length self.old.kinds < self.old.room }
        ensures turns { (script : SomeScript) (i : ℕ) → command_at script i ≡ Option.Some command.now →
            self.new.turns ≡ turns_after script (Call i (word_of command.now) reply.now) self.old.turns }
        ensures kinds { self.new.kinds ≡ kinds_called command.now reply.now self.old.kinds }
        ensures room { self.new.room ≡ self.old.room }
    {
        match reply {
            Reply::Submitted(request) => {
                submit(&mut self.queue, *request, command);
                self.kinds.push_reserved(is_repeat(command));
            }
            Reply::Ok => clear(&mut self.queue, command),
            Reply::Configured(_) => clear(&mut self.queue, command),
            Reply::Refused { .. } => {}
        }
    }
}
