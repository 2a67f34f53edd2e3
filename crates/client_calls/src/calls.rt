//! The client's state, and what each entry does to it.
ghost use Rattle.std.specs.Prelude.{◌≡◌, ◌==◌, ◌+◌, ◌<◌, ◌≤◌, ◌^◌, false, length, slice_get, IsTrue};
ghost use Rattle.cam_types.specs.Profile.{is_profile};
ghost use Rattle.state_facts.specs.Turns.{Turns as SomeTurns};
ghost use Rattle.state_facts.specs.Homes.{Homes as SomeHomes};
ghost use Rattle.state_facts.specs.Clients.{no_clients, clients_after, one_if, streams_called};
ghost use Rattle.state_facts.specs.Replies.{begin_in, call_in, may_repeat_in, stopping_in};
ghost use Rattle.run_model.specs.Ready.{or_entry};
ghost use Rattle.client_calls.specs.Around.{Fits, IsAround};

mod answer;
mod refusal;

use crate::around::Around;
use crate::command::{awaited, holds_back, is_closing, is_refusal, is_stopped_by};
use crate::streams::{NO_STREAMS, after_call, stream_at};
use cam_types::{Four, REPEATING_AHEAD, Reply, Script, StreamIx, StreamSpec, Word};
use std::marker::Model;
use trace_model::Entry;

/// What the client has called: how many commands, which one has begun, what stands of the service, its streams, and two
/// counts of repeating frames.
#[derive(Drop)]
pub struct ClientCalls {
    /// How many commands were called.
    calls: u32,
    /// The word of the command that has begun and isn't answered.
    begun: Option<Word>,
    /// Whether a configuration was accepted.
    configured: bool,
    /// Whether a `close` or a `disconnect` was accepted.
    closed: bool,
    /// Whether the device failed.
    failed: bool,
    /// The streams of the configuration.
    streams: Four<StreamSpec>,
    /// How many repeating frames were sent since the last call.
    repeated: u32,
    /// With how many repeating frames the device was done since the last begin.
    done: u32,
}

impl Model for ClientCalls {
    ghost use Rattle.std.specs.Prelude.{IsTrue};
    ghost use Rattle.cam_types.specs.Four.{four_list};
    ghost use Rattle.trace_model.specs.Printable.{is_filled};
    ghost use Rattle.state_facts.specs.Clients.{Clients};

    ghost Value = { Clients };

    ghost view = { λ c.
        record {
          calls = c.calls;
          begun = c.begun;
          configured = c.configured;
          closed = c.closed;
          failed = c.failed;
          streams = four_list c.streams;
          repeated = c.repeated;
          done = c.done;
        } };

    ghost invariant = { λ c. IsTrue (is_filled c.streams) };
}

impl ClientCalls {
    /// Before the first command.
    pub fn new() -> ClientCalls
        ensures { result ≡ no_clients }
    {
        ClientCalls {
            calls: 0,
            begun: None,
            configured: false,
            closed: false,
            failed: false,
            streams: NO_STREAMS,
            repeated: 0,
            done: 0,
        }
    }

    /// How many commands were called, which is the place of the next.
    pub fn calls(&self) -> u32
        ensures { result ≡ self.now.calls }
    {
        self.calls
    }

    /// Whether the service is stopping: a `flush` or a `disconnect` has begun, or the device failed.
    pub fn is_stopping(&self) -> bool
        ensures { result ≡ stopping_in self.now }
    {
        is_stopped_by(self.begun) || self.failed
    }

    /// Whether a further item of a repeating list may be sent: nothing that has begun holds it back, and no more than
    /// 64 of them were sent since the last call, beside those that an `await` waits for.
    pub fn may_repeat(&self, script: &Script) -> bool
        ensures { result ≡ may_repeat_in script.now self.now }
    {
        let awaited = awaited(self.begun, script.commands.get(self.calls)) as u64;
        !holds_back(self.begun) && (self.repeated as u64) < REPEATING_AHEAD as u64 + awaited
    }

    /// Whether every command of the script was called.
    pub fn is_all_called(&self, script: &Script) -> bool
        ensures { result ≡ (self.now.calls == length script.now.commands) }
    {
        self.calls == script.commands.len()
    }

    /// A stream of the configuration. None where it has no stream at the place.
    pub fn stream(&self, stream: StreamIx) -> Option<StreamSpec>
        ensures { result ≡ slice_get self.now.streams stream.0 }
    {
        stream_at(self.streams, stream)
    }

    /// The `begin` or the `call` that is due. None exactly where neither is.
    pub fn due(&self, script: &Script, around: Around) -> Option<Entry>
        requires profile { IsTrue (is_profile script.now.profile) }
        requires numbered { around.next_buffer + 72 ≤ 2 ^ 32 }
        ensures { (queue : SomeTurns) (homes : SomeHomes) → IsAround around queue homes →
            result ≡ or_entry (begin_in script.now self.now) (call_in script.now around.quiet self.now queue homes) }
    {
        let command = script.commands.get(self.calls)?;
        match self.begin(command) {
            Some(begin) => Some(begin),
            None => self.call(script, around, command),
        }
    }

    /// Notes an entry: a begin, a call, a failure of the device, a send of a repeating item, or the last of a frame of
    /// one. `repeats` tells that the entry sends an item of a repeating list, `finishes` that the device is done with a
    /// frame of one by it. Other entries change nothing.
    pub fn note(&mut self, script: &Script, repeats: bool, finishes: bool, entry: &Entry)
        requires { Fits (clients_after script.now repeats finishes entry.now self.old) }
        ensures { self.new ≡ clients_after script.now repeats finishes entry.now self.old }
    {
        match entry {
            Entry::Begin { word } => self.note_begin(*word),
            Entry::Call { index, word, reply } => self.note_call(script, *index, *word, reply),
            Entry::Send { .. } => self.note_sent(repeats),
            Entry::Partial { .. } => self.note_done(finishes),
            Entry::Filled { .. } => self.note_done(finishes),
            Entry::Failed { .. } => self.note_done(finishes),
            Entry::ErrorRequest { .. } => self.note_done(finishes),
            Entry::ErrorResult { .. } => self.note_done(finishes),
            Entry::Late { .. } => self.note_done(finishes),
            Entry::ErrorDevice => self.failed = true,
            Entry::Dropped { .. } => {}
            Entry::Shutter { .. } => {}
            Entry::ErrorBuffer { .. } => {}
            Entry::Release { .. } => {}
            Entry::Signal { .. } => {}
            Entry::Early { .. } => {}
        }
    }

    fn note_begin(&mut self, word: Word)
        ensures { self.new ≡ record self.old { begun = Some word; done = 0 } }
    {
        self.begun = Some(word);
        self.done = 0;
    }

    fn note_call(&mut self, script: &Script, index: u32, word: Word, reply: &Reply)
        requires counted { index + 1 < 2 ^ 32 }
        requires few { length (streams_called script.now index reply.now self.old.streams) ≤ 4 }
        ensures { self.new ≡ clients_after script.now false false (Entry.Call index word reply.now) self.old }
    {
        self.calls = index + 1;
        self.begun = None;
        self.configured = matches!(reply, Reply::Configured(_)) || self.configured;
        self.closed = (!is_refusal(reply) && is_closing(word)) || self.closed;
        self.streams = after_call(script, index, reply, self.streams);
        self.repeated = 0;
    }

    fn note_sent(&mut self, repeats: bool)
        requires { one_if repeats + self.old.repeated < 2 ^ 32 }
        ensures { self.new ≡ record self.old { repeated = one_if repeats + self.old.repeated } }
    {
        if repeats {
            self.repeated += 1;
        }
    }

    fn note_done(&mut self, finishes: bool)
        requires { one_if finishes + self.old.done < 2 ^ 32 }
        ensures { self.new ≡ record self.old { done = one_if finishes + self.old.done } }
    {
        if finishes {
            self.done += 1;
        }
    }
}
