//! The tables.
ghost use Rattle.std.specs.Prelude.{◌≡◌, IfOk, OnOk};
ghost use Rattle.state_facts.specs.States.{state_after};
ghost use Rattle.judge_rows.specs.Judged.{CanNote, nothing_judged};

use crate::captures::note_captures;
use crate::clock::{last_after, time_after};
use crate::next::{repeats_next, settings_next};
use crate::{HomeTable, RowTable};
use cam_types::{FIRST_SHUTTER, NoMemory, Script, Settings};
use client_calls::{CaptureQueue, ClientCalls};
use std::alloc::Global;
use std::marker::Model;
use trace_model::Entry;

/// The state of a trace, with the room for requests that it was made with.
#[derive(Drop)]
pub struct JudgeTables {
    captures: CaptureQueue,
    client: ClientCalls,
    homes: HomeTable,
    rows: RowTable,
    last: Option<Settings>,
    clock: u64,
}

impl Model for JudgeTables {
    ghost use Rattle.std.specs.Prelude.{◌≡◌, length};
    ghost use Rattle.judge_rows.specs.Judged.{Judged};

    ghost Value = { Judged };

    ghost view = { λ t.
        record {
          state = record {
            queue = t.captures.turns;
            buffers = t.homes;
            client = t.client;
            rows = t.rows;
            last = t.last;
            clock = t.clock;
          };
          room = t.captures.room;
        } };

    // of each request it is known whether it repeats
    ghost invariant = { λ t. length t.captures.kinds ≡ t.captures.turns.requests };
}

impl JudgeTables {
    /// The state before the first entry, with room for so many requests.
    pub fn new(alloc: Global, requests: u32) -> Result<JudgeTables, NoMemory>
        ensures { IfOk result (λ t. t ≡ nothing_judged requests) }
    {
        Ok(JudgeTables {
            captures: CaptureQueue::new(alloc, requests)?,
            client: ClientCalls::new(),
            homes: HomeTable::new(alloc),
            rows: RowTable::new(alloc),
            last: None,
            clock: FIRST_SHUTTER,
        })
    }

    /// Notes an entry that is due: the tables hold the state that it makes of theirs. The answer is an error only where
    /// memory runs out.
    pub fn note(&mut self, script: &Script, entry: &Entry) -> Result<(), NoMemory>
        requires { CanNote script.now entry.now self.old }
        ensures { OnOk result (self.new ≡ record self.old { state = state_after script.now entry.now self.old.state }) }
    {
        let next = self.captures.peek();
        let settings = settings_next(next);
        let repeats = repeats_next(next);
        let finishes = self.rows.finishes(entry);
        self.clock = time_after(entry, &self.rows, self.clock);
        self.last = last_after(entry, settings, self.last);
        self.client.note(script, repeats, finishes, entry);
        note_captures(&mut self.captures, script, entry);
        self.homes.note(entry)?;
        self.rows.note(settings, repeats, entry)
    }

    /// What is to be captured next.
    pub fn captures(&self) -> &CaptureQueue
        ensures turns { result.now.turns ≡ self.now.state.queue }
    {
        &self.captures
    }

    /// What the client has called.
    pub fn client(&self) -> &ClientCalls
        ensures { result.now ≡ self.now.state.client }
    {
        &self.client
    }

    /// Where the buffers are.
    pub fn homes(&self) -> &HomeTable
        ensures { result.now ≡ self.now.state.buffers }
    {
        &self.homes
    }

    /// The open frames.
    pub fn rows(&self) -> &RowTable
        ensures { result.now ≡ self.now.state.rows }
    {
        &self.rows
    }

    /// The settings that were sent last. None after a configuration.
    pub fn last(&self) -> Option<Settings>
        ensures { result ≡ self.now.state.last }
    {
        self.last
    }

    /// The time of the next shutter, in nanoseconds.
    pub fn clock(&self) -> u64
        ensures { result ≡ self.now.state.clock }
    {
        self.clock
    }
}
