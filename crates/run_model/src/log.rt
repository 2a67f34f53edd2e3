//! A list of moves with room of its own.
ghost use Rattle.std.specs.Prelude.{◌≡◌, ◌<◌, false, true, length, reverse, IfOk, Option};
ghost use Rattle.run_model.specs.History.{is_silent, trace_of};
ghost use Rattle.run_model.specs.Moves.{no_moves, with_move};

use crate::StepName;
use cam_types::NoMemory;
use std::alloc::Global;
use std::marker::Model;
use trace_model::Entry;

/// The moves so far, within a limit. A contract sees them with the newest first.
#[derive(Drop)]
pub struct RoomLog {
    steps: Vec<StepName>,
    entries: Vec<Entry>,
    limit: usize,
}

impl Model for RoomLog {
    ghost use Rattle.std.specs.Prelude.{reverse, vec_capacity};
    ghost use Rattle.run_model.specs.History.{join};
    ghost use Rattle.run_model.specs.Inside.Fields.{IsKept};
    ghost use Rattle.run_model.specs.Moves.{Moves};

    ghost Value = { Moves };

    ghost view = { λ l. record { moves = join (reverse l.steps.items) (reverse l.entries.items); limit = l.limit } };

    ghost invariant = { λ l. IsKept l.steps.items l.entries.items l.limit (vec_capacity l.steps)
        (vec_capacity l.entries) };
}

impl RoomLog {
    /// No moves, and the memory for so many.
    pub fn with_room(alloc: Global, limit: usize) -> Result<RoomLog, NoMemory>
        ensures { IfOk result (λ log. log ≡ no_moves limit) }
    {
        let steps = Vec::with_capacity(alloc, limit)?;
        let entries = Vec::with_capacity(alloc, limit)?;
        Ok(RoomLog {
            steps,
            entries,
            limit,
        })
    }

    /// Adds the move of a step that adds an entry. It needs no memory.
    #[tactic(auto, using(crate::proofs::Lengths::joined))]
    pub fn push(&mut self, step: StepName, entry: Entry)
        requires adds { is_silent step ≡ false }
        requires room { length self.old.moves < self.old.limit }
        ensures { self.new ≡ with_move (record { step = step; entry = Option.Some entry }) self.old }
    {
        self.entries.push_reserved(entry);
        self.steps.push_reserved(step);
    }

    /// Adds the move of a step that adds no entry. It needs no memory.
    #[tactic(auto, using(crate::proofs::Lengths::joined))]
    pub fn push_silent(&mut self, step: StepName)
        requires silent { is_silent step ≡ true }
        requires room { length self.old.moves < self.old.limit }
        ensures { self.new ≡ with_move (record { step = step; entry = Option.None }) self.old }
    {
        self.steps.push_reserved(step);
    }

    /// How many moves were made.
    #[tactic(auto, using(crate::proofs::Lengths::joined))]
    pub fn len(&self) -> usize
        ensures { result ≡ length self.now.moves }
    {
        self.steps.len()
    }

    /// The trace, the oldest entry first.
    pub fn trace(&self) -> &[Entry]
        ensures { result.now ≡ reverse (trace_of self.now.moves) }
    {
        self.entries.as_slice()
    }
}
