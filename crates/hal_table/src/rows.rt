//! The rows of the live requests.
ghost use Rattle.std.specs.Prelude.{◌≡◌, ◌∷◌, [], ℕ, true, false, option_copied, IfOk, OnOk};
ghost use Rattle.std.specs.List.{list_any};
ghost use Rattle.std.specs.Map.{values_of};
ghost use Rattle.std.specs.Map.Iter.{ShowsInOrder, deref_pair};
ghost use Rattle.hal_model.specs.Words.{begins_request};
ghost use Rattle.hal_rows.specs.declared.row.Row.{Row as ARow};
ghost use Rattle.hal_rows.specs.Judged.{held_count_at, is_held_at, is_row_called_from};
ghost use Rattle.hal_rows.specs.State.{settled};
ghost use Rattle.hal_row.specs.Settled.{IsTopped};
ghost use Rattle.hal_rows.specs.Row.{is_row_in_call, is_row_live, note_rows, row_for, rows_but};

use crate::index::{Index, begin_row, clear, is_called_from, new_index, note_event};
use cam_types::NoMemory;
use hal_model::HalEvent;
use hal_row::Tops;
use hal_rows::Row;
use lru::Iter;
use std::alloc::Global;
use std::marker::Model;

/// The rows of the live requests. A contract sees them as a list, that which was begun last first.
#[derive(Drop)]
pub struct LiveRows {
    index: Index,
}

impl Model for LiveRows {
    ghost use Rattle.std.specs.Prelude.{List};
    ghost use Rattle.std.specs.Map.{values_of};
    ghost use Rattle.hal_rows.specs.declared.row.Row.{Row};
    ghost use Rattle.hal_table.specs.Index.{IsIndexed};

    ghost Value = { List Row };

    ghost view = { λ t. values_of t.index.rows.entries };

    ghost invariant = { λ t. IsIndexed t.index };
}

impl LiveRows {
    /// No request is live.
    pub fn new(alloc: Global) -> Result<LiveRows, NoMemory>
        ensures { IfOk result (λ rows. rows ≡ []) }
    {
        Ok(LiveRows {
            index: new_index(alloc)?,
        })
    }

    /// The rows, that which was begun last first, each beside its request's number.
    pub fn iter(&self) -> Iter<'_, u32, Row>
        ensures rows { values_of result ≡ self.now }
        ensures runs { ShowsInOrder (deref_pair {K = ℕ} {X = ARow}) }
    {
        self.index.rows.iter()
    }

    /// The row of a request, if it is live.
    pub fn row_for(&self, frame: u32) -> Option<&Row>
        ensures { option_copied result ≡ row_for frame self.now }
    {
        self.index.rows.peek(&frame)
    }

    /// Whether a request is in call whose number isn't below this one.
    pub fn is_called_from(&self, frame: u32) -> bool
        ensures { result ≡ list_any (is_row_called_from frame) self.now }
    {
        let _valid = self.index.rows.len();
        is_called_from(frame, &self.index.called)
    }

    /// Whether a request is in call.
    #[tactic(auto, using(crate::proofs::Counted::calling_reads))]
    pub fn is_calling(&self) -> bool
        ensures { result ≡ list_any is_row_in_call self.now }
    {
        self.is_called_from(0)
    }

    /// Whether a request holds the buffer.
    pub fn is_held(&self, buffer: u32) -> bool
        ensures { result ≡ is_held_at buffer self.now }
    {
        0 < self.index.held.of_buffer(buffer)
    }

    /// How many buffers of the stream requests hold.
    pub fn held_count(&self, stream: u32) -> u64
        ensures { result ≡ held_count_at stream self.now }
    {
        self.index.held.of_stream(stream)
    }

    /// Puts the row of a request that begins in place of the one of its number. An error only where memory runs out;
    /// there is no row then.
    pub fn begin(&mut self, alloc: Global, row: Row) -> Result<(), NoMemory>
        requires live { is_row_live row ≡ true }
        requires in_call { is_row_in_call row ≡ true }
        ensures { OnOk result (self.new ≡ row ∷ rows_but row.frame self.old) }
    {
        match begin_row(row, &mut self.index) {
            Ok(()) => Ok(()),
            Err(error) => {
                clear(alloc, &mut self.index);
                Err(error)
            }
        }
    }

    /// Notes an event that begins no request, also in the numbers of what requests brought back. An error only where
    /// memory runs out; there is no row then.
    pub fn note(
        &mut self,
        alloc: Global,
        parts: u32,
        flushing: bool,
        event: &HalEvent,
        tops: &mut Tops,
    ) -> Result<(), NoMemory>
        requires { begins_request event.now ≡ false }
        ensures rows { OnOk result (self.new ≡ note_rows parts flushing event.now self.old) }
        ensures tops { OnOk result (IsTopped (settled parts flushing event.now self.old) tops.old tops.new) }
    {
        match note_event(alloc, parts, flushing, event, &mut self.index, tops) {
            Ok(()) => Ok(()),
            Err(error) => {
                clear(alloc, &mut self.index);
                Err(error)
            }
        }
    }
}
